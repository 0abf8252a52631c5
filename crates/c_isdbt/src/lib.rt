// Calls for C on the punctured code of ISDB-T. Rates are numbered 0 to 4: 1/2, 2/3, 3/4, 5/6, 7/8.
#![tactic(auto)]

ghost use Rattle.std.specs.Prelude.{◌≡◌, [], ◌+◌, ◌*◌, ◌/◌, length, replicate};
ghost use Rattle.trellis.specs.Lists.{laid};
ghost use Rattle.trellis.specs.Code.{state_at};
ghost use Rattle.trellis.specs.Run.{block, depth};
ghost use Rattle.isdb_fec.specs.Rows.{encoder_rows, fresh_rows};
ghost use Rattle.isdbt_table.specs.Table.{period, sent};
ghost use Rattle.isdbt_table.specs.Puncture.{punctured, depunctured};
ghost use Rattle.trellis.specs.Encoded.{low_bits};
ghost use Rattle.isdbt_rows.specs.Rows.{encode_rows, depuncture_rows, decode_rows};
ghost use Rattle.isdbt_fec.specs.Calls.{decoded_bits};
ghost use Rattle.c_answers.specs.Answers.{answered, left};
ghost use Rattle.c_answers.specs.Lengths.{until_length};
ghost use Rattle.c_isdbt.specs.Rates.{rate_by, rate_rows, by_rate};
ghost use Rattle.trellis.specs.Isdb;

use isdb_fec::conv::{ConvEncoder, TRACEBACK_LIMIT};
use isdbt_fec::conv::CodeRate;

// The rate of a number.
fn rate_of(rate: u8) -> Option<CodeRate>
    ensures { result ≡ rate_by rate }
{
    match rate {
        0 => Some(CodeRate::R1_2),
        1 => Some(CodeRate::R2_3),
        2 => Some(CodeRate::R3_4),
        3 => Some(CodeRate::R5_6),
        4 => Some(CodeRate::R7_8),
        _ => None,
    }
}

// The answer where the rate is unknown: row 4 stands above 5.
fn unknown_with_state(state: u8) -> u32
    ensures { result ≡ answered (until_length (encoder_rows state)) }
{
    if state > 63 {
        return 4;
    }
    5
}

// And row 3.
fn unknown_with_traceback(traceback: u64) -> u32
    ensures { result ≡ answered (until_length (fresh_rows traceback)) }
{
    if traceback > TRACEBACK_LIMIT as u64 {
        return 3;
    }
    5
}

// Encodes whole periods of bits and punctures them.
#[unsafe(no_mangle)]
pub extern "C" fn isdbt_encode_punctured(
    rate: u8,
    state: &mut u8,
    bits: &[u8],
    out: &mut [u8],
    count: &mut u64,
) -> u32
    ensures answers { result ≡ answered (rate_rows (encoder_rows state.old) (rate_by rate) (λ c. encode_rows c state.old (length bits.now) (length out.old))) }
    ensures state { state.new ≡ left result (state_at Isdb.half state.old (low_bits bits.now) (length bits.now)) state.old }
    ensures leaves { out.new ≡ left result (laid (by_rate (rate_by rate) [] (λ c. punctured c state.old bits.now)) out.old) out.old }
    ensures counts { count.new ≡ left result (by_rate (rate_by rate) 0 (λ c. length bits.now / period c * sent c)) count.old }
{
    let m = rate_of(rate);
    let Some(c) = m else {
        return unknown_with_state(*state);
    };
    let enc = ConvEncoder { state: *state };
    match isdbt_fec::conv::encode_punctured(enc, c, bits, out) {
        Ok(encoded) => {
            let end = encoded.enc;
            *state = end.state;
            *count = encoded.count as u64;
            0
        }
        Err(row) => refusal::number(Err(row)),
    }
}

// Puts soft values in whole periods back to their places among the mother code's, 0 at those that were not sent.
#[unsafe(no_mangle)]
pub extern "C" fn isdbt_depuncture(rate: u8, llrs: &[f32], out: &mut [f32], count: &mut u64) -> u32
    ensures answers { result ≡ answered (rate_rows [] (rate_by rate) (λ c. depuncture_rows c (length llrs.now) (length out.old))) }
    ensures leaves { out.new ≡ left result (laid (by_rate (rate_by rate) [] (λ c. depunctured c llrs.now)) out.old) out.old }
    ensures counts { count.new ≡ left result (by_rate (rate_by rate) 0 (λ c. length llrs.now / sent c * (2 * period c))) count.old }
{
    let m = rate_of(rate);
    let Some(c) = m else {
        return 5;
    };
    match isdbt_fec::conv::depuncture(c, llrs, out) {
        Ok(n) => {
            *count = n as u64;
            0
        }
        Err(row) => refusal::number(Err(row)),
    }
}

// Decodes a punctured block whole, from state 0.
#[unsafe(no_mangle)]
pub extern "C" fn isdbt_decode_punctured(
    rate: u8,
    llrs: &[f32],
    traceback: u64,
    decisions: &mut [u64],
    out: &mut [u8],
    count: &mut u64,
) -> u32
    ensures answers { result ≡ answered (rate_rows (fresh_rows traceback) (rate_by rate) (λ c. decode_rows c llrs.now traceback (length decisions.old) (length out.old))) }
    ensures words { decisions.new ≡ left result (laid (replicate (block + depth traceback) 0) decisions.old) decisions.old }
    ensures leaves { out.new ≡ left result (laid (by_rate (rate_by rate) [] (λ c. decoded_bits c llrs.now (depth traceback))) out.old) out.old }
    ensures counts { count.new ≡ left result (by_rate (rate_by rate) 0 (λ c. length llrs.now / sent c * period c)) count.old }
{
    let m = rate_of(rate);
    let Some(c) = m else {
        return unknown_with_traceback(traceback);
    };
    match isdbt_fec::conv::decode_punctured(c, llrs, traceback as usize, decisions, out) {
        Ok(n) => {
            *count = n as u64;
            0
        }
        Err(row) => refusal::number(Err(row)),
    }
}
