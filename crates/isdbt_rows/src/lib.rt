// The answers to the calls of ISDB-T by their rows. The calls are in isdbt_fec.
#![tactic(auto)]

ghost use Rattle.std.specs.Prelude.{◌≡◌, ◌*◌, ◌<◌, ltb};
ghost use Rattle.refusal.specs.Rows.{first_row};
ghost use Rattle.isdbt_rows.specs.Rows.{encode_rows, depuncture_rows, decode_rows};

use isdb_fec::conv::{STREAM_LIMIT, TRACEBACK_LIMIT};
use isdbt_table::{CodeRate, Puncturing};
use refusal::Refusal;
use trellis::BLOCK;
use viterbi_core::depth_of;
use viterbi_rows::some_beyond;

// Whether `space` places are too few for `blocks` blocks of `per` elements. The product may be past any number of the machine.
fn few(space: usize, per: usize, blocks: usize) -> bool
    requires { 0 < per }
    ensures { result ≡ ltb space (blocks * per) }
{
    space / per < blocks
}

// The answer to an encoding of `count` bytes into `space` places.
pub fn answer_encode(rate: CodeRate, state: u8, count: usize, space: usize) -> Result<(), Refusal>
    ensures { result ≡ first_row (encode_rows rate state count space) }
{
    let p = Puncturing::new(rate);
    if state > 63 {
        return Err(Refusal::State);
    }
    if count % p.period != 0 {
        return Err(Refusal::Length);
    }
    if few(space, p.n, count / p.period) {
        return Err(Refusal::Space);
    }
    Ok(())
}

// The answer to a depuncturing of `count` values into `space` places.
pub fn answer_depuncture(rate: CodeRate, count: usize, space: usize) -> Result<(), Refusal>
    ensures { result ≡ first_row (depuncture_rows rate count space) }
{
    let p = Puncturing::new(rate);
    if count % p.n != 0 {
        return Err(Refusal::Length);
    }
    if few(space, 2 * p.period, count / p.n) {
        return Err(Refusal::Space);
    }
    Ok(())
}

// The answer to a decoding with `decisions` words into `space` places.
pub fn answer_decode(
    rate: CodeRate,
    llrs: &[f32],
    traceback: usize,
    decisions: usize,
    space: usize,
) -> Result<(), Refusal>
    ensures { result ≡ first_row (decode_rows rate llrs.now traceback decisions space) }
{
    let p = Puncturing::new(rate);
    if traceback > TRACEBACK_LIMIT {
        return Err(Refusal::Traceback);
    }
    if llrs.len() % p.n != 0 {
        return Err(Refusal::Length);
    }
    if some_beyond(llrs, STREAM_LIMIT) {
        return Err(Refusal::Sample);
    }
    if few(space, p.period, llrs.len() / p.n) {
        return Err(Refusal::Space);
    }
    if decisions < BLOCK + depth_of(traceback) {
        return Err(Refusal::Space);
    }
    Ok(())
}
