// The punctured convolutional code of ISDB-T (ARIB STD-B31, section 3.8, Table 3-8): puncturing, and its inverse on soft values.
// The mother code and its Viterbi decoder are those of isdb_fec::conv.
ghost use Rattle.std.specs.Prelude.{◌≡◌, ℕ, ◌+◌, ◌-◌, ◌*◌, ◌<◌, ◌≤◌, ◌/◌, ◌%◌, length, get_or, replicate, MatchResult};
ghost use Rattle.refusal.specs.Rows.{first_row, answer_of};
ghost use Rattle.trellis.specs.Lists.{upto, laid};
ghost use Rattle.trellis.specs.Code.{state_at};
ghost use Rattle.isdbt_table.specs.Table.{period, sent};
ghost use Rattle.isdbt_table.specs.Puncture.{mother, punctured, depunctured};
ghost use Rattle.trellis.specs.Encoded.{low_bits};
ghost use Rattle.isdbt_rows.specs.Rows.{encode_rows, depuncture_rows, decode_rows};
ghost use Rattle.isdbt_fec.specs.Calls.{Encodes, Depunctures, decoded_bits, Decodes, Undecoded};
ghost use Rattle.trellis.specs.Run.{traceback_limit, block};
ghost use Rattle.trellis.specs.Isdb;

use isdb_fec::conv::ConvEncoder;
use isdbt_rows::{answer_decode, answer_depuncture, answer_encode};
use isdbt_steps::{end_call, places_of, soft_at, soft_block};
pub use isdbt_table::{CodeRate, PunctureSpec, Puncturing, TABLE_3_8, puncture_spec};
use refusal::Refusal;
use viterbi_core::{At, depth_of, run_steps, start_at};
use viterbi_encode::encode_bit;
use viterbi_steps::Kind;

// The mother code's bits of a period, X1, Y1, X2, Y2, .., and the state after it. Places from the period's end on hold 0.
#[derive(Clone, Copy)]
struct Period {
    state: u8,
    mother: [u8; 14],
}

// Encodes the bits of a period.
fn encode_period(state: u8, bits: &[u8]) -> Period
    requires { (state < Isdb.states) × (length bits.now ≤ 7) }
    ensures { (result.state ≡ state_at Isdb.half state (low_bits bits.now) (length bits.now))
        × ((k : ℕ) → k < 2 * length bits.now → get_or result.mother k 0 ≡ mother state (low_bits bits.now) k) }
{
    let mut s = state;
    let mut m = [0u8; 14];
    for i in 0..bits.len() {
        let c = encode_bit(s, bits[i]);
        m[2 * i] = c.x;
        m[2 * i + 1] = c.y;
        s = c.state;
    }
    Period {
        state: s,
        mother: m,
    }
}

// Sends the first n bits of the order at the front of `out`.
fn send(m: &[u8; 14], order: &[usize; 8], n: usize, out: &mut [u8])
    requires { (n ≤ 8) × (n ≤ length out.old) × ((j : ℕ) → j < n → get_or order.now j 0 < 14) }
    ensures { out.new ≡ laid (upto (λ j. get_or m.now (get_or order.now j 0) 0) n) out.old }
{
    for j in 0..n {
        let k = order[j];
        out[j] = m[k];
    }
}

// Encodes whole periods from the state; the state after them.
fn encode_periods(rate: CodeRate, state: u8, bits: &[u8], out: &mut [u8]) -> u8
    requires { (state < Isdb.states) × (length bits.now % period rate ≡ 0) × (length bits.now / period rate * sent rate ≤ length out.old) }
    ensures { (result ≡ state_at Isdb.half state (low_bits bits.now) (length bits.now))
        × (out.new ≡ laid (punctured rate state bits.now) out.old) }
{
    let p = Puncturing::new(rate);
    let period = p.period;
    let n = p.n;
    let order = p.order;
    let mut s = state;
    for b in 0..bits.len() / period {
        let from = b * period;
        let to = from + period;
        let at = b * n;
        let q = encode_period(s, &bits[from..to]);
        let m = q.mother;
        send(&m, &order, n, &mut out[at..]);
        s = q.state;
    }
    s
}

// The encoder after a call, and how many bits it has written at the front of the lent slice.
#[derive(Clone, Copy)]
pub struct Encoded {
    pub enc: ConvEncoder,
    pub count: usize,
}

// Encodes whole periods and punctures them: the transmitted bits go to the front of `out`. The pattern starts at its first position with
// the call, the encoder goes on from its state: call once per frame.
pub fn encode_punctured(
    enc: ConvEncoder,
    rate: CodeRate,
    bits: &[u8],
    out: &mut [u8],
) -> Result<Encoded, Refusal>
    ensures answers { answer_of result ≡ first_row (encode_rows rate enc.state (length bits.now) (length out.old)) }
    ensures leaves { MatchResult result
        (λ r. Encodes rate enc.state bits.now r out.old out.new)
        (λ _. out.new ≡ out.old) }
{
    let state = enc.state;
    answer_encode(rate, state, bits.len(), out.len())?;
    let p = Puncturing::new(rate);
    let last = encode_periods(rate, state, bits, out);
    Ok(Encoded {
        enc: ConvEncoder { state: last },
        count: bits.len() / p.period * p.n,
    })
}

// Depunctures whole periods.
fn depuncture_periods(rate: CodeRate, llrs: &[f32], out: &mut [f32]) -> usize
    requires { length llrs.now / sent rate * (2 * period rate) ≤ length out.old }
    ensures { (result ≡ length llrs.now / sent rate * (2 * period rate))
        × (out.new ≡ laid (depunctured rate llrs.now) out.old) }
{
    let p = Puncturing::new(rate);
    let period = p.period;
    let n = p.n;
    let order = p.order;
    let count = llrs.len() / n * (2 * period);
    for k in 0..count {
        out[k] = soft_at(&order, n, period, llrs, k);
    }
    count
}

// The inverse of puncturing on soft values: expands values in transmission order to pairs (X, Y, X, Y, ..) of the mother code, with 0.0 at
// punctured positions. The pattern restarts with the call. How many values that is.
pub fn depuncture(rate: CodeRate, llrs: &[f32], out: &mut [f32]) -> Result<usize, Refusal>
    ensures answers { answer_of result ≡ first_row (depuncture_rows rate (length llrs.now) (length out.old)) }
    ensures leaves { MatchResult result
        (λ count. Depunctures rate llrs.now count out.old out.new)
        (λ _. out.new ≡ out.old) }
{
    answer_depuncture(rate, llrs.len(), out.len())?;
    Ok(depuncture_periods(rate, llrs, out))
}

// How many of the steps left are taken at once.
fn block_of(left: usize) -> usize
    ensures { (result ≤ left) × (result ≤ 64) × (0 < left → 0 < result) }
{
    if left < 64 { left } else { 64 }
}

// Decodes whole periods from state 0: a push of all pairs, and a flush. How many bits that is.
fn decode_periods(
    rate: CodeRate,
    llrs: &[f32],
    traceback: usize,
    decisions: &mut [u64],
    out: &mut [u8],
) -> usize
    requires { (1 ≤ traceback) × (traceback ≤ traceback_limit) × (block + traceback ≤ length decisions.old) × (length llrs.now / sent rate * period rate ≤ length out.old) }
    ensures { (result ≡ length llrs.now / sent rate * period rate)
        × (decisions.new ≡ laid (replicate (block + traceback) 0) decisions.old)
        × (out.new ≡ laid (decoded_bits rate llrs.now traceback) out.old) }
{
    let p = Puncturing::new(rate);
    let period = p.period;
    let n = p.n;
    let order = p.order;
    let places = places_of(&order, n);
    let mut pm = start_at(0);
    let mut at = At { held: 0, count: 0 };
    let count = llrs.len() / n * period;
    let mut pairs = [0.0f32; 128];
    let mut i: usize = 0;
    while i < count {
        let len = block_of(count - i);
        soft_block(&places, n, period, llrs, i, len, &mut pairs);
        at = run_steps(
            &mut pm,
            at,
            traceback,
            i,
            len,
            Kind::Pairs,
            &pairs,
            &[0u8; 0],
            decisions,
            out,
        );
        i = i + len;
    }
    end_call(&mut pm, at, traceback, decisions, out)
}

// Decodes a complete punctured block from state 0: depuncturing, the Viterbi decoder, its flush. The bits go to the front of `out`. How many.
pub fn decode_punctured(
    rate: CodeRate,
    llrs: &[f32],
    traceback: usize,
    decisions: &mut [u64],
    out: &mut [u8],
) -> Result<usize, Refusal>
    ensures answers { answer_of result ≡ first_row (decode_rows rate llrs.now traceback (length decisions.old) (length out.old)) }
    ensures leaves { MatchResult result
        (λ count. Decodes rate llrs.now traceback count decisions.old decisions.new out.old out.new)
        (λ _. Undecoded decisions.old decisions.new out.old out.new) }
{
    answer_decode(rate, llrs, traceback, decisions.len(), out.len())?;
    let depth = depth_of(traceback);
    Ok(decode_periods(rate, llrs, depth, decisions, out))
}
