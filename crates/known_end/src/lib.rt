// A stretch with a known end: a fresh decoder at the true start, one call of soft pairs, a flush from the true end. At most four wrong coded bits do no harm.
#![tactic(auto)]

ghost use Rattle.std.specs.Prelude.{◌≡◌, ◌-◌, ◌≤◌, length, IfOk};
ghost use Rattle.refusal.specs.Rows.{first_row, answer_of};
ghost use Rattle.isdb_fec.specs.Rows.{flush_rows};
ghost use Rattle.known_end.specs.Behind.{Behind};
ghost use Rattle.known_end.specs.Calls.{between_rows, fresh, Left, Corrects};
ghost use Rattle.range_calls.specs.Turned.{row_of};

use isdb_fec::conv::{Released, STREAM_LIMIT, TRACEBACK_LIMIT, ViterbiDecoder};
use range_calls::{TurnedBack, turned, zeros};
use refusal::Refusal;
use trellis::BLOCK;
use viterbi_core::depth_of;
use viterbi_rows::some_beyond;

// The rows of a reading.
fn answer_between(
    traceback: usize,
    pairs: &[f32],
    decisions: usize,
    out: usize,
) -> Result<(), Refusal>
    ensures { result ≡ first_row (between_rows traceback pairs.now decisions out) }
{
    if traceback > TRACEBACK_LIMIT {
        return Err(Refusal::Traceback);
    }
    if pairs.len() % 2 != 0 {
        return Err(Refusal::Length);
    }
    if some_beyond(pairs, STREAM_LIMIT) {
        return Err(Refusal::Sample);
    }
    if out < pairs.len() / 2 {
        return Err(Refusal::Space);
    }
    if decisions < BLOCK + depth_of(traceback) {
        return Err(Refusal::Space);
    }
    Ok(())
}

// `flush_at` of what a call left, behind the bits that it put out.
fn flush_behind(
    pushed: Released,
    end: u8,
    decisions: &mut [u64],
    out: &mut [u8],
) -> Result<Released, Refusal>
    requires { pushed.count ≤ length out.old }
    ensures answers { answer_of result ≡ first_row (flush_rows pushed.dec (length decisions.old) (length out.old - pushed.count)) }
    ensures leaves { IfOk result (λ r. Behind end pushed r decisions.old decisions.new out.old out.new) }
{
    let count = pushed.count;
    let dec = pushed.dec;
    let rest = dec.flush_at(end, decisions, &mut out[count..])?;
    let last = rest.dec;
    Ok(Released {
        dec: last,
        count: count + rest.count,
    })
}

// The decoder that a reading makes first: fresh, or zeros where the traceback is refused.
fn begun(traceback: usize, start: u8) -> ViterbiDecoder
    ensures { result ≡ fresh traceback start }
{
    ViterbiDecoder::with_state(traceback, start).unwrap_or(zeros())
}

// The inputs of the soft pairs, from the state `start` to the state `end`, both mod 64: `with_state`, `push`, and `flush_at` behind the bits that came out.
pub fn read_between(
    traceback: usize,
    start: u8,
    end: u8,
    pairs: &[f32],
    decisions: &mut [u64],
    out: &mut [u8],
) -> Result<Released, TurnedBack>
    ensures answers { row_of result ≡ first_row (between_rows traceback pairs.now (length decisions.old) (length out.old)) }
    ensures leaves { Left traceback start end pairs.now result decisions.old decisions.new out.old out.new }
    ensures corrects { Corrects traceback start end pairs.now result (length decisions.old) (length out.old) out.new }
{
    let dec = begun(traceback, start);
    let answer = answer_between(traceback, pairs, decisions.len(), out.len());
    turned(dec, answer)?;
    let pushed = turned(dec, dec.push(pairs, decisions, out))?;
    turned(dec, flush_behind(pushed, end, decisions, out))
}
