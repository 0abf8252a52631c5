// A fresh decoder, one call of metrics, a flush: what comes out are the inputs of the first path of greatest sum.
#![tactic(auto)]

ghost use Rattle.std.specs.Prelude.{◌≡◌, cond, ◌++◌, ℕ, ◌-◌, ◌≤◌, length, take, drop};
ghost use Rattle.refusal.specs.Rows.{first_row};
ghost use Rattle.range_calls.specs.Turned.{row_of};
ghost use Rattle.path_reading.specs.Calls.{fresh, Flushed, Left, GreatestSum};
ghost use Rattle.isdb_fec.specs.Rows.{reading_rows};

use isdb_fec::conv::{Released, ViterbiDecoder};
pub use path_greatest::Start;
use range_calls::{TurnedBack, turned};
use refusal::Refusal;
use trellis::FRAME_TRACEBACK;

// The fresh decoder of traceback 128.
fn started(start: Start) -> ViterbiDecoder
    ensures { result ≡ fresh start }
{
    match start {
        Start::Given(s) => ViterbiDecoder::with_state(FRAME_TRACEBACK, s).unwrap(),
        Start::Unknown => ViterbiDecoder::new_unknown_state(FRAME_TRACEBACK).unwrap(),
    }
}

// A flush of what a call left, behind the bits that it put out.
fn finished(pushed: Released, decisions: &mut [u64], out: &mut [u8]) -> Result<Released, Refusal>
    requires { pushed.count ≤ length out.old }
    ensures { Flushed pushed result decisions.old decisions.new out.old out.new }
{
    let count = pushed.count;
    let dec = pushed.dec;
    let rest = dec.flush(decisions, &mut out[count..])?;
    let last = rest.dec;
    Ok(Released {
        dec: last,
        count: count + rest.count,
    })
}

// The reading of the metrics, four for each step: a fresh decoder of traceback 128, `push_metrics`, `flush`. Where the output has too few
// places for the bits, no decisions are lent to `push_metrics`: it refuses by the first of its rows, and nothing is written.
pub fn greatest_sum_reading(
    metrics: &[f32],
    start: Start,
    decisions: &mut [u64],
    out: &mut [u8],
) -> Result<Released, TurnedBack>
    ensures answers { row_of result ≡ first_row (reading_rows metrics.now (length decisions.old) (length out.old)) }
    ensures leaves { Left start metrics.now result decisions.old decisions.new out.old out.new }
    ensures greatest { GreatestSum start metrics.now result (length decisions.old) (length out.old) out.new }
{
    let dec = started(start);
    if out.len() < metrics.len() / 4 {
        let short = dec.push_metrics(metrics, &mut decisions[0..0], out);
        return turned(dec, short);
    }
    let pushed = turned(dec, dec.push_metrics(metrics, decisions, out))?;
    turned(dec, finished(pushed, decisions, out))
}
