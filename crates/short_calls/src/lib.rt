// The calls of short_fec in a row read the first path of greatest sum: a fresh decoder of traceback 128, `push_metrics`, `flush`. The theorem is in specs/.
#![tactic(auto)]

ghost use Rattle.std.specs.Prelude.{◌≡◌, length, IfOk, IfErr};
ghost use Rattle.refusal.specs.Rows.{first_row, answer_of};
ghost use Rattle.trellis.specs.Isdb.{frame_traceback};
ghost use Rattle.isdb_fec.specs.Calls.{Fresh};
ghost use Rattle.short_fec.specs.Rows.{fresh_rows};
ghost use Rattle.range_calls.specs.Handed.{decoder_after};
ghost use Rattle.short_calls.specs.Calls.{fresh_values, made_or_zeros, PushedFlushed, Unmade, ThreeRead};

use isdb_fec::conv::{Released, ViterbiDecoder};
pub use path_greatest::Start;
use range_calls::zeros;
use refusal::Refusal;
use short_fec::{Code, flush, new_unknown_state, push_metrics, with_state};
use trellis::FRAME_TRACEBACK;

// The fresh decoder.
fn started(code: Code, start: Start) -> Result<ViterbiDecoder, Refusal>
    ensures answers { answer_of result ≡ first_row (fresh_rows code frame_traceback) }
    ensures made { IfOk result (λ v. Fresh frame_traceback (fresh_values code start) v) }
{
    match start {
        Start::Given(s) => with_state(code, FRAME_TRACEBACK, s),
        Start::Unknown => new_unknown_state(code, FRAME_TRACEBACK),
    }
}

// The decoder that was made, or zeros in place of one that is refused.
fn made_or_zeros(made: Result<ViterbiDecoder, Refusal>) -> ViterbiDecoder
    ensures { result ≡ made_or_zeros made }
{
    made.unwrap_or(zeros())
}

// The decoder after a call: refused, it is the one that was given.
fn decoder_after(given: ViterbiDecoder, call: Result<Released, Refusal>) -> ViterbiDecoder
    ensures { result ≡ decoder_after given call }
{
    match call {
        Ok(released) => released.dec,
        Err(_) => given,
    }
}

// What each of the three calls leaves.
#[derive(Clone, Copy)]
pub struct Three {
    pub made: Result<ViterbiDecoder, Refusal>,
    pub pushed: Result<Released, Refusal>,
    pub flushed: Result<Released, Refusal>,
}

// The three calls, each on what the one before it left, also where it refused: on zeros where no decoder is made.
pub fn three_calls(
    code: Code,
    start: Start,
    metrics: &[f32],
    decisions: &mut [u64],
    out: &mut [u8],
) -> Three
    ensures answers { answer_of result.made ≡ first_row (fresh_rows code frame_traceback) }
    ensures made { IfOk result.made (λ v. Fresh frame_traceback (fresh_values code start) v) }
    ensures leaves { PushedFlushed code metrics.now result decisions.old decisions.new out.old out.new }
    ensures unmade { IfErr result.made (λ _. Unmade result decisions.old decisions.new out.old out.new) }
    ensures reads { ThreeRead code start metrics.now result (length decisions.old) (length out.old) out.new }
{
    let made = started(code, start);
    let dec = made_or_zeros(made);
    let pushed = push_metrics(code, dec, metrics, decisions, out);
    let flushed = flush(code, decoder_after(dec, pushed), decisions, out);
    Three {
        made,
        pushed,
        flushed,
    }
}
