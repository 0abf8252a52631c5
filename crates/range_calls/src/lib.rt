// Which decoder states the calls of isdb_fec can hand on, and what these can then answer: the definitions and theorems are in specs/.
// The chapters of specs/:
//   Normalised  path values whose greatest is +0
//   Numbers     the bounds, in one place
//   Inside      a row's tests and the bounds say the same
//   MetricLaws  whole metrics are stream values
//   Reached     the states that come from a fresh start by accepted calls
//   Handed      each call hands on such a state
//   Closed      no call refuses such a state for its own sake
//   Answers     what the calls can still answer
//   TwoCalls    a run in two calls
//   CutAtOne    where two calls differ from one
//   Finished    what a reading from a fresh decoder leaves
//   Turned      what a reading from a decoder of its own answers where it is turned back
#![tactic(auto)]

ghost use Rattle.std.specs.Prelude.{◌≡◌, ◌/◌, length, MatchResult};
ghost use Rattle.refusal.specs.Rows.{first_row};
ghost use Rattle.isdb_fec.specs.Calls.{call, handed, Leaves, Unchanged};
ghost use Rattle.range_calls.specs.Finished.{fresh};
ghost use Rattle.range_calls.specs.Turned.{zeros, row_of, turned};
ghost use Rattle.trellis.specs.Run.{pair_steps};
ghost use Rattle.isdb_fec.specs.Rows.{stream_rest};
ghost use Rattle.trellis.specs.Isdb.{frame_traceback};

use isdb_fec::conv::{Released, ViterbiDecoder};
use refusal::Refusal;
use trellis::{FRAME_TRACEBACK, STATES};

// Why a reading from a decoder of its own is turned back, and that decoder, as it was made.
#[derive(Clone, Copy)]
pub struct TurnedBack {
    pub row: Refusal,
    pub dec: ViterbiDecoder,
}

// What stands in place of a decoder that is refused.
pub fn zeros() -> ViterbiDecoder
    ensures { result ≡ zeros }
{
    ViterbiDecoder {
        pm: [0.0f32; STATES],
        held: 0,
        traceback: 0,
    }
}

// What a call answers to the reading that made the decoder: refused, with that decoder.
pub fn turned<T>(dec: ViterbiDecoder, answer: Result<T, Refusal>) -> Result<T, TurnedBack>
    ensures { result ≡ turned dec answer }
{
    answer.map_err(|row| TurnedBack { row, dec })
}

// The decoder of traceback 128 that `with_state` makes.
fn started(state: u8) -> ViterbiDecoder
    ensures { result ≡ fresh state }
{
    ViterbiDecoder::with_state(FRAME_TRACEBACK, state).unwrap()
}

// `push` on a fresh decoder of traceback 128 that starts in the given state, mod 64: it is never refused for its state, only by 5, 7 and 9.
pub fn push_fresh(
    state: u8,
    pairs: &[f32],
    decisions: &mut [u64],
    out: &mut [u8],
) -> Result<Released, TurnedBack>
    ensures answers { row_of result ≡ first_row (stream_rest 2 (fresh state) pairs.now (length decisions.old) (length out.old)) }
    ensures leaves { MatchResult result
        (λ r. Leaves frame_traceback (call frame_traceback (pair_steps pairs.now) (handed (fresh state) decisions.old) (length pairs.now / 2)) r decisions.old decisions.new out.old out.new)
        (λ t. (t.dec ≡ fresh state) × Unchanged decisions.old decisions.new out.old out.new) }
{
    let dec = started(state);
    turned(dec, dec.push(pairs, decisions, out))
}
