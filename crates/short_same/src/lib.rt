// Length 7 with 171 and 133 octal agrees with ISDB: for each call of the decoder, and for the encoder at rate 1/2, one function that makes both calls, the
// second on copies of the lent slices. It promises all that each of the two promises, and that they leave the same. Here are the pushes; the flushes are in
// short_same_flush, the laws and the other calls in short_same_code.
#![tactic(auto)]

ghost use Rattle.isdb_fec.specs.Rows as isdbRows;
ghost use Rattle.isdb_fec.specs.Calls as isdbCalls;
ghost use Rattle.short_fec.specs.Rows as shortRows;
ghost use Rattle.short_fec.specs.Calls as shortCalls;
ghost use Rattle.std.specs.Prelude.{◌≡◌, ◌/◌, length, MatchResult};
ghost use Rattle.refusal.specs.Rows.{first_row, answer_of};
ghost use Rattle.trellis.specs.Run.{pair_steps, four_steps, known_steps};
ghost use Rattle.isdb_fec.specs.Calls.{Unchanged};
ghost use Rattle.short_same_code.specs.IsdbCode.{isdb_code};
ghost use Rattle.short_same_code.specs.Agree.{Agree};

use isdb_fec::conv::ViterbiDecoder;
pub use short_same_code::{
    Both, BothEncoded, BothMade, BothSent, encode, isdb_code, new_unknown_state, push_bit,
    with_state,
};
pub use short_same_flush::{flush, flush_at};
use viterbi_step::states;

// Soft values, two for each step.
pub fn push(
    dec: ViterbiDecoder,
    pairs: &[f32],
    decisions: &mut [u64],
    out: &mut [u8],
    decisions2: &mut [u64],
    out2: &mut [u8],
) -> Both
    ensures short_answers { answer_of result.short ≡ first_row (shortRows.stream_rows isdb_code 2 dec pairs.now (length decisions.old) (length out.old)) }
    ensures short_leaves { MatchResult result.short
        (λ r. shortCalls.Leaves dec (shortCalls.call isdb_code dec.traceback (pair_steps pairs.now) (shortCalls.handed isdb_code dec decisions.old) (length pairs.now / 2)) r decisions.old decisions.new out.old out.new)
        (λ _. Unchanged decisions.old decisions.new out.old out.new) }
    ensures isdb_answers { answer_of result.isdb ≡ first_row (isdbRows.push_rows dec pairs.now (length decisions2.old) (length out2.old)) }
    ensures isdb_leaves { MatchResult result.isdb
        (λ r. isdbCalls.Leaves dec.traceback (isdbCalls.call dec.traceback (pair_steps pairs.now) (isdbCalls.handed dec decisions2.old) (length pairs.now / 2)) r decisions2.old decisions2.new out2.old out2.new)
        (λ _. Unchanged decisions2.old decisions2.new out2.old out2.new) }
    ensures agree { (decisions.old ≡ decisions2.old) → (out.old ≡ out2.old)
        → Agree result.short result.isdb decisions.new decisions2.new out.new out2.new }
{
    let pm = dec.pm;
    let all = states(&pm);
    let short = short_fec::push(isdb_code(), dec, pairs, decisions, out);
    let isdb = dec.push(pairs, decisions2, out2);
    Both { short, isdb }
}

// Metrics, four for each step.
pub fn push_metrics(
    dec: ViterbiDecoder,
    metrics: &[f32],
    decisions: &mut [u64],
    out: &mut [u8],
    decisions2: &mut [u64],
    out2: &mut [u8],
) -> Both
    ensures short_answers { answer_of result.short ≡ first_row (shortRows.stream_rows isdb_code 4 dec metrics.now (length decisions.old) (length out.old)) }
    ensures short_leaves { MatchResult result.short
        (λ r. shortCalls.Leaves dec (shortCalls.call isdb_code dec.traceback (four_steps metrics.now) (shortCalls.handed isdb_code dec decisions.old) (length metrics.now / 4)) r decisions.old decisions.new out.old out.new)
        (λ _. Unchanged decisions.old decisions.new out.old out.new) }
    ensures isdb_answers { answer_of result.isdb ≡ first_row (isdbRows.push_metrics_rows dec metrics.now (length decisions2.old) (length out2.old)) }
    ensures isdb_leaves { MatchResult result.isdb
        (λ r. isdbCalls.Leaves dec.traceback (isdbCalls.call dec.traceback (four_steps metrics.now) (isdbCalls.handed dec decisions2.old) (length metrics.now / 4)) r decisions2.old decisions2.new out2.old out2.new)
        (λ _. Unchanged decisions2.old decisions2.new out2.old out2.new) }
    ensures agree { (decisions.old ≡ decisions2.old) → (out.old ≡ out2.old)
        → Agree result.short result.isdb decisions.new decisions2.new out.new out2.new }
{
    let pm = dec.pm;
    let all = states(&pm);
    let short = short_fec::push_metrics(isdb_code(), dec, metrics, decisions, out);
    let isdb = dec.push_metrics(metrics, decisions2, out2);
    Both { short, isdb }
}

// Known input bits.
pub fn push_known(
    dec: ViterbiDecoder,
    bits: &[u8],
    decisions: &mut [u64],
    out: &mut [u8],
    decisions2: &mut [u64],
    out2: &mut [u8],
) -> Both
    ensures short_answers { answer_of result.short ≡ first_row (shortRows.known_rows isdb_code dec (length bits.now) (length decisions.old) (length out.old)) }
    ensures short_leaves { MatchResult result.short
        (λ r. shortCalls.Leaves dec (shortCalls.steps isdb_code dec.traceback (known_steps bits.now) (shortCalls.handed isdb_code dec decisions.old) (length bits.now)) r decisions.old decisions.new out.old out.new)
        (λ _. Unchanged decisions.old decisions.new out.old out.new) }
    ensures isdb_answers { answer_of result.isdb ≡ first_row (isdbRows.push_known_rows dec (length bits.now) (length decisions2.old) (length out2.old)) }
    ensures isdb_leaves { MatchResult result.isdb
        (λ r. isdbCalls.Leaves dec.traceback (isdbCalls.steps dec.traceback (known_steps bits.now) (isdbCalls.handed dec decisions2.old) (length bits.now)) r decisions2.old decisions2.new out2.old out2.new)
        (λ _. Unchanged decisions2.old decisions2.new out2.old out2.new) }
    ensures agree { (decisions.old ≡ decisions2.old) → (out.old ≡ out2.old)
        → Agree result.short result.isdb decisions.new decisions2.new out.new out2.new }
{
    let pm = dec.pm;
    let all = states(&pm);
    let short = short_fec::push_known(isdb_code(), dec, bits, decisions, out);
    let isdb = dec.push_known(bits, decisions2, out2);
    Both { short, isdb }
}
