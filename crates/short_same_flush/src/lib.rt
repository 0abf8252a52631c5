// Length 7 with 171 and 133 octal agrees with ISDB: both flushes, as short_same has the other calls of the decoder.
#![tactic(auto)]

ghost use Rattle.isdb_fec.specs.Rows as isdbRows;
ghost use Rattle.isdb_fec.specs.Calls as isdbCalls;
ghost use Rattle.short_fec.specs.Rows as shortRows;
ghost use Rattle.short_fec.specs.Calls as shortCalls;
ghost use Rattle.std.specs.Prelude.{◌≡◌, length, MatchResult};
ghost use Rattle.refusal.specs.Rows.{first_row, answer_of};
ghost use Rattle.isdb_fec.specs.Calls.{Unchanged};
ghost use Rattle.short_same_code.specs.IsdbCode.{isdb_code};
ghost use Rattle.short_same_code.specs.Agree.{Agree};

use isdb_fec::conv::ViterbiDecoder;
use short_same_code::{Both, isdb_code};
use viterbi_step::states;

// All held bits, traced from the best state.
pub fn flush(
    dec: ViterbiDecoder,
    decisions: &mut [u64],
    out: &mut [u8],
    decisions2: &mut [u64],
    out2: &mut [u8],
) -> Both
    ensures short_answers { answer_of result.short ≡ first_row (shortRows.flush_rows isdb_code dec (length decisions.old) (length out.old)) }
    ensures short_leaves { MatchResult result.short
        (λ r. shortCalls.Flushes isdb_code dec (shortCalls.best_of isdb_code dec) r decisions.old decisions.new out.old out.new)
        (λ _. Unchanged decisions.old decisions.new out.old out.new) }
    ensures isdb_answers { answer_of result.isdb ≡ first_row (isdbRows.flush_rows dec (length decisions2.old) (length out2.old)) }
    ensures isdb_leaves { MatchResult result.isdb
        (λ r. isdbCalls.Flushes dec r decisions2.old decisions2.new out2.old out2.new)
        (λ _. Unchanged decisions2.old decisions2.new out2.old out2.new) }
    ensures agree { (decisions.old ≡ decisions2.old) → (out.old ≡ out2.old)
        → Agree result.short result.isdb decisions.new decisions2.new out.new out2.new }
{
    let pm = dec.pm;
    let all = states(&pm);
    let short = short_fec::flush(isdb_code(), dec, decisions, out);
    let isdb = dec.flush(decisions2, out2);
    Both { short, isdb }
}

// All held bits, traced from the given state.
pub fn flush_at(
    dec: ViterbiDecoder,
    end: u8,
    decisions: &mut [u64],
    out: &mut [u8],
    decisions2: &mut [u64],
    out2: &mut [u8],
) -> Both
    ensures short_answers { answer_of result.short ≡ first_row (shortRows.flush_rows isdb_code dec (length decisions.old) (length out.old)) }
    ensures short_leaves { MatchResult result.short
        (λ r. shortCalls.Flushes isdb_code dec (shortCalls.end_of isdb_code end) r decisions.old decisions.new out.old out.new)
        (λ _. Unchanged decisions.old decisions.new out.old out.new) }
    ensures isdb_answers { answer_of result.isdb ≡ first_row (isdbRows.flush_rows dec (length decisions2.old) (length out2.old)) }
    ensures isdb_leaves { MatchResult result.isdb
        (λ r. isdbCalls.FlushesAt end dec r decisions2.old decisions2.new out2.old out2.new)
        (λ _. Unchanged decisions2.old decisions2.new out2.old out2.new) }
    ensures agree { (decisions.old ≡ decisions2.old) → (out.old ≡ out2.old)
        → Agree result.short result.isdb decisions.new decisions2.new out.new out2.new }
{
    let pm = dec.pm;
    let all = states(&pm);
    let short = short_fec::flush_at(isdb_code(), dec, end, decisions, out);
    let isdb = dec.flush_at(end, decisions2, out2);
    Both { short, isdb }
}
