// The answers to calls on a handed decoder state by their rows: 64 path values, how many decision words are held, and the traceback. The calls are in isdb_fec.
#![tactic(auto)]

ghost use Rattle.std.specs.Prelude.{◌≡◌, cond, not, ℕ, ◌+◌, ◌<◌, ◌≤◌, take};
ghost use Rattle.refusal.specs.Rows.{first_row, Accepted, Space};
ghost use Rattle.trellis.specs.Isdb;
ghost use Rattle.ieee.specs.Within.{within};
ghost use Rattle.viterbi_rows.specs.Values.{some_beyond};
ghost use Rattle.trellis.specs.Run.{traceback_limit, block};
ghost use Rattle.viterbi_rows.specs.Rows.{handed_rows, stream_rows, known_rows, flush_rows, steps_short};

use refusal::Refusal;
use trellis::{BLOCK, STATES, TRACEBACK_LIMIT};
use viterbi_core::few_places;

// The greatest path value of a handed state, 2^32 (document 01, refusal 4).
pub const PATH_LIMIT: f32 = 4294967296.0;
// The greatest soft value or metric (document 01, refusal 7: "1,048,576 for a stream value").
pub const STREAM_LIMIT: f32 = 1048576.0;

// Whether a value is not a number or beyond the limit.
fn beyond(x: f32, limit: f32) -> bool
    ensures { result ≡ not (within limit x) }
{
    !(-limit <= x) | !(x <= limit)
}

// Whether any of the values is. All are looked at, so that the loop goes by vectors.
pub fn some_beyond(xs: &[f32], limit: f32) -> bool
    ensures { result ≡ some_beyond limit xs.now }
{
    let mut some = false;
    for i in 0..xs.len() {
        some = some | beyond(xs[i], limit);
    }
    some
}

// The rows of a handed state.
pub fn answer_handed(pm: &[f32], held: usize, traceback: usize) -> Result<(), Refusal>
    ensures { result ≡ first_row (handed_rows pm.now held traceback) }
{
    if traceback == 0 {
        return Err(Refusal::Traceback);
    }
    if traceback > TRACEBACK_LIMIT {
        return Err(Refusal::Traceback);
    }
    if held >= BLOCK + traceback {
        return Err(Refusal::State);
    }
    if some_beyond(pm, PATH_LIMIT) {
        return Err(Refusal::State);
    }
    Ok(())
}

// The same of a state whose path values need not be 64: the first 64 of what is lent.
pub fn answer_lent(pm: &[f32], held: usize, traceback: usize) -> Result<(), Refusal>
    ensures { result ≡ first_row (handed_rows (take Isdb.states pm.now) held traceback) }
{
    if pm.len() < STATES {
        answer_handed(pm, held, traceback)
    } else {
        answer_handed(&pm[0..STATES], held, traceback)
    }
}

// The answer to a call of n steps on a state that is not refused: is there space?
pub fn answer_space(
    held: usize,
    traceback: usize,
    n: usize,
    decisions: usize,
    out: usize,
) -> Result<(), Refusal>
    requires { (1 ≤ traceback) × (traceback ≤ traceback_limit) × (held < block + traceback) }
    ensures { result ≡ cond (steps_short n held traceback decisions out) Space Accepted }
{
    if few_places(traceback, held, n, out) {
        return Err(Refusal::Space);
    }
    if decisions < BLOCK + traceback {
        return Err(Refusal::Space);
    }
    Ok(())
}

// The answer to a call of soft values or metrics, `per` for each step.
pub fn answer_stream(
    pm: &[f32],
    held: usize,
    traceback: usize,
    values: &[f32],
    per: usize,
    decisions: usize,
    out: usize,
) -> Result<(), Refusal>
    requires { 0 < per }
    ensures { result ≡ first_row (stream_rows per pm.now held traceback values.now decisions out) }
{
    answer_handed(pm, held, traceback)?;
    if values.len() % per != 0 {
        return Err(Refusal::Length);
    }
    if some_beyond(values, STREAM_LIMIT) {
        return Err(Refusal::Sample);
    }
    answer_space(held, traceback, values.len() / per, decisions, out)
}

// The answer to a call of n known bits.
pub fn answer_known(
    pm: &[f32],
    held: usize,
    traceback: usize,
    n: usize,
    decisions: usize,
    out: usize,
) -> Result<(), Refusal>
    ensures { result ≡ first_row (known_rows pm.now held traceback n decisions out) }
{
    answer_handed(pm, held, traceback)?;
    answer_space(held, traceback, n, decisions, out)
}

// The answer to a flush.
pub fn answer_flush(
    pm: &[f32],
    held: usize,
    traceback: usize,
    decisions: usize,
    out: usize,
) -> Result<(), Refusal>
    ensures { result ≡ first_row (flush_rows pm.now held traceback decisions out) }
{
    answer_handed(pm, held, traceback)?;
    if out < held {
        return Err(Refusal::Space);
    }
    if BLOCK + traceback > decisions {
        return Err(Refusal::Space);
    }
    Ok(())
}
