// The reading of metrics by a code of constraint length 3 to 7: the steps of a fresh decoder's call and a flush. What comes out are the inputs of the first
// path of greatest sum.
#![tactic(auto)]

ghost use Rattle.std.specs.Prelude.{◌≡◌, ◌||◌, ◌*◌, ◌<◌, ◌≤◌, ◌/◌, ltb, length, MatchResult};
ghost use Rattle.refusal.specs.Rows.{first_row, answer_of};
ghost use Rattle.trellis.specs.Run.{start_unknown};
ghost use Rattle.short_code.specs.Codes.{Fits};
ghost use Rattle.path_greatest.specs.Fresh.{start_values};
ghost use Rattle.short_best.specs.Readings.{reading_rows, Finished, Refused, GreatestSum};
ghost use Rattle.trellis.specs.Isdb.{frame_words};
ghost use Rattle.trellis.specs.Isdb;

use isdb_fec::conv::STREAM_LIMIT;
pub use path_greatest::Start;
use refusal::Refusal;
pub use short_code::Code;
use short_code::{bad, half};
use short_step::{best_state, renormalise, start_at};
use short_viterbi::{Setup, finish_at, soft_steps};
use trellis::{FRAME_TRACEBACK, FRAME_WORDS, STATES};
use viterbi_core::At;
use viterbi_rows::some_beyond;

// Whether the lent memory is too short for n bits.
fn short(n: usize, decisions: usize, out: usize) -> bool
    ensures { result ≡ (ltb out n || ltb decisions frame_words) }
{
    out < n || decisions < FRAME_WORDS
}

// The answer to a reading.
fn answer_reading(code: Code, metrics: &[f32], decisions: usize, out: usize) -> Result<(), Refusal>
    ensures { result ≡ first_row (reading_rows code metrics.now decisions out) }
{
    if bad(code) {
        return Err(Refusal::Code);
    }
    if metrics.len() % 4 != 0 {
        return Err(Refusal::Length);
    }
    if some_beyond(metrics, STREAM_LIMIT) {
        return Err(Refusal::Sample);
    }
    if short(metrics.len() / 4, decisions, out) {
        return Err(Refusal::Space);
    }
    Ok(())
}

// The path values of an unknown start.
fn start_unknown(pm: &mut [f32])
    ensures { pm.new ≡ start_unknown (length pm.old) }
{
    for v in pm.iter_mut() {
        *v = 0.0;
    }
}

// The path values of a start.
fn begin(pm: &mut [f32], start: Start)
    requires { 1 ≤ length pm.old }
    ensures { pm.new ≡ start_values (length pm.old) start }
{
    match start {
        Start::Given(s) => start_at(pm, s),
        Start::Unknown => start_unknown(pm),
    }
}

// The steps of the metrics and the flush, over the path values of the states: the number of bits.
fn run(
    pm: &mut [f32],
    code: Code,
    h: usize,
    start: Start,
    metrics: &[f32],
    decisions: &mut [u64],
    out: &mut [u8],
) -> usize
    requires { (1 ≤ h) × (h ≤ Isdb.half) × Fits code h × (length pm.old ≡ 2 * h) × (frame_words ≤ length decisions.old) × (length metrics.now / 4 ≤ length out.old) }
    ensures { Finished code start metrics.now result decisions.old decisions.new out.old out.new }
{
    begin(pm, start);
    let at = At { held: 0, count: 0 };
    let n = metrics.len() / 4;
    let s = Setup {
        code,
        h,
        traceback: FRAME_TRACEBACK,
    };
    let end = soft_steps(pm, s, at, metrics, 4, n, decisions, out);
    renormalise(pm, h);
    let best = best_state(pm, h);
    finish_at(best, h, end, decisions, out)
}

// The reading of the metrics, four for each step, by a fresh decoder of traceback 128. How many bits stand at the front of the output.
pub fn greatest_sum_reading(
    code: Code,
    metrics: &[f32],
    start: Start,
    decisions: &mut [u64],
    out: &mut [u8],
) -> Result<usize, Refusal>
    ensures answers { answer_of result ≡ first_row (reading_rows code metrics.now (length decisions.old) (length out.old)) }
    ensures leaves { MatchResult result
        (λ count. Finished code start metrics.now count decisions.old decisions.new out.old out.new)
        (λ _. Refused decisions.old decisions.new out.old out.new) }
    ensures greatest { GreatestSum code start metrics.now result (length decisions.old) (length out.old) out.new }
{
    answer_reading(code, metrics, decisions.len(), out.len())?;
    let h = half(code);
    let n = 2 * h;
    let mut pm = [0.0f32; STATES];
    let count = run(&mut pm[0..n], code, h, start, metrics, decisions, out);
    Ok(count)
}
