// The trellis step, and steps in a row, their decision words to the front of a lent slice. The path values are a local of the loop, the step has one call, and each kind of step is
// made by a function of its own: so the compiler makes a loop for each kind, with the step in one piece.
#![tactic(auto)]

ghost use Rattle.std.specs.Prelude.{◌≡◌, ◌+◌, ◌*◌, ◌%◌, ◌^◌, ◌<◌, ◌≤◌, length};
ghost use Rattle.trellis.specs.Lists.{laid};
ghost use Rattle.trellis.specs.Run.{interval, pair_steps, four_steps};
ghost use Rattle.trellis.specs.Isdb.{word};
ghost use Rattle.viterbi_steps.specs.Runs.{step_of, steps_of, lent_steps, step_values, run_values, run_words};

use trellis::{INTERVAL, STATES};
use viterbi_step::Stepped;

// What a trellis step carries.
#[derive(Clone, Copy)]
pub enum Step {
    Pair(f32, f32),
    Four(f32, f32, f32, f32),
    Known(u8),
}

// What the steps of a call carry.
#[derive(Clone, Copy)]
pub enum Kind {
    Pairs,
    Fours,
    Knowns,
}

// The trellis step: every step of ISDB's decoders is this.
fn trellis_step(pm: [f32; STATES], x: Step) -> Stepped
    ensures { (result.values ≡ step_values pm (step_of x)) × (result.word ≡ word pm (step_of x)) }
{
    match x {
        Step::Pair(lx, ly) => viterbi_step::acs(pm, lx, ly),
        Step::Four(a, b, c, d) => viterbi_step::acs4(pm, [a, b, c, d]),
        Step::Known(b) => viterbi_step::acs_known(pm, b),
    }
}

// Step k of soft values.
fn pair_at(values: &[f32], k: usize) -> Step
    requires { 2 * k + 1 < length values.now }
    ensures { step_of result ≡ pair_steps values.now k }
{
    Step::Pair(values[2 * k], values[2 * k + 1])
}

// Step k of metrics.
fn four_at(values: &[f32], k: usize) -> Step
    requires { 4 * k + 3 < length values.now }
    ensures { step_of result ≡ four_steps values.now k }
{
    Step::Four(
        values[4 * k],
        values[4 * k + 1],
        values[4 * k + 2],
        values[4 * k + 3],
    )
}

// Step k of what is lent: of the soft values or metrics, or of the known bits.
fn step_at(kind: Kind, values: &[f32], bits: &[u8], k: usize) -> Step
    requires { k < lent_steps kind values.now bits.now }
    ensures { step_of result ≡ steps_of kind values.now bits.now k }
{
    match kind {
        Kind::Pairs => pair_at(values, k),
        Kind::Fours => four_at(values, k),
        Kind::Knowns => Step::Known(bits[k]),
    }
}

// n steps in a row, the first of which is step `from` of what is lent.
pub fn run(
    pm: &mut [f32; STATES],
    kind: Kind,
    values: &[f32],
    bits: &[u8],
    from: usize,
    n: usize,
    words: &mut [u64],
)
    requires { (from + n < 2 ^ 64) × (from + n ≤ lent_steps kind values.now bits.now) × (n ≤ length words.old) }
    ensures { (pm.new ≡ run_values (λ k. steps_of kind values.now bits.now (from + k)) pm.old n)
        × (words.new ≡ laid (run_words (λ k. steps_of kind values.now bits.now (from + k)) pm.old n) words.old) }
{
    let mut paths = *pm;
    for k in 0..n {
        let x = step_at(kind, values, bits, from + k);
        let s = trellis_step(paths, x);
        paths = s.values;
        words[k] = s.word;
    }
    *pm = paths;
}

fn least(a: usize, b: usize) -> usize
    ensures { (result ≤ a) × (result ≤ b) × (0 < a → 0 < b → 0 < result) }
{
    if a < b { a } else { b }
}

// The steps of the block that begins with step i of a call: up to the next 64th step, and within the steps left and the words up to the next release.
pub fn block_steps(i: usize, left: usize, space: usize) -> usize
    requires { (0 < left) × (0 < space) }
    ensures { (0 < result) × (result ≤ left) × (result ≤ space) × (i % interval + result ≤ interval) }
{
    least(least(left, INTERVAL - i % INTERVAL), space)
}
