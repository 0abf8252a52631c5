// The core of the decoder of a code of constraint length 3 to 7: a trellis step with the release that may follow, the steps of a call, and tracing. The
// path values are a slice of 2^(length-1) values. The calls of crate short_fec check what these functions ask.
#![tactic(auto)]

ghost use Rattle.std.specs.Prelude.{◌≡◌, ◌⊎◌, ◌++◌, ℕ, ◌+◌, ◌-◌, ◌*◌, ◌<◌, ◌≤◌, ◌/◌, ◌%◌, length, take, drop, replicate};
ghost use Rattle.trellis.specs.Lists.{laid};
ghost use Rattle.trellis.specs.Step.{best, traced};
ghost use Rattle.trellis.specs.Run.{stepped, after, block, traceback_limit, pair_steps, four_steps, known_steps, releases, holding};
ghost use Rattle.trellis.specs.Isdb.{rule};
ghost use Rattle.viterbi_core.specs.Calls.{step_of, Holds, Room, Stepped};
ghost use Rattle.short_code.specs.Codes.{labels, Fits};
ghost use Rattle.short_viterbi.specs.Soft.{soft_steps};
ghost use Rattle.trellis.specs.Isdb;

use short_code::Code;
use short_step::{best_state, trellis_step};
use trellis::BLOCK;
use viterbi_core::{At, clear, move_down};
use viterbi_steps::Step;

// What all steps of a call keep: the code, half the number of its states, and the traceback.
#[derive(Clone, Copy)]
pub struct Setup {
    pub code: Code,
    pub h: usize,
    pub traceback: usize,
}

// Traces the first n decision words back from `state`, and writes the oldest `count` of the n bits to the front of `out`.
fn trace(decisions: &[u64], h: usize, n: usize, state: usize, count: usize, out: &mut [u8])
    requires { (1 ≤ h) × (h ≤ Isdb.half) × (state < 2 * h) × (n ≤ length decisions.now) × (count ≤ n) × (count ≤ length out.old) }
    ensures { out.new ≡ laid (take count (traced h (take n decisions.now) state)) out.old }
{
    let mut s = state;
    let mut t = n;
    while t > 0 {
        t -= 1;
        if t < count {
            out[t] = (s / h) as u8;
        }
        s = 2 * (s % h) + ((decisions[t] >> s) % 2) as usize;
    }
}

// The release of 4,096 bits to the front of `out`, as BLOCK + traceback words are held: those left move down, and freed words become 0.
fn release(pm: &[f32], h: usize, traceback: usize, decisions: &mut [u64], out: &mut [u8])
    requires { (1 ≤ h) × (h ≤ Isdb.half) × (length pm.now ≡ 2 * h) × (traceback ≤ traceback_limit) × (block + traceback ≤ length decisions.old) × (block ≤ length out.old) }
    ensures { (out.new ≡ laid (take block (traced h (take (block + traceback) decisions.old) (best rule pm.now (2 * h - 1)))) out.old)
        × (decisions.new ≡ laid (drop block (take (block + traceback) decisions.old)) (laid (replicate (block + traceback) 0) decisions.old)) }
{
    let s = best_state(pm, h);
    trace(decisions, h, BLOCK + traceback, s, BLOCK, out);
    move_down(decisions, traceback);
    clear(&mut decisions[traceback..], BLOCK);
}

// Step i of a call with the release that may follow it: every call of a short code's decoder runs on this.
pub fn advance(
    pm: &mut [f32],
    s: Setup,
    at: At,
    i: usize,
    x: Step,
    decisions: &mut [u64],
    out: &mut [u8],
) -> At
    requires { (1 ≤ s.h) × (s.h ≤ Isdb.half) × Fits s.code s.h × (length pm.old ≡ 2 * s.h) × (1 ≤ s.traceback) × (s.traceback ≤ traceback_limit) × (at.held < block + s.traceback) × (block + s.traceback ≤ length decisions.old) × (at.count ≤ length out.old) × Room s.traceback at.held at.count (length out.old) }
    ensures { Stepped s.traceback (stepped s.h (labels s.code) rule s.traceback i (step_of x) (holding pm.old at.held decisions.old)) at.count result pm.new decisions.old decisions.new out.old out.new }
{
    let held = at.held;
    let count = at.count;
    let w = trellis_step(pm, s.code, s.h, i, x);
    decisions[held] = w;
    if held + 1 < BLOCK + s.traceback {
        return At {
            held: held + 1,
            count,
        };
    }
    release(pm, s.h, s.traceback, decisions, &mut out[count..]);
    At {
        held: s.traceback,
        count: count + BLOCK,
    }
}

// The end of a call: puts out the bits of all held words, traced back from `state`, after the first `count` places of `out`, and zeroes the words. The
// new count.
pub fn finish_at(state: usize, h: usize, at: At, decisions: &mut [u64], out: &mut [u8]) -> usize
    requires { (1 ≤ h) × (h ≤ Isdb.half) × (state < 2 * h) × (at.held ≤ length decisions.old) × (at.count + at.held ≤ length out.old) }
    ensures { (result ≡ at.count + at.held)
        × (decisions.new ≡ laid (replicate at.held 0) decisions.old)
        × (out.new ≡ take at.count out.old ++ laid (traced h (take at.held decisions.old) state) (drop at.count out.old)) }
{
    let held = at.held;
    let count = at.count;
    trace(decisions, h, held, state, held, &mut out[count..]);
    clear(decisions, held);
    count + held
}

fn pair_step(values: &[f32], i: usize) -> Step
    requires { 2 * i + 2 ≤ length values.now }
    ensures { step_of result ≡ pair_steps values.now i }
{
    Step::Pair(values[2 * i], values[2 * i + 1])
}

fn four_step(values: &[f32], i: usize) -> Step
    requires { 4 * i + 4 ≤ length values.now }
    ensures { step_of result ≡ four_steps values.now i }
{
    Step::Four(
        values[4 * i],
        values[4 * i + 1],
        values[4 * i + 2],
        values[4 * i + 3],
    )
}

// Step i of a call of soft values, `per` for each step: a pair, or four metrics.
fn soft_step(values: &[f32], per: usize, i: usize) -> Step
    requires { ((per ≡ 2) ⊎ (per ≡ 4)) × (per * i + per ≤ length values.now) }
    ensures { step_of result ≡ soft_steps per values.now i }
{
    if per == 2 {
        pair_step(values, i)
    } else {
        four_step(values, i)
    }
}

// All steps of a call of n soft-value or metric steps.
pub fn soft_steps(
    pm: &mut [f32],
    s: Setup,
    at: At,
    values: &[f32],
    per: usize,
    n: usize,
    decisions: &mut [u64],
    out: &mut [u8],
) -> At
    requires { (1 ≤ s.h) × (s.h ≤ Isdb.half) × Fits s.code s.h × (length pm.old ≡ 2 * s.h) × ((per ≡ 2) ⊎ (per ≡ 4)) × (per * n ≤ length values.now)
        × (1 ≤ s.traceback) × (s.traceback ≤ traceback_limit) × (at.held < block + s.traceback) × (at.count ≡ 0) × (block + s.traceback ≤ length decisions.old)
        × (block * releases s.traceback at.held n ≤ length out.old) }
    ensures { Holds s.traceback decisions.old out.old (after s.h (labels s.code) rule s.traceback (soft_steps per values.now) (holding pm.old at.held decisions.old) n)
        pm.new result.held result.count decisions.new out.new }
{
    let mut place = at;
    for i in 0..n {
        let x = soft_step(values, per, i);
        place = advance(pm, s, place, i, x, decisions, out);
    }
    place
}

// All steps of a call of known bits.
pub fn known_steps(
    pm: &mut [f32],
    s: Setup,
    at: At,
    bits: &[u8],
    decisions: &mut [u64],
    out: &mut [u8],
) -> At
    requires { (1 ≤ s.h) × (s.h ≤ Isdb.half) × Fits s.code s.h × (length pm.old ≡ 2 * s.h)
        × (1 ≤ s.traceback) × (s.traceback ≤ traceback_limit) × (at.held < block + s.traceback) × (at.count ≡ 0) × (block + s.traceback ≤ length decisions.old)
        × (block * releases s.traceback at.held (length bits.now) ≤ length out.old) }
    ensures { Holds s.traceback decisions.old out.old (after s.h (labels s.code) rule s.traceback (known_steps bits.now) (holding pm.old at.held decisions.old) (length bits.now))
        pm.new result.held result.count decisions.new out.new }
{
    let mut place = at;
    for i in 0..bits.len() {
        let x = Step::Known(bits[i]);
        place = advance(pm, s, place, i, x, decisions, out);
    }
    place
}
