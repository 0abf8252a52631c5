// A trellis step of a code of constraint length 3 to 7 over its 2^(length-1) path values, and what is done with them between steps.
#![tactic(auto)]

ghost use Rattle.std.specs.Prelude.{◌≡◌, cond, ◌-◌, ◌*◌, ◌<◌, ◌≤◌, ◌%◌, eqb, length, get_or};
ghost use Rattle.std.specs.Float.Ieee.{neg, of_bits};
ghost use Rattle.std.specs.Float.{nan, binary32};
ghost use Rattle.trellis.specs.Lists.{bit, upto};
ghost use Rattle.trellis.specs.Step as trellis;
ghost use Rattle.trellis.specs.Step.{takes, cand, next, nexts, word, top, renormalised, ruled};
ghost use Rattle.trellis.specs.Run.{settled, interval, start_at};
ghost use Rattle.trellis.specs.Isdb.{rule};
ghost use Rattle.trellis.specs.WrittenLaws.{Written};
ghost use Rattle.viterbi_core.specs.Calls.{step_of};
ghost use Rattle.short_code.specs.Codes.{labels, Fits, Settled};
ghost use Rattle.trellis.specs.Isdb;

use short_code::{Code, label};
use trellis::{INTERVAL, STATES};
pub use viterbi_choice::best_state;
use viterbi_choice::{greater, larger};
use viterbi_step::states;
use viterbi_steps::Step;

// The term of a soft value x for a coded bit.
fn term(b: u8, x: f32) -> f32
    ensures { result ≡ cond (eqb b 1) (neg x) x }
{
    if b == 1 { -x } else { x }
}

// The path value v with a branch of label l.
fn branch(x: Step, v: f32, l: u8) -> f32
    requires { l < 4 }
    ensures { result ≡ trellis.branch (step_of x) v l }
{
    match x {
        Step::Pair(lx, ly) => v + term(l / 2, lx) + term(l % 2, ly),
        Step::Four(a, b, c, d) => {
            let m = [a, b, c, d];
            v + m[l as usize]
        }
        Step::Known(b) => v + term(l / 2, 0.0) + term(l % 2, 0.0),
    }
}

// The path into the state k from its predecessor with the low bit b.
fn path(pm: &[f32], code: Code, h: usize, k: usize, b: usize, x: Step) -> f32
    requires { (1 ≤ h) × (h ≤ Isdb.half) × Fits code h × (length pm.now ≡ 2 * h) × (k < 2 * h) × (b < 2) }
    ensures { result ≡ cand h (labels code) pm.now (step_of x) k b }
{
    let s = 2 * (k % h) + b;
    branch(x, pm[s], label(code, h, k / h, s))
}

// Whether the odd path is taken, as a bit of a decision word.
fn beats(odd: f32, even: f32) -> u64
    ensures { result ≡ bit (takes rule even odd) }
{
    viterbi_choice::beats(odd, even) as u64
}

// The new path values of a step, at the front of `new`. The decision word.
fn select(pm: &[f32], new: &mut [f32; STATES], code: Code, h: usize, x: Step) -> u64
    requires { (1 ≤ h) × (h ≤ Isdb.half) × Fits code h × (length pm.now ≡ 2 * h) }
    ensures { Written nan (next h (labels code) rule pm.now (step_of x)) (2 * h) new.new × (result ≡ word h (labels code) rule pm.now (step_of x)) }
{
    let all = states(new);
    let mut w: u64 = 0;
    for k in 0..2 * h {
        let even = path(pm, code, h, k, 0, x);
        let odd = path(pm, code, h, k, 1, x);
        new[k] = larger(even, odd);
        w = w | (beats(odd, even) << k);
    }
    w
}

// Copies as many values as there are in `pm`.
fn copy(new: &[f32; STATES], pm: &mut [f32])
    requires { length pm.old ≤ Isdb.states }
    ensures { pm.new ≡ upto (λ i. get_or new.now i nan) (length pm.old) }
{
    let n = pm.len();
    pm.copy_from_slice(&new[..n]);
}

// Adds, compares and selects. The decision word.
fn add_compare_select(pm: &mut [f32], code: Code, h: usize, x: Step) -> u64
    requires { (1 ≤ h) × (h ≤ Isdb.half) × Fits code h × (length pm.old ≡ 2 * h) }
    ensures { (pm.new ≡ nexts h (labels code) rule pm.old (step_of x)) × (result ≡ word h (labels code) rule pm.old (step_of x)) }
{
    let mut new = [0.0f32; STATES];
    let w = select(pm, &mut new, code, h, x);
    copy(&new, pm);
    w
}

// The greatest path value; of equals the first.
fn greatest(pm: &[f32]) -> f32
    ensures { result ≡ top pm.now (length pm.now) }
{
    let mut t = -3.4028235e38f32;
    for v in pm {
        t = greater(t, *v);
    }
    t
}

// Subtracts the greatest path value from each.
pub fn renormalise(pm: &mut [f32], h: usize)
    requires { length pm.old ≡ 2 * h }
    ensures { pm.new ≡ renormalised h pm.old }
{
    let t = greatest(pm);
    for v in pm.iter_mut() {
        *v = *v - t;
    }
}

// Sets the states that the last input b does not lead to (document 01: "set to -1.0e9").
fn rule_out(pm: &mut [f32], h: usize, b: u8)
    requires { (1 ≤ h) × (length pm.old ≡ 2 * h) }
    ensures { pm.new ≡ ruled h b pm.old }
{
    let kept = (b % 2) as usize;
    for (s, v) in pm.iter_mut().enumerate() {
        if s / h != kept {
            *v = -1.0e9;
        }
    }
}

// The last step before the maximum is subtracted.
const LAST_STEP: usize = INTERVAL - 1;

// The subtraction after each 64th step.
fn sixty_fourth(pm: &mut [f32], h: usize, i: usize)
    requires { length pm.old ≡ 2 * h }
    ensures { pm.new ≡ cond (eqb (i % interval) (interval - 1)) (renormalised h pm.old) pm.old }
{
    if i % INTERVAL == LAST_STEP {
        renormalise(pm, h);
    }
}

// What follows once step i of a call has added.
fn settle(pm: &mut [f32], h: usize, i: usize, x: Step)
    requires { (1 ≤ h) × (length pm.old ≡ 2 * h) }
    ensures { Settled h i (step_of x) pm.old pm.new }
{
    match x {
        Step::Pair(lx, ly) => sixty_fourth(pm, h, i),
        Step::Four(a, b, c, d) => sixty_fourth(pm, h, i),
        Step::Known(b) => {
            rule_out(pm, h, b);
            renormalise(pm, h);
        }
    }
}

// Step i of a call. The decision word.
pub fn trellis_step(pm: &mut [f32], code: Code, h: usize, i: usize, x: Step) -> u64
    requires { (1 ≤ h) × (h ≤ Isdb.half) × Fits code h × (length pm.old ≡ 2 * h) }
    ensures { (pm.new ≡ settled h (labels code) rule i (step_of x) (nexts h (labels code) rule pm.old (step_of x))) × (result ≡ word h (labels code) rule pm.old (step_of x)) }
{
    let w = add_compare_select(pm, code, h, x);
    settle(pm, h, i, x);
    w
}

// The path value of the state k at a known start (document 01: "0 at the given state .. -1,000,000 elsewhere").
fn start_value(k: usize, start: usize) -> f32
    ensures { result ≡ cond (eqb k start) (of_bits binary32 0) (of_bits binary32 0xc974_2400) }
{
    if k == start { 0.0 } else { -1.0e6 }
}

// The path values of a known start, which is taken mod their number.
pub fn start_at(pm: &mut [f32], state: u8)
    requires { 1 ≤ length pm.old }
    ensures { pm.new ≡ start_at (length pm.old) state }
{
    let start = (state as usize) % pm.len();
    for (k, v) in pm.iter_mut().enumerate() {
        *v = start_value(k, start);
    }
}
