// What is done with the 64 path values between steps: the maximum and its subtraction, the states that a known bit rules out, the best state.
#![tactic(auto)]

ghost use Rattle.std.specs.Prelude.{◌≡◌, ◌<◌, map, length};
ghost use Rattle.std.specs.Float.{binary32};
ghost use Rattle.std.specs.Float.Ieee.{sub};
ghost use Rattle.trellis.specs.Step.{renormalised, ruled, top};
ghost use Rattle.trellis.specs.Isdb.{best_state};
ghost use Rattle.viterbi_peak.specs.Sign.{NotZero};
ghost use Rattle.trellis.specs.Isdb;

use trellis::{HALF, STATES};
use viterbi_choice::greater;

// The number of states, which the type of the path values fixes.
pub fn states(pm: &[f32; STATES]) -> usize
    ensures { (result ≡ Isdb.states) × (length pm.now ≡ Isdb.states) }
{
    let values: &[f32] = pm;
    values.len()
}

// The greatest path value; of equals the first. It begins at the least f32, as the Rust does.
pub fn first_greatest(pm: &[f32; STATES]) -> f32
    ensures { result ≡ top pm.now Isdb.states }
{
    let mut t = -3.4028235e38f32;
    for s in 0..STATES {
        t = greater(t, pm[s]);
    }
    t
}

// The greatest path value in four chains, which the compiler takes at once. Where it is a zero, it may have another sign than the first of the greatest.
fn greatest_of_four(pm: &[f32]) -> f32
    requires { length pm.now ≡ Isdb.states }
    ensures { NotZero result → result ≡ top pm.now Isdb.states }
{
    let mut a = -3.4028235e38f32;
    let mut b = -3.4028235e38f32;
    let mut c = -3.4028235e38f32;
    let mut d = -3.4028235e38f32;
    for s in 0..HALF / 2 {
        a = greater(a, pm[4 * s]);
        b = greater(b, pm[4 * s + 1]);
        c = greater(c, pm[4 * s + 2]);
        d = greater(d, pm[4 * s + 3]);
    }
    greater(greater(a, b), greater(c, d))
}

// The greatest path value; of equals the first.
fn greatest(pm: &[f32; STATES]) -> f32
    ensures { result ≡ top pm.now Isdb.states }
{
    let values: &[f32] = pm;
    let t = greatest_of_four(values);
    if t < 0.0 {
        return t;
    }
    if 0.0 < t {
        return t;
    }
    first_greatest(pm)
}

// Subtracts t from each path value.
pub fn subtract(pm: &mut [f32; STATES], t: f32)
    ensures { pm.new ≡ map (λ x. sub binary32 x t) pm.old }
{
    let n = states(pm);
    for s in 0..n {
        pm[s] = pm[s] - t;
    }
}

// Subtracts the greatest path value from each.
pub fn renormalise(pm: &mut [f32; STATES])
    ensures { pm.new ≡ renormalised Isdb.half pm.old }
{
    let t = greatest(pm);
    subtract(pm, t);
}

// Sets the states that the last input b does not lead to (document 01: "the 32 states that the bit rules out are set to -1.0e9").
pub fn rule_out(pm: &mut [f32; STATES], b: u8)
    ensures { pm.new ≡ ruled Isdb.half b pm.old }
{
    let kept = (b % 2) as usize;
    let n = states(pm);
    for s in 0..n {
        if s / HALF != kept {
            pm[s] = -1.0e9;
        }
    }
}

// The highest state of the greatest path value.
pub fn best_state(pm: &[f32; STATES]) -> usize
    ensures { (result < Isdb.states) × (result ≡ best_state pm.now) }
{
    let values: &[f32] = pm;
    viterbi_choice::best_state(values, HALF)
}
