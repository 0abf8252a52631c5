// Add-compare-select: one step of the Viterbi decoder over its 64 path values, of a pair and of a known bit. The step of four metrics is in viterbi_four, what is
// done with the path values between steps in viterbi_peak.
#![tactic(auto)]

ghost use Rattle.std.specs.Prelude.{◌≡◌, ◌<◌};
ghost use Rattle.trellis.specs.Step.{pair, known, renormalised, ruled};
ghost use Rattle.trellis.specs.Isdb.{nexts, word};
ghost use Rattle.viterbi_branches.specs.Signs.{XSigns, YSigns};
ghost use Rattle.viterbi_step.specs.Half.{Half};
ghost use Rattle.trellis.specs.Isdb;

use trellis::{HALF, STATES};
pub use viterbi_branches::branch_number;
use viterbi_branches::{SX, SY, Table, pair_path};
use viterbi_choice::{beats, larger};
use viterbi_four::join;
pub use viterbi_four::{Stepped, acs4};
pub use viterbi_peak::{best_state, renormalise, rule_out, states};
use viterbi_peak::{first_greatest, subtract};

// The states 32u + j of a pair step, and their decisions.
fn pair_half(
    old: [f32; STATES],
    new: &mut [f32; STATES],
    x: &Table,
    y: &Table,
    u: usize,
    lx: f32,
    ly: f32,
) -> u32
    requires { (u < 2) × XSigns x.now × YSigns y.now }
    ensures { Half old (pair lx ly) u new.old Isdb.half new.new result }
{
    let n = states(new);
    let mut w: u32 = 0;
    for j in 0..n / 2 {
        let even = pair_path(&old, x, y, u, 0, j, lx, ly);
        let odd = pair_path(&old, x, y, u, 1, j, lx, ly);
        new[HALF * u + j] = larger(even, odd);
        w = w | (beats(odd, even) << j);
    }
    w
}

// The add-compare-select of a pair of soft values.
pub fn acs(pm: [f32; STATES], lx: f32, ly: f32) -> Stepped
    ensures { (result.values ≡ nexts pm (pair lx ly)) × (result.word ≡ word pm (pair lx ly)) }
{
    let x = SX;
    let y = SY;
    let mut values = pm;
    let low = pair_half(pm, &mut values, &x, &y, 0, lx, ly);
    let high = pair_half(pm, &mut values, &x, &y, 1, lx, ly);
    Stepped {
        values,
        word: join(low, high),
    }
}

// The step of a known bit: a pair step of two zeros, the states that the bit rules out are set, and the maximum is subtracted.
pub fn acs_known(pm: [f32; STATES], b: u8) -> Stepped
    ensures { (result.values ≡ renormalised Isdb.half (ruled Isdb.half b (nexts pm (known b)))) × (result.word ≡ word pm (known b)) }
{
    let x = SX;
    let y = SY;
    let mut values = pm;
    let low = pair_half(pm, &mut values, &x, &y, 0, 0.0, 0.0);
    let high = pair_half(pm, &mut values, &x, &y, 1, 0.0, 0.0);
    rule_out(&mut values, b);
    let t = first_greatest(&values);
    subtract(&mut values, t);
    Stepped {
        values,
        word: join(low, high),
    }
}
