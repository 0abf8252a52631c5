// What is taken of the symbols of a block before their metrics: the parts of QPSK in the order of its coded bits, the soft values of BPSK. The lent parts start at
// the run's first symbol.
#![tactic(auto)]

ghost use Rattle.std.specs.Prelude.{◌≡◌, ◌+◌, ◌*◌, ◌≤◌, length, get_or};
ghost use Rattle.std.specs.Float.{nan, binary32};
ghost use Rattle.std.specs.Float.Ieee.{mul};
ghost use Rattle.trellis.specs.Lists.{upto, laid};
ghost use Rattle.ieee_cast.specs.Soft.{soft_of};
ghost use Rattle.isdbs_points.specs.Points.{conjugated};
ghost use Rattle.isdbs_metrics.specs.Steps.{qpsk_part};
ghost use Rattle.decode_parts.specs.Turns.{turns};

use decode_soft::soft_block;
use isdbs_points::{Mapping, mirror};

// The parts of a and b by turns, from place `from` on.
fn by_turns(
    a: &[f64],
    turn_a: bool,
    b: &[f64],
    turn_b: bool,
    from: usize,
    n: usize,
    parts: &mut [f64],
)
    requires { (from + n ≤ length a.now) × (from + n ≤ length b.now) × (2 * n ≤ length parts.old) }
    ensures { parts.new ≡ laid (upto (turns (λ k. conjugated turn_a (get_or a.now (from + k) nan)) (λ k. conjugated turn_b (get_or b.now (from + k) nan))) (2 * n)) parts.old }
{
    for i in 0..n {
        parts[2 * i] = mirror(turn_a, a[from + i]);
        parts[2 * i + 1] = mirror(turn_b, b[from + i]);
    }
}

// The parts of n symbols of QPSK from symbol `from` on, in the order of the coded bits that they carry.
pub fn qpsk_parts(re: &[f64], im: &[f64], m: Mapping, from: usize, n: usize, parts: &mut [f64])
    requires { (from + n ≤ length re.now) × (from + n ≤ length im.now) × (2 * n ≤ length parts.old) }
    ensures { parts.new ≡ laid (upto (λ i. qpsk_part re.now im.now m (2 * from + i)) (2 * n)) parts.old }
{
    if m.qpsk_p1_on_q {
        by_turns(im, m.conjugate, re, false, from, n, parts);
    } else {
        by_turns(re, false, im, m.conjugate, from, n, parts);
    }
}

// The soft values of n steps of BPSK from step k0 on: X, then Y, on successive symbols.
pub fn bpsk_softs(re: &[f64], scale: f32, k0: usize, n: usize, pairs: &mut [f32])
    requires { (2 * (k0 + n) ≤ length re.now) × (2 * n ≤ length pairs.old) }
    ensures { pairs.new ≡ laid (upto (λ j. mul binary32 (soft_of (get_or re.now (2 * k0 + j) nan)) scale) (2 * n)) pairs.old }
{
    let from = 2 * k0;
    soft_block(&re[from..], 2 * n, scale, pairs);
}
