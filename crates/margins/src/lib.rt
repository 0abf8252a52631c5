// The margins of demand 3, tested: whether a part of a received point keeps the margin of a clean one.
// The chapters of specs/:
//   Margins      the margins: definitions
//   Fractions    the order of finite floats as that of fractions
//   Intervals    intervals through the operations of the demapper
//   Clean        the clean parts of points and their margins
//   Speaks       soft values that speak for a coded bit
//   Metrics      what makes four metrics favour a pair
//   Pairs        two soft values make metrics that favour a pair
//   Correlation  correlations of points within the margins
//   Absolute     the absolute value of an f64
//   Tc8psk       a TC8PSK point within the margins: its metrics and its uncoded bit
#![tactic(auto)]

ghost use Rattle.std.specs.Prelude.{◌≡◌, cond, ◌&&◌};
ghost use Rattle.isdbs_combination.specs.Combinations.{modulation_of};
ghost use Rattle.margins.specs.Margins.{between, keeps, any_accepted, holds, is_bpsk};

use isdbs_core::combination::{Combination, Modulation};
use isdbs_points::PART_LIMIT;

pub fn both(a: bool, b: bool) -> bool
    ensures { result ≡ (a && b) }
{
    if a { b } else { false }
}

// The one test or the other, as t says.
fn chosen_test(t: bool, a: bool, b: bool) -> bool
    ensures { result ≡ cond t a b }
{
    if t { a } else { b }
}

// "A margin's ends belong to it."
fn between(a: f64, b: f64, x: f64) -> bool
    ensures { result ≡ between a b x }
{
    both(a <= x, x <= b)
}

// Finite and within the limit of a part.
fn accepted(x: f64) -> bool
    ensures { result ≡ any_accepted x }
{
    between(-PART_LIMIT, PART_LIMIT, x)
}

// A part keeps the margin of a clean one (document 01, the margins of demand 3): within 1/32 of 0; from 31/32 to 33/32 at 1; from 87/128 to 94/128 at 1/√2; negatives mirrored.
fn keeps(clean: f64, x: f64) -> bool
    ensures { result ≡ keeps clean x }
{
    let zero = between(-0.03125, 0.03125, x);
    let one = between(0.96875, 1.03125, x);
    let minus_one = between(-1.03125, -0.96875, x);
    let root = between(0.6796875, 0.734375, x);
    let minus_root = between(-0.734375, -0.6796875, x);
    let d = chosen_test(clean == 0.7071067811865476, root, minus_root);
    let c = chosen_test(clean == -1.0, minus_one, d);
    let b = chosen_test(clean == 1.0, one, c);
    chosen_test(clean == 0.0, zero, b)
}

// The same, or any accepted value where the part is free.
pub fn holds(free: bool, clean: f64, x: f64) -> bool
    ensures { result ≡ holds free clean x }
{
    chosen_test(free, accepted(x), keeps(clean, x))
}

pub fn is_bpsk(c: Combination) -> bool
    ensures { result ≡ is_bpsk (modulation_of c) }
{
    let m = c.modulation();
    match m {
        Modulation::Bpsk => true,
        Modulation::Qpsk => false,
        Modulation::Tc8psk => false,
    }
}
