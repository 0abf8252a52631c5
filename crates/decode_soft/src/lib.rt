// The soft values of a block of parts, times the scale. Where all parts are zero or in the range of the f32's normal numbers, in loops without a branch, which the compiler makes vector code of.
#![tactic(auto)]

ghost use Rattle.std.specs.Prelude.{◌≡◌, true, ◌≤◌, ◌<◌, length, get_or};
ghost use Rattle.std.specs.Float.{nan, binary32};
ghost use Rattle.std.specs.Float.Ieee.{mul};
ghost use Rattle.trellis.specs.Lists.{upto, laid};
ghost use Rattle.ieee_cast.specs.Soft.{soft_of};
ghost use Rattle.isdbs_metrics.specs.Reading.{absolute};
ghost use Rattle.decode_soft.specs.Range.{InRange, AllInRange, shortened};

use ieee_cast::soft;

// 2^-126, the f32's smallest normal number.
const SMALLEST: f64 = 1.1754943508222875e-38;

// Half way from the greatest f32 to 2^128: what rounds to 2^128 starts here.
const OVER: f64 = 3.4028235677973366e38;

// Whether x is in the range.
fn in_range(x: f64) -> bool
    ensures { result ≡ true → InRange x }
{
    ((x >= SMALLEST) | (x <= -SMALLEST) | (x == 0.0)) & (x < OVER) & (x > -OVER)
}

// Whether the first n values are all in the range. All are looked at, so that the loop goes by vectors.
fn all_in_range(xs: &[f64], n: usize) -> bool
    requires { n ≤ length xs.now }
    ensures { result ≡ true → AllInRange xs.now n }
{
    let mut all = true;
    for i in 0..n {
        all = all & in_range(xs[i]);
    }
    all
}

// The pattern with the 29 digits rounded away that an f32 has no room for: a sum that carries above a half, and at a half where the last digit kept is odd.
fn rounded(bits: u64) -> u64
    requires { bits < 0xfff0_0000_0000_0000 }
    ensures { result ≡ shortened bits }
{
    ((bits + 0x0fff_ffff + (bits >> 29) % 2) >> 29) * 0x2000_0000
}

// soft of a value in the range: the rounded one is an f32 number.
fn near_signed(x: f64) -> f32
    requires { InRange x }
    ensures { result ≡ soft_of x }
{
    f64::from_bits(rounded(f64::to_bits(x))) as f32
}

// soft of its magnitude.
fn near_magnitude(x: f64) -> f32
    requires { InRange x }
    ensures { result ≡ soft_of (absolute x) }
{
    f64::from_bits(rounded(f64::to_bits(x) % 0x8000_0000_0000_0000)) as f32
}

// soft of each of the first n values, all in the range.
fn near_each(xs: &[f64], n: usize, out: &mut [f32])
    requires { (n ≤ length xs.now) × (n ≤ length out.old) × AllInRange xs.now n }
    ensures { out.new ≡ laid (upto (λ i. soft_of (get_or xs.now i nan)) n) out.old }
{
    for i in 0..n {
        out[i] = near_signed(xs[i]);
    }
}

// soft of the magnitude of each.
fn near_magnitudes(xs: &[f64], n: usize, out: &mut [f32])
    requires { (n ≤ length xs.now) × (n ≤ length out.old) × AllInRange xs.now n }
    ensures { out.new ≡ laid (upto (λ i. soft_of (absolute (get_or xs.now i nan))) n) out.old }
{
    for i in 0..n {
        out[i] = near_magnitude(xs[i]);
    }
}

// The magnitude of x.
fn unsigned(x: f64) -> f64
    ensures { result ≡ absolute x }
{
    if x != x {
        return x;
    }
    f64::from_bits(f64::to_bits(x) % 0x8000_0000_0000_0000)
}

// soft of each of the first n values, one by one.
fn soft_each(xs: &[f64], n: usize, out: &mut [f32])
    requires { (n ≤ length xs.now) × (n ≤ length out.old) }
    ensures { out.new ≡ laid (upto (λ i. soft_of (get_or xs.now i nan)) n) out.old }
{
    for i in 0..n {
        out[i] = soft(xs[i]);
    }
}

// soft of the magnitude of each.
fn magnitude_each(xs: &[f64], n: usize, out: &mut [f32])
    requires { (n ≤ length xs.now) × (n ≤ length out.old) }
    ensures { out.new ≡ laid (upto (λ i. soft_of (absolute (get_or xs.now i nan))) n) out.old }
{
    for i in 0..n {
        out[i] = soft(unsigned(xs[i]));
    }
}

// soft of each of the first n values.
fn soft_values(xs: &[f64], n: usize, out: &mut [f32])
    requires { (n ≤ length xs.now) × (n ≤ length out.old) }
    ensures { out.new ≡ laid (upto (λ i. soft_of (get_or xs.now i nan)) n) out.old }
{
    if all_in_range(xs, n) {
        near_each(xs, n, out);
    } else {
        soft_each(xs, n, out);
    }
}

// soft of the magnitude of each.
fn soft_magnitudes(xs: &[f64], n: usize, out: &mut [f32])
    requires { (n ≤ length xs.now) × (n ≤ length out.old) }
    ensures { out.new ≡ laid (upto (λ i. soft_of (absolute (get_or xs.now i nan))) n) out.old }
{
    if all_in_range(xs, n) {
        near_magnitudes(xs, n, out);
    } else {
        magnitude_each(xs, n, out);
    }
}

// Multiplies the first n values by the scale: a loop over f32 alone, so that whole vectors are multiplied.
fn scale_block(out: &mut [f32], n: usize, scale: f32)
    requires { n ≤ length out.old }
    ensures { out.new ≡ laid (upto (λ i. mul binary32 (get_or out.old i nan) scale) n) out.old }
{
    for i in 0..n {
        out[i] = out[i] * scale;
    }
}

// The soft values of the first n parts, times the scale.
pub fn soft_block(xs: &[f64], n: usize, scale: f32, out: &mut [f32])
    requires { (n ≤ length xs.now) × (n ≤ length out.old) }
    ensures { out.new ≡ laid (upto (λ i. mul binary32 (soft_of (get_or xs.now i nan)) scale) n) out.old }
{
    soft_values(xs, n, out);
    scale_block(out, n, scale);
}

// The same of their magnitudes.
pub fn magnitude_block(xs: &[f64], n: usize, scale: f32, out: &mut [f32])
    requires { (n ≤ length xs.now) × (n ≤ length out.old) }
    ensures { out.new ≡ laid (upto (λ i. mul binary32 (soft_of (absolute (get_or xs.now i nan))) scale) n) out.old }
{
    soft_magnitudes(xs, n, out);
    scale_block(out, n, scale);
}
