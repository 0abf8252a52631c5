// The mean of a frame's 40 known header symbols, and the turn that it tells. Every part is an equation in f64 operations, each rounded once.
#![tactic(auto)]

ghost use Rattle.std.specs.Prelude.{◌≡◌, ◌+◌, ◌≤◌, length};
ghost use Rattle.trellis.specs.Step.{term};
ghost use Rattle.isdbs_frame.specs.Frame.{frame_symbols};
ghost use Rattle.header_mean.specs.Means.{last_tail, sum_from, mean_part, mean_of, size_of, near_axis, by_sign, turn_by, turn_of};

use isdbs_frame::{
    W1_CODED_TAIL, W1_TAIL_AT, W2_CODED_TAIL, W3_CODED_TAIL, W23_TAIL_AT, tail_bits,
};

// The mean c of the known header symbols, and d, its size squared.
#[derive(Clone, Copy)]
pub struct Mean {
    pub re: f64,
    pub im: f64,
    pub power: f64,
}

// ---- the mean

// A part times the sign of a bit.
fn signed(bit: u8, x: f64) -> f64
    ensures { result ≡ term bit x }
{
    if bit == 1 { -x } else { x }
}

// A sum, and the 20 parts from a place on, each times its sign.
#[tactic(auto, unfolding(crate::specs::Means::sum_from))]
fn sum_from(start: f64, tail: &[u8; 20], part: &[f64], at: usize) -> f64
    requires { at + 20 ≤ length part.now }
    ensures { result ≡ sum_from start tail.now part.now at 20 }
{
    let mut sum = start;
    for (i, bit) in tail.iter().enumerate() {
        sum += signed(*bit, part[at + i]);
    }
    sum
}

// The tail that ends the header of a frame: W2's of the first frame of a superframe, W3's of another one.
fn last_tail(first: bool) -> [u8; 20]
    ensures { result ≡ last_tail first }
{
    tail_bits(if first { W2_CODED_TAIL } else { W3_CODED_TAIL })
}

// The mean of one part of the 40 symbols of the frame that begins at a place.
#[tactic(auto, unfolding(crate::specs::Means::mean_part))]
fn mean_part(first: bool, part: &[f64], at: usize) -> f64
    requires { at + frame_symbols ≤ length part.now }
    ensures { result ≡ mean_part first part.now at }
{
    let tail1 = tail_bits(W1_CODED_TAIL);
    let tail2 = last_tail(first);
    let one = sum_from(0.0, &tail1, part, at + W1_TAIL_AT);
    let two = sum_from(one, &tail2, part, at + W23_TAIL_AT);
    two / 40.0
}

// The mean of the frame that begins at a place, by its kind.
#[tactic(auto, unfolding(crate::specs::Means::mean_of, crate::specs::Means::power_of))]
pub fn mean_at(first: bool, re: &[f64], im: &[f64], at: usize) -> Mean
    requires { (at + frame_symbols ≤ length re.now) × (at + frame_symbols ≤ length im.now) }
    ensures { result ≡ mean_of first re.now im.now at }
{
    let x = mean_part(first, re, at);
    let y = mean_part(first, im, at);
    Mean {
        re: x,
        im: y,
        power: x * x + y * y,
    }
}

// ---- the turn

#[tactic(auto, unfolding(crate::specs::Means::size_of))]
fn size_of(x: f64) -> f64
    ensures { result ≡ size_of x }
{
    if x < 0.0 { -x } else { x }
}

// Whether a point (x, y) lies within 22.5 degrees of the axis of x.
#[tactic(auto, unfolding(crate::specs::Means::near_axis))]
fn near_axis(x: f64, y: f64) -> bool
    ensures { result ≡ near_axis x y }
{
    let width = size_of(x);
    size_of(y) <= 0.41421356237309503 * width
}

// One of two turns by the sign of a part.
#[tactic(auto, unfolding(crate::specs::Means::by_sign))]
fn by_sign(x: f64, above: u8, else_turn: u8) -> u8
    ensures { result ≡ by_sign x above else_turn }
{
    if x > 0.0 { above } else { else_turn }
}

// The turn of a point that is not 0, in eighths.
#[tactic(auto, unfolding(crate::specs::Means::turn_by))]
fn turn_by(x: f64, y: f64) -> u8
    ensures { result ≡ turn_by x y }
{
    if near_axis(x, y) {
        by_sign(x, 0, 4)
    } else if near_axis(y, x) {
        by_sign(y, 2, 6)
    } else {
        by_sign(y, by_sign(x, 1, 3), by_sign(x, 7, 5))
    }
}

// The turn by A A + B B and the mean: 8 where there is none.
#[tactic(auto, unfolding(crate::specs::Means::turn_of))]
pub fn turn_of(squares: usize, mean: Mean) -> u8
    ensures { result ≡ turn_of squares mean }
{
    if squares >= 784 && mean.power > 0.0 {
        turn_by(mean.re, mean.im)
    } else {
        8
    }
}
