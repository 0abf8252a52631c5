// How well a frame's header fits at a place, which frame of a superframe it is, and the place at which it fits best: by the signs of the 40 header symbols that every frame has.
// Signs are counted; there is no float arithmetic here. Each number is its score and what keeps it from going below 0: 20 for the score of 20 symbols,
// 40 for that of 40.
#![tactic(auto)]

ghost use Rattle.std.specs.Prelude.{◌≡◌, ◌+◌, ◌<◌, ◌≤◌, length, ltb};
ghost use Rattle.isdbs_frame.specs.Frame.{frame_symbols};
ghost use Rattle.header_sync.specs.Signs.{side, mark, marks};
ghost use Rattle.header_sync.specs.Fits.{joined, fit_of, fit_by, fit_at, no_frame};
ghost use Rattle.header_sync.specs.Search.{squares, peak_by, peak_at, found_by, further_of};
ghost use Rattle.header_sync.specs.SearchLaws.{better};

use isdbs_frame::{
    FRAME_SYMBOLS, W1_CODED_TAIL, W1_TAIL_AT, W2_CODED_TAIL, W23_TAIL_AT, tail_bits,
};

// How a frame's header fits: first frame of a superframe or another one, and the sums A and B of the two parts, each with 40 more.
#[derive(Clone, Copy)]
pub struct Fit {
    pub first: bool,
    pub re: usize,
    pub im: usize,
}

// A place, and A A + B B there.
#[derive(Clone, Copy)]
pub struct Best {
    pub place: usize,
    pub peak: usize,
}

// ---- the scores of one part

// A part's score against the sign +1, and 1 more: 2 above 0, 0 below 0, 1 where it is 0 or a NaN.
#[tactic(auto, unfolding(crate::specs::Signs::side))]
fn side_of(x: f64) -> usize
    ensures { (result ≡ side x) × (result ≤ 2) }
{
    if x > 0.0 {
        2
    } else if x < 0.0 {
        0
    } else {
        1
    }
}

// The same against the sign of a bit: +1 for bit 0, -1 for bit 1.
#[tactic(auto, unfolding(crate::specs::Signs::mark))]
fn mark_of(bit: u8, x: f64) -> usize
    ensures { (result ≡ mark bit x) × (result ≤ 2) }
{
    let s = side_of(x);
    if bit == 0 { s } else { 2 - s }
}

// The score of the 20 symbols from a place on against a tail, and 20 more.
#[tactic(auto, unfolding(crate::specs::Signs::marks))]
fn marks_of(tail: &[u8; 20], part: &[f64], at: usize) -> usize
    requires { at + 20 ≤ length part.now }
    ensures { (result ≡ marks tail.now part.now at 20) × (result ≤ 40) }
{
    let mut sum = 0;
    for (i, bit) in tail.iter().enumerate() {
        sum += mark_of(*bit, part[at + i]);
    }
    sum
}

// ---- the fit of a header

// The score of both tails, the second with its sign, and 40 more.
#[tactic(auto, unfolding(crate::specs::Fits::joined))]
fn joined_of(first: bool, one: usize, two: usize) -> usize
    requires { (one ≤ 40) × (two ≤ 40) }
    ensures { (result ≡ joined first one two) × (result ≤ 80) }
{
    if first { one + two } else { one + (40 - two) }
}

// The fit by the four scores.
#[tactic(auto, unfolding(crate::specs::Fits::fit_of, crate::specs::Fits::is_first))]
fn fit_of(re1: usize, re2: usize, im1: usize, im2: usize) -> Fit
    requires { (re1 ≤ 40) × (re2 ≤ 40) × (im1 ≤ 40) × (im2 ≤ 40) }
    ensures { (result ≡ fit_of re1 re2 im1 im2) × (result.re ≤ 80) × (result.im ≤ 80) }
{
    let first = 20 * (re1 + re2 + im1 + im2) < re1 * re2 + im1 * im2 + 800;
    let a = joined_of(first, re1, re2);
    let b = joined_of(first, im1, im2);
    Fit {
        first,
        re: a,
        im: b,
    }
}

// The fit of the frame that begins at a place, by the two tails.
#[tactic(auto, unfolding(crate::specs::Fits::fit_by))]
fn fit_at(tail1: &[u8; 20], tail2: &[u8; 20], re: &[f64], im: &[f64], at: usize) -> Fit
    requires { (at + frame_symbols ≤ length re.now) × (at + frame_symbols ≤ length im.now) }
    ensures { (result ≡ fit_by tail1.now tail2.now re.now im.now at) × (result.re ≤ 80) × (result.im ≤ 80) }
{
    let re1 = marks_of(tail1, re, at + W1_TAIL_AT);
    let re2 = marks_of(tail2, re, at + W23_TAIL_AT);
    let im1 = marks_of(tail1, im, at + W1_TAIL_AT);
    let im2 = marks_of(tail2, im, at + W23_TAIL_AT);
    fit_of(re1, re2, im1, im2)
}

// The same by the tails of W1 and W2.
pub fn fit_here(re: &[f64], im: &[f64], at: usize) -> Fit
    requires { (at + frame_symbols ≤ length re.now) × (at + frame_symbols ≤ length im.now) }
    ensures { (result ≡ fit_at re.now im.now at) × (result.re ≤ 80) × (result.im ≤ 80) }
{
    let tail1 = tail_bits(W1_CODED_TAIL);
    let tail2 = tail_bits(W2_CODED_TAIL);
    fit_at(&tail1, &tail2, re, im, at)
}

// ---- row 6

// Whether a part of so many points has no frame at a place.
fn short_at(points: usize, at: usize) -> bool
    ensures { result ≡ ltb points (at + frame_symbols) }
{
    points < FRAME_SYMBOLS || points - FRAME_SYMBOLS < at
}

// Whether one of the two parts, of so many points each, has none.
#[tactic(auto, unfolding(crate::specs::Fits::no_frame))]
pub fn no_frame(re: usize, im: usize, at: usize) -> bool
    ensures { result ≡ no_frame re im at }
{
    short_at(re, at) || short_at(im, at)
}

// ---- the search

// A A + B B, of the sums that are held with 40 more.
#[tactic(auto, unfolding(crate::specs::Search::squares))]
pub fn squares_of(re: usize, im: usize) -> usize
    requires { (re ≤ 80) × (im ≤ 80) }
    ensures { result ≡ squares re im }
{
    let a = re.abs_diff(40);
    let b = im.abs_diff(40);
    a * a + b * b
}

// The better of the best place so far and a later one: the earlier one of equals.
#[tactic(auto, unfolding(crate::specs::SearchLaws::better))]
fn better_of(best: Best, place: usize, peak: usize) -> Best
    ensures { result ≡ better best place peak }
{
    if best.peak < peak {
        Best { place, peak }
    } else {
        best
    }
}

// The first place of the greatest A A + B B among `from` and the `count` places after it.
fn best_of(
    tail1: &[u8; 20],
    tail2: &[u8; 20],
    re: &[f64],
    im: &[f64],
    from: usize,
    count: usize,
) -> usize
    requires { (from + count + frame_symbols ≤ length re.now) × (from + count + frame_symbols ≤ length im.now) }
    ensures { (result ≡ found_by (peak_by tail1.now tail2.now re.now im.now) from count) × (result ≤ from + count) }
{
    let fit = fit_at(tail1, tail2, re, im, from);
    let peak = squares_of(fit.re, fit.im);
    let mut best = Best { place: from, peak };
    for k in 0..count {
        let place = from + k + 1;
        let next = fit_at(tail1, tail2, re, im, place);
        let high = squares_of(next.re, next.im);
        best = better_of(best, place, high);
    }
    best.place
}

// The same by the tails of W1 and W2.
pub fn best_here(re: &[f64], im: &[f64], from: usize, count: usize) -> usize
    requires { (from + count + frame_symbols ≤ length re.now) × (from + count + frame_symbols ≤ length im.now) }
    ensures { (result ≡ found_by (peak_at re.now im.now) from count) × (result ≤ from + count) }
{
    let tail1 = tail_bits(W1_CODED_TAIL);
    let tail2 = tail_bits(W2_CODED_TAIL);
    best_of(&tail1, &tail2, re, im, from, count)
}

// How many places after `from` have room for a frame.
pub fn further_of(re: usize, im: usize, from: usize) -> usize
    requires { (from + frame_symbols ≤ re) × (from + frame_symbols ≤ im) }
    ensures { result ≡ further_of re im from }
{
    re.min(im) - FRAME_SYMBOLS - from
}
