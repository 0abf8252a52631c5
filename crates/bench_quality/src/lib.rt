// How good received points are, from the sums that the library gives for each slot: modulation error ratio, gain, turn and offset, as numbers and in words.
#![tactic(auto)]

mod measure;
mod words;

use isdbs_frame::SLOTS;
use measure::{at_most, decibels, decibels_down, root, turn};
pub use words::{put_aside, put_json, put_words};

// The sums of a slot: points, signal, error, two of the products, two of the differences.
pub const NUMBERS: usize = 7;

// The sums of all slots.
pub type Sums = [f64; NUMBERS * SLOTS];

// No turn; the zero of an offset; the zero of a ratio.
pub const NO_TURN: u32 = 1_800;

pub const NO_OFFSET: u32 = 100_000;

pub const NO_DECIBELS: u32 = 300;

// Of points their modulation error ratio in tenths of a decibel, gain in hundredths, turn in tenths of a degree, offset in thousandths, each but the
// gain with its zero more.
#[derive(Clone, Copy)]
pub struct Quality {
    pub ratio: u32,
    pub gain: u32,
    pub turn: u32,
    pub re: u32,
    pub im: u32,
}

// The sums of a slot, or of all.
#[derive(Clone, Copy)]
struct Summed {
    points: f64,
    signal: f64,
    error: f64,
    product_re: f64,
    product_im: f64,
    difference_re: f64,
    difference_im: f64,
}

// Sum q of slot j.
fn sum_at(sums: &Sums, j: usize, q: usize) -> f64 {
    if j < SLOTS && q < NUMBERS {
        return sums[NUMBERS * j + q];
    }
    0.0f64
}

// Sum q over all slots.
fn total(sums: &Sums, q: usize) -> f64 {
    let mut x: f64 = 0.0;
    for j in 0..SLOTS {
        x += sum_at(sums, j, q);
    }
    x
}

// The sums of slot j; 0 where there is no such slot.
fn of_slot(sums: &Sums, j: usize) -> Summed {
    Summed {
        points: sum_at(sums, j, 0),
        signal: sum_at(sums, j, 1),
        error: sum_at(sums, j, 2),
        product_re: sum_at(sums, j, 3),
        product_im: sum_at(sums, j, 4),
        difference_re: sum_at(sums, j, 5),
        difference_im: sum_at(sums, j, 6),
    }
}

// The sums over all slots.
fn of_frame(sums: &Sums) -> Summed {
    Summed {
        points: total(sums, 0),
        signal: total(sums, 1),
        error: total(sums, 2),
        product_re: total(sums, 3),
        product_im: total(sums, 4),
        difference_re: total(sums, 5),
        difference_im: total(sums, 6),
    }
}

// Thousandths of x, with the zero of an offset more.
fn offset(x: f64) -> u32 {
    if x < 0.0f64 {
        return NO_OFFSET - at_most(-x * 1000.0f64 + 0.5f64, NO_OFFSET);
    }
    NO_OFFSET + at_most(x * 1000.0f64 + 0.5f64, NO_OFFSET)
}

// The quality of what was summed, where there are points with a signal.
fn measured(s: Summed) -> Option<Quality> {
    if !(s.points > 0.0f64 && s.signal > 0.0f64) {
        return None;
    }
    let a = s.product_re / s.signal;
    let b = s.product_im / s.signal;
    Some(Quality {
        ratio: decibels(s.signal, s.error),
        gain: at_most(root(a * a + b * b) * 100.0f64 + 0.5f64, 100_000),
        turn: turn(a, b),
        re: offset(s.difference_re / s.points),
        im: offset(s.difference_im / s.points),
    })
}

// The quality of slot j, where it has points.
pub fn slot_quality(sums: &Sums, j: usize) -> Option<Quality> {
    measured(of_slot(sums, j))
}

// The modulation error ratio of slot j in tenths of a decibel, cut down to a whole one, with 300 more; none where no point counts.
pub fn slot_level(sums: &Sums, j: usize) -> Option<u32> {
    let s = of_slot(sums, j);
    if s.points > 0.0f64 {
        return Some(decibels_down(s.signal, s.error));
    }
    None
}

// The quality of the frame, where it has points.
pub fn frame_quality(sums: &Sums) -> Option<Quality> {
    measured(of_frame(sums))
}

// The mean gain and turn of the frame as one number.
#[derive(Clone, Copy)]
pub struct Mean {
    pub re: f64,
    pub im: f64,
}

// The sums of the products by the signal.
pub fn frame_mean(sums: &Sums) -> Mean {
    let s = of_frame(sums);
    Mean {
        re: s.product_re / s.signal,
        im: s.product_im / s.signal,
    }
}

// The gain and the turn may be off by as much as a margin is wide: 1/32, which is 1.8 degrees.
const LEAST_GAIN: u32 = 97;

const MOST_GAIN: u32 = 103;

const LEAST_TURN: u32 = NO_TURN - 18;

const MOST_TURN: u32 = NO_TURN + 18;

// Whether the gain or the turn alone takes ideal points out of their margins.
pub fn is_aside(q: Quality) -> bool {
    let gains = LEAST_GAIN..=MOST_GAIN;
    let turns = LEAST_TURN..=MOST_TURN;
    !gains.contains(&q.gain) || !turns.contains(&q.turn)
}
