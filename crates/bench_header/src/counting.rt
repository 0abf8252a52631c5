// The signs that agree. A known symbol agrees where its point, turned back by the turn that the header tells, has a real part of the sign that was sent.
use header_find::{Header, header_at};
use isdbs_frame::{
    W1_CODED_TAIL, W1_TAIL_AT, W2_CODED_TAIL, W3_CODED_TAIL, W23_TAIL_AT, tail_bits,
};

// First frame of a superframe or another one; the turn in eighths, 8 where none is told; whether the frame is told and not turned; how many of W1's 20 known
// symbols agree, and of the 20 of W2 (a first frame) or W3 (another one).
#[derive(Clone, Copy)]
pub struct Told {
    pub first: bool,
    pub turn: u8,
    pub fits: bool,
    pub w1: usize,
    pub last: usize,
}

// a + b, or a where that is too large.
pub fn plus(a: usize, b: usize) -> usize {
    if b <= 0xffff_ffff_ffff_ffff - a {
        return a + b;
    }
    a
}

// a - b, or 0.
pub fn minus(a: usize, b: usize) -> usize {
    a.saturating_sub(b)
}

// The real part of a point turned back by so many eighths, times a number above 0. Where no turn is told, the point is taken as it is.
fn turned_back(x: f64, y: f64, turn: u8) -> f64 {
    match turn {
        1 => x + y,
        2 => y,
        3 => y - x,
        4 => -x,
        5 => -x - y,
        6 => -y,
        7 => x - y,
        _ => x,
    }
}

// The same of the point at a place; 0 where there is none.
fn part_at(re: &[f64], im: &[f64], at: usize, turn: u8) -> f64 {
    match (re.get(at), im.get(at)) {
        (Some(x), Some(y)) => turned_back(*x, *y, turn),
        _ => 0.0f64,
    }
}

// Whether a part has the sign of a bit: above 0 for bit 0, below 0 for bit 1. A NaN has none.
fn agrees(bit: u8, x: f64) -> bool {
    if bit == 0 { x > 0.0f64 } else { x < 0.0f64 }
}

// How many of the 20 symbols from a place on agree with a tail.
fn agreeing(tail: u32, re: &[f64], im: &[f64], at: usize, turn: u8) -> usize {
    tail_bits(tail)
        .iter()
        .enumerate()
        .filter(|(i, bit)| agrees(**bit, part_at(re, im, plus(at, *i), turn)))
        .count()
}

fn last_tail(first: bool) -> u32 {
    if first { W2_CODED_TAIL } else { W3_CODED_TAIL }
}

// What a header that was read or found at a place says.
pub fn agreed(h: Header, re: &[f64], im: &[f64], at: usize) -> Told {
    let tail = last_tail(h.first);
    let w1 = agreeing(W1_CODED_TAIL, re, im, plus(at, W1_TAIL_AT), h.turn);
    let last = agreeing(tail, re, im, plus(at, W23_TAIL_AT), h.turn);
    Told {
        first: h.first,
        turn: h.turn,
        fits: h.turn == 0,
        w1,
        last,
    }
}

// What the header of the frame says that begins at a place; that none is told where no frame of 39,936 points fits there.
pub fn told_at(re: &[f64], im: &[f64], at: usize) -> Told {
    match header_at(re, im, at) {
        Ok(h) => agreed(h, re, im, at),
        Err(_) => Told {
            first: false,
            turn: 8,
            fits: false,
            w1: 0,
            last: 0,
        },
    }
}
