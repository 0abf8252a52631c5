// The received points of a run: how many lie in each square of 1/64 by 1/64, from -1.5 to 1.5.
ghost use Rattle.std.specs.Prelude.{◌≡◌, false, not, ◌&&◌};
ghost use Rattle.margins.specs.Margins.{holds};

use crate::Mean;
use isdbs_core::frame::MAIN_SYMBOLS;
use isdbs_core::slots::Run;
use margins::{holds, is_bpsk};
use picture_sheet::{BINS, Squares, bin};

// The received points of a frame, and those of the bytes that were read. Both parts lie apart, as the library takes them.
#[derive(Clone, Copy)]
pub(crate) struct Points<'a> {
    pub(crate) re: &'a [f64; MAIN_SYMBOLS],
    pub(crate) im: &'a [f64; MAIN_SYMBOLS],
    pub(crate) clean_re: &'a [f64; MAIN_SYMBOLS],
    pub(crate) clean_im: &'a [f64; MAIN_SYMBOLS],
}

// The most that is counted in a square.
const MOST: u32 = 65_535;

// Counts a point. The rows of squares go down from the greatest imaginary part.
fn mark(bins: &mut Squares, x: f64, y: f64) {
    let count = &mut bins[BINS - 1 - bin(y)][bin(x)];
    if *count < MOST {
        *count += 1;
    }
}

// Whether a point of a run lies outside the margins of the one that was read. The imaginary part of BPSK is free.
fn is_outside(bpsk: bool, clean_re: f64, clean_im: f64, x: f64, y: f64) -> bool
    ensures { result ≡ not (holds false clean_re x && holds bpsk clean_im y) }
{
    !(holds(false, clean_re, x) && holds(bpsk, clean_im, y))
}

// Counts the points of a run inside or outside their margins.
pub(crate) fn gather(bins: &mut Squares, r: Run, outside: bool, points: Points) {
    bins.fill([0u32; BINS]);
    let bpsk = is_bpsk(r.combination);
    for k in r.symbol_start..r.symbol_end.min(MAIN_SYMBOLS) {
        let x = points.re[k];
        let y = points.im[k];
        if is_outside(bpsk, points.clean_re[k], points.clean_im[k], x, y) == outside {
            mark(bins, x, y);
        }
    }
}

// The points divided by their mean gain and turn, which are one number other than 0.
pub(crate) fn align(
    mean: Mean,
    points: Points,
    out_re: &mut [f64; MAIN_SYMBOLS],
    out_im: &mut [f64; MAIN_SYMBOLS],
) {
    let power = mean.re * mean.re + mean.im * mean.im;
    let a = mean.re / power;
    let b = mean.im / power;
    for k in 0..MAIN_SYMBOLS {
        out_re[k] = points.re[k] * a + points.im[k] * b;
        out_im[k] = points.im[k] * a - points.re[k] * b;
    }
}

fn is_beyond(x: f64) -> bool {
    !(x >= -1.5f64 && x < 1.5f64)
}

// How many points of a run lie outside the picture.
pub(crate) fn beyond(r: Run, points: Points) -> usize {
    let n = r.symbol_end.saturating_sub(r.symbol_start);
    let re = points.re;
    let im = points.im;
    let run = re.iter().zip(im.iter()).skip(r.symbol_start).take(n);
    run.filter(|&(&x, &y)| is_beyond(x) || is_beyond(y)).count()
}
