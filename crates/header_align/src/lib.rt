// A frame turned right and brought to the size it was sent with, by the mean of its 40 known header symbols. Every part is an equation in f64
// operations, each rounded once; nothing is promised of what it improves.
#![tactic(auto)]

ghost use Rattle.std.specs.Prelude.{◌≡◌, ◌+◌, ◌<◌, ◌≤◌, length, get_or};
ghost use Rattle.refusal.specs.Rows.{first_row};
ghost use Rattle.trellis.specs.Lists.{laid};
ghost use Rattle.full_frame_parts.specs.Rows.{leaves};
ghost use Rattle.isdbs_frame.specs.Frame.{frame_symbols};
ghost use Rattle.header_align.specs.Align.{turned_re, turned_im, laid_re, laid_im, bad_points, front_rows, align_rows, aligned_re, aligned_im};

use full_frame::short_frame;
use header_mean::{Mean, mean_at};
use header_sync::{fit_here, no_frame};
use isdbs_core::frame::FRAME_SYMBOLS;
use isdbs_points::PART_LIMIT;
use isdbs_rows::some_beyond;
use refusal::Refusal;

// ---- the points

fn turned_re(mean: Mean, x: f64, y: f64) -> f64
    ensures { result ≡ turned_re mean x y }
{
    (x * mean.re + y * mean.im) / mean.power
}

fn turned_im(mean: Mean, x: f64, y: f64) -> f64
    ensures { result ≡ turned_im mean x y }
{
    (y * mean.re - x * mean.im) / mean.power
}

fn lay_re(mean: Mean, re: &[f64], im: &[f64], out: &mut [f64])
    requires { (frame_symbols ≤ length re.now) × (frame_symbols ≤ length im.now) × (frame_symbols ≤ length out.old) }
    ensures { out.new ≡ laid (laid_re mean re.now im.now) out.old }
{
    for i in 0..FRAME_SYMBOLS {
        out[i] = turned_re(mean, re[i], im[i]);
    }
}

fn lay_im(mean: Mean, re: &[f64], im: &[f64], out: &mut [f64])
    requires { (frame_symbols ≤ length re.now) × (frame_symbols ≤ length im.now) × (frame_symbols ≤ length out.old) }
    ensures { out.new ≡ laid (laid_im mean re.now im.now) out.old }
{
    for i in 0..FRAME_SYMBOLS {
        out[i] = turned_im(mean, re[i], im[i]);
    }
}

// ---- the call

// Row 7.
fn bad_points(re: &[f64], im: &[f64], power: f64) -> bool
    requires { (frame_symbols ≤ length re.now) × (frame_symbols ≤ length im.now) }
    ensures { result ≡ bad_points re.now im.now power }
{
    if some_beyond(re, FRAME_SYMBOLS, PART_LIMIT) {
        return true;
    }
    if some_beyond(im, FRAME_SYMBOLS, PART_LIMIT) {
        return true;
    }
    !(power > 0.0)
}

// The frame at the front of two parts, by its mean: rows 7 and 9.
fn align_front(
    mean: Mean,
    re: &[f64],
    im: &[f64],
    out_re: &mut [f64],
    out_im: &mut [f64],
) -> Result<(), Refusal>
    requires { (frame_symbols ≤ length re.now) × (frame_symbols ≤ length im.now) }
    ensures answers { result ≡ first_row (front_rows mean re.now im.now out_re.old out_im.old) }
    ensures real { out_re.new ≡ leaves result (laid_re mean re.now im.now) out_re.old }
    ensures imaginary { out_im.new ≡ leaves result (laid_im mean re.now im.now) out_im.old }
{
    if bad_points(re, im, mean.power) {
        return Err(Refusal::Sample);
    }
    if short_frame(out_re.len(), out_im.len()) {
        return Err(Refusal::Space);
    }
    lay_re(mean, re, im, out_re);
    lay_im(mean, re, im, out_im);
    Ok(())
}

// The frame that begins at point `at`.
pub fn align_frame(
    re: &[f64],
    im: &[f64],
    at: usize,
    out_re: &mut [f64],
    out_im: &mut [f64],
) -> Result<(), Refusal>
    ensures answers { result ≡ first_row (align_rows re.now im.now at out_re.old out_im.old) }
    ensures real { out_re.new ≡ leaves result (aligned_re re.now im.now at) out_re.old }
    ensures imaginary { out_im.new ≡ leaves result (aligned_im re.now im.now at) out_im.old }
{
    if no_frame(re.len(), im.len(), at) {
        return Err(Refusal::Symbols);
    }
    let fit = fit_here(re, im, at);
    let mean = mean_at(fit.first, re, im, at);
    align_front(mean, &re[at..], &im[at..], out_re, out_im)
}
