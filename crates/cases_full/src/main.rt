// A full frame whose point p holds p in its real part and -p in its imaginary part, taken apart and laid again. Place 0 has -0.0 and place 395 NaN. The slices of the frame are
// ten points longer than it. A line for each place that the request names, for the frame laid again, and for each short slice.
#![tactic(auto)]

ghost use Rattle.std.specs.Prelude.{◌≤◌, length};

use cases_lib::{nan, one, row, same_double, show};
use full_frame::{lay, take_apart};
use isdbs_frame::MAIN_SYMBOLS;

// Point p of the frame holds p and -p.
fn fill_points(re: &mut [f64; 39946], im: &mut [f64; 39946]) {
    let mut x = 0.0;
    for (real, imaginary) in re.iter_mut().zip(im.iter_mut()) {
        *real = x;
        *imaginary = -x;
        x = x + 1.0;
    }
    re[395] = nan();
    im[395] = nan();
}

// How many of the 39,946 places are the same: not by ==, since the sign of a zero counts, and a NaN is as another.
fn alike(a: &[f64; 39946], b: &[f64; 39946]) -> usize {
    a.iter()
        .zip(b.iter())
        .filter(|(x, y)| same_double(**x, **y))
        .count()
}

// Whether a point is that of a place.
fn at(re: f64, im: f64, p: f64) -> usize {
    one(same_double(re, p) & same_double(im, -p))
}

// Which of five points are those of their places in the frame.
fn at_places(re: &[f64], im: &[f64], points: [usize; 5], places: [f64; 5]) -> [usize; 5] {
    let mut found = [0usize; 5];
    for i in 0..5usize {
        let k = points[i];
        if k < re.len() && k < im.len() {
            found[i] = at(re[k], im[k], places[i]);
        }
    }
    found
}

fn header_places(re: &[f64; 192], im: &[f64; 192]) -> [usize; 5] {
    at_places(re, im, [0, 191, 1, 2, 3], [0.0, 191.0, 1.0, 2.0, 3.0])
}

fn main_places(re: &[f64; MAIN_SYMBOLS], im: &[f64; MAIN_SYMBOLS]) -> [usize; 5] {
    at_places(
        re,
        im,
        [0, 202, 203, 38975, 1],
        [192.0, 394.0, 399.0, 39931.0, 193.0],
    )
}

fn burst_places(re: &[f64; 768], im: &[f64; 768]) -> [usize; 5] {
    at_places(
        re,
        im,
        [0, 1, 2, 3, 767],
        [nan(), 396.0, 397.0, 398.0, 39935.0],
    )
}

// The answer of taking a frame apart, and the points that the request names.
fn show_apart(
    answer: usize,
    hr: &[f64; 192],
    hi: &[f64; 192],
    mr: &[f64; MAIN_SYMBOLS],
    mi: &[f64; MAIN_SYMBOLS],
    br: &[f64; 768],
    bi: &[f64; 768],
) {
    let h = header_places(hr, hi);
    let m = main_places(mr, mi);
    let b = burst_places(br, bi);
    let found = [
        answer, h[0], h[1], m[0], m[1], b[0], b[1], b[2], b[3], m[2], m[3], b[4],
    ];
    show(
        b"take apart: #\nheader 0 (0 and -0.0) @ its place\nheader 191 @ its place\nmain 0 @ its place\nmain 202 @ its place\nburst 0, symbol 0 (NaN) @ its place\nburst 0, symbol 1 @ its place\nburst 0, symbol 2 @ its place\nburst 0, symbol 3 @ its place\nmain 203 @ its place\nmain 38,975 @ its place\nburst 191, symbol 3 @ its place\n",
        &found,
    );
}

fn show_laid(answer: usize, real: usize, imaginary: usize) {
    let found = [answer, real, imaginary];
    show(
        b"lay: #\nplaces alike, real #, imaginary # of 39,946, of which 10 lie past the frame\n",
        &found,
    );
}

// The answer of laying a frame from its parts into an output of 39,946.
fn lay_again(
    hr: &[f64; 192],
    hi: &[f64; 192],
    mr: &[f64; MAIN_SYMBOLS],
    mi: &[f64; MAIN_SYMBOLS],
    br: &[f64; 768],
    bi: &[f64; 768],
    re: &mut [f64; 39946],
    im: &mut [f64; 39946],
) -> usize {
    row(lay(hr, hi, mr, mi, br, bi, re, im))
}

// How much is lent: of a header's real and imaginary part, of a main signal's imaginary part, of the bursts' real part, of an output's imaginary part.
#[derive(Clone, Copy)]
struct Lengths {
    header_re: usize,
    header_im: usize,
    main_im: usize,
    burst_re: usize,
    out_im: usize,
}

// The answer of laying with these lengths, where either part of an input is the same.
fn lay_short(
    hs: &[f64],
    ms: &[f64],
    bs: &[f64],
    re: &mut [f64],
    im: &mut [f64],
    lent: Lengths,
) -> usize
    requires { (lent.header_re ≤ length hs.now) × (lent.header_im ≤ length hs.now) × (lent.main_im ≤ length ms.now) × (lent.burst_re ≤ length bs.now) × (lent.out_im ≤ length im.old) }
{
    let h = lent.header_re;
    let g = lent.header_im;
    let k = lent.main_im;
    let q = lent.burst_re;
    let o = lent.out_im;
    row(lay(
        &hs[0..h],
        &hs[0..g],
        ms,
        &ms[0..k],
        &bs[0..q],
        bs,
        re,
        &mut im[0..o],
    ))
}

// The answer of laying. Of the cases from 0 on: a header of 191 and an output of 39,935; an imaginary header of 191; a main signal of 38,975; bursts of 767; an output of 39,935; one of 39,936.
fn lay_case(
    case: usize,
    hs: &[f64; 192],
    ms: &[f64; MAIN_SYMBOLS],
    bs: &[f64; 768],
    re: &mut [f64; 39946],
    im: &mut [f64; 39946],
) -> usize {
    let lent = Lengths {
        header_re: 192 - one(case == 0),
        header_im: 192 - one(case == 1),
        main_im: MAIN_SYMBOLS - one(case == 2),
        burst_re: 768 - one(case == 3),
        out_im: 39936 - one((case == 0) | (case == 4)),
    };
    lay_short(hs, ms, bs, re, im, lent)
}

fn show_lay(found: [usize; 6]) {
    show(
        b"header of 191, output of 39,935: #\nimaginary header of 191: #\nmain of 38,975: #\nbursts of 767: #\noutput of 39,935: #\noutput of 39,936: #\n",
        &found,
    );
}

fn refused_lay(
    hs: &[f64; 192],
    ms: &[f64; MAIN_SYMBOLS],
    bs: &[f64; 768],
    re: &mut [f64; 39946],
    im: &mut [f64; 39946],
) {
    let mut found = [99usize; 6];
    for (case, number) in found.iter_mut().enumerate() {
        *number = lay_case(case, hs, ms, bs, re, im);
    }
    show_lay(found);
}

// The answer of taking a frame of 39,946 apart.
fn take_whole(
    re: &[f64; 39946],
    im: &[f64; 39946],
    hr: &mut [f64; 192],
    hi: &mut [f64; 192],
    mr: &mut [f64; MAIN_SYMBOLS],
    mi: &mut [f64; MAIN_SYMBOLS],
    br: &mut [f64; 768],
    bi: &mut [f64; 768],
) -> usize {
    row(take_apart(re, im, hr, hi, mr, mi, br, bi))
}

// The answer of taking the first `o` places of a frame apart, into the first `h` places of a header output.
fn take_short(re: &[f64], im: &[f64], mr: &mut [f64], mi: &mut [f64], o: usize, h: usize) -> usize
    requires { (o ≤ length im.now) × (h ≤ 192) }
{
    let mut hr = [7.0f64; 192];
    let mut hi = [7.0f64; 192];
    let mut br = [7.0f64; 768];
    let mut bi = [7.0f64; 768];
    row(take_apart(
        re,
        &im[0..o],
        &mut hr[0..h],
        &mut hi,
        mr,
        mi,
        &mut br,
        &mut bi,
    ))
}

// The answer of taking a frame apart. Of the cases from 0 on: a frame of 39,935 and a header output of 191; a header output of 191; a frame of 39,936.
fn take_case(
    case: usize,
    re: &[f64; 39946],
    im: &[f64; 39946],
    mr: &mut [f64; MAIN_SYMBOLS],
    mi: &mut [f64; MAIN_SYMBOLS],
) -> usize {
    let o = 39936 - one(case == 0);
    let h = 192 - one(case < 2);
    take_short(re, im, mr, mi, o, h)
}

fn show_take(found: [usize; 3]) {
    show(
        b"frame of 39,935, header output of 191: #\nheader output of 191: #\nframe of 39,936: #\n",
        &found,
    );
}

fn refused_take(
    re: &[f64; 39946],
    im: &[f64; 39946],
    mr: &mut [f64; MAIN_SYMBOLS],
    mi: &mut [f64; MAIN_SYMBOLS],
) {
    let mut found = [99usize; 3];
    for (case, number) in found.iter_mut().enumerate() {
        *number = take_case(case, re, im, mr, mi);
    }
    show_take(found);
}

fn main() {
    let mut re = [0.0f64; 39946];
    let mut im = [0.0f64; 39946];
    let mut out_re = [-5.0f64; 39946];
    let mut out_im = [5.0f64; 39946];
    let mut hr = [7.0f64; 192];
    let mut hi = [7.0f64; 192];
    let mut mr = [7.0f64; MAIN_SYMBOLS];
    let mut mi = [7.0f64; MAIN_SYMBOLS];
    let mut br = [7.0f64; 768];
    let mut bi = [7.0f64; 768];
    fill_points(&mut re, &mut im);
    let taken = take_whole(
        &re, &im, &mut hr, &mut hi, &mut mr, &mut mi, &mut br, &mut bi,
    );
    show_apart(taken, &hr, &hi, &mr, &mi, &br, &bi);
    let laid = lay_again(&hr, &hi, &mr, &mi, &br, &bi, &mut out_re, &mut out_im);
    show_laid(laid, alike(&re, &out_re), alike(&im, &out_im));
    refused_take(&re, &im, &mut mr, &mut mi);
    refused_lay(&hr, &mr, &br, &mut re, &mut im);
}
