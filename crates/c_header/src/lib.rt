// The calls for C on whole frames in a capture. Each answers document 01's number, 0 for accepted; refused, it leaves what it was lent as it was. include/isdb.h declares them.
#![tactic(auto)]

ghost use Rattle.std.specs.Prelude.{◌≡◌, ◌≤◌};
ghost use Rattle.trellis.specs.Lists.{laid};
ghost use Rattle.c_answers.specs.Answers.{answered, left};
ghost use Rattle.header_sync.specs.Search.{found_at};
ghost use Rattle.header_find.specs.Headers.{header_at};
ghost use Rattle.header_align.specs.Align.{align_rows, aligned_re, aligned_im};
ghost use Rattle.c_header.specs.Calls.{header_rows, kind_of, sum_of, found_header};

use header_align::align_frame;
use header_find::{Header, find_frame, header_at};

fn kind_of(first: bool) -> u8
    ensures { result ≡ kind_of first }
{
    if first { 1 } else { 0 }
}

// A sum that is held with 40 more.
fn sum_of(sum: usize) -> i32
    requires { sum ≤ 80 }
    ensures { result ≡ sum_of sum }
{
    let held = sum as i32;
    held - 40
}

// A header, stored in the four numbers that a call is lent.
fn put_header(h: Header, kind: &mut u8, turn: &mut u8, re_sum: &mut i32, im_sum: &mut i32)
    requires { (h.re ≤ 80) × (h.im ≤ 80) }
    ensures kind { kind.new ≡ kind_of h.first }
    ensures turn { turn.new ≡ h.turn }
    ensures real { re_sum.new ≡ sum_of h.re }
    ensures imaginary { im_sum.new ≡ sum_of h.im }
{
    *kind = kind_of(h.first);
    *turn = h.turn;
    *re_sum = sum_of(h.re);
    *im_sum = sum_of(h.im);
}

// Kind, turn and sums of the frame that begins at point `at`.
#[unsafe(no_mangle)]
pub extern "C" fn isdbs_header(
    re: &[f64],
    im: &[f64],
    at: u64,
    kind: &mut u8,
    turn: &mut u8,
    re_sum: &mut i32,
    im_sum: &mut i32,
) -> u32
    ensures answers { result ≡ answered (header_rows re.now im.now at) }
    ensures kind { kind.new ≡ left result (kind_of (header_at re.now im.now at).first) kind.old }
    ensures turn { turn.new ≡ left result (header_at re.now im.now at).turn turn.old }
    ensures real { re_sum.new ≡ left result (sum_of (header_at re.now im.now at).re) re_sum.old }
    ensures imaginary { im_sum.new ≡ left result (sum_of (header_at re.now im.now at).im) im_sum.old }
{
    match header_at(re, im, at as usize) {
        Err(row) => refusal::number(Err(row)),
        Ok(h) => {
            put_header(h, kind, turn, re_sum, im_sum);
            0
        }
    }
}

// The first place from `from` on at which a frame fits best, and its header.
#[unsafe(no_mangle)]
pub extern "C" fn isdbs_find_frame(
    re: &[f64],
    im: &[f64],
    from: u64,
    place: &mut u64,
    kind: &mut u8,
    turn: &mut u8,
    re_sum: &mut i32,
    im_sum: &mut i32,
) -> u32
    ensures answers { result ≡ answered (header_rows re.now im.now from) }
    ensures place { place.new ≡ left result (found_at re.now im.now from) place.old }
    ensures kind { kind.new ≡ left result (kind_of (found_header re.now im.now from).first) kind.old }
    ensures turn { turn.new ≡ left result (found_header re.now im.now from).turn turn.old }
    ensures real { re_sum.new ≡ left result (sum_of (found_header re.now im.now from).re) re_sum.old }
    ensures imaginary { im_sum.new ≡ left result (sum_of (found_header re.now im.now from).im) im_sum.old }
{
    match find_frame(re, im, from as usize) {
        Err(row) => refusal::number(Err(row)),
        Ok(found) => {
            *place = found.place as u64;
            put_header(found.header, kind, turn, re_sum, im_sum);
            0
        }
    }
}

// The frame that begins at point `at`, turned right and of the size that it was sent with.
#[unsafe(no_mangle)]
pub extern "C" fn isdbs_align_frame(
    re: &[f64],
    im: &[f64],
    at: u64,
    out_re: &mut [f64],
    out_im: &mut [f64],
) -> u32
    ensures answers { result ≡ answered (align_rows re.now im.now at out_re.old out_im.old) }
    ensures real { out_re.new ≡ left result (laid (aligned_re re.now im.now at) out_re.old) out_re.old }
    ensures imaginary { out_im.new ≡ left result (laid (aligned_im re.now im.now at) out_im.old) out_im.old }
{
    let a = align_frame(re, im, at as usize, out_re, out_im);
    refusal::number(a)
}
