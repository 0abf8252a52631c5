// The first point that fits no load: the load that the points show is read off and encoded again, and the frames are compared point by point.
ghost use Rattle.isdbs_plan.specs.RunsOf.{Planned};

use bench_files::f64_bits;
use bench_line::space::LOAD_SPACE;
use bench_line::words::front;
use bench_words::report;
use bench_words::text::{say, text};
use isdbs_core::frame::MAIN_SYMBOLS;
use isdbs_core::slots::Plan;
use isdbs_core::tmcc::{Table, table_answer};
use isdbs_phy::demod::encode_frame;
use isdbs_plan::plan_of;
use isdbs_points::{Mapping, start_state};
use refusal::Refusal;
use wanted_read::read_load;

// The number of standard output.
const STDOUT_FILENO: i32 = 1;

// Whether two parts have other bits.
fn differ(x: f64, y: f64) -> bool {
    f64_bits(x) != f64_bits(y)
}

// A part in words: those of a made frame as numbers, others by their bits.
fn part(x: f64) {
    match f64_bits(x) {
        0 => text(b"0"),
        0x8000_0000_0000_0000 => text(b"-0"),
        0x3ff0_0000_0000_0000 => text(b"1"),
        0xbff0_0000_0000_0000 => text(b"-1"),
        0x3fe6_a09e_667f_3bcd => text(b"0.7071"),
        0xbfe6_a09e_667f_3bcd => text(b"-0.7071"),
        0x7ff8_0000_0000_0000 => text(b"NaN"),
        bits => {
            text(b"0x");
            io::print_hex(STDOUT_FILENO, bits, 16);
        }
    }
}

// A point between words.
fn point(before: &[u8], x: f64, y: f64, after: &[u8]) {
    text(before);
    part(x);
    text(b", ");
    part(y);
    text(after);
}

// The last lines: point k as it is, and as the load that is read off has it.
fn refuse_at(k: usize, x: f64, y: f64, u: f64, v: f64) {
    say(b"point $ is ", &[k]);
    point(b"(", x, y, b"); the load that the points show has (");
    point(b"", u, v, b") there\n");
    report::refused(Refusal::NoLoad);
    say(b"point $ fits no load (points are counted from 0)\n", &[k]);
}

// The last lines: the first point in which two frames differ.
fn refuse_first(
    re: &[f64; MAIN_SYMBOLS],
    im: &[f64; MAIN_SYMBOLS],
    xs: &[f64; MAIN_SYMBOLS],
    ys: &[f64; MAIN_SYMBOLS],
) {
    for k in 0..MAIN_SYMBOLS {
        if differ(re[k], xs[k]) || differ(im[k], ys[k]) {
            refuse_at(k, re[k], im[k], xs[k], ys[k]);
            return;
        }
    }
}

// Reads the load of a plan off the points.
fn read_off(
    p: Plan,
    m: Mapping,
    first: bool,
    re: &[f64; MAIN_SYMBOLS],
    im: &[f64; MAIN_SYMBOLS],
    load: &mut [u8; LOAD_SPACE],
)
    requires { Planned p }
{
    read_load(p, m, start_state(first), re, im, load);
}

// Reads the load off the points, and answers how many bytes it has; 0 where the table is none.
fn read_by_table(
    t: Table,
    m: Mapping,
    first: bool,
    re: &[f64; MAIN_SYMBOLS],
    im: &[f64; MAIN_SYMBOLS],
    load: &mut [u8; LOAD_SPACE],
) -> usize {
    let p = plan_of(t);
    let n = p.bytes;
    let answer = table_answer(t);
    let Ok(()) = answer else {
        return 0;
    };
    read_off(p, m, first, re, im, load);
    n
}

// Encodes a load into xs and ys, and shows the first point that differs.
fn show_against(
    t: Table,
    m: Mapping,
    first: bool,
    load: &[u8],
    re: &[f64; MAIN_SYMBOLS],
    im: &[f64; MAIN_SYMBOLS],
    xs: &mut [f64; MAIN_SYMBOLS],
    ys: &mut [f64; MAIN_SYMBOLS],
) {
    match encode_frame(load, t, first, m, xs, ys) {
        Ok(()) => refuse_first(re, im, xs, ys),
        Err(row) => report::refuse(row),
    }
}

// The last lines of a frame that no load has, on lent space for the load that its points show.
pub(crate) fn show(
    t: Table,
    m: Mapping,
    first: bool,
    re: &[f64; MAIN_SYMBOLS],
    im: &[f64; MAIN_SYMBOLS],
    load: &mut [u8; LOAD_SPACE],
) {
    let n = read_by_table(t, m, first, re, im, load);
    let mut xs = [0.0f64; MAIN_SYMBOLS];
    let mut ys = [0.0f64; MAIN_SYMBOLS];
    show_against(t, m, first, front(load, n), re, im, &mut xs, &mut ys);
}
