// The points of a frame for the command read: read from its file, and taken out of a full frame, whose header is looked at.
#![tactic(auto)]

use bench_checksum::{BEGUN, Summed, ended, sum_of};
use bench_files::files::Got;
use bench_files::{files, system};
use bench_header::{Told, say_header, say_kind, told_at};
use bench_line::words::part;
use bench_outputs::may_write_all;
use bench_report::page::Input;
use bench_setting::choice::{Reading, has, kind_is_header, of_kind};
use bench_verdict::last::{NO_HEADER, NOT_TOLD};
use bench_words::report;
use bench_words::text::{file, say, text};
use full_frame::take_apart;
use isdbs_core::frame::MAIN_SYMBOLS;
use isdbs_frame::{FRAME_SYMBOLS, HEADER_SYMBOLS};
use refusal::Refusal;
use std::fs::File;
use std::os::fd::AsRawFd;

// The points of a frame's bursts.
const BURST_POINTS: usize = 768;

// Main points that are held, and how they are to be read: how many, and how many bytes of one more point there are; and the file that they are from.
#[derive(Clone, Copy)]
pub struct Held {
    pub count: usize,
    pub over: usize,
    pub input: Input,
    pub reading: Reading,
}

// Opens the frame, where the outputs may be written; else says why not.
fn open(rt: &HostRuntime, line: &[u8]) -> Option<File> {
    let opened = files::open(rt, part(line, 0, 4))?;
    if may_write_all(rt, line, &opened) {
        return Some(opened);
    }
    None
}

// The bytes of an open file and their checksum, where a report asks for them; the file then stands at its first byte again. None where it cannot.
fn sum_for(line: &[u8], opened: &File) -> Option<Summed> {
    if !has(line, b"report") && !has(line, b"json") {
        return Some(Summed {
            bytes: 0,
            register: BEGUN,
        });
    }
    let sum = sum_of(opened.as_raw_fd());
    if system::to_start(opened) { sum } else { None }
}

// Whether the points are those of a full frame.
fn is_full(line: &[u8], points: usize) -> bool {
    if has(line, b"main") {
        return false;
    }
    has(line, b"full") || points == FRAME_SYMBOLS
}

// More bytes than a file has: of a pipe it is not known how many are left.
const MANY: usize = 0x2000_0000_0000_0000;

// From so many bytes on a rest is not counted.
const MOST_LEFT: usize = 0x4000_0000_0000_0000;

// How many bytes of an open file were not read; of a pipe MANY where there are any.
fn bytes_left(opened: &File) -> usize {
    let Some(here) = system::place(opened) else {
        if system::has_more(opened) {
            return MANY;
        }
        return 0;
    };
    system::to_end(opened).unwrap_or(0).saturating_sub(here)
}

// The main points of a full frame, over lent space for the others.
fn take_over(
    full_re: &[f64; FRAME_SYMBOLS],
    full_im: &[f64; FRAME_SYMBOLS],
    re: &mut [f64; MAIN_SYMBOLS],
    im: &mut [f64; MAIN_SYMBOLS],
    header_re: &mut [f64; HEADER_SYMBOLS],
    header_im: &mut [f64; HEADER_SYMBOLS],
    burst_re: &mut [f64; BURST_POINTS],
    burst_im: &mut [f64; BURST_POINTS],
) -> Result<(), Refusal> {
    take_apart(
        full_re, full_im, header_re, header_im, re, im, burst_re, burst_im,
    )
}

// The main points of a full frame.
fn take_main(
    full_re: &[f64; FRAME_SYMBOLS],
    full_im: &[f64; FRAME_SYMBOLS],
    re: &mut [f64; MAIN_SYMBOLS],
    im: &mut [f64; MAIN_SYMBOLS],
) -> Result<(), Refusal> {
    let mut header_re = [0.0f64; HEADER_SYMBOLS];
    let mut header_im = [0.0f64; HEADER_SYMBOLS];
    let mut burst_re = [0.0f64; BURST_POINTS];
    let mut burst_im = [0.0f64; BURST_POINTS];
    take_over(
        full_re,
        full_im,
        re,
        im,
        &mut header_re,
        &mut header_im,
        &mut burst_re,
        &mut burst_im,
    )
}

// How many of the points are main points.
fn main_points(points: usize) -> usize {
    points.min(MAIN_SYMBOLS)
}

// The input of so many points.
fn input_of(sum: Summed, points: usize, turn: u8, w1: usize, last: usize) -> Input {
    Input {
        bytes: sum.bytes,
        checksum: ended(sum.register),
        points,
        turn,
        w1,
        last,
    }
}

// The kind that the header tells; that which was given where it tells none.
fn kind_by(h: Told, given: bool) -> bool {
    if h.turn < NOT_TOLD { h.first } else { given }
}

// A full frame: its header is said, and tells the kind.
fn hold_full(
    s: Reading,
    line: &[u8],
    sum: Summed,
    full_re: &[f64; FRAME_SYMBOLS],
    full_im: &[f64; FRAME_SYMBOLS],
    re: &mut [f64; MAIN_SYMBOLS],
    im: &mut [f64; MAIN_SYMBOLS],
) -> Option<Held> {
    let h = told_at(full_re, full_im, 0);
    say_header(h);
    if !kind_is_header(line) {
        say_kind(h, s.first);
    }
    if let Err(row) = take_main(full_re, full_im, re, im) {
        report::refuse(row);
        return None;
    }
    let i = input_of(sum, FRAME_SYMBOLS, h.turn, h.w1, h.last);
    let r = of_kind(s, kind_by(h, s.first));
    Some(Held {
        count: MAIN_SYMBOLS,
        over: 0,
        input: i,
        reading: r,
    })
}

// Main points: nothing tells their kind.
fn hold_main(
    s: Reading,
    line: &[u8],
    sum: Summed,
    got: Got,
    full_re: &[f64; FRAME_SYMBOLS],
    full_im: &[f64; FRAME_SYMBOLS],
    re: &mut [f64; MAIN_SYMBOLS],
    im: &mut [f64; MAIN_SYMBOLS],
) -> Option<Held> {
    if kind_is_header(line) {
        text(b"failed: KIND is header, and these are main points without one\n");
        return None;
    }
    re.copy_from_slice(&full_re[..MAIN_SYMBOLS]);
    im.copy_from_slice(&full_im[..MAIN_SYMBOLS]);
    let count = main_points(got.count);
    let i = input_of(sum, count, NO_HEADER, 0, 0);
    Some(Held {
        count,
        over: got.over,
        input: i,
        reading: s,
    })
}

// The last line where a full frame has too few points.
fn refuse_full(got: Got) {
    say(
        b"refused 6: the file has $ points and $ bytes over, and a full frame has $ points\n",
        &[got.count, got.over, FRAME_SYMBOLS],
    );
}

// Ends the line on points and bytes after the first frame, of which there are some.
fn tell_both(points: usize, bytes: usize) {
    if points == 0 {
        say(b"$ bytes after it are not\n", &[bytes]);
        return;
    }
    if bytes == 0 {
        say(b"$ points after it are not\n", &[points]);
        return;
    }
    say(b"$ points and $ bytes after it are not\n", &[points, bytes]);
}

// Says how many points and bytes follow the first frame, where any do.
fn tell_left(points: usize, bytes: usize) {
    if points == 0 && bytes == 0 {
        return;
    }
    text(b"the first frame of the file is read; ");
    if bytes >= MANY {
        text(b"what follows is not\n");
        return;
    }
    tell_both(points, bytes);
}

// Says what was read, and what follows it of so many points and some bytes.
fn tell_points(line: &[u8], count: usize, bytes: usize) {
    let name = part(line, 0, 4);
    if is_full(line, count) {
        file(b"full frame", name, count, b" points; decoding\n");
        tell_left(0, bytes);
        return;
    }
    file(b"frame", name, main_points(count), b" points; decoding\n");
    if count >= MAIN_SYMBOLS {
        tell_left(count - MAIN_SYMBOLS, bytes);
    }
}

// Holds the points that were read.
fn hold(
    s: Reading,
    line: &[u8],
    sum: Summed,
    got: Got,
    full_re: &[f64; FRAME_SYMBOLS],
    full_im: &[f64; FRAME_SYMBOLS],
    re: &mut [f64; MAIN_SYMBOLS],
    im: &mut [f64; MAIN_SYMBOLS],
) -> Option<Held> {
    if !is_full(line, got.count) {
        return hold_main(s, line, sum, got, full_re, full_im, re, im);
    }
    if got.count < FRAME_SYMBOLS {
        refuse_full(got);
        return None;
    }
    hold_full(s, line, sum, full_re, full_im, re, im)
}

// Reads the points of an open file, says what was read, and closes it.
fn take_in(
    rt: &HostRuntime,
    line: &[u8],
    opened: File,
    full_re: &mut [f64; FRAME_SYMBOLS],
    full_im: &mut [f64; FRAME_SYMBOLS],
) -> Got {
    text(b"reading the points\n");
    let got = files::read_next(rt, &opened, part(line, 0, 4), full_re, full_im);
    let rest = if got.well { bytes_left(&opened) } else { 0 };
    drop(opened);
    if got.well {
        // A rest of 2^62 bytes or more is not counted: nothing is said of it.
        let rest = if rest < MOST_LEFT { rest } else { 0 };
        tell_points(line, got.count, got.over.saturating_add(rest));
    }
    got
}

// Holds the points of an open file, and closes it.
fn read_open(
    rt: &HostRuntime,
    s: Reading,
    line: &[u8],
    opened: File,
    full_re: &mut [f64; FRAME_SYMBOLS],
    full_im: &mut [f64; FRAME_SYMBOLS],
    re: &mut [f64; MAIN_SYMBOLS],
    im: &mut [f64; MAIN_SYMBOLS],
) -> Option<Held> {
    let Some(sum) = sum_for(line, &opened) else {
        drop(opened);
        text(b"failed: the input cannot be read twice, as a report asks\n");
        return None;
    };
    let got = take_in(rt, line, opened, full_re, full_im);
    if !got.well {
        return None;
    }
    hold(s, line, sum, got, full_re, full_im, re, im)
}

// Reads the points of the frame; says what was read, or why not.
pub fn read_points(
    rt: &HostRuntime,
    s: Reading,
    line: &[u8],
    re: &mut [f64; MAIN_SYMBOLS],
    im: &mut [f64; MAIN_SYMBOLS],
) -> Option<Held> {
    let opened = open(rt, line)?;
    let mut full_re = [0.0f64; FRAME_SYMBOLS];
    let mut full_im = [0.0f64; FRAME_SYMBOLS];
    read_open(rt, s, line, opened, &mut full_re, &mut full_im, re, im)
}
