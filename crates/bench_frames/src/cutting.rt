// cut: one frame of a capture to a file.
use crate::searching::read_from;
use crate::words;
use crate::words::misused;
use bench_files::files;
use bench_header::minus;
use bench_line::words::{digits, part, parts};
use bench_words::report;
use bench_words::text::{file, one_of, say, text};
use header_align::align_frame;
use header_find::header_at;
use isdbs_frame::FRAME_SYMBOLS;
use refusal::Refusal;
use std::fs::File;

// How a reading of so many points went: all were there, fewer, or the capture could not be read, which has been said.
const ALL: u8 = 0;

const FEWER: u8 = 1;

const FAILED: u8 = 2;

fn outcome(well: bool, count: usize, n: usize) -> u8 {
    if !well {
        return FAILED;
    }
    if count == n { ALL } else { FEWER }
}

// Passes over n points, at most a frame's.
fn pass_few(
    rt: &HostRuntime,
    opened: &File,
    name: &[u8],
    n: usize,
    re: &mut [f64],
    im: &mut [f64],
) -> u8 {
    let got = read_from(rt, opened, name, minus(FRAME_SYMBOLS, n), re, im);
    outcome(got.well, got.count, n)
}

// Passes over n frames' worth of points.
fn pass_frames(
    rt: &HostRuntime,
    opened: &File,
    name: &[u8],
    n: usize,
    re: &mut [f64; FRAME_SYMBOLS],
    im: &mut [f64; FRAME_SYMBOLS],
) -> u8 {
    for _ in 0..n {
        let passed = pass_few(rt, opened, name, FRAME_SYMBOLS, re, im);
        if passed != ALL {
            return passed;
        }
    }
    ALL
}

// Reads the frame after n points.
fn read_frame(
    rt: &HostRuntime,
    opened: &File,
    name: &[u8],
    n: usize,
    re: &mut [f64; FRAME_SYMBOLS],
    im: &mut [f64; FRAME_SYMBOLS],
) -> u8 {
    let frames = pass_frames(rt, opened, name, n / FRAME_SYMBOLS, re, im);
    if frames != ALL {
        return frames;
    }
    let few = pass_few(rt, opened, name, n % FRAME_SYMBOLS, re, im);
    if few != ALL {
        return few;
    }
    let got = files::read_next(rt, opened, name, re, im);
    outcome(got.well, got.count, FRAME_SYMBOLS)
}

// Whether the points from `place` on are a whole frame, which is then held; else says why not.
fn hold(
    rt: &HostRuntime,
    opened: &File,
    name: &[u8],
    place: usize,
    re: &mut [f64; FRAME_SYMBOLS],
    im: &mut [f64; FRAME_SYMBOLS],
) -> bool {
    let read = read_frame(rt, opened, name, place, re, im);
    if read == FEWER {
        report::refused(Refusal::Symbols);
        say(b"there are no 39,936 points from point $ on\n", &[place]);
    }
    read == ALL
}

// Says what the header says, and answers whether it tells a turn.
fn say_header(place: usize, re: &[f64; FRAME_SYMBOLS], im: &[f64; FRAME_SYMBOLS]) -> bool {
    match header_at(re, im, 0) {
        Err(_) => false,
        Ok(h) => {
            let is_told = h.turn <= 7;
            say(b"frame at point $", &[place]);
            words::header(h, re, im, 0);
            is_told
        }
    }
}

// Writes the frame, and ends.
fn write(
    rt: &HostRuntime,
    name: &[u8],
    is_told: bool,
    re: &[f64; FRAME_SYMBOLS],
    im: &[f64; FRAME_SYMBOLS],
) {
    if !files::write_points(rt, name, re, im) {
        return;
    }
    file(b"full frame", name, FRAME_SYMBOLS, b" points\n");
    one_of(
        b"doubtful: no header is told there\n|ok\n",
        is_told as usize,
    );
}

// Writes the frame that is held, as it is or aligned.
fn put(
    rt: &HostRuntime,
    line: &[u8],
    is_told: bool,
    re: &[f64; FRAME_SYMBOLS],
    im: &[f64; FRAME_SYMBOLS],
    out_re: &mut [f64; FRAME_SYMBOLS],
    out_im: &mut [f64; FRAME_SYMBOLS],
) {
    if parts(line, 0) < 5 {
        write(rt, part(line, 0, 3), is_told, re, im);
        return;
    }
    if let Err(row) = align_frame(re, im, 0, out_re, out_im) {
        report::refuse(row);
        return;
    }
    text(b"aligned by the mean of its header\n");
    write(rt, part(line, 0, 3), is_told, out_re, out_im);
}

fn cut_at(
    rt: &HostRuntime,
    line: &[u8],
    place: usize,
    re: &mut [f64; FRAME_SYMBOLS],
    im: &mut [f64; FRAME_SYMBOLS],
    out_re: &mut [f64; FRAME_SYMBOLS],
    out_im: &mut [f64; FRAME_SYMBOLS],
) {
    let input = part(line, 0, 1);
    let output = part(line, 0, 3);
    if !files::is_plain(output) {
        return;
    }
    let Some(opened) = files::open_for(rt, input, output) else {
        return;
    };
    let is_held = hold(rt, &opened, input, place, re, im);
    drop(opened);
    if is_held {
        let is_told = say_header(place, re, im);
        put(rt, line, is_told, re, im, out_re, out_im);
    }
}

pub(crate) fn cut(
    rt: &HostRuntime,
    line: &[u8],
    re: &mut [f64; FRAME_SYMBOLS],
    im: &mut [f64; FRAME_SYMBOLS],
    out_re: &mut [f64; FRAME_SYMBOLS],
    out_im: &mut [f64; FRAME_SYMBOLS],
) {
    let word = part(line, 0, 2);
    match digits(word) {
        None => misused(
            b"PLACE is a number of up to seven digits without commas, not",
            word,
        ),
        Some(n) => cut_at(rt, line, n as usize, re, im, out_re, out_im),
    }
}
