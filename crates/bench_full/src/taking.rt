// part: a full frame to header, main and burst points.
use crate::{BURST_POINTS, points};
use bench_files::files;
use bench_files::files::Got;
use bench_line::words::{front, part};
use bench_words::text::{file, text};
use isdbs_frame::{FRAME_SYMBOLS, HEADER_SYMBOLS, MAIN_SYMBOLS};
use refusal::Refusal;
use std::fs::File;

// Whether three outputs can be staged side by side; else says why not.
fn are_three(header: &[u8], signal: &[u8], burst: &[u8]) -> bool {
    files::is_plain(header)
        && files::is_plain(signal)
        && files::is_plain(burst)
        && files::are_two(header, signal)
        && files::are_two(header, burst)
        && files::are_two(signal, burst)
}

// Opens the full frame, where its three outputs may be written; else says why not.
fn open(
    rt: &HostRuntime,
    input: &[u8],
    header: &[u8],
    signal: &[u8],
    burst: &[u8],
) -> Option<File> {
    let file = files::open_for(rt, input, header)?;
    if files::may_write(rt, signal, &file) && files::may_write(rt, burst, &file) {
        return Some(file);
    }
    None
}

// Stages the three outputs, or none.
fn stage(
    rt: &HostRuntime,
    line: &[u8],
    header_re: &[f64; HEADER_SYMBOLS],
    header_im: &[f64; HEADER_SYMBOLS],
    main_re: &[f64; MAIN_SYMBOLS],
    main_im: &[f64; MAIN_SYMBOLS],
    burst_re: &[f64; BURST_POINTS],
    burst_im: &[f64; BURST_POINTS],
) -> bool {
    if !files::stage_points(rt, part(line, 0, 2), header_re, header_im) {
        return false;
    }
    if !files::stage_points(rt, part(line, 0, 3), main_re, main_im) {
        files::discard(rt, part(line, 0, 2));
        return false;
    }
    if !files::stage_points(rt, part(line, 0, 4), burst_re, burst_im) {
        files::discard(rt, part(line, 0, 2));
        files::discard(rt, part(line, 0, 3));
        return false;
    }
    true
}

// Gives the staged outputs their names; where one cannot be given, the staged files that are left are removed.
fn keep(rt: &HostRuntime, header: &[u8], signal: &[u8], burst: &[u8]) -> bool {
    if !files::keep(rt, header) {
        files::discard(rt, signal);
        files::discard(rt, burst);
        return false;
    }
    if !files::keep(rt, signal) {
        files::discard(rt, burst);
        return false;
    }
    files::keep(rt, burst)
}

// Gives the outputs their names, and says them.
fn keep_all(rt: &HostRuntime, line: &[u8]) {
    let header = part(line, 0, 2);
    let signal = part(line, 0, 3);
    let burst = part(line, 0, 4);
    if keep(rt, header, signal, burst) {
        file(b"header", header, HEADER_SYMBOLS, b" points\n");
        file(b"main", signal, MAIN_SYMBOLS, b" points\n");
        file(b"burst", burst, BURST_POINTS, b" points\nok\n");
    }
}

// The three parts of as many points as were read.
fn take(
    n: usize,
    re: &[f64; FRAME_SYMBOLS],
    im: &[f64; FRAME_SYMBOLS],
    header_re: &mut [f64; HEADER_SYMBOLS],
    header_im: &mut [f64; HEADER_SYMBOLS],
    main_re: &mut [f64; MAIN_SYMBOLS],
    main_im: &mut [f64; MAIN_SYMBOLS],
    burst_re: &mut [f64; BURST_POINTS],
    burst_im: &mut [f64; BURST_POINTS],
) -> Result<(), Refusal> {
    full_frame::take_apart(
        front(re, n),
        front(im, n),
        header_re,
        header_im,
        main_re,
        main_im,
        burst_re,
        burst_im,
    )
}

// Reads the full frame, where its three outputs may be written.
fn read_full(
    rt: &HostRuntime,
    line: &[u8],
    re: &mut [f64; FRAME_SYMBOLS],
    im: &mut [f64; FRAME_SYMBOLS],
) -> Got {
    let input = part(line, 0, 1);
    let header = part(line, 0, 2);
    let signal = part(line, 0, 3);
    let burst = part(line, 0, 4);
    if !are_three(header, signal, burst) {
        return files::nothing();
    }
    let Some(opened) = open(rt, input, header, signal, burst) else {
        return files::nothing();
    };
    points::read(rt, b"full frame", opened, input, re, im)
}

fn take_over(
    rt: &HostRuntime,
    line: &[u8],
    header_re: &mut [f64; HEADER_SYMBOLS],
    header_im: &mut [f64; HEADER_SYMBOLS],
    main_re: &mut [f64; MAIN_SYMBOLS],
    main_im: &mut [f64; MAIN_SYMBOLS],
    burst_re: &mut [f64; BURST_POINTS],
    burst_im: &mut [f64; BURST_POINTS],
    re: &mut [f64; FRAME_SYMBOLS],
    im: &mut [f64; FRAME_SYMBOLS],
) {
    let got = read_full(rt, line, re, im);
    if !got.well {
        return;
    }
    if let Err(row) = take(
        got.count, re, im, header_re, header_im, main_re, main_im, burst_re, burst_im,
    ) {
        points::refuse(row, b"a full frame has 39,936 points");
        return;
    }
    text(b"writing header, main and burst points\n");
    if stage(
        rt, line, header_re, header_im, main_re, main_im, burst_re, burst_im,
    ) {
        keep_all(rt, line);
    }
}

// The command on space of its own.
pub(crate) fn take_apart(rt: &HostRuntime, line: &[u8]) {
    let mut header_re = [0.0f64; HEADER_SYMBOLS];
    let mut header_im = [0.0f64; HEADER_SYMBOLS];
    let mut main_re = [0.0f64; MAIN_SYMBOLS];
    let mut main_im = [0.0f64; MAIN_SYMBOLS];
    let mut burst_re = [0.0f64; BURST_POINTS];
    let mut burst_im = [0.0f64; BURST_POINTS];
    let mut re = [0.0f64; FRAME_SYMBOLS];
    let mut im = [0.0f64; FRAME_SYMBOLS];
    take_over(
        rt,
        line,
        &mut header_re,
        &mut header_im,
        &mut main_re,
        &mut main_im,
        &mut burst_re,
        &mut burst_im,
        &mut re,
        &mut im,
    );
}
