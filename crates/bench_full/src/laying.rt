// lay: header, main and burst points to a full frame.
use crate::{BURST_POINTS, points};
use bench_files::files;
use bench_files::files::Got;
use bench_line::words::{front, part};
use bench_words::text::{file, text};
use isdbs_frame::{FRAME_SYMBOLS, HEADER_SYMBOLS, MAIN_SYMBOLS};
use refusal::Refusal;

// Reads the points of the input in word i, where the output may be written.
fn read_input(
    rt: &HostRuntime,
    kind: &[u8],
    line: &[u8],
    i: usize,
    re: &mut [f64],
    im: &mut [f64],
) -> Got {
    let input = part(line, 0, i);
    let Some(opened) = files::open_for(rt, input, part(line, 0, 4)) else {
        return files::nothing();
    };
    points::read(rt, kind, opened, input, re, im)
}

// Lays the frame from as many points as were read.
fn lay_read(
    h: usize,
    m: usize,
    b: usize,
    header_re: &[f64; HEADER_SYMBOLS],
    header_im: &[f64; HEADER_SYMBOLS],
    main_re: &[f64; MAIN_SYMBOLS],
    main_im: &[f64; MAIN_SYMBOLS],
    burst_re: &[f64; BURST_POINTS],
    burst_im: &[f64; BURST_POINTS],
    re: &mut [f64; FRAME_SYMBOLS],
    im: &mut [f64; FRAME_SYMBOLS],
) -> Result<(), Refusal> {
    full_frame::lay(
        front(header_re, h),
        front(header_im, h),
        front(main_re, m),
        front(main_im, m),
        front(burst_re, b),
        front(burst_im, b),
        re,
        im,
    )
}

// Writes the frame that was laid.
fn keep(rt: &HostRuntime, output: &[u8], re: &[f64; FRAME_SYMBOLS], im: &[f64; FRAME_SYMBOLS]) {
    text(b"writing the full frame\n");
    if files::write_points(rt, output, re, im) {
        file(b"full frame", output, FRAME_SYMBOLS, b" points\nok\n");
    }
}

fn lay_over(
    rt: &HostRuntime,
    line: &[u8],
    header_re: &mut [f64; HEADER_SYMBOLS],
    header_im: &mut [f64; HEADER_SYMBOLS],
    main_re: &mut [f64; MAIN_SYMBOLS],
    main_im: &mut [f64; MAIN_SYMBOLS],
    burst_re: &mut [f64; BURST_POINTS],
    burst_im: &mut [f64; BURST_POINTS],
    re: &mut [f64; FRAME_SYMBOLS],
    im: &mut [f64; FRAME_SYMBOLS],
) {
    let h = read_input(rt, b"header", line, 1, header_re, header_im);
    if !h.well {
        return;
    }
    let m = read_input(rt, b"main", line, 2, main_re, main_im);
    if !m.well {
        return;
    }
    let b = read_input(rt, b"burst", line, 3, burst_re, burst_im);
    if !b.well {
        return;
    }
    match lay_read(
        h.count, m.count, b.count, header_re, header_im, main_re, main_im, burst_re, burst_im, re,
        im,
    ) {
        Ok(()) => keep(rt, part(line, 0, 4), re, im),
        Err(row) => points::refuse(
            row,
            b"a full frame takes 192 header, 38,976 main and 768 burst points",
        ),
    }
}

// The command on space of its own.
pub(crate) fn lay(rt: &HostRuntime, line: &[u8]) {
    let mut header_re = [0.0f64; HEADER_SYMBOLS];
    let mut header_im = [0.0f64; HEADER_SYMBOLS];
    let mut main_re = [0.0f64; MAIN_SYMBOLS];
    let mut main_im = [0.0f64; MAIN_SYMBOLS];
    let mut burst_re = [0.0f64; BURST_POINTS];
    let mut burst_im = [0.0f64; BURST_POINTS];
    let mut re = [0.0f64; FRAME_SYMBOLS];
    let mut im = [0.0f64; FRAME_SYMBOLS];
    lay_over(
        rt,
        line,
        &mut header_re,
        &mut header_im,
        &mut main_re,
        &mut main_im,
        &mut burst_re,
        &mut burst_im,
        &mut re,
        &mut im,
    );
}
