// The capture, piece by piece: each frame found is read and entered.
use crate::reading::{How, read_at};
use bench_files::files;
use bench_frames::PIECE;
use bench_frames::searching::{
    Held, PIECES, Seen, forget, look_for, looked_at, may_look, none_held, read_on,
};
use bench_frames::words::mean_there;
use bench_header::{agreed, plus};
use bench_line::words::front;
use bench_tally::ending::{conclude, open_report};
use bench_tally::tally::{Frame, Tally, enter, none_yet};
use bench_words::text::text;
use isdbs_core::frame::FRAMES;
use std::fs::File;
use std::os::fd::AsRawFd;

// What is held, and the frames that were read.
#[derive(Clone, Copy)]
struct Run {
    held: Held,
    tally: Tally,
}

// Reads the frame that was found among the points that are held.
fn frame_of(how: How, held: Held, s: Seen, re: &[f64; PIECE], im: &[f64; PIECE]) -> Frame {
    let h = s.header;
    let n = held.count;
    let told = agreed(h, front(re, n), front(im, n), s.at);
    let first = told.first;
    let mean = mean_there(first, front(re, n), front(im, n), s.at);
    let worth = read_at(how, first, front(re, n), front(im, n), s.at);
    Frame {
        place: plus(held.start, s.at),
        told,
        mean,
        is_aligned: how.aligns,
        worth,
    }
}

// Looks for a frame among the points that are held, reads and enters it, and forgets the points up to its first; where there is none, all places that were looked at.
fn look(
    how: How,
    report: i32,
    run: Run,
    sums: &mut [u32; FRAMES],
    re: &mut [f64; PIECE],
    im: &mut [f64; PIECE],
) -> Run {
    let held = run.held;
    let tally = run.tally;
    let Some(s) = look_for(held, re, im) else {
        let rest = forget(held, looked_at(held), re, im);
        return Run { held: rest, tally };
    };
    let f = frame_of(how, held, s, re, im);
    let more = enter(report, tally, f, sums);
    let rest = forget(held, plus(s.at, 1), re, im);
    Run {
        held: rest,
        tally: more,
    }
}

// All pieces, until one cannot be read or a line cannot be written.
fn all(
    rt: &HostRuntime,
    how: How,
    opened: &File,
    name: &[u8],
    report: i32,
    re: &mut [f64; PIECE],
    im: &mut [f64; PIECE],
) -> Run {
    let mut sums = [0u32; FRAMES];
    let mut run = Run {
        held: none_held(),
        tally: none_yet(),
    };
    for _ in 0..PIECES {
        let held = read_on(rt, opened, name, run.held, re, im);
        let tally = run.tally;
        run = Run { held, tally };
        if !may_look(held) || !tally.is_written {
            return run;
        }
        run = look(how, report, run, &mut sums, re, im);
    }
    run
}

pub fn capture(
    rt: &HostRuntime,
    name: &[u8],
    output: &[u8],
    how: How,
    re: &mut [f64; PIECE],
    im: &mut [f64; PIECE],
) {
    if !files::is_plain(output) {
        return;
    }
    let Some(opened) = files::open_for(rt, name, output) else {
        return;
    };
    let Some(report) = open_report(rt, output) else {
        return;
    };
    text(b"reading the capture\n");
    let run = all(rt, how, &opened, name, report.as_raw_fd(), re, im);
    drop(opened);
    conclude(rt, name, output, how.slots, report, run.held, run.tally);
}
