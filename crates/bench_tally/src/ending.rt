// The report of a capture: its file, and the last lines of the run.
use crate::tally::Tally;
use bench_files::system::{EFBIG, ENOSPC};
use bench_files::{files, system};
use bench_frames::searching::{Held, tell_capture};
use bench_header::plus;
use bench_line::space::LINE_BYTES;
use bench_line::words::front;
use bench_words::report;
use bench_words::text::{one_of, say, say_named, text};
use isdbs_core::frame::FRAME_SYMBOLS;
use refusal::Refusal;
use std::fs::File;

// The name of the report while it is written.
fn part_name(name: &[u8], space: &mut [u8; LINE_BYTES]) -> usize {
    let at = files::put(space, 0, name);
    files::put(space, at, b".part")
}

fn open_named(rt: &HostRuntime, space: &[u8; LINE_BYTES], n: usize) -> Result<File, i32> {
    system::open_update(rt, front(space, n))
}

// The place of an error of the system among those that have words; 0 where it has none.
fn cause(error: i32) -> usize {
    match error {
        ENOSPC => 1,
        EFBIG => 2,
        _ => 0,
    }
}

// The last line where the report cannot be written, by the system's error.
fn cannot_write(name: &[u8], error: i32) {
    say_named(b"failed: cannot write $", name);
    one_of(
        b"\n|: the disk is full\n|: it would be larger than a file may be\n",
        cause(error),
    );
}

// Makes the file that is written first, and opens it; else says why it cannot.
pub fn open_report(rt: &HostRuntime, name: &[u8]) -> Option<File> {
    if !files::stage_bytes(rt, name, b"") {
        return None;
    }
    let mut space = io::buffer();
    let n = part_name(name, &mut space);
    match open_named(rt, &space, n) {
        Ok(report) => Some(report),
        Err(error) => {
            cannot_write(name, error);
            files::discard(rt, name);
            None
        }
    }
}

// Why not all of a report is on the disk: 0 where it is.
fn unwritten(report: &File, is_written: bool) -> i32 {
    if is_written {
        return system::sync(report);
    }
    system::why_not_written(report)
}

// ---- the last lines

fn tell(name: &[u8], slots: usize, held: Held, t: Tally) {
    tell_capture(name, held, t.frames, t.end);
    say(
        b"frames: $ certain, $ best, $ doubtful, of $ valid slots each\n",
        &[t.certain, t.best, t.doubtful, slots],
    );
}

fn say_end(t: Tally) {
    if t.doubtful == 0 {
        text(b"ok\n");
        return;
    }
    say(
        b"doubtful: $ of $ frames are neither certain nor best\n",
        &[t.doubtful, t.frames],
    );
}

// Keeps the report of a capture that was read to its end, or says why there is none.
fn end(rt: &HostRuntime, name: &[u8], output: &[u8], slots: usize, held: Held, t: Tally) {
    if plus(held.start, held.count) < FRAME_SYMBOLS {
        files::discard(rt, output);
        report::refused(Refusal::Symbols);
        text(b"a whole frame has 39,936 points\n");
        return;
    }
    tell(name, slots, held, t);
    if t.frames == 0 {
        files::discard(rt, output);
        text(b"doubtful: no frame was found; no report is written\n");
        return;
    }
    if files::keep(rt, output) {
        say_named(b"report $: a line for each frame\n", output);
        say_end(t);
    }
}

// The capture, read to its end, or as far as it can be read and the report written.
pub fn conclude(
    rt: &HostRuntime,
    name: &[u8],
    output: &[u8],
    slots: usize,
    report: File,
    held: Held,
    t: Tally,
) {
    let error = unwritten(&report, t.is_written);
    drop(report);
    if !held.well {
        files::discard(rt, output);
        return;
    }
    if error != 0 {
        files::discard(rt, output);
        cannot_write(output, error);
        return;
    }
    end(rt, name, output, slots, held, t);
}
