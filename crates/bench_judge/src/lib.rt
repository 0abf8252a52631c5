// The bench program's command judge: whether the points of a frame prove bytes at hand.
#![tactic(auto)]

use bench_files::files;
use bench_files::files::Got;
use bench_line::space::LOAD_SPACE;
use bench_line::words::{front, part};
use bench_setting::setting::{Setting, setting_for_two};
use bench_verdict::{end, tell_at_hand};
use bench_words::report;
use bench_words::text::{file, say, text};
use isdbs_core::frame::{MAIN_SYMBOLS, SLOTS};
use refusal::Refusal;

// The last line of bytes that were not judged.
fn refuse(
    row: Refusal,
    points: Got,
    size: usize,
    re: &[f64; MAIN_SYMBOLS],
    im: &[f64; MAIN_SYMBOLS],
) {
    match row {
        Refusal::Length => {
            report::refused(row);
            say(
                b"the file has $ bytes, which are not those that the frame carries\n",
                &[size],
            );
        }
        _ => report::refuse_reading(row, points.count, points.over, re, im),
    }
}

// Judges the bytes by the points that were read.
fn judge_read(
    s: Setting,
    points: Got,
    bytes: &[u8],
    re: &[f64; MAIN_SYMBOLS],
    im: &[f64; MAIN_SYMBOLS],
) {
    let t = s.table;
    let m = s.mapping;
    let n = points.count;
    let mut outside = [0u32; SLOTS];
    let done = judge::judge(
        front(re, n),
        front(im, n),
        t,
        m,
        s.first,
        bytes,
        &mut outside,
    );
    match done {
        Ok(sum) => {
            tell_at_hand(bytes.len(), sum, &outside);
            end(sum);
        }
        Err(row) => refuse(row, points, bytes.len(), re, im),
    }
}

// Reads the points of a frame, and judges bytes at hand by them.
fn judge_frame(
    rt: &HostRuntime,
    s: Setting,
    line: &[u8],
    bytes: &[u8],
    re: &mut [f64; MAIN_SYMBOLS],
    im: &mut [f64; MAIN_SYMBOLS],
) {
    let frame = part(line, 0, 4);
    let Some(opened) = files::open(rt, frame) else {
        return;
    };
    text(b"reading the points\n");
    let got = files::read_points(rt, opened, frame, re, im);
    if !got.well {
        return;
    }
    file(b"frame", frame, got.count, b" points\n");
    file(b"bytes", part(line, 0, 5), bytes.len(), b" bytes\n");
    judge_read(s, got, bytes, re, im);
}

// The same, on space of its own.
fn judge_in_space(rt: &HostRuntime, s: Setting, line: &[u8], bytes: &[u8]) {
    let mut re = [0.0f64; MAIN_SYMBOLS];
    let mut im = [0.0f64; MAIN_SYMBOLS];
    judge_frame(rt, s, line, bytes, &mut re, &mut im);
}

// Reads the bytes at hand, and judges them.
fn judge_files(rt: &HostRuntime, s: Setting, line: &[u8], bytes: &mut [u8; LOAD_SPACE]) {
    let had = files::bytes_of(rt, part(line, 0, 5), bytes);
    if had.well {
        judge_in_space(rt, s, line, front(bytes, had.count));
    }
}

// bench judge TABLE MAPPING KIND FRAME BYTES
pub fn judge_command(rt: &HostRuntime, line: &[u8]) {
    let Some(s) = setting_for_two(line, b"judge takes TABLE MAPPING KIND FRAME BYTES") else {
        return;
    };
    let t = s.table;
    let mut bytes = [0u8; LOAD_SPACE];
    if report::table(t).is_some() {
        judge_files(rt, s, line, &mut bytes);
    }
}
