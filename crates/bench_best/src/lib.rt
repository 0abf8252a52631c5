// The bench program's command best: the best reading of a frame, how strong it is in each slot, and whether read gives the same bytes.
#![tactic(auto)]

mod strength;

use crate::strength::by_slot;
use bench_calls::reading::{best_of, clean_leads, read_of};
use bench_compare::differing;
use bench_files::files;
use bench_files::files::Got;
use bench_line::space::LOAD_SPACE;
use bench_line::words::{front, part};
use bench_setting::choice::{Reading, best_reading_of};
use bench_verdict::places;
use bench_words::report;
use bench_words::text::{file, text};
use isdbs_core::frame::{MAIN_SYMBOLS, SLOT_BYTES, SLOTS};

// Whether read gives the same bytes, or in which slots it does not.
fn tell_apart(apart: &[u32; SLOTS], is_same: bool) {
    if is_same {
        text(b"read gives the same bytes\n");
        return;
    }
    text(b"read gives other bytes");
    places(apart, b" valid slot");
    text(b"\n");
}

// Writes the bytes.
fn keep(rt: &HostRuntime, name: &[u8], bytes: &[u8]) {
    if files::write_bytes(rt, name, bytes) {
        file(b"bytes", name, bytes.len(), b" bytes\nok\n");
    }
}

// Lays what read gives beside the best reading, reports both, and keeps the bytes.
fn conclude(
    rt: &HostRuntime,
    s: Reading,
    v: usize,
    line: &[u8],
    best: &[u8],
    read: &[u8],
    leads: &[u64; SLOTS],
    clean: &[u64; SLOTS],
) {
    let t = s.table;
    let mut apart = [0u32; SLOTS];
    differing(t, v, best, read, &mut apart);
    text(
        b"the best of all readings; the strength of a slot is its lead in percent of a clean one's:\n",
    );
    by_slot(t, leads, clean, &apart);
    tell_apart(&apart, bench_line::words::same(best, read));
    keep(rt, part(line, 0, 5), best);
}

// The clean leads and what read gives of all points, and the report.
fn lay_beside(
    rt: &HostRuntime,
    s: Reading,
    line: &[u8],
    re: &[f64; MAIN_SYMBOLS],
    im: &[f64; MAIN_SYMBOLS],
    v: usize,
    best: &[u8],
    leads: &[u64; SLOTS],
    read: &mut [u8; LOAD_SPACE],
) {
    let mut clean = [0u64; SLOTS];
    if let Err(row) = clean_leads(s, best, &mut clean) {
        report::refuse(row);
        return;
    }
    let mut counts = [0u32; SLOTS];
    match read_of(s, MAIN_SYMBOLS, re, im, read, &mut counts) {
        Ok(r) => conclude(rt, s, v, line, best, front(read, r.bytes), leads, &clean),
        Err(row) => report::refuse(row),
    }
}

// Reads the points, and reports what was read or says why they are refused.
fn read_points(
    rt: &HostRuntime,
    s: Reading,
    v: usize,
    line: &[u8],
    points: Got,
    re: &[f64; MAIN_SYMBOLS],
    im: &[f64; MAIN_SYMBOLS],
    bytes: &mut [u8; LOAD_SPACE],
    read: &mut [u8; LOAD_SPACE],
) {
    let n = points.count;
    let mut leads = [0u64; SLOTS];
    if let Err(row) = best_of(s, n, re, im, bytes, &mut leads) {
        report::refuse_reading(row, n, points.over, re, im);
        return;
    }
    if v > SLOTS {
        return;
    }
    let best = front(bytes, SLOT_BYTES * v);
    lay_beside(rt, s, line, re, im, v, best, &leads, read);
}

// The same, on space of its own.
fn read_in_space(
    rt: &HostRuntime,
    s: Reading,
    v: usize,
    line: &[u8],
    points: Got,
    re: &[f64; MAIN_SYMBOLS],
    im: &[f64; MAIN_SYMBOLS],
) {
    let mut bytes = [0u8; LOAD_SPACE];
    let mut read = [0u8; LOAD_SPACE];
    read_points(rt, s, v, line, points, re, im, &mut bytes, &mut read);
}

// Reads the points of the frame; says what was read.
fn points_of(
    rt: &HostRuntime,
    line: &[u8],
    re: &mut [f64; MAIN_SYMBOLS],
    im: &mut [f64; MAIN_SYMBOLS],
) -> Got {
    let input = part(line, 0, 4);
    let Some(opened) = files::open_for(rt, input, part(line, 0, 5)) else {
        return files::nothing();
    };
    text(b"reading the points\n");
    let got = files::read_points(rt, opened, input, re, im);
    if got.well {
        file(b"frame", input, got.count, b" points; searching\n");
    }
    got
}

// Reads the frame.
fn read_frame(rt: &HostRuntime, s: Reading, v: usize, line: &[u8]) {
    let mut re = [0.0f64; MAIN_SYMBOLS];
    let mut im = [0.0f64; MAIN_SYMBOLS];
    let got = points_of(rt, line, &mut re, &mut im);
    if got.well {
        read_in_space(rt, s, v, line, got, &re, &im);
    }
}

// bench best TABLE MAPPING KIND FRAME BYTES [unknown] [SCALES]
pub fn best(rt: &HostRuntime, line: &[u8]) {
    let Some(s) = best_reading_of(line) else {
        return;
    };
    let t = s.table;
    if let Some(v) = report::table(t) {
        read_frame(rt, s, v, line);
    }
}
