// The bench program's command bytes: the full load behind the points of a wanted frame.
#![tactic(auto)]

mod misfit;

use bench_files::files;
use bench_files::files::Got;
use bench_line::space::LOAD_SPACE;
use bench_line::words::{front, part};
use bench_setting::setting::{Setting, setting_for_two};
use bench_words::report;
use bench_words::text::{file, text};
use isdbs_core::frame::MAIN_SYMBOLS;
use isdbs_core::tmcc::Table;
use isdbs_points::Mapping;
use refusal::Refusal;
use wanted_load::wanted_load;

// Writes the load.
fn keep(rt: &HostRuntime, name: &[u8], bytes: &[u8]) {
    text(b"writing the load\n");
    if files::write_bytes(rt, name, bytes) {
        file(b"bytes", name, bytes.len(), b" bytes\nok\n");
    }
}

// The last lines of a frame that was turned back.
fn refuse(
    row: Refusal,
    points: Got,
    t: Table,
    m: Mapping,
    first: bool,
    re: &[f64; MAIN_SYMBOLS],
    im: &[f64; MAIN_SYMBOLS],
    load: &mut [u8; LOAD_SPACE],
) {
    match row {
        Refusal::NoLoad => misfit::show(t, m, first, re, im, load),
        _ => report::refuse_reading(row, points.count, points.over, re, im),
    }
}

// Asks for the load of the points that were read, and writes it.
fn find(
    rt: &HostRuntime,
    points: Got,
    t: Table,
    m: Mapping,
    first: bool,
    output: &[u8],
    re: &[f64; MAIN_SYMBOLS],
    im: &[f64; MAIN_SYMBOLS],
    bytes: &mut [u8; LOAD_SPACE],
) {
    let n = points.count;
    match wanted_load(front(re, n), front(im, n), t, m, first, bytes) {
        Ok(size) => keep(rt, output, front(bytes, size)),
        Err(row) => refuse(row, points, t, m, first, re, im, bytes),
    }
}

// Reads the points, and finds their load.
fn find_in(
    rt: &HostRuntime,
    s: Setting,
    line: &[u8],
    re: &mut [f64; MAIN_SYMBOLS],
    im: &mut [f64; MAIN_SYMBOLS],
    load: &mut [u8; LOAD_SPACE],
) {
    let input = part(line, 0, 4);
    let output = part(line, 0, 5);
    let t = s.table;
    let m = s.mapping;
    let Some(opened) = files::open_for(rt, input, output) else {
        return;
    };
    text(b"reading the points\n");
    let got = files::read_points(rt, opened, input, re, im);
    if !got.well {
        return;
    }
    file(b"frame", input, got.count, b" points\n");
    find(rt, got, t, m, s.first, output, re, im, load);
}

// The same, on space of its own.
fn find_in_space(rt: &HostRuntime, s: Setting, line: &[u8]) {
    let mut re = [0.0f64; MAIN_SYMBOLS];
    let mut im = [0.0f64; MAIN_SYMBOLS];
    let mut load = [0u8; LOAD_SPACE];
    find_in(rt, s, line, &mut re, &mut im, &mut load);
}

// bench bytes TABLE MAPPING KIND FRAME BYTES
pub fn bytes(rt: &HostRuntime, line: &[u8]) {
    let Some(s) = setting_for_two(line, b"bytes takes TABLE MAPPING KIND FRAME BYTES") else {
        return;
    };
    let t = s.table;
    if report::table(t).is_some() {
        find_in_space(rt, s, line);
    }
}
