// The bench program's command make: bytes of a load to points of a frame.
#![tactic(auto)]

use bench_files::files;
use bench_line::space::LOAD_SPACE;
use bench_line::words::{front, part};
use bench_setting::setting::{Setting, setting_for_two};
use bench_words::report;
use bench_words::text::{file, say, say_named, text};
use isdbs_core::frame::{MAIN_SYMBOLS, SLOT_BYTES, SLOTS};
use isdbs_phy::demod::encode_frame;

// The load that was read, against what the frame carries.
fn load_line(name: &[u8], n: usize, carried: usize) {
    if n > carried {
        say_named(b"load $", name);
        say(
            b": longer than the frame carries; only its first $ bytes are sent\n",
            &[carried],
        );
        return;
    }
    file(b"load", name, n, b" bytes");
    if n < carried {
        say(b"; $ zero bytes are sent after them", &[carried - n]);
    }
    text(b"\n");
}

// Encodes the load and writes the frame.
fn make_frame(
    rt: &HostRuntime,
    s: Setting,
    load: &[u8],
    name: &[u8],
    re: &mut [f64; MAIN_SYMBOLS],
    im: &mut [f64; MAIN_SYMBOLS],
) {
    let t = s.table;
    let m = s.mapping;
    if let Err(row) = encode_frame(load, t, s.first, m, re, im) {
        report::refuse(row);
        return;
    }
    text(b"writing the frame\n");
    if files::write_points(rt, name, re, im) {
        file(b"frame", name, MAIN_SYMBOLS, b" points\nok\n");
    }
}

// The same, on space of its own.
fn make_in_space(rt: &HostRuntime, s: Setting, load: &[u8], name: &[u8]) {
    let mut re = [0.0f64; MAIN_SYMBOLS];
    let mut im = [0.0f64; MAIN_SYMBOLS];
    make_frame(rt, s, load, name, &mut re, &mut im);
}

// Reads the load of a table of v valid slots, and makes the frame.
fn make_from(rt: &HostRuntime, s: Setting, v: usize, line: &[u8], load: &mut [u8; LOAD_SPACE]) {
    let input = part(line, 0, 4);
    let output = part(line, 0, 5);
    let got = files::bytes_for(rt, input, output, load);
    if !got.well {
        return;
    }
    let n = got.count;
    if v <= SLOTS {
        load_line(input, n, SLOT_BYTES * v);
    }
    make_in_space(rt, s, front(load, n), output);
}

// bench make TABLE MAPPING KIND LOAD FRAME
pub fn make(rt: &HostRuntime, line: &[u8]) {
    let Some(s) = setting_for_two(line, b"make takes TABLE MAPPING KIND LOAD FRAME") else {
        return;
    };
    let t = s.table;
    let mut load = [0u8; LOAD_SPACE];
    if let Some(v) = report::table(t) {
        make_from(rt, s, v, line, &mut load);
    }
}
