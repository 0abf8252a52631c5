// The bench program's command overlay: the exclusive-or of two loads.
#![tactic(auto)]

use bench_files::files;
use bench_files::files::Got;
use bench_line::space::{LOAD_BYTES, LOAD_SPACE};
use bench_line::words::{front, part, parts};
use bench_setting::usage::misused;
use bench_words::report;
use bench_words::text::{file, quoted, text};
use refusal::Refusal;

// What was read of a file.
fn bytes_of(name: &[u8], n: usize) {
    if n > LOAD_BYTES {
        text(b"load ");
        quoted(name);
        text(b": more than 9,744 bytes\n");
        return;
    }
    file(b"load", name, n, b" bytes\n");
}

// Reads an input, where the output may be written.
fn read(rt: &HostRuntime, input: &[u8], output: &[u8], bytes: &mut [u8; LOAD_SPACE]) -> Got {
    let got = files::bytes_for(rt, input, output, bytes);
    if got.well {
        bytes_of(input, got.count);
    }
    got
}

// Writes the exclusive-or.
fn keep(rt: &HostRuntime, name: &[u8], bytes: &[u8]) {
    text(b"writing the exclusive-or\n");
    if files::write_bytes(rt, name, bytes) {
        file(b"overlaid", name, bytes.len(), b" bytes\nok\n");
    }
}

fn refuse(row: Refusal, why: &[u8]) {
    report::refused(row);
    text(why);
    text(b"\n");
}

// Overlays the first n and m bytes.
fn overlay_read(
    rt: &HostRuntime,
    n: usize,
    m: usize,
    output: &[u8],
    first: &[u8; LOAD_SPACE],
    second: &[u8; LOAD_SPACE],
    sum: &mut [u8; LOAD_SPACE],
) {
    if n > LOAD_BYTES || m > LOAD_BYTES {
        refuse(Refusal::Length, b"a load has at most 9,744 bytes");
        return;
    }
    match overlay::overlay(front(first, n), front(second, m), sum) {
        Ok(()) => keep(rt, output, front(sum, n)),
        Err(Refusal::Length) => refuse(
            Refusal::Length,
            b"the two files do not have equally many bytes",
        ),
        Err(row) => report::refuse(row),
    }
}

fn overlay_files(
    rt: &HostRuntime,
    line: &[u8],
    first: &mut [u8; LOAD_SPACE],
    second: &mut [u8; LOAD_SPACE],
    sum: &mut [u8; LOAD_SPACE],
) {
    let output = part(line, 0, 3);
    let a = read(rt, part(line, 0, 1), output, first);
    if !a.well {
        return;
    }
    let b = read(rt, part(line, 0, 2), output, second);
    if !b.well {
        return;
    }
    overlay_read(rt, a.count, b.count, output, first, second, sum);
}

// bench overlay LOAD1 LOAD2 OUT
pub fn overlay_command(rt: &HostRuntime, line: &[u8]) {
    if parts(line, 0) != 4 {
        misused(b"overlay takes LOAD1 LOAD2 OUT", b"");
        return;
    }
    let mut first = [0u8; LOAD_SPACE];
    let mut second = [0u8; LOAD_SPACE];
    let mut sum = [0u8; LOAD_SPACE];
    overlay_files(rt, line, &mut first, &mut second, &mut sum);
}
