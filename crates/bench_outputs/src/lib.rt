// The outputs of read: the bytes, and where they are asked for the best reading's bytes, a picture, a report, and the same as JSON. All are written, or none.
#![tactic(auto)]

use bench_files::{files, system};
use bench_line::space::LINE_BYTES;
use bench_line::words::{front, part};
use bench_setting::choice::named;
use bench_words::text::{file, text};
use std::fs::File;

const OUTPUTS: usize = 5;

// The name of output i, or none.
pub fn name<'a>(line: &'a [u8], i: usize) -> &'a [u8] {
    if i == 0 {
        return part(line, 0, 5);
    }
    named(line, part(b"bytes best chart report json", b' ', i))
}

fn is_asked(line: &[u8], i: usize) -> bool {
    i == 0 || !name(line, i).is_empty()
}

// Whether the bytes are the only output.
fn is_alone(line: &[u8]) -> bool {
    (1..OUTPUTS).all(|i| !is_asked(line, i))
}

// Whether output i can be staged; else says why not.
fn is_plain(line: &[u8], i: usize) -> bool {
    !is_asked(line, i) || files::is_plain(name(line, i))
}

fn are_plain(line: &[u8]) -> bool {
    (0..OUTPUTS).all(|i| is_plain(line, i))
}

// Whether output i has another name than output j; else says so.
fn are_two(line: &[u8], i: usize, j: usize) -> bool {
    !is_asked(line, i) || !is_asked(line, j) || files::are_two(name(line, j), name(line, i))
}

// Whether output i has another name than those before it; else says so.
fn is_another(line: &[u8], i: usize) -> bool {
    (0..i).all(|j| are_two(line, i, j))
}

fn are_all_two(line: &[u8]) -> bool {
    (0..OUTPUTS).all(|i| is_another(line, i))
}

// Whether the outputs can be staged side by side; else says why not.
pub fn are_apart(line: &[u8]) -> bool {
    is_alone(line) || (are_plain(line) && are_all_two(line))
}

// Whether output i may be written beside an open input; else says why not.
fn may_write(rt: &HostRuntime, line: &[u8], i: usize, input: &File) -> bool {
    !is_asked(line, i) || files::may_write(rt, name(line, i), input)
}

// Whether all outputs may be written beside an open input; else says why not.
pub fn may_write_all(rt: &HostRuntime, line: &[u8], input: &File) -> bool {
    (0..OUTPUTS).all(|i| may_write(rt, line, i, input))
}

fn discard(rt: &HostRuntime, line: &[u8], i: usize) {
    if is_asked(line, i) {
        files::discard(rt, name(line, i));
    }
}

// Removes what was staged of outputs `from` up to but not including `to`.
fn discard_between(rt: &HostRuntime, line: &[u8], from: usize, to: usize) {
    for i in from..to {
        discard(rt, line, i);
    }
}

// Stages output i; where that cannot be, removes those before it.
fn stage(rt: &HostRuntime, line: &[u8], i: usize, bytes: &[u8]) -> bool {
    if !is_asked(line, i) {
        return true;
    }
    if files::stage_bytes(rt, name(line, i), bytes) {
        return true;
    }
    discard_between(rt, line, 0, i);
    false
}

fn keep_one(rt: &HostRuntime, line: &[u8], i: usize) -> bool {
    !is_asked(line, i) || files::keep(rt, name(line, i))
}

// Gives every output its name.
fn keep_staged(rt: &HostRuntime, line: &[u8]) -> bool {
    for i in 0..OUTPUTS {
        if !keep_one(rt, line, i) {
            discard_between(rt, line, i, OUTPUTS);
            return false;
        }
    }
    true
}

// Says output i, which has n bytes.
fn tell(line: &[u8], i: usize, n: usize) {
    if is_asked(line, i) {
        let kinds = b"bytes|bytes of the best reading|picture|report|JSON";
        file(part(kinds, b'|', i), name(line, i), n, b" bytes\n");
    }
}

// Whether there is a file of the name in the first n bytes.
fn is_there(rt: &HostRuntime, space: &[u8; LINE_BYTES], n: usize) -> bool {
    system::open_read(rt, front(space, n)).is_ok()
}

// Whether a run has claimed an output: the file with its number is there.
fn is_claimed(rt: &HostRuntime, name: &[u8]) -> bool {
    let mut space = io::buffer();
    let at = files::put(&mut space, 0, name);
    let n = files::put(&mut space, at, b".run");
    is_there(rt, &space, n)
}

fn is_left(rt: &HostRuntime, line: &[u8], i: usize) -> bool {
    is_asked(line, i) && is_claimed(rt, name(line, i))
}

// How many outputs are claimed.
fn how_many_left(rt: &HostRuntime, line: &[u8]) -> usize {
    (0..OUTPUTS).filter(|i| is_left(rt, line, *i)).count()
}

// Names the files that stand beside output i, where it is claimed.
fn tell_left(rt: &HostRuntime, line: &[u8], i: usize) {
    if is_left(rt, line, i) {
        text(b"  ");
        quoted_with(name(line, i), b".run");
        text(b" and ");
        quoted_with(name(line, i), b".part");
        text(b"\n");
    }
}

// A name and its ending.
fn quoted_with(s: &[u8], ending: &[u8]) {
    text(b"\"");
    bench_words::text::name(s);
    text(ending);
    text(b"\"");
}

// Names the files beside all outputs, where several are claimed, so that one removal does; the last line says by whom.
fn tell_all_left(rt: &HostRuntime, line: &[u8]) {
    if how_many_left(rt, line) < 2 {
        return;
    }
    text(
        b"of this run's outputs several are claimed by another; if that was broken off, remove all of these, where they are there:\n",
    );
    for i in 0..OUTPUTS {
        tell_left(rt, line, i);
    }
}

// Writes all outputs, or none.
pub fn keep(
    rt: &HostRuntime,
    line: &[u8],
    bytes: &[u8],
    best: &[u8],
    picture: &[u8],
    report: &[u8],
    json: &[u8],
) -> bool {
    tell_all_left(rt, line);
    let is_staged = stage(rt, line, 0, bytes)
        && stage(rt, line, 1, best)
        && stage(rt, line, 2, picture)
        && stage(rt, line, 3, report)
        && stage(rt, line, 4, json);
    if !is_staged {
        return false;
    }
    if !keep_staged(rt, line) {
        return false;
    }
    tell(line, 0, bytes.len());
    tell(line, 1, best.len());
    tell(line, 2, picture.len());
    tell(line, 3, report.len());
    tell(line, 4, json.len());
    true
}
