// The bench program's command compare: how many bytes of two loads agree, and in which slots they do not.
#![tactic(auto)]

ghost use Rattle.std.specs.Prelude.{◌≤◌, ◌*◌};
ghost use Rattle.isdbs_frame.specs.Frame.{slot_bytes};
ghost use Rattle.isdbs_combination.specs.Combinations.{frame_slots};

use bench_files::files;
use bench_line::agreement::agreeing;
use bench_line::space::{LOAD_BYTES, LOAD_SPACE};
use bench_line::words;
use bench_line::words::{front, part, parts, same};
use bench_setting::usage::misused;
use bench_words::report;
use bench_words::text::{quoted, say, text};
use isdbs_core::frame::{SLOT_BYTES, SLOTS};
use isdbs_core::slots;
use isdbs_core::tmcc::Table;
use refusal::Refusal;

// The line of a valid slot that differs, or of every one; answers how many of its bytes agree.
fn slot_line(every: bool, k: usize, a: &[u8], b: &[u8]) -> usize
    ensures { result ≤ slot_bytes }
{
    if !every && agreeing(a, b) == SLOT_BYTES {
        return SLOT_BYTES;
    }
    report::slot_line(k, a, b)
}

// Compares slot by slot, and answers how many bytes agree.
fn compare_slots(every: bool, t: Table, v: usize, sent: &[u8], read: &[u8]) -> usize
    requires { v ≤ frame_slots }
    ensures { result ≤ slot_bytes * v }
{
    let mut n: usize = 0;
    for k in 0..v {
        let a = slots::slot_part(sent, t, k);
        let b = slots::slot_part(read, t, k);
        n = n + slot_line(every, k, a, b);
    }
    n
}

// 1 where two loads differ in valid slot k, of which there are v.
fn is_apart(t: Table, v: usize, sent: &[u8], read: &[u8], k: usize) -> u32 {
    if k >= v {
        return 0;
    }
    let a = slots::slot_part(sent, t, k);
    let b = slots::slot_part(read, t, k);
    if agreeing(a, b) == SLOT_BYTES { 0 } else { 1 }
}

// In which of the v valid slots two loads differ.
pub fn differing(t: Table, v: usize, sent: &[u8], read: &[u8], apart: &mut [u32; SLOTS]) {
    for k in 0..SLOTS {
        apart[k] = is_apart(t, v, sent, read, k);
    }
}

// How a file's bytes differ from a load of the table.
fn load_reason(n: usize) {
    if n > LOAD_BYTES {
        say(b" has more than $ bytes", &[LOAD_BYTES]);
    } else {
        say(b" has $ bytes", &[n]);
    }
    text(b", which is not what the table carries\n");
}

// The refusal of a file that is not a load of the table.
fn refuse_load(row: Refusal, name: &[u8], n: usize) {
    match row {
        Refusal::Length => {
            report::refused(row);
            quoted(name);
            load_reason(n);
        }
        _ => report::refuse(row),
    }
}

// Whether the bytes are a whole load of the table; else says why not.
pub fn is_load(t: Table, name: &[u8], bytes: &[u8]) -> bool {
    if let Err(row) = slots::slot_part_answer(bytes, t, 0) {
        refuse_load(row, name, bytes.len());
        return false;
    }
    true
}

// The last line of a comparison.
fn verdict(n: usize, all: usize) {
    if n < all {
        text(b"failed: only ");
    }
    report::agree(n, all);
    if n < all {
        text(b"\n");
    } else {
        text(b"\nok\n");
    }
}

fn compare_loads(every: bool, t: Table, v: usize, sent: &[u8], read: &[u8]) {
    if v > SLOTS {
        return;
    }
    let n = compare_slots(every, t, v, sent, read);
    verdict(n, SLOT_BYTES * v);
}

// Reads both loads, and compares them.
fn compare_files(
    rt: &HostRuntime,
    every: bool,
    t: Table,
    v: usize,
    line: &[u8],
    sent: &mut [u8; LOAD_SPACE],
    read: &mut [u8; LOAD_SPACE],
) {
    let sent_name = part(line, 0, 2);
    let read_name = part(line, 0, 3);
    let a = files::bytes_of(rt, sent_name, sent);
    if !a.well {
        return;
    }
    let b = files::bytes_of(rt, read_name, read);
    if !b.well {
        return;
    }
    let x = front(sent, a.count);
    let y = front(read, b.count);
    if !is_load(t, sent_name, x) {
        return;
    }
    if is_load(t, read_name, y) {
        compare_loads(every, t, v, x, y);
    }
}

// The same, on space of its own.
fn compare_in_space(rt: &HostRuntime, every: bool, t: Table, v: usize, line: &[u8]) {
    let mut sent = [0u8; LOAD_SPACE];
    let mut read = [0u8; LOAD_SPACE];
    compare_files(rt, every, t, v, line, &mut sent, &mut read);
}

// Whether the words end with `all`.
fn is_every(line: &[u8]) -> bool {
    parts(line, 0) == 5 && same(part(line, 0, 4), b"all")
}

// bench compare TABLE SENT READ [all]
pub fn compare(rt: &HostRuntime, line: &[u8]) {
    let every = is_every(line);
    if !every && parts(line, 0) != 4 {
        misused(b"compare takes TABLE SENT READ [all]", b"");
        return;
    }
    let Some(t) = words::table(part(line, 0, 1)) else {
        misused(b"this is no TABLE:", part(line, 0, 1));
        return;
    };
    if let Some(v) = report::table(t) {
        compare_in_space(rt, every, t, v, line);
    }
}
