// The bench program's command on stored coded stretches: mend.
#![tactic(auto)]

use bench_files::files;
use bench_line::space::LOAD_SPACE;
use bench_line::words::{digits, front, part, parts};
use bench_setting::usage::misused;
use bench_words::report;
use bench_words::text::{file, say, text};
use refusal::Refusal;
use trellis::FRAME_WORDS;

// A position in words.
fn position(place: u32) {
    let step = (place / 2) as usize;
    let forms = b"  X of step $\n|  Y of step $\n";
    say(part(forms, b'|', (place % 2) as usize), &[step]);
}

// How many bits were changed, and which.
fn changes(list: [u32; 4], n: usize) {
    if n == 0 {
        text(b"no bit is changed\n");
        return;
    }
    say(b"bits changed: $\n", &[n]);
    for place in list.iter().take(n) {
        position(*place);
    }
}

// The last line of a call that was turned back.
fn refuse(row: Refusal) {
    match row {
        Refusal::Length => {
            report::refused(row);
            text(b"a stretch is bytes of 0 or 1, two for each of at most 4,096 steps\n");
        }
        _ => report::refuse(row),
    }
}

// Mends a stretch, and writes it.
fn mend_read(
    rt: &HostRuntime,
    stored: &[u8],
    start: u8,
    end: u8,
    output: &[u8],
    decisions: &mut [u64; FRAME_WORDS],
    out: &mut [u8; LOAD_SPACE],
) {
    let mut list = [0u32; 4];
    let count = match mend::mend(stored, start, end, decisions, out, &mut list) {
        Ok(count) => count,
        Err(row) => {
            refuse(row);
            return;
        }
    };
    changes(list, count);
    if files::write_bytes(rt, output, front(out, stored.len())) {
        file(b"mended", output, stored.len(), b" bits\nok\n");
    }
}

// Reads a stretch between two states, and mends it.
fn mend_file(
    rt: &HostRuntime,
    line: &[u8],
    start: u8,
    end: u8,
    decisions: &mut [u64; FRAME_WORDS],
    bits: &mut [u8; LOAD_SPACE],
    out: &mut [u8; LOAD_SPACE],
) {
    let input = part(line, 0, 3);
    let output = part(line, 0, 4);
    let got = files::bytes_for(rt, input, output, bits);
    if !got.well {
        return;
    }
    file(b"stretch", input, got.count, b" bits\n");
    mend_read(
        rt,
        front(bits, got.count),
        start,
        end,
        output,
        decisions,
        out,
    );
}

// The same, on space of its own.
fn mend_in_space(rt: &HostRuntime, line: &[u8], start: u8, end: u8) {
    let mut decisions = [0u64; FRAME_WORDS];
    let mut bits = [0u8; LOAD_SPACE];
    let mut out = [0u8; LOAD_SPACE];
    mend_file(rt, line, start, end, &mut decisions, &mut bits, &mut out);
}

// The state that a word gives, taken mod 64; where it is none, says so.
fn state_of(word: &[u8]) -> Option<u8> {
    let Some(n) = digits(word) else {
        misused(b"this is no state:", word);
        return None;
    };
    Some((n % 64) as u8)
}

// bench mend START END BITS OUT; the states are taken mod 64.
pub fn mend_command(rt: &HostRuntime, line: &[u8]) {
    if parts(line, 0) != 5 {
        misused(b"mend takes START END BITS OUT", b"");
        return;
    }
    let Some(start) = state_of(part(line, 0, 1)) else {
        return;
    };
    let Some(end) = state_of(part(line, 0, 2)) else {
        return;
    };
    mend_in_space(rt, line, start, end);
}
