// The bench program's demonstration on built-in data.
#![tactic(auto)]

use bench_line::space::{BIT_SPACE, LOAD_SPACE};
use bench_line::words::front;
use bench_words::report;
use bench_words::text::{one_of, say, text};
use isdbs_core::frame::{MAIN_SYMBOLS, SLOT_BYTES, SLOTS};
use isdbs_core::tmcc;
use isdbs_core::tmcc::{Entry, Table};
use isdbs_phy::demod::{DemodOptions, Mapping, decode_frame, encode_frame};
use trellis::FRAME_WORDS;

// The valid slots of the table, and their bytes.
const VALID: usize = 45;

const CARRIED: usize = VALID * SLOT_BYTES;

// TC8PSK 44 slots, BPSK 4.
fn table() -> Table {
    let a = Entry { word: 7, slots: 44 };
    let b = Entry { word: 1, slots: 4 };
    Table {
        entries: [a, b, tmcc::DUMMY, tmcc::DUMMY],
    }
}

// The built-in load: 3, 10, 17 and so on, modulo 256.
fn fill_load(load: &mut [u8; LOAD_SPACE]) {
    let mut b: u8 = 3;
    for i in 0..CARRIED {
        load[i] = b;
        b = std::num::wrapping_add_u8(b, 7);
    }
}

// Moves every part by 1/64, which is half of what a part may be off.
fn disturb(parts: &mut [f64; MAIN_SYMBOLS]) {
    for k in 0..MAIN_SYMBOLS {
        parts[k] = parts[k] + 0.015625f64;
    }
}

fn say_agreement(load: &[u8], bytes: &[u8]) {
    let n = bench_line::agreement::agreeing(load, bytes);
    report::agree(n, CARRIED);
    one_of(
        b".\nfailed: bytes differ\n|: every byte that was sent was read.\nok\n",
        (n == CARRIED) as usize,
    );
}

fn read_line(steps: usize) {
    say(
        b"The frame is decoded in $ trellis steps, one for each bit that the convolutional code carries.\n",
        &[steps],
    );
}

// Makes the frame of the load.
fn make(
    load: &[u8; LOAD_SPACE],
    re: &mut [f64; MAIN_SYMBOLS],
    im: &mut [f64; MAIN_SYMBOLS],
) -> bool {
    let m = Mapping::default();
    if let Err(row) = encode_frame(load, table(), true, m, re, im) {
        report::refuse(row);
        return false;
    }
    say(
        b"The load is $ built-in bytes: $ valid slots of $ bytes each.\nThe frame is made: $ points, $ for each of the $ slots.\n",
        &[
            CARRIED,
            VALID,
            SLOT_BYTES,
            MAIN_SYMBOLS,
            MAIN_SYMBOLS / SLOTS,
            SLOTS,
        ],
    );
    disturb(re);
    disturb(im);
    text(b"Every part of every point is moved by 1/64, as a channel might do.\n");
    true
}

// Reads the frame, and compares.
fn read(
    load: &[u8; LOAD_SPACE],
    re: &[f64; MAIN_SYMBOLS],
    im: &[f64; MAIN_SYMBOLS],
    decisions: &mut [u64; FRAME_WORDS],
    bits: &mut [u8; BIT_SPACE],
    bytes: &mut [u8; LOAD_SPACE],
) {
    let o = DemodOptions::default();
    let mut counts = [0u32; SLOTS];
    let done = decode_frame(
        re,
        im,
        table(),
        true,
        o,
        decisions,
        bits,
        bytes,
        &mut counts,
    );
    match done {
        Ok(r) => {
            read_line(r.steps);
            bench_verdict::in_all(r.steps, r.strained);
            say_agreement(front(load, CARRIED), front(bytes, CARRIED));
        }
        Err(row) => report::refuse(row),
    }
}

// The same, on space of its own.
fn read_in_space(load: &[u8; LOAD_SPACE], re: &[f64; MAIN_SYMBOLS], im: &[f64; MAIN_SYMBOLS]) {
    let mut decisions = [0u64; FRAME_WORDS];
    let mut bits = [0u8; BIT_SPACE];
    let mut bytes = [0u8; LOAD_SPACE];
    read(load, re, im, &mut decisions, &mut bits, &mut bytes);
}

// Runs the demonstration.
pub fn demonstrate() {
    text(b"A demonstration on built-in data: an ISDB-S frame is made, disturbed and read back.\n");
    report::table(table());
    let mut re = [0.0f64; MAIN_SYMBOLS];
    let mut im = [0.0f64; MAIN_SYMBOLS];
    let mut load = [0u8; LOAD_SPACE];
    fill_load(&mut load);
    if make(&load, &mut re, &mut im) {
        read_in_space(&load, &re, &im);
    }
}
