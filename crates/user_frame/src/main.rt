// What a user of the library writes: a frame is made from a load and read again. The line of this crate in crates.txt is the one to copy: it names what such a user lists, and no more.
#![tactic(auto)]

use isdbs_core::frame::{LOAD_BYTES, MAIN_SYMBOLS, SLOT_BYTES, SLOTS};
use isdbs_core::tmcc::{DUMMY, Entry, Table};
use isdbs_phy::demod::{DemodOptions, Mapping, decode_frame, encode_frame};

// The number of standard output.
const STDOUT_FILENO: i32 = 1;

// The bytes that the frame carries.
const CARRIED: usize = 45 * SLOT_BYTES;
// The decision words that a frame needs, and the bits of the longest.
const WORDS: usize = 4224;

const BITS: usize = 77952;

// 44 slots of TC8PSK 2/3 and 4 of BPSK 1/2, of which one is valid.
fn table() -> Table {
    let a = Entry { word: 7, slots: 44 };
    let b = Entry { word: 1, slots: 4 };
    Table {
        entries: [a, b, DUMMY, DUMMY],
    }
}

fn fill_load(load: &mut [u8; LOAD_BYTES]) {
    for (i, byte) in load[..CARRIED].iter_mut().enumerate() {
        *byte = (i % 251) as u8;
    }
}

// Whether the bytes that are carried are the same.
fn same(a: &[u8; LOAD_BYTES], b: &[u8; LOAD_BYTES]) -> bool {
    a[..CARRIED] == b[..CARRIED]
}

fn say(line: &[u8]) {
    io::write_all(STDOUT_FILENO, line);
}

// Reads the frame, and compares.
fn read(
    load: &[u8; LOAD_BYTES],
    re: &[f64; MAIN_SYMBOLS],
    im: &[f64; MAIN_SYMBOLS],
    decisions: &mut [u64; WORDS],
    bits: &mut [u8; BITS],
    bytes: &mut [u8; LOAD_BYTES],
) {
    let o = DemodOptions::default();
    let mut counts = [0u32; SLOTS];
    let done = decode_frame(
        re,
        im,
        table(),
        true,
        o,
        decisions,
        bits,
        bytes,
        &mut counts,
    );
    match done {
        Ok(f) => {
            if f.strained == 0 && same(load, bytes) {
                say(b"read: the bytes that were sent, no step strained\n");
            } else {
                say(b"failed\n");
            }
        }
        Err(_) => say(b"refused\n"),
    }
}

fn read_in_space(load: &[u8; LOAD_BYTES], re: &[f64; MAIN_SYMBOLS], im: &[f64; MAIN_SYMBOLS]) {
    let mut decisions = [0u64; WORDS];
    let mut bits = [0u8; BITS];
    let mut bytes = [0u8; LOAD_BYTES];
    read(load, re, im, &mut decisions, &mut bits, &mut bytes);
}

// Makes the frame, and reads it.
fn make(load: &[u8; LOAD_BYTES], re: &mut [f64; MAIN_SYMBOLS], im: &mut [f64; MAIN_SYMBOLS]) {
    let answer = encode_frame(load, table(), true, Mapping::default(), re, im);
    let Ok(()) = answer else {
        say(b"refused\n");
        return;
    };
    say(b"made\n");
    read_in_space(load, re, im);
}

fn main() {
    let mut load = [0u8; LOAD_BYTES];
    let mut re = [0.0f64; MAIN_SYMBOLS];
    let mut im = [0.0f64; MAIN_SYMBOLS];
    fill_load(&mut load);
    make(&load, &mut re, &mut im);
}
