// The strain that `decode_frame` counts on small frames: one symbol or one part of a clean frame is turned, so that one step is strained. The first six of 48 counts
// are shown, which are 7 before, then how many of the 48 are 0 and how many are as they were lent.
#![tactic(auto)]

ghost use Rattle.std.specs.Prelude.{◌<◌, ◌≤◌};
ghost use Rattle.isdbs_frame.specs.Frame.{main_symbols};

use cases_frames::{mapping_of, table_of};
use cases_lib::{row, show, show_line, show_one, wide};
use isdbs_core::frame::{FRAME_BITS, LOAD_BYTES, MAIN_SYMBOLS, SLOTS};
use isdbs_phy::demod::{DemodOptions, FrameDecoded, decode_frame, encode_frame};
use refusal::Refusal;
use trellis::FRAME_WORDS;

// The tables: QPSK 1/2 in four slots, QPSK 5/6 in six, TC8PSK in two; TC8PSK and BPSK in all. Entry i has its word at bit 16 i and its slots at bit 16 i + 8; the other entries are not in use.
const HALF: u64 = 0x000f_000f_000f_0402;

const FIVE_SIXTHS: u64 = 0x000f_000f_000f_0605;

const EIGHT: u64 = 0x000f_000f_000f_0207;

const ALL: u64 = 0x000f_000f_0401_2c07;

// The mapping that `Mapping::default` gives.
const MAPPING: u64 = 4;

// The load: 3, 10, 17 and so on, modulo 256.
fn fill_load(load: &mut [u8; LOAD_BYTES]) {
    let mut b: u8 = 3;
    for byte in load.iter_mut() {
        *byte = b;
        b = b.wrapping_add(7);
    }
}

// How many of the counts are w.
fn places(counts: &[u32; SLOTS], w: u32) -> usize {
    counts.iter().filter(|count| **count == w).count()
}

fn show_counts(counts: &[u32; SLOTS]) {
    let found = [
        wide(counts[0]),
        wide(counts[1]),
        wide(counts[2]),
        wide(counts[3]),
        wide(counts[4]),
        wide(counts[5]),
        places(counts, 0),
        places(counts, 7),
    ];
    show(b"; counts # # # # # #; # are 0, # as lent\n", &found);
}

fn show_answer(r: Result<FrameDecoded, Refusal>) {
    match r {
        Ok(f) => {
            let found = [wide(f.strained), f.steps];
            show(b": strained # of #", &found);
        }
        Err(a) => {
            show_one(b": refused #", row(Err(a)));
        }
    }
}

// A frame that is the first has a start that the decoder knows.
fn decode(
    table: u64,
    first: bool,
    re: &[f64; MAIN_SYMBOLS],
    im: &[f64; MAIN_SYMBOLS],
    decisions: &mut [u64; FRAME_WORDS],
    bits: &mut [u8; FRAME_BITS],
    bytes: &mut [u8; LOAD_BYTES],
    counts: &mut [u32],
) -> Result<FrameDecoded, Refusal> {
    let o = DemodOptions {
        mapping: mapping_of(MAPPING),
        known_start: first,
        scales: [8.0f32; 7],
    };
    decode_frame(
        re,
        im,
        table_of(table),
        first,
        o,
        decisions,
        bits,
        bytes,
        counts,
    )
}

// Reads a frame with the first n of 48 counts lent, and shows it by the name of the case, the first being 1.
fn read(
    case: usize,
    table: u64,
    first: bool,
    n: usize,
    re: &[f64; MAIN_SYMBOLS],
    im: &[f64; MAIN_SYMBOLS],
)
    requires { n ≤ 48 }
{
    let mut decisions = [0u64; FRAME_WORDS];
    let mut bits = [0u8; FRAME_BITS];
    let mut bytes = [0u8; LOAD_BYTES];
    let mut counts = [7u32; SLOTS];
    let r = decode(
        table,
        first,
        re,
        im,
        &mut decisions,
        &mut bits,
        &mut bytes,
        &mut counts[0..n],
    );
    show_line(
        b"all points 0\nQPSK 1/2, clean\nQPSK 1/2, symbol 1629 negated\nQPSK 1/2, not the first, start unknown\nQPSK 5/6, step 1624 turned\nQPSK 5/6, five places lent\nQPSK 5/6, four places lent\nQPSK 5/6, step 1623 turned\nTC8PSK 2/3, symbol 815 turned by 90 degrees",
        case,
    );
    show_answer(r);
    show_counts(&counts);
}

fn encode(
    load: &[u8; LOAD_BYTES],
    table: u64,
    first: bool,
    re: &mut [f64; MAIN_SYMBOLS],
    im: &mut [f64; MAIN_SYMBOLS],
) {
    let _ = encode_frame(load, table_of(table), first, mapping_of(MAPPING), re, im);
}

// The clean frame of the load.
fn make(table: u64, first: bool, re: &mut [f64; MAIN_SYMBOLS], im: &mut [f64; MAIN_SYMBOLS]) {
    let mut load = [0u8; LOAD_BYTES];
    fill_load(&mut load);
    encode(&load, table, first, re, im);
}

fn negate(parts: &mut [f64; MAIN_SYMBOLS], k: usize)
    requires { k < main_symbols }
{
    parts[k] = -parts[k];
}

// Turns point k by 90 degrees.
fn quarter(re: &mut [f64; MAIN_SYMBOLS], im: &mut [f64; MAIN_SYMBOLS], k: usize)
    requires { k < main_symbols }
{
    let x = re[k];
    re[k] = -im[k];
    im[k] = x;
}

// All points 0. Then QPSK 1/2 in four slots, of which two are valid: symbol k is step k, and step 1,629 is the sixth of valid slot 1. The same of a frame that is not the first,
// with a start that the decoder does not know: the bits are encoded again from the state that the header leaves.
fn half_rate() {
    let mut re = [0.0f64; MAIN_SYMBOLS];
    let mut im = [0.0f64; MAIN_SYMBOLS];
    read(1, ALL, true, SLOTS, &re, &im);
    make(HALF, true, &mut re, &mut im);
    read(2, HALF, true, SLOTS, &re, &im);
    negate(&mut re, 1629);
    negate(&mut im, 1629);
    read(3, HALF, true, SLOTS, &re, &im);
    make(HALF, false, &mut re, &mut im);
    read(4, HALF, false, SLOTS, &re, &im);
}

// QPSK 5/6 in six slots, of which five are valid. A period is five steps and three symbols; step 1,624, the first of valid slot 1, is the last of a period, and is sent on
// the imaginary part of symbol 974, whose real part has step 1,623.
fn five_sixths() {
    let mut re = [0.0f64; MAIN_SYMBOLS];
    let mut im = [0.0f64; MAIN_SYMBOLS];
    make(FIVE_SIXTHS, true, &mut re, &mut im);
    negate(&mut im, 974);
    read(5, FIVE_SIXTHS, true, SLOTS, &re, &im);
    read(6, FIVE_SIXTHS, true, 5, &re, &im);
    read(7, FIVE_SIXTHS, true, 4, &re, &im);
    negate(&mut im, 974);
    negate(&mut re, 974);
    read(8, FIVE_SIXTHS, true, SLOTS, &re, &im);
}

// TC8PSK in two slots: 812 steps to a slot, and step 815 is the fourth of valid slot 1.
fn eight_points() {
    let mut re = [0.0f64; MAIN_SYMBOLS];
    let mut im = [0.0f64; MAIN_SYMBOLS];
    make(EIGHT, true, &mut re, &mut im);
    quarter(&mut re, &mut im, 815);
    read(9, EIGHT, true, SLOTS, &re, &im);
}

fn main() {
    half_rate();
    five_sixths();
    eight_points();
}
