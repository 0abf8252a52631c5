// `decode_frame` on 286 frames, held to what the given Rust makes of them: every combination alone and mixed, the empty table, all mappings, known and unknown
// start, clean, noisy and random points, extreme parts, every part at a limit of row 7, scales from the least subnormal to 64, unequal scales. data/decode.hex is written by compare/vectors.sh; compare/README.md
// has its fields. Lines that differ are shown, then how many agree and differ. The last line is that of the empty table with decision words of ones before it.
#![tactic(auto)]

ghost use Rattle.std.specs.Prelude.{◌≤◌, ◌<◌};

use cases_frames::{mapping_of, table_of};
use cases_lib::{
    agreeing, digest, double_of, draw, end_line, float_of, front, nan, number, row, show,
    show_agreeing, show_bits, show_one, step, words_of,
};
use isdbs_core::frame::{FRAME_BITS, LOAD_BYTES, MAIN_SYMBOLS, SLOT_BYTES, SLOTS};
use isdbs_phy::demod::{DemodOptions, FrameDecoded, decode_frame, encode_frame};
use refusal::Refusal;
use std::fs::File;
use std::os::fd::AsRawFd;
use trellis::{FRAME_WORDS, LONGEST_FRAME};

const LINES: usize = 286;

// From -0.5 up to 0.5.
fn around_0(draw: u64) -> f64 {
    double_of(0x3ff0_0000_0000_0000 + (draw >> 12)) - 1.5
}

// A part of a point: the clean one with noise, an extreme one, or one at a limit of row 7.
fn part(kind: u64, clean: f64, draw: u64, amplitude: f64) -> f64 {
    if kind == 0 {
        return clean + around_0(draw) * amplitude;
    }
    if kind == 2 {
        let loud = if clean < 0.0 { -65536.0 } else { 65536.0 };
        return if draw % 8 == 0 { -loud } else { loud };
    }
    match draw % 8 {
        0 => 65536.0,
        1 => -65536.0,
        2 => -0.0,
        3 => double_of(1),
        4 => double_of(0xb6a0_0000_0000_0000),
        5 => 0.0,
        6 => clean,
        _ => around_0(draw) * 131072.0,
    }
}

// Makes the received points of the clean ones.
fn receive(
    re: &mut [f64; MAIN_SYMBOLS],
    im: &mut [f64; MAIN_SYMBOLS],
    kind: u64,
    seed: u64,
    amplitude: f64,
) {
    let mut x = seed;
    for (real, imaginary) in re.iter_mut().zip(im.iter_mut()) {
        x = step(x);
        *real = part(kind, *real, x, amplitude);
        x = step(x);
        *imaginary = part(kind, *imaginary, x, amplitude);
    }
}

// Scale i of the line.
fn scale_of(line: &[u8], i: usize) -> f32
    requires { i < 7 }
{
    float_of((number(line, 26 + 8 * i, 34 + 8 * i) % 0x1_0000_0000) as u32)
}

fn scales_of(line: &[u8]) -> [f32; 7] {
    let mut scales = [0.0f32; 7];
    for (i, scale) in scales.iter_mut().enumerate() {
        *scale = scale_of(line, i);
    }
    scales
}

// What decoding is asked for.
fn options(line: &[u8]) -> DemodOptions {
    let scales = scales_of(line);
    let mapping = mapping_of(number(line, 17, 19));
    DemodOptions {
        mapping,
        known_start: number(line, 23, 25) == 1,
        scales,
    }
}

fn is_first(line: &[u8]) -> bool {
    number(line, 20, 22) == 1
}

// The clean frame of the line's load: the answer's number.
fn clean(line: &[u8], re: &mut [f64; MAIN_SYMBOLS], im: &mut [f64; MAIN_SYMBOLS]) -> usize {
    let mut bytes = [0u8; LOAD_BYTES];
    let count = (number(line, 129, 131) % 49) as usize * SLOT_BYTES;
    draw(&mut bytes, count, number(line, 83, 99));
    let t = table_of(number(line, 0, 16));
    let m = mapping_of(number(line, 17, 19));
    row(encode_frame(front(&bytes, count), t, is_first(line), m, re, im))
}

// Whether the counts and the digests are the line's.
fn matches(
    line: &[u8],
    count: usize,
    steps: usize,
    bits: &[u8; FRAME_BITS],
    bytes: &[u8; LOAD_BYTES],
) -> bool {
    if steps > LONGEST_FRAME {
        return false;
    }
    (steps as u64 == number(line, 120, 128))
        & (count as u64 == number(line, 129, 131) % 256 * 203)
        & (digest(bits, steps + 16) == number(line, 132, 148))
        & (digest(bytes, count) == number(line, 149, 165))
}

// Decoding with 48 counts.
fn decode(
    table: u64,
    first: bool,
    o: DemodOptions,
    re: &[f64; MAIN_SYMBOLS],
    im: &[f64; MAIN_SYMBOLS],
    decisions: &mut [u64; FRAME_WORDS],
    bits: &mut [u8; FRAME_BITS],
    bytes: &mut [u8; LOAD_BYTES],
) -> Result<FrameDecoded, Refusal> {
    let mut counts = [0u32; SLOTS];
    decode_frame(
        re,
        im,
        table_of(table),
        first,
        o,
        decisions,
        bits,
        bytes,
        &mut counts,
    )
}

// Whether the points are decoded as the Rust decodes them. What is lent holds no zeros.
fn decodes(line: &[u8], re: &[f64; MAIN_SYMBOLS], im: &[f64; MAIN_SYMBOLS]) -> bool {
    let mut decisions = [0xffff_ffff_ffff_ffffu64; FRAME_WORDS];
    let mut bits = [7u8; FRAME_BITS];
    let mut bytes = [165u8; LOAD_BYTES];
    let r = decode(
        number(line, 0, 16),
        is_first(line),
        options(line),
        re,
        im,
        &mut decisions,
        &mut bits,
        &mut bytes,
    );
    match r {
        Ok(f) => matches(line, f.bytes, f.steps, &bits, &bytes),
        Err(_) => false,
    }
}

// Whether the line's frame is decoded as the Rust decodes it.
fn agrees(line: &[u8]) -> bool {
    let mut re = [0.0f64; MAIN_SYMBOLS];
    let mut im = [0.0f64; MAIN_SYMBOLS];
    let made = clean(line, &mut re, &mut im);
    receive(
        &mut re,
        &mut im,
        number(line, 100, 102),
        number(line, 83, 99) ^ 0x5555_5555_5555_5555,
        double_of(number(line, 103, 119)),
    );
    (made == 0) & decodes(line, &re, &im)
}

// Scales of 8, with another one at a place.
fn scales_with(place: usize, scale: f32) -> [f32; 7]
    requires { place < 7 }
{
    let mut scales = [8.0f32; 7];
    scales[place] = scale;
    scales
}

// The empty table has no steps and no bytes. Its bits are the 16 known ones of W1, 1B95 in hexadecimal, and those past them are as lent (7, shown as ?). Of the words, which
// are all ones before, the first 4,224 are 0, though 16 steps have used 16, and the six past them are kept.
fn empty_table() {
    let re = [0.5f64; MAIN_SYMBOLS];
    let im = [0.5f64; MAIN_SYMBOLS];
    let mut decisions = [0xffff_ffff_ffff_ffffu64; 4230];
    let mut bits = [7u8; 18];
    let r = decode_empty(&re, &im, &mut decisions, &mut bits);
    let Ok(f) = r else {
        return;
    };
    show_empty(f.bytes, f.steps, &bits, &decisions);
}

fn decode_empty(
    re: &[f64; MAIN_SYMBOLS],
    im: &[f64; MAIN_SYMBOLS],
    decisions: &mut [u64; 4230],
    bits: &mut [u8; 18],
) -> Result<FrameDecoded, Refusal> {
    let mut bytes = [0u8; 4];
    let mut counts = [7u32; 1];
    let o = DemodOptions {
        mapping: mapping_of(0),
        known_start: true,
        scales: [8.0f32; 7],
    };
    decode_frame(
        re,
        im,
        table_of(0),
        true,
        o,
        decisions,
        bits,
        &mut bytes,
        &mut counts,
    )
}

fn show_empty(n: usize, steps: usize, bits: &[u8; 18], decisions: &[u64; 4230]) {
    let counted = [n, steps];
    show(b"empty table: bytes #, steps #, bits ", &counted);
    show_bits(bits);
    let words = [
        words_of(decisions, 0, FRAME_WORDS, 0),
        words_of(decisions, FRAME_WORDS, 4230, 0xffff_ffff_ffff_ffff),
    ];
    show(b", words 0 #, words kept #\n", &words);
}

// Scales that row 8 turns back: a NaN, 0, -0, below 0, infinity, the next above 64; then two that pass, the least and 64.
fn tried_scales() -> [f32; 8] {
    let infinity = float_of(0x7f80_0000);
    let above = float_of(0x4280_0001);
    let least = float_of(1);
    [
        0.0f32 / 0.0f32,
        0.0f32,
        -0.0f32,
        -1.0f32,
        infinity,
        above,
        least,
        64.0f32,
    ]
}

// The number that decoding answers with the scale at one place and 8 at the others, where the last point's real part is x and the other parts are 1/2.
fn answer_at(table: u64, place: usize, scale: f32, x: f64) -> usize
    requires { place < 7 }
{
    let mut re = [0.5f64; MAIN_SYMBOLS];
    re[MAIN_SYMBOLS - 1] = x;
    let im = [0.5f64; MAIN_SYMBOLS];
    let mut decisions = [0u64; FRAME_WORDS];
    let mut bits = [0u8; FRAME_BITS];
    let mut bytes = [0u8; LOAD_BYTES];
    let o = DemodOptions {
        mapping: mapping_of(4),
        known_start: true,
        scales: scales_with(place, scale),
    };
    let r = decode(
        table,
        true,
        o,
        &re,
        &im,
        &mut decisions,
        &mut bits,
        &mut bytes,
    );
    match r {
        Ok(_) => 0,
        Err(a) => row(Err(a)),
    }
}

// The answers for 48 slots of TC8PSK with each scale tried at one place, which the table uses where it is 6 alone.
fn show_place(place: usize)
    requires { place < 7 }
{
    show_one(b"scale # wrong, then good:", place);
    for scale in tried_scales() {
        show_one(b" #", answer_at(0x3007, place, scale, 0.0));
    }
    end_line();
}

// Row 8 for each of the seven places; then the rows above it: 49 slots, and a NaN among the points, each with a wrong scale.
fn wrong_scales() {
    for place in 0..7usize {
        show_place(place);
    }
    let many = answer_at(0x3107, 0, -0.0f32, 0.0);
    let sample = answer_at(0x3007, 0, -0.0f32, nan());
    let above = [many, sample];
    show(b"rows above: #, #\n", &above);
}

fn main(rt: HostRuntime) {
    let path = "decode.hex";
    let file = match File::open(&rt, path) {
        Ok(file) => file,
        Err(e) => {
            let _ = eprintln!(rt; "{path}: {e}");
            return;
        }
    };
    let agree = agreeing(file.as_raw_fd(), LINES, &mut [0u8; 166], agrees);
    show_agreeing(agree, LINES);
    wrong_scales();
    empty_table();
}
