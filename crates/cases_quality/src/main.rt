// `quality` on frames whose numbers can be worked out by hand: every sum is exact. Frame 0 has one slot of TC8PSK and four of BPSK, both of points (1, 0), then free slots; frames 1 and 2 have
// 48 slots of TC8PSK of points (0, 1) and, conjugated, (0, -1). Each received point is the same. Then each row, alone or before a later one, with no number changed.
#![tactic(auto)]

ghost use Rattle.std.specs.Prelude.{◌<◌, ◌≤◌};

use cases_frames::{load_bytes, mapping_of, table_of};
use cases_lib::{front, least, nan, one, row, show};
use isdbs_core::frame::{LOAD_BYTES, MAIN_SYMBOLS};
use quality::{QUALITY_NUMBERS, quality};

// ---- the frames

// Its table: entry i has its word at bit 16 i and its slots at bit 16 i + 8.
fn table(i: usize) -> u64 {
    if i == 0 {
        0x000f_000f_0401_0107
    } else {
        0x000f_000f_000f_3007
    }
}

// Each byte of its load. Zeros from state 0 send zeros; a coded 1 at every step from state 63 sends ones.
fn byte(i: usize) -> u8 {
    if i == 0 { 0 } else { 0x55 }
}

// Its received points: 1/4 along the sent one, 1/2 across it; of frame 2 the same as of frame 1.
fn real(i: usize) -> f64 {
    if i == 0 { 1.25 } else { 0.5 }
}

fn imaginary(i: usize) -> f64 {
    if i == 0 { 0.5 } else { 1.25 }
}

// The seven numbers of a slot, worked out by hand: of frame 0 the slot of TC8PSK, those of BPSK and the free ones, of frame 1, of frame 2.
const KNOWN: [[f64; 7]; 5] = [
    [812.0, 812.0, 253.75, 1015.0, 406.0, 203.0, 406.0],
    [812.0, 812.0, 50.75, 1015.0, 0.0, 203.0, 0.0],
    [0.0, 0.0, 0.0, 0.0, 0.0, 0.0, 0.0],
    [812.0, 812.0, 253.75, 1015.0, -406.0, 406.0, 203.0],
    [812.0, 812.0, 4313.75, -1015.0, 406.0, 406.0, 1827.0],
];

// Which of them slot j of frame i has.
fn which(i: usize, j: usize) -> usize
    ensures { result < 5 }
{
    if i == 1 {
        return 3;
    }
    if i == 2 {
        return 4;
    }
    if j == 0 {
        return 0;
    }
    if j < 5 { 1 } else { 2 }
}

// Number k of frame i.
fn known(i: usize, k: usize) -> f64 {
    let all = KNOWN;
    let w = which(i, k / 7);
    all[w][k % 7]
}

// How many numbers are as known.
fn right(i: usize, out: &[f64; 338]) -> usize
    ensures { result ≤ 336 }
{
    out[..QUALITY_NUMBERS]
        .iter()
        .enumerate()
        .filter(|(k, number)| **number == known(i, *k))
        .count()
}

// How many numbers of frame i are, where what stands past them is as it was.
fn one_frame(i: usize, re: &mut [f64; 38980], im: &mut [f64; 38980], load: &mut [u8; 9750]) -> usize
    ensures { result ≤ 336 }
{
    let mut out = [7.5f64; 338];
    let t = table(i);
    re[..MAIN_SYMBOLS].fill(real(i));
    im[..MAIN_SYMBOLS].fill(imaginary(i));
    load[..LOAD_BYTES].fill(byte(i));
    let bytes = front(load, load_bytes(t));
    let m = mapping_of(if i == 2 { 5 } else { 4 });
    let answer = quality(re, im, table_of(t), m, i == 0, bytes, &mut out);
    let n = right(i, &out);
    if (row(answer) == 0) & (out[336] == 7.5) & (out[337] == 7.5) {
        n
    } else {
        0
    }
}

// ---- the rows

// What is lent in each case, of bytes, real parts and room, whether a part is a NaN, and the number that must come back.
const LENT: [[usize; 5]; 9] = [
    [LOAD_BYTES, MAIN_SYMBOLS, 336, 0, 0],
    [LOAD_BYTES, MAIN_SYMBOLS, 335, 0, 9],
    [LOAD_BYTES, MAIN_SYMBOLS, 336, 1, 7],
    [LOAD_BYTES, 38975, 336, 0, 6],
    [9743, MAIN_SYMBOLS, 336, 0, 5],
    [9745, MAIN_SYMBOLS, 336, 0, 5],
    [LOAD_BYTES, MAIN_SYMBOLS, 335, 1, 7],
    [LOAD_BYTES, 38975, 335, 1, 6],
    [9743, 38975, 335, 1, 5],
];

// The number that `quality` answers with the first n places.
fn ask(re: &[f64], im: &[f64], bytes: &[u8], out: &mut [f64], n: usize) -> usize {
    let e = least(n, out.len());
    let answer = quality(
        re,
        im,
        table_of(0x3007),
        mapping_of(4),
        true,
        bytes,
        &mut out[0..e],
    );
    row(answer)
}

// Whether case i is answered right, and refused with all numbers as they were.
fn one_row(i: usize, re: &[f64; 38980], im: &mut [f64; 38980], load: &[u8; 9750]) -> bool
    requires { i < 9 }
{
    let all = LENT;
    let lent = all[i];
    let mut out = [7.5f64; 338];
    im[MAIN_SYMBOLS - 1] = if lent[3] == 1 { nan() } else { 0.0 };
    let number = ask(
        front(re, lent[1]),
        im,
        front(load, lent[0]),
        &mut out,
        lent[2],
    );
    let kept = (out[0] == 7.5) & (out[334] == 7.5);
    (number == lent[4]) & (kept == (number != 0))
}

// How many of the nine are. A closure in a shared function would be called with any number; a case needs one below nine.
fn rows(re: &[f64; 38980], im: &mut [f64; 38980], load: &[u8; 9750]) -> usize {
    let mut right: usize = 0;
    for i in 0..9usize {
        right = right + one(one_row(i, re, im, load));
    }
    right
}

fn run(re: &mut [f64; 38980], im: &mut [f64; 38980]) {
    let mut load = [0u8; 9750];
    let a = one_frame(0, re, im, &mut load);
    let b = one_frame(1, re, im, &mut load);
    let c = one_frame(2, re, im, &mut load);
    let found = [a, b, c, rows(re, im, &load)];
    show(
        b"# of 336 numbers of TC8PSK, BPSK and free slots are as worked out by hand\n# of 336 of TC8PSK at 90 degrees are\n# of 336 of the same, conjugated, are\n# of 9 rows are answered right\n",
        &found,
    );
}

fn main() {
    let mut re = [100000.0f64; 38980];
    let mut im = [100000.0f64; 38980];
    run(&mut re, &mut im);
}
