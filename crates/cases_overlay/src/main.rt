// Two loads and their exclusive-or through both encoders. For each combination of ISDB-S, alone in a frame: of how many points the bits are the exclusive-or of those of both, and
// whether the end states are. The same with the sum encoded from state 0, which is wrong for the first points, and with or in place of exclusive-or. Then each rate of ISDB-T, by the
// bits that are sent; ISDB-S QPSK 2/3 beside ISDB-T 2/3; a code of length 3; the rows.
#![tactic(auto)]

ghost use Rattle.std.specs.Prelude.{◌≤◌};

use cases_frames::{mapping_of, table_of};
use cases_lib::{one, row, show, show_bits, show_one, small, step, text};
use isdb_fec::conv::ConvEncoder;
use isdbs_core::frame::{LOAD_BYTES, MAIN_SYMBOLS};
use isdbs_phy::demod::encode_frame_with_state;
use isdbt_fec::conv::{CodeRate, Encoded, encode_punctured};
use overlay::{Code, Encoders, encode_overlaid, overlay};

// The start states of the first load and of the second; their exclusive-or is 58.
const FIRST: u8 = 5;

const SECOND: u8 = 63;

// Two loads, their exclusive-or, and their or.
#[derive(Drop)]
struct Loads {
    first: [u8; LOAD_BYTES],
    second: [u8; LOAD_BYTES],
    sum: [u8; LOAD_BYTES],
    either: [u8; LOAD_BYTES],
}

impl Loads {
    fn new() -> Self {
        let mut first = [0u8; LOAD_BYTES];
        let mut second = [0u8; LOAD_BYTES];
        let mut sum = [0u8; LOAD_BYTES];
        let mut either = [0u8; LOAD_BYTES];
        let mut x: u64 = 0x9e37_79b9_7f4a_7c15;
        for i in 0..LOAD_BYTES {
            x = step(x);
            let p = (x / 65536 % 256) as u8;
            let q = (x / 16777216 % 256) as u8;
            first[i] = p;
            second[i] = q;
            sum[i] = p ^ q;
            either[i] = p | q;
        }
        Self {
            first,
            second,
            sum,
            either,
        }
    }
}

// ---- ISDB-S

// The bit of a part.
fn bit(part: f64) -> u8 {
    if part < 0.0 { 1 } else { 0 }
}

// The label 4 C2 + 2 C1 + C0 of an 8PSK point.
fn eighth(re: f64, im: f64) -> u8 {
    if re > 0.9 {
        return 0;
    }
    if re < -0.9 {
        return 4;
    }
    if im > 0.9 {
        return 3;
    }
    if im < -0.9 {
        return 7;
    }
    if re > 0.0 {
        if im > 0.0 { 1 } else { 6 }
    } else {
        if im > 0.0 { 2 } else { 5 }
    }
}

// The bits of a point of a word's modulation.
fn bits_of(word: u8, re: f64, im: f64) -> u8 {
    match word {
        1 => bit(re),
        7 => eighth(re, im),
        _ => bit(re) | (bit(im) << 1),
    }
}

// The bits of each point.
fn lay(
    word: u8,
    re: &[f64; MAIN_SYMBOLS],
    im: &[f64; MAIN_SYMBOLS],
    bits: &mut [u8; MAIN_SYMBOLS],
) {
    for (k, bit) in bits.iter_mut().enumerate() {
        *bit = bits_of(word, re[k], im[k]);
    }
}

// The points of a load in a frame of one combination, from a state. The state after it; 255 where the call is refused.
fn encode(
    load: &[u8; LOAD_BYTES],
    word: u8,
    state: u8,
    re: &mut [f64; MAIN_SYMBOLS],
    im: &mut [f64; MAIN_SYMBOLS],
) -> u8 {
    let t = table_of(0x000f_000f_000f_3000 + word as u64);
    match encode_frame_with_state(load, t, ConvEncoder { state }, mapping_of(4), re, im) {
        Ok(end) => end.state,
        Err(_) => 255,
    }
}

// The same with the bits of the points alone.
fn frame(load: &[u8; LOAD_BYTES], word: u8, state: u8, bits: &mut [u8; MAIN_SYMBOLS]) -> u8 {
    let mut re = [0.0f64; MAIN_SYMBOLS];
    let mut im = [0.0f64; MAIN_SYMBOLS];
    let last = encode(load, word, state, &mut re, &mut im);
    lay(word, &re, &im, bits);
    last
}

// How many places of the third list are the exclusive-or of those of the first and the second, as far as all reach.
fn overlaid(a: &[u8], b: &[u8], c: &[u8]) -> usize {
    a.iter()
        .zip(b.iter())
        .zip(c.iter())
        .filter(|((x, y), z)| **x ^ **y == **z)
        .count()
}

// Of how many points the bits are right, and whether the end state is.
#[derive(Clone, Copy)]
struct Laid {
    right: usize,
    ends: usize,
}

// A load in the place of the sum, from a state.
fn third(
    word: u8,
    load: &[u8; LOAD_BYTES],
    state: u8,
    end: u8,
    a: &[u8; MAIN_SYMBOLS],
    b: &[u8; MAIN_SYMBOLS],
) -> Laid {
    let mut c = [0u8; MAIN_SYMBOLS];
    let last = frame(load, word, state, &mut c);
    Laid {
        right: overlaid(a, b, &c),
        ends: one(last == end),
    }
}

fn combination(word: u8, loads: &Loads) {
    let mut a = [0u8; MAIN_SYMBOLS];
    let mut b = [0u8; MAIN_SYMBOLS];
    let after = frame(&loads.first, word, FIRST, &mut a);
    let end = after ^ frame(&loads.second, word, SECOND, &mut b);
    let x = third(word, &loads.sum, 58, end, &a, &b);
    let y = third(word, &loads.sum, 0, end, &a, &b);
    let z = third(word, &loads.either, 58, end, &a, &b);
    let found = [
        small(word),
        x.right,
        x.ends,
        y.right,
        y.ends,
        z.right,
        z.ends,
    ];
    show(
        b"ISDB-S word #: points #, end states &; from state 0: points #, end states &; or: points #, end states &\n",
        &found,
    );
}

// ---- ISDB-T

fn rate_of(row: usize) -> CodeRate {
    match row {
        0 => CodeRate::R1_2,
        1 => CodeRate::R2_3,
        2 => CodeRate::R3_4,
        3 => CodeRate::R5_6,
        _ => CodeRate::R7_8,
    }
}

// What is sent for the first 210 bytes of a load, of which only the low bits count, from a state. Places past it hold 0.
fn send(load: &[u8; LOAD_BYTES], row: usize, state: u8, out: &mut [u8; 420]) -> Encoded {
    let enc = ConvEncoder { state };
    encode_punctured(enc, rate_of(row), &load[..210], out).unwrap_or(Encoded { enc, count: 0 })
}

fn last(x: Encoded) -> u8 {
    let enc = x.enc;
    enc.state
}

// A sum from a state: how many bits are sent, how many places are right, the state after them.
#[derive(Clone, Copy)]
struct SumSent {
    count: usize,
    right: usize,
    last: u8,
}

fn third_sent(
    row: usize,
    sum: &[u8; LOAD_BYTES],
    state: u8,
    a: &[u8; 420],
    b: &[u8; 420],
) -> SumSent {
    let mut c = [0u8; 420];
    let z = send(sum, row, state, &mut c);
    SumSent {
        count: z.count,
        right: overlaid(a, b, &c),
        last: last(z),
    }
}

fn rate(row: usize, loads: &Loads) {
    let mut a = [0u8; 420];
    let mut b = [0u8; 420];
    let end = last(send(&loads.first, row, FIRST, &mut a))
        ^ last(send(&loads.second, row, SECOND, &mut b));
    let x = third_sent(row, &loads.sum, 58, &a, &b);
    let y = third_sent(row, &loads.sum, 0, &a, &b);
    let found = [
        row,
        x.count,
        x.right,
        one(x.last == end),
        y.count,
        y.right,
        one(y.last == end),
    ];
    show(
        b"ISDB-T row #: sent #, places that agree #, end states &; from state 0: sent #, places that agree #, end states &\n",
        &found,
    );
}

// ---- 2/3

// The bits of 105 bytes, high bit first.
fn unpack(load: &[u8; LOAD_BYTES], bits: &mut [u8; 840]) {
    for (j, bit) in bits.iter_mut().enumerate() {
        *bit = (load[j / 8] >> (7 - j % 8)) % 2;
    }
}

// Of how many of the first 630 points the bits are those that ISDB-T sends.
fn pairs(points: &[u8; MAIN_SYMBOLS], sent: &[u8; 1260]) -> usize {
    (0..630usize)
        .filter(|&j| points[j] % 2 == sent[2 * j] && points[j] / 2 == sent[2 * j + 1])
        .count()
}

// What ISDB-T sends at 2/3 for the bits; how many they are.
fn send_bits(bits: &[u8; 840], sent: &mut [u8; 1260]) -> usize {
    match encode_punctured(ConvEncoder { state: FIRST }, CodeRate::R2_3, bits, sent) {
        Ok(x) => x.count,
        Err(_) => 0,
    }
}

// 210 periods of ISDB-S QPSK 2/3, which are 420 of ISDB-T 2/3.
fn two_thirds(load: &[u8; LOAD_BYTES]) {
    let mut points = [0u8; MAIN_SYMBOLS];
    let mut bits = [0u8; 840];
    let mut sent = [9u8; 1260];
    frame(load, 3, FIRST, &mut points);
    unpack(load, &mut bits);
    let n = send_bits(&bits, &mut sent);
    let found = [n, pairs(&points, &sent)];
    show(
        b"QPSK 2/3 beside ISDB-T 2/3: sent #, points that agree # of 630\n",
        &found,
    );
}

// ---- a short code

fn line(label: &[u8], out: &[u8; 12], enc: ConvEncoder) {
    text(label);
    show_bits(out);
    show_one(b" state #\n", small(enc.state));
}

// A code with the generators 7 and 5 octal.
fn code_of(constraint: u8) -> Code {
    Code {
        constraint,
        g1: 7,
        g2: 5,
    }
}

// Encoders of this code in the states s and r.
fn encoders(constraint: u8, s: u8, r: u8) -> Encoders {
    let code = code_of(constraint);
    Encoders {
        code,
        first: ConvEncoder { state: s },
        second: ConvEncoder { state: r },
    }
}

// Length 3, from the states 1 and 3: six inputs each, of which only the low bits count.
fn length_three() {
    let us = [1u8, 0, 255, 2, 1, 1];
    let vs = [0u8, 3, 1, 0, 254, 1];
    let mut ws = [9u8; 6];
    let mut x = [9u8; 12];
    let mut y = [9u8; 12];
    let mut z = [9u8; 12];
    let made = encode_overlaid(encoders(3, 1, 3), &us, &vs, &mut ws, &mut x, &mut y, &mut z);
    show_one(b"length 3: answer #\n", row(made.map(|_| ())));
    let Ok(e) = made else {
        return;
    };
    line(b"first  ", &x, e.first);
    line(b"second ", &y, e.second);
    line(b"sum    ", &z, e.third);
}

// The answer for generators 7 and 5 octal, from the states s and r, to strings of n and m bytes, with w places for their exclusive-or, v for the third output and 8 for the others.
fn answer(k: u8, s: u8, r: u8, n: usize, m: usize, w: usize, v: usize) -> usize
    requires { (n ≤ 4) × (m ≤ 4) × (w ≤ 4) × (v ≤ 8) }
{
    let us = [1u8; 4];
    let vs = [1u8; 4];
    let mut ws = [9u8; 4];
    let mut out1 = [9u8; 8];
    let mut out2 = [9u8; 8];
    let mut out3 = [9u8; 8];
    let e = encode_overlaid(
        encoders(k, s, r),
        &us[0..n],
        &vs[0..m],
        &mut ws[0..w],
        &mut out1,
        &mut out2,
        &mut out3[0..v],
    );
    row(e.map(|_| ()))
}

// The answer to the exclusive-or of strings of n and m bytes into w places.
fn answer_alone(n: usize, m: usize, w: usize) -> usize
    requires { (n ≤ 4) × (m ≤ 4) × (w ≤ 4) }
{
    let us = [1u8; 4];
    let vs = [1u8; 4];
    let mut ws = [9u8; 4];
    row(overlay(&us[0..n], &vs[0..m], &mut ws[0..w]))
}

// Each row in turn, where those below it hold too.
fn rows() {
    let found = [
        answer(2, 4, 4, 4, 3, 3, 7),
        answer(4, 4, 4, 4, 3, 3, 7),
        answer(3, 4, 0, 4, 3, 3, 7),
        answer(3, 0, 4, 4, 3, 3, 7),
        answer(3, 3, 3, 4, 3, 3, 7),
        answer(3, 3, 3, 4, 4, 3, 8),
        answer(3, 3, 3, 4, 4, 4, 7),
        answer(3, 3, 3, 4, 4, 4, 8),
        answer_alone(4, 3, 3),
        answer_alone(4, 4, 3),
        answer_alone(4, 4, 4),
    ];
    show(
        b"rows: # # # # # # # #; of the exclusive-or alone: # # #\n",
        &found,
    );
}

fn main() {
    let loads = Loads::new();
    for word in 1..8u8 {
        combination(word, &loads);
    }
    for row in 0..5usize {
        rate(row, &loads);
    }
    two_thirds(&loads.first);
    length_three();
    rows();
}
