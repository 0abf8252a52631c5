// The points of a run of one combination, from a bit of the load and a state of the encoder on.
#![tactic(auto)]

ghost use Rattle.std.specs.Prelude.{◌≡◌, ◌+◌, ◌*◌, ◌/◌, ◌%◌, ◌<◌, ◌≤◌, ◌^◌, length, get_or};
ghost use Rattle.std.specs.Float.{nan};
ghost use Rattle.trellis.specs.Lists.{upto, laid};
ghost use Rattle.isdbs_combination.specs.declared.Combination.TheVariants.{Bpsk1_2, Tc8psk2_3};
ghost use Rattle.isdbs_combination.specs.declared.Modulation.TheVariants.{Qpsk};
ghost use Rattle.isdbs_combination.specs.Combinations.{modulation_of, puncture_of};
ghost use Rattle.isdbs_points.specs.Layout.{steps_per_period};
ghost use Rattle.isdbs_points.specs.Pieces.{piece_symbols};
ghost use Rattle.encode_bits.specs.Bits.{word_bit};
ghost use Rattle.encode_run.specs.Encoded.{PieceEncoded, ByteEncoded, TableOf, qpsk_label, psk8_label, ByRegister, PeriodEncoded, PatternOf, AtMost, shift_of, Shifted, pair_label};
ghost use Rattle.trellis.specs.Isdb;

use encode_bits::{byte_bit, coded_inputs, encode_step, load_bits, load_byte, outputs, reversed};
use isdbs_core::combination::{Combination, Modulation};
use isdbs_points::{Mapping, PointTable, mirror, psk8_point, qpsk_mapped, subset_of};

// The QPSK points by 2 P1 + P0.
fn qpsk_table(m: Mapping) -> PointTable<8>
    ensures { TableOf 4 (qpsk_label m) result }
{
    let mut re = [0.0; 8];
    let mut im = [0.0; 8];
    for l in 0..4 {
        let p = qpsk_mapped(m.qpsk_p1_on_q, (l / 2) as u8, l as u8);
        re[l] = p.re;
        im[l] = mirror(m.conjugate, p.im);
    }
    PointTable { re, im }
}

// The TC8PSK points by 4 C2 + 2 X + Y.
fn psk8_table(m: Mapping) -> PointTable<8>
    ensures { TableOf 8 (psk8_label m) result }
{
    let mut re = [0.0; 8];
    let mut im = [0.0; 8];
    for l in 0..8 {
        let c1_c0 = subset_of(m.tc8psk_c1_is_y, (l % 4) as u8);
        let p = psk8_point(4 * (l / 4) as u8 + c1_c0);
        re[l] = p.re;
        im[l] = mirror(m.conjugate, p.im);
    }
    PointTable { re, im }
}

// Digit i of a number.
fn digit(word: usize, i: usize) -> usize
    requires { i < 32 }
    ensures { result ≡ word_bit word i }
{
    (word >> i) % 2
}

// The TC8PSK points at 128 C2 + the register of the step, its oldest stage highest: no outputs are worked out for a step.
fn register_table(m: Mapping) -> PointTable<256>
    ensures { ByRegister m result }
{
    let t = psk8_table(m);
    let xs = t.re;
    let ys = t.im;
    let mut re = [0.0; 256];
    let mut im = [0.0; 256];
    for w in 0..256 {
        let out = outputs(w);
        let l = 4 * (w / 128) + 2 * digit(out, 16) + digit(out, 0);
        re[w] = xs[l];
        im[w] = ys[l];
    }
    PointTable { re, im }
}

// A run of BPSK: X, then Y, on successive symbols.
fn encode_bpsk(
    bytes: &[u8],
    bit: usize,
    n: usize,
    start: u8,
    m: Mapping,
    re: &mut [f64],
    im: &mut [f64],
) -> u8
    requires { (start < Isdb.states) × (bit + n < 2 ^ 32) × (2 * n ≤ length re.old) × (2 * n ≤ length im.old) }
    ensures { PieceEncoded Bpsk1_2 m bytes.now bit n start result re.old re.new im.old im.new }
{
    let signs = [1.0, -1.0];
    let mut state = start;
    for k in 0..n {
        let sent = encode_step(bytes, bit + k, state);
        let l = sent.label;
        state = sent.state;
        let y = mirror(m.conjugate, 0.0);
        re[2 * k] = signs[l / 2];
        im[2 * k] = y;
        re[2 * k + 1] = signs[l % 2];
        im[2 * k + 1] = y;
    }
    state
}

// The four points of a byte of a TC8PSK run: of each, C2 uncoded, then one coded bit. The states' stages stand in the other order.
fn put_byte(
    byte: u8,
    start: u8,
    xs: &[f64; 256],
    ys: &[f64; 256],
    re: &mut [f64],
    im: &mut [f64],
) -> u8
    requires { (start < Isdb.states) × (4 ≤ length re.old) × (4 ≤ length im.old) }
    ensures { ByteEncoded byte start result xs.now ys.now re.old re.new im.old im.new }
{
    let z = 16 * (start as usize) + coded_inputs(byte);
    for i in 0..4 {
        let c2 = byte_bit(byte, 2 * i);
        let w = 128 * (c2 as usize) + (z >> (3 - i)) % 128;
        re[i] = xs[w];
        im[i] = ys[w];
    }
    (z % 64) as u8
}

// A run of TC8PSK, byte by byte.
fn encode_tc8psk(
    bytes: &[u8],
    bit: usize,
    n: usize,
    start: u8,
    m: Mapping,
    re: &mut [f64],
    im: &mut [f64],
) -> u8
    requires { (start < Isdb.states) × (bit + 2 * n < 2 ^ 32) × (n ≤ length re.old) × (n ≤ length im.old) × (bit % 8 ≡ 0) × (n % 4 ≡ 0) }
    ensures { PieceEncoded Tc8psk2_3 m bytes.now bit n start result re.old re.new im.old im.new }
{
    let t = register_table(m);
    let xs = t.re;
    let ys = t.im;
    let mut state = reversed(start);
    for j in 0..n / 4 {
        let k = 4 * j;
        let byte = load_byte(bytes, bit / 8 + j);
        state = put_byte(byte, state, &xs, &ys, &mut re[k..], &mut im[k..]);
    }
    reversed(state)
}

// The outputs of a period's steps in one word, and the state after it, its stages in the other order.
#[derive(Clone, Copy)]
pub struct Period {
    pub state: u8,
    pub word: usize,
}

// The trellis steps of n bits from bit `bit` of the load on.
fn encode_period(bytes: &[u8], bit: usize, n: usize, start: u8) -> Period
    requires { (start < Isdb.states) × (n ≤ 8) × (bit + n < 2 ^ 32) }
    ensures { PeriodEncoded bytes.now bit n start result }
{
    let z = ((start as usize) << n) + load_bits(bytes, bit, n);
    Period {
        state: (z % 64) as u8,
        word: outputs(z),
    }
}

// The steps and the pairs of a period of a QPSK code: the mother bits that are P1, and those that are P0.
#[derive(Clone, Copy)]
pub struct Pattern {
    pub period: usize,
    pub count: usize,
    pub p1: [usize; 4],
    pub p0: [usize; 4],
}

// The pattern of a combination; unpunctured, one step and the pair X Y.
fn pattern_of(c: Combination) -> Pattern
    ensures { PatternOf (puncture_of c) result }
{
    let code = c.puncturing();
    match code {
        Some(p) => {
            let all = p.pairs();
            let pairs = all.pairs;
            let a = pairs[0];
            let b = pairs[1];
            let c = pairs[2];
            let d = pairs[3];
            Pattern {
                period: p.period(),
                count: all.count,
                p1: [a.p1, b.p1, c.p1, d.p1],
                p0: [a.p0, b.p0, c.p0, d.p0],
            }
        }
        None => Pattern {
            period: 1,
            count: 1,
            p1: [0, 0, 0, 0],
            p0: [1, 1, 1, 1],
        },
    }
}

// Where mother bit a of a period of n steps stands in the word of its outputs.
fn shift_of(a: usize, n: usize) -> usize
    requires { n ≤ 8 }
    ensures { (result ≡ shift_of n a) × (result < 32) }
{
    if a / 2 < n {
        let y = n - 1 - a / 2;
        if a % 2 == 0 { 16 + y } else { y }
    } else {
        0
    }
}

// The same of four mother bits.
fn shifts(p: [usize; 4], n: usize) -> [usize; 4]
    requires { n ≤ 8 }
    ensures { Shifted n p result }
{
    let a = shift_of(p[0], n);
    let b = shift_of(p[1], n);
    let c = shift_of(p[2], n);
    let d = shift_of(p[3], n);
    [a, b, c, d]
}

// The points of a period's pairs.
fn put_pairs(
    word: usize,
    s1: &[usize; 4],
    s0: &[usize; 4],
    count: usize,
    xs: &[f64; 8],
    ys: &[f64; 8],
    re: &mut [f64],
    im: &mut [f64],
)
    requires { (count ≤ 4) × (count ≤ length re.old) × (count ≤ length im.old) × AtMost count 31 s1.now × AtMost count 31 s0.now }
    ensures { (re.new ≡ laid (upto (λ i. get_or xs.now (pair_label word s1.now s0.now i) nan) count) re.old) × (im.new ≡ laid (upto (λ i. get_or ys.now (pair_label word s1.now s0.now i) nan) count) im.old) }
{
    for i in 0..count {
        let a = digit(word, s1[i]);
        let b = digit(word, s0[i]);
        let l = 2 * a + b;
        re[i] = xs[l];
        im[i] = ys[l];
    }
}

// A run of QPSK, period by period.
fn encode_qpsk(
    bytes: &[u8],
    c: Combination,
    bit: usize,
    n: usize,
    start: u8,
    m: Mapping,
    re: &mut [f64],
    im: &mut [f64],
) -> u8
    requires { (modulation_of c ≡ Qpsk) × (start < Isdb.states) × (bit + n < 2 ^ 32) × (n ≡ n / steps_per_period c * steps_per_period c) × (piece_symbols c n ≤ length re.old) × (piece_symbols c n ≤ length im.old) }
    ensures { PieceEncoded c m bytes.now bit n start result re.old re.new im.old im.new }
{
    let p = pattern_of(c);
    let period = p.period;
    let count = p.count;
    let p1 = p.p1;
    let p0 = p.p0;
    let s1 = shifts(p1, period);
    let s0 = shifts(p0, period);
    let t = qpsk_table(m);
    let xs = t.re;
    let ys = t.im;
    let periods = n / period;
    let mut state = reversed(start);
    let mut done: usize = 0;
    let mut j: usize = 0;
    for q in 0..periods {
        let e = encode_period(bytes, bit + done, period, state);
        state = e.state;
        put_pairs(
            e.word,
            &s1,
            &s0,
            count,
            &xs,
            &ys,
            &mut re[j..],
            &mut im[j..],
        );
        done += period;
        j += count;
    }
    reversed(state)
}

// A run of n steps, whose first bit is bit `bit` of the load: the first of a byte.
pub fn encode_run(
    bytes: &[u8],
    c: Combination,
    bit: usize,
    n: usize,
    start: u8,
    m: Mapping,
    re: &mut [f64],
    im: &mut [f64],
) -> u8
    requires { (start < Isdb.states) × (bit + 2 * n < 2 ^ 32) × (n ≡ n / steps_per_period c * steps_per_period c) × (piece_symbols c n ≤ length re.old) × (piece_symbols c n ≤ length im.old) × (bit % 8 ≡ 0) × (n % 4 ≡ 0) }
    ensures { PieceEncoded c m bytes.now bit n start result re.old re.new im.old im.new }
{
    let modulation = c.modulation();
    match modulation {
        Modulation::Bpsk => encode_bpsk(bytes, bit, n, start, m, re, im),
        Modulation::Qpsk => encode_qpsk(bytes, c, bit, n, start, m, re, im),
        Modulation::Tc8psk => encode_tc8psk(bytes, bit, n, start, m, re, im),
    }
}
