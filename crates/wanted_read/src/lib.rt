// What a received frame wants to be read as: each bit of the load by the signs of its points, run by run. `Wants` and what follows from it are in specs/.
#![tactic(auto)]

ghost use Rattle.trellis.specs.Isdb;
ghost use Rattle.std.specs.Prelude.{◌≡◌, cond, ◌+◌, ◌*◌, ◌/◌, ◌%◌, ◌<◌, ◌≤◌, ◌^◌, ltb, length, get_or};
ghost use Rattle.std.specs.Float.{nan};
ghost use Rattle.trellis.specs.Lists.{upto, laid};
ghost use Rattle.trellis.specs.Code.{moved};
ghost use Rattle.isdbs_frame.specs.Frame.{main_symbols};
ghost use Rattle.isdbs_plan.specs.RunsOf.{load_bytes, Planned};
ghost use Rattle.isdbs_points.specs.Layout.{byte_of};
ghost use Rattle.isdbs_points.specs.Frame.{coded_bit};
ghost use Rattle.isdbs_metrics.specs.Reading.{part_of};
ghost use Rattle.isdbs_metrics.specs.Steps.{LayoutOf};
ghost use Rattle.wanted_read.specs.ReadOff.{shown, hard, by_sign, psk8_label, bit_as, input_from};
ghost use Rattle.wanted_read.specs.Pieces.{run_at, step_of, SentIn, InFrame, ByteIn, BytesIn, next_bit, next_state, state_after, bit_after, run_state, run_byte, frame_byte};

use isdbs_core::combination::{Combination, Modulation};
use isdbs_core::frame::SLOT_BYTES;
use isdbs_core::slots::Plan;
use isdbs_metrics::{PeriodLayout, layout_of, symbol};
use isdbs_points::{Cplx, Mapping, subset_of};
use viterbi_encode::encode_bit;

// One of three numbers, by whether a part lies above 0, below it or at it.
fn by_sign(x: f64, above: u8, below: u8, level: u8) -> u8
    ensures { result ≡ by_sign above below level x }
{
    if x > 0.0 {
        above
    } else {
        if x < 0.0 { below } else { level }
    }
}

// 4 C2 + 2 C1 + C0 of an 8PSK point.
fn psk8_label(z: Cplx) -> u8
    ensures { (result ≡ psk8_label z) × (result < 8) }
{
    let right = by_sign(z.im, 1, 6, 0);
    let left = by_sign(z.im, 2, 5, 4);
    let middle = by_sign(z.im, 3, 7, 7);
    by_sign(z.re, right, left, middle)
}

// The bit of a BPSK or QPSK part.
fn part_bit(x: f64) -> u8
    ensures { (result ≡ hard x) × (result < 2) }
{
    if x < 0.0 { 1 } else { 0 }
}

// The part of a QPSK symbol that carries p1 (h = 0) or p0 (h = 1).
fn part_of(reverse: bool, z: Cplx, h: usize) -> f64
    ensures { result ≡ part_of reverse z h }
{
    let real = reverse as usize;
    if h == real { z.re } else { z.im }
}

// X of 2 X + Y where b is even, else Y.
fn coded_bit(b: usize, label: u8) -> u8
    requires { label < 4 }
    ensures { (result ≡ coded_bit b label) × (result < 2) }
{
    if b % 2 == 0 { label / 2 } else { label % 2 }
}

// The label of symbol k of the frame.
fn label_at(re: &[f64], im: &[f64], m: Mapping, k: usize) -> u8
    requires { (k < length re.now) × (k < length im.now) }
    ensures { (result ≡ psk8_label (shown m re.now im.now k)) × (result < 8) }
{
    psk8_label(symbol(re, im, m.conjugate, k))
}

// The bit of the real part of symbol k.
fn bpsk_bit(re: &[f64], k: usize) -> u8
    requires { k < length re.now }
    ensures { (result ≡ hard (get_or re.now k nan)) × (result < 2) }
{
    part_bit(re[k])
}

// The coded bit of a QPSK run that is sent n-th; its points start at a symbol.
fn qpsk_bit(re: &[f64], im: &[f64], m: Mapping, start: usize, n: usize) -> u8
    requires { (start + n / 2 < length re.now) × (start + n / 2 < length im.now) }
    ensures { (result ≡ hard (part_of m.qpsk_p1_on_q (shown m re.now im.now (start + n / 2)) (n % 2))) × (result < 2) }
{
    let z = symbol(re, im, m.conjugate, start + n / 2);
    part_bit(part_of(m.qpsk_p1_on_q, z, n % 2))
}

// The coded bit b of step k of a run, which the run sends n-th.
fn sent_bit(
    re: &[f64],
    im: &[f64],
    m: Mapping,
    modulation: Modulation,
    start: usize,
    n: usize,
    k: usize,
    b: usize,
) -> u8
    requires { SentIn modulation start n k × (main_symbols ≤ length re.now) × (main_symbols ≤ length im.now) }
    ensures { (result ≡ bit_as m (shown m re.now im.now) modulation start n k b) × (result < 2) }
{
    match modulation {
        Modulation::Bpsk => bpsk_bit(re, start + n),
        Modulation::Qpsk => qpsk_bit(re, im, m, start, n),
        Modulation::Tc8psk => {
            let l = label_at(re, im, m, start + k);
            coded_bit(b, subset_of(m.tc8psk_c1_is_y, l))
        }
    }
}

// The coded bit of a step that is read: X where its place is below the count of those sent, else Y.
fn which_bit(place: usize, count: usize) -> usize
    ensures { (result ≡ cond (ltb place count) 0 1) × (result < 2) }
{
    if place < count { 0 } else { 1 }
}

// The input of step k of a run, from the state before it.
fn read_input(
    re: &[f64],
    im: &[f64],
    m: Mapping,
    layout: PeriodLayout,
    start: usize,
    k: usize,
    state: u8,
) -> u8
    requires { LayoutOf layout × (k < 2 ^ 30) × (state < Isdb.states) × InFrame layout.combination start k × (main_symbols ≤ length re.now) × (main_symbols ≤ length im.now) }
    ensures { (result ≡ input_from m (shown m re.now im.now) state (run_at layout.combination start) k) × (result < 2) }
{
    let places = layout.places;
    let count = layout.count;
    let q = k % layout.period;
    let b = which_bit(places[2 * q], count);
    let n = k / layout.period * count + places[2 * q + b];
    let c = encode_bit(state, 0);
    let zero = coded_bit(b, 2 * c.x + c.y);
    let modulation = layout.modulation;
    let shown = sent_bit(re, im, m, modulation, start, n, k, b);
    (shown + zero) % 2
}

// A bit of the load, and the state after it.
#[derive(Clone, Copy)]
pub struct BitRead {
    pub bit: u8,
    pub state: u8,
}

// The coded bit of step k of a run.
fn read_coded(
    re: &[f64],
    im: &[f64],
    m: Mapping,
    layout: PeriodLayout,
    start: usize,
    k: usize,
    state: u8,
) -> BitRead
    requires { LayoutOf layout × (k < 2 ^ 30) × (state < Isdb.states) × InFrame layout.combination start k × (main_symbols ≤ length re.now) × (main_symbols ≤ length im.now) }
    ensures { (result.bit ≡ input_from m (shown m re.now im.now) state (run_at layout.combination start) k) × (result.state ≡ moved Isdb.half (input_from m (shown m re.now im.now) state (run_at layout.combination start) k) state) × (result.bit < 2) × (result.state < Isdb.states) }
{
    let u = read_input(re, im, m, layout, start, k, state);
    BitRead {
        bit: u,
        state: 32 * u + state / 2,
    }
}

// Bit i of a run's load: of TC8PSK C2, then the coded bit, of each step.
fn read_bit(
    re: &[f64],
    im: &[f64],
    m: Mapping,
    layout: PeriodLayout,
    start: usize,
    i: usize,
    state: u8,
) -> BitRead
    requires { LayoutOf layout × (i < 2 ^ 30) × (state < Isdb.states) × InFrame layout.combination start (step_of layout.combination i) × (main_symbols ≤ length re.now) × (main_symbols ≤ length im.now) }
    ensures { (result.bit ≡ next_bit m (shown m re.now im.now) (run_at layout.combination start) state i) × (result.state ≡ next_state m (shown m re.now im.now) (run_at layout.combination start) state i) × (result.bit < 2) × (result.state < Isdb.states) }
{
    let modulation = layout.modulation;
    match modulation {
        Modulation::Bpsk => read_coded(re, im, m, layout, start, i, state),
        Modulation::Qpsk => read_coded(re, im, m, layout, start, i, state),
        Modulation::Tc8psk => {
            if i % 2 == 0 {
                let l = label_at(re, im, m, start + i / 2);
                BitRead { bit: l / 4, state }
            } else {
                read_coded(re, im, m, layout, start, i / 2, state)
            }
        }
    }
}

// A byte of the load, and the state after it.
#[derive(Clone, Copy)]
pub struct ByteRead {
    pub byte: u8,
    pub state: u8,
}

// The byte of a run's load whose first bit is bit `from`, high bit first.
fn read_byte(
    re: &[f64],
    im: &[f64],
    m: Mapping,
    layout: PeriodLayout,
    start: usize,
    from: usize,
    prior: u8,
) -> ByteRead
    requires { LayoutOf layout × (from + 8 < 2 ^ 30) × (prior < Isdb.states) × ByteIn layout.combination start from × (main_symbols ≤ length re.now) × (main_symbols ≤ length im.now) }
    ensures { (result.byte ≡ byte_of (bit_after m (shown m re.now im.now) (run_at layout.combination start) prior from)) × (result.state ≡ state_after m (shown m re.now im.now) (run_at layout.combination start) prior from 8) × (result.state < Isdb.states) }
{
    let mut byte: u8 = 0;
    let mut state = prior;
    for i in 0..8 {
        let b = read_bit(re, im, m, layout, start, from + i, state);
        byte = 2 * byte + b.bit;
        state = b.state;
    }
    ByteRead { byte, state }
}

// The n bytes of a run's load; the state after them.
fn read_run(
    re: &[f64],
    im: &[f64],
    m: Mapping,
    c: Combination,
    start: usize,
    n: usize,
    prior: u8,
    bytes: &mut [u8],
) -> u8
    requires { (prior < Isdb.states) × (n < 2 ^ 16) × BytesIn c start n × (main_symbols ≤ length re.now) × (main_symbols ≤ length im.now) × (n ≤ length bytes.old) }
    ensures { (bytes.new ≡ laid (upto (run_byte m (shown m re.now im.now) (run_at c start) prior) n) bytes.old) × (result ≡ run_state m (shown m re.now im.now) (run_at c start) prior (8 * n)) × (result < Isdb.states) }
{
    let layout = layout_of(c);
    let mut state = prior;
    for j in 0..n {
        let b = read_byte(re, im, m, layout, start, 8 * j, state);
        bytes[j] = b.byte;
        state = b.state;
    }
    state
}

// The load that a frame shows, from the state before it, laid over the beginning of the lent bytes.
pub fn read_load(p: Plan, m: Mapping, prior: u8, re: &[f64], im: &[f64], bytes: &mut [u8])
    requires { (prior < Isdb.states) × Planned p × (main_symbols ≤ length re.now) × (main_symbols ≤ length im.now) × (load_bytes p.table ≤ length bytes.old) }
    ensures { bytes.new ≡ laid (upto (frame_byte p.table m re.now im.now prior) (load_bytes p.table)) bytes.old }
{
    let count = p.count;
    let mut state = prior;
    let mut done: usize = 0;
    for i in 0..count {
        let list = p.runs;
        let r = list[i];
        let c = r.combination;
        let start = r.symbol_start;
        let n = SLOT_BYTES * r.valid_slots;
        state = read_run(re, im, m, c, start, n, state, &mut bytes[done..]);
        done = done + n;
    }
}
