// The bytes of a frame from its decoded bits and points. No row is checked here.
#![tactic(auto)]

ghost use Rattle.std.specs.Prelude.{◌≡◌, ℕ, ◌+◌, ◌*◌, ◌<◌, ◌≤◌, ◌^◌, length, get_or, Float};
ghost use Rattle.trellis.specs.Lists.{upto, laid};
ghost use Rattle.trellis.specs.Code.{state_at};
ghost use Rattle.isdbs_combination.specs.declared.Combination.{Combination};
ghost use Rattle.isdbs_combination.specs.declared.Combination.TheVariants.{Tc8psk2_3};
ghost use Rattle.isdbs_frame.specs.Frame.{main_symbols};
ghost use Rattle.isdbs_plan.specs.RunsOf.{frame_steps, load_bytes, Planned};
ghost use Rattle.isdbs_points.specs.Layout.{byte_of};
ghost use Rattle.isdbs_metrics.specs.Steps.{Bits, piece_bit, steps_of_bytes, PackRoom};
ghost use Rattle.decode_bytes.specs.Bytes.{received_with, byte_at};
ghost use Rattle.decode_c2.specs.Registers.{ByRegister};
ghost use Rattle.trellis.specs.Isdb;

use decode_c2::{register_points, uncoded_bit};
use isdbs_core::combination::{Combination, Modulation};
use isdbs_core::frame::SLOT_BYTES;
use isdbs_core::slots::Plan;
use isdbs_points::Mapping;

// A byte, and the encoder's state after its bits.
#[derive(Clone, Copy)]
pub struct Packed {
    pub byte: u8,
    pub state: u8,
}

// Four bits as a number, the first highest: by a product in which no two digits meet.
fn nibble(a: u8, b: u8, c: u8, d: u8) -> u8
    requires { (a < 2) × (b < 2) × (c < 2) × (d < 2) }
    ensures { result ≡ a * 8 + b * 4 + c * 2 + d }
{
    let w = a as u64 + 0x100 * (b as u64) + 0x1_0000 * (c as u64) + 0x100_0000 * (d as u64);
    ((w * 0x0804_0201 >> 24) % 16) as u8
}

// The byte of 8 decoded bits, high bit first.
fn plain_byte(bits: &[u8]) -> u8
    requires { (8 ≤ length bits.now) × Bits bits.now 8 }
    ensures { result ≡ byte_of (λ i. get_or bits.now i 0) }
{
    let high = nibble(bits[0], bits[1], bits[2], bits[3]);
    let low = nibble(bits[4], bits[5], bits[6], bits[7]);
    16 * high + low
}

// The encoder's state after six bits, whatever it was before: the newest highest.
pub fn six_state(bits: &[u8]) -> u8
    requires { (6 ≤ length bits.now) × Bits bits.now 6 }
    ensures { (result < Isdb.states) × ((s : ℕ) → s < Isdb.states → result ≡ state_at Isdb.half s bits.now 6) }
{
    32 * bits[5] + 16 * bits[4] + 8 * bits[3] + 4 * bits[2] + 2 * bits[1] + bits[0]
}

// The state after the bits of n bytes.
fn last_state(bits: &[u8], n: usize, start: u8) -> u8
    requires { (start < Isdb.states) × (n < 2 ^ 16) × (8 * n ≤ length bits.now) × Bits bits.now (8 * n) }
    ensures { (result ≡ state_at Isdb.half start bits.now (8 * n)) × (result < Isdb.states) }
{
    if n == 0 {
        return start;
    }
    six_state(&bits[8 * n - 6..])
}

// The byte of 4 steps of TC8PSK: C2, then the decoded bit, of each.
fn tc8psk_byte(
    xs: &[f64; 128],
    ys: &[f64; 128],
    re: &[f64],
    im: &[f64],
    m: Mapping,
    bits: &[u8],
    start: u8,
) -> Packed
    requires { ByRegister m.tc8psk_c1_is_y xs.now ys.now × (start < Isdb.states) × (4 ≤ length re.now) × (4 ≤ length im.now) × (4 ≤ length bits.now) × Bits bits.now 4 }
    ensures { (result.byte ≡ byte_of (piece_bit Tc8psk2_3 re.now im.now m start bits.now)) × (result.state ≡ state_at Isdb.half start bits.now 4) × (result.state < Isdb.states) }
{
    let mut byte: u8 = 0;
    let mut state = start;
    for i in 0..4 {
        let u = bits[i];
        let register = 64 * u + state;
        let c2 = uncoded_bit(xs, ys, re, im, m.conjugate, register, i);
        byte = 2 * (2 * byte + c2) + u;
        state = register / 2;
    }
    Packed { byte, state }
}

// The bytes of a run of BPSK or QPSK.
fn pack_plain(bits: &[u8], n: usize, start: u8, bytes: &mut [u8]) -> u8
    requires { (start < Isdb.states) × (n < 2 ^ 16) × (8 * n ≤ length bits.now) × Bits bits.now (8 * n) × (n ≤ length bytes.old) }
    ensures { (bytes.new ≡ laid (upto (λ j. byte_of (λ i. get_or bits.now (8 * j + i) 0)) n) bytes.old) × (result ≡ state_at Isdb.half start bits.now (8 * n)) × (result < Isdb.states) }
{
    for j in 0..n {
        let from = 8 * j;
        bytes[j] = plain_byte(&bits[from..]);
    }
    last_state(bits, n, start)
}

// The bytes of a run of TC8PSK.
fn pack_tc8psk(
    re: &[f64],
    im: &[f64],
    m: Mapping,
    bits: &[u8],
    n: usize,
    start: u8,
    bytes: &mut [u8],
) -> u8
    requires { (start < Isdb.states) × (n < 2 ^ 16) × (4 * n ≤ length re.now) × (4 * n ≤ length im.now) × (4 * n ≤ length bits.now) × Bits bits.now (4 * n) × (n ≤ length bytes.old) }
    ensures { (bytes.new ≡ laid (upto (λ j. byte_of (λ i. piece_bit Tc8psk2_3 re.now im.now m start bits.now (8 * j + i))) n) bytes.old) × (result ≡ state_at Isdb.half start bits.now (4 * n)) × (result < Isdb.states) }
{
    let points = register_points(m.tc8psk_c1_is_y);
    let xs = points.re;
    let ys = points.im;
    let mut state = start;
    for j in 0..n {
        let from = 4 * j;
        let b = tc8psk_byte(&xs, &ys, &re[from..], &im[from..], m, &bits[from..], state);
        bytes[j] = b.byte;
        state = b.state;
    }
    state
}

// The bytes of a run: n of them.
fn pack_run(
    c: Combination,
    m: Mapping,
    re: &[f64],
    im: &[f64],
    bits: &[u8],
    n: usize,
    start: u8,
    bytes: &mut [u8],
) -> u8
    requires { (start < Isdb.states) × (n < 2 ^ 16) × PackRoom c n (length re.now) (length im.now) (length bits.now) bits.now × (n ≤ length bytes.old) }
    ensures { (bytes.new ≡ laid (upto (λ j. byte_of (λ i. piece_bit c re.now im.now m start bits.now (8 * j + i))) n) bytes.old) × (result ≡ state_at Isdb.half start bits.now (steps_of_bytes c n)) × (result < Isdb.states) }
{
    let modulation = c.modulation();
    match modulation {
        Modulation::Bpsk => pack_plain(bits, n, start, bytes),
        Modulation::Qpsk => pack_plain(bits, n, start, bytes),
        Modulation::Tc8psk => pack_tc8psk(re, im, m, bits, n, start, bytes),
    }
}

// The bytes of a frame from its decoded bits, which are encoded again from the start state for C2.
pub fn write_bytes(
    p: Plan,
    m: Mapping,
    start: u8,
    re: &[f64],
    im: &[f64],
    bits: &[u8],
    bytes: &mut [u8],
)
    requires { (start < Isdb.states) × Planned p × (main_symbols ≤ length re.now) × (main_symbols ≤ length im.now) × (frame_steps p.table ≤ length bits.now) × Bits bits.now (frame_steps p.table) × (load_bytes p.table ≤ length bytes.old) }
    ensures { (scales : Combination → Float) → bytes.new ≡ laid (upto (byte_at p.table (received_with re.now im.now m scales) start bits.now) (load_bytes p.table)) bytes.old }
{
    let mut state = start;
    let mut step: usize = 0;
    let mut done: usize = 0;
    for r in &p.runs[..p.count] {
        let c = r.combination;
        let from = r.symbol_start;
        let n = SLOT_BYTES * r.valid_slots;
        state = pack_run(
            c,
            m,
            &re[from..],
            &im[from..],
            &bits[step..],
            n,
            state,
            &mut bytes[done..],
        );
        step = step + c.steps_per_slot() * r.valid_slots;
        done = done + n;
    }
}
