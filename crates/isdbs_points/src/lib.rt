// Signal points by their bits (MIC Ordinance No. 87 of 2011, annexed table 46; ITU-R BO.1408-1, Fig. 15), how a mapping lays them, and the state that a
// frame starts from. After demod.rs of isdbs-phy.
// The chapters of specs/:
//   Frame      the frame that encoding makes: what point k is
//   BitLaws    bits of a load, coded bits and pairs
//   InputLaws  the inputs of the frame's code, step by step
//   StateLaws  encoding from a state on
//   Layout     where the symbols, steps and bits of each run lie
//   OrderLaws  the order in which a period's bits are sent
//   Pieces     one run of a frame by itself
//   PlaceLaws  segments that lie end to end
//   Points     the points of BPSK, QPSK and 8PSK
//   SizeLaws   the segments of an accepted table fit the frame
//   AmongLaws  which segment has a step or a bit
#![tactic(auto)]

ghost use Rattle.std.specs.Prelude.{◌≡◌, true, false, ◌%◌, ◌<◌};
ghost use Rattle.trellis.specs.Step.{term};
ghost use Rattle.isdbs_points.specs.Points.{psk8_of, qpsk_of, subset, conjugated};
ghost use Rattle.isdbs_points.specs.Layout.{word_bit};
ghost use Rattle.isdbs_points.specs.Frame.{state_after, start_state};
ghost use Rattle.trellis.specs.Isdb;

use isdbs_core::frame::{SYNC_BITS, W2, W3};
use viterbi_encode::encode_bit;

// The greatest part of a received point that is taken, of either sign (refusal 7 as document 02, P8 leaves it).
pub const PART_LIMIT: f64 = 65536.0;

// 1 / sqrt 2 as an f64: document 01's s, of the bits 3FE6A09E667F3BCD.
const ROOT: f64 = 0.7071067811865476;

// A point's real and imaginary part.
#[derive(Clone, Copy)]
pub struct Cplx {
    pub re: f64,
    pub im: f64,
}

// N points by their parts: by label, or by the register of a trellis step.
#[derive(Clone, Copy)]
pub struct PointTable<const N: usize> {
    pub re: [f64; N],
    pub im: [f64; N],
}

// How coded bits map to points.
#[derive(Clone, Copy)]
pub struct Mapping {
    // The imaginary part of every point is negated.
    pub conjugate: bool,
    // QPSK: P1 on the imaginary part and P0 on the real one, instead of the reverse.
    pub qpsk_p1_on_q: bool,
    // TC8PSK: C1 is the 133 (octal) output and C0 the 171 one, instead of the reverse.
    pub tc8psk_c1_is_y: bool,
}

// The usual reading (annexed table 46; BO.1408-1, Fig. 15).
impl Default for Mapping {
    ghost is_default = { λ m. (m.conjugate ≡ false) × (m.qpsk_p1_on_q ≡ false) × (m.tc8psk_c1_is_y ≡ true) };

    fn default() -> Self {
        Self {
            conjugate: false,
            qpsk_p1_on_q: false,
            tc8psk_c1_is_y: true,
        }
    }
}

// The 8PSK point of the label C2 C1 C0 (annexed table 46); the low three bits count.
pub fn psk8_point(label: u8) -> Cplx
    ensures { result ≡ psk8_of (label % 8) }
{
    match label % 8 {
        0 => Cplx { re: 1.0, im: 0.0 },
        1 => Cplx { re: ROOT, im: ROOT },
        2 => Cplx {
            re: -ROOT,
            im: ROOT,
        },
        3 => Cplx { re: 0.0, im: 1.0 },
        4 => Cplx { re: -1.0, im: 0.0 },
        5 => Cplx {
            re: -ROOT,
            im: -ROOT,
        },
        6 => Cplx {
            re: ROOT,
            im: -ROOT,
        },
        _ => Cplx { re: 0.0, im: -1.0 },
    }
}

// +s for the bit 0, -s for the bit 1.
fn sign_of(b: u8, s: f64) -> f64
    ensures { result ≡ term (b % 2) s }
{
    if b % 2 == 1 { -s } else { s }
}

// The QPSK point of (P1, P0), P1 the sign of the real part and P0 that of the imaginary part.
pub fn qpsk_point(p1: u8, p0: u8) -> Cplx
    ensures { result ≡ qpsk_of false (p1 % 2) (p0 % 2) }
{
    Cplx {
        re: sign_of(p1, ROOT),
        im: sign_of(p0, ROOT),
    }
}

// The QPSK point of (P1, P0) under a mapping.
pub fn qpsk_mapped(p1_on_q: bool, p1: u8, p0: u8) -> Cplx
    ensures { result ≡ qpsk_of p1_on_q (p1 % 2) (p0 % 2) }
{
    let q = qpsk_point(p1, p0);
    if p1_on_q {
        Cplx { re: q.im, im: q.re }
    } else {
        q
    }
}

// The imaginary part, negated where the mapping says so.
pub fn mirror(conjugate: bool, y: f64) -> f64
    ensures { result ≡ conjugated conjugate y }
{
    if conjugate { -y } else { y }
}

// 2 C1 + C0 from 2 X + Y; the low two bits count.
pub fn subset_of(c1_is_y: bool, l: u8) -> u8
    ensures { (result ≡ subset c1_is_y (l % 4)) × (result < 4) }
{
    let low = l % 4;
    if c1_is_y {
        2 * (low % 2) + low / 2
    } else {
        low
    }
}

// Bit i of a word, high bit first; past its end, the last one.
pub fn word_bit(word: u16, i: usize) -> u8
    ensures { result ≡ word_bit word i }
{
    if i < 16 {
        ((word >> (15 - i)) % 2) as u8
    } else {
        (word % 2) as u8
    }
}

// The encoder's state after a 16-bit word.
pub fn state_after(word: u16) -> u8
    ensures { result ≡ state_after word }
{
    let mut state: u8 = 0;
    for i in 0..SYNC_BITS {
        let c = encode_bit(state, word_bit(word, i));
        state = c.state;
    }
    state
}

// The state that W2 leaves before the first frame of a superframe, and W3 before the others.
pub fn start_state(first: bool) -> u8
    ensures { (result ≡ start_state first) × (result < Isdb.states) }
{
    if first {
        state_after(W2)
    } else {
        state_after(W3)
    }
}
