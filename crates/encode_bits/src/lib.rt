// The bits of a frame's load, the trellis steps that they make, and several steps of the encoder at once. One number holds the state, its oldest stage
// highest, and the inputs after it, the first highest: the register of each step is a window of seven of its digits.
#![tactic(auto)]

ghost use Rattle.trellis.specs.Isdb;
ghost use Rattle.std.specs.Prelude.{◌≡◌, ◌<◌, ◌+◌, ◌%◌, ◌≤◌, ◌^◌, get_or};
ghost use Rattle.encode_bits.specs.Windows.{backward, x_outputs, y_outputs, outputs_in};
ghost use Rattle.trellis.specs.Code.{label, moved};
ghost use Rattle.isdbs_points.specs.Layout.{load_bit};
ghost use Rattle.encode_bits.specs.Bits.{byte_bit, Digits, byte_inputs, plain_inputs};

use viterbi_encode::encode_bit;

// A state with its stages in the other order.
pub fn reversed(s: u8) -> u8
    ensures { (result ≡ backward s) × (result < Isdb.states) }
{
    32 * (s % 2)
        + 16 * (s / 2 % 2)
        + 8 * (s / 4 % 2)
        + 4 * (s / 8 % 2)
        + 2 * (s / 16 % 2)
        + s / 32 % 2
}

// X as the tapped digits of every window of z: the input and the stages 1, 2, 3 and 6 (171 octal; BO.1408-1, Fig. 13).
fn x_outputs(z: usize) -> usize
    requires { z < 16384 }
    ensures { (result ≡ x_outputs z) × (result < 16384) }
{
    z ^ (z >> 1) ^ (z >> 2) ^ (z >> 3) ^ (z >> 6)
}

// Y in the same way: the input and the stages 2, 3, 5 and 6 (133 octal).
fn y_outputs(z: usize) -> usize
    requires { z < 16384 }
    ensures { (result ≡ y_outputs z) × (result < 16384) }
{
    z ^ (z >> 2) ^ (z >> 3) ^ (z >> 5) ^ (z >> 6)
}

// The outputs of all windows of z, which has 14 digits: of the window whose lowest digit is digit j, X is digit 16 + j and Y digit j.
pub fn outputs(z: usize) -> usize
    ensures { result ≡ outputs_in z }
{
    let w = z % 16384;
    65536 * x_outputs(w) + y_outputs(w)
}

// Byte `at` of the load; missing bytes are 0.
pub fn load_byte(bytes: &[u8], at: usize) -> u8
    ensures { result ≡ get_or bytes.now at 0 }
{
    if at < bytes.len() { bytes[at] } else { 0 }
}

// Bit i of a byte, high bit first.
pub fn byte_bit(byte: u8, i: usize) -> u8
    requires { i < 8 }
    ensures { result ≡ byte_bit byte i }
{
    (byte >> (7 - i)) % 2
}

// Bit n of the load, high bit first; missing bits are 0.
fn load_bit(bytes: &[u8], n: usize) -> u8
    ensures { result ≡ load_bit bytes.now n }
{
    byte_bit(load_byte(bytes, n / 8), n % 8)
}

// The coded inputs of a byte of a TC8PSK run as binary digits, the first highest.
pub fn coded_inputs(byte: u8) -> usize
    ensures { Digits (byte_inputs byte) 4 result }
{
    let first = 2 * byte_bit(byte, 1) + byte_bit(byte, 3);
    let last = 2 * byte_bit(byte, 5) + byte_bit(byte, 7);
    (4 * first + last) as usize
}

// n bits of the load from bit `bit` on as binary digits, the first highest.
pub fn load_bits(bytes: &[u8], bit: usize, n: usize) -> usize
    requires { (n ≤ 8) × (bit + n < 2 ^ 32) }
    ensures { Digits (plain_inputs bytes.now bit n) n result }
{
    let at = bit / 8;
    let two = 256 * (load_byte(bytes, at) as usize) + (load_byte(bytes, at + 1) as usize);
    (two >> (16 - bit % 8 - n)) % (1usize << n)
}

// 2 X + Y of a trellis step, and the state after it.
#[derive(Clone, Copy)]
pub struct Sent {
    pub state: u8,
    pub label: usize,
}

// The trellis step of an input, of which the low bit counts.
pub fn encode_input(u: u8, state: u8) -> Sent
    requires { state < Isdb.states }
    ensures { (result.label ≡ Isdb.labels (u % 2) state) × (result.state ≡ moved Isdb.half (u % 2) state) × (result.state < Isdb.states) × (result.label < 4) }
{
    let c = encode_bit(state, u);
    let label = 2 * c.x + c.y;
    Sent {
        state: c.state,
        label: label as usize,
    }
}

// The trellis step that bit n of the load makes.
pub fn encode_step(bytes: &[u8], n: usize, state: u8) -> Sent
    requires { state < Isdb.states }
    ensures { (result.label ≡ Isdb.labels (load_bit bytes.now n) state) × (result.state ≡ moved Isdb.half (load_bit bytes.now n) state) × (result.state < Isdb.states) × (result.label < 4) }
{
    encode_input(load_bit(bytes, n), state)
}
