// The codes of constraint length 3 to 7 with two generators (document 02, P7): the test of a code, and one input of its encoder.
#![tactic(auto)]

ghost use Rattle.std.specs.Prelude.{◌≡◌, not, ◌&&◌, ◌*◌, ◌<◌, ◌≤◌, ◌%◌, leb, ltb};
ghost use Rattle.trellis.specs.Code.{output, moved};
ghost use Rattle.short_code.specs.Codes.{code_of, labels, good_code, Fits};
ghost use Rattle.trellis.specs.Isdb;

use viterbi_encode::{Coded, parity};

// The constraint length, and the generators of the outputs X and Y.
#[derive(Clone, Copy)]
pub struct Code {
    pub constraint: u8,
    pub g1: u8,
    pub g2: u8,
}

// Half of the states.
pub fn half(code: Code) -> usize
    requires { (3 ≤ code.constraint) × (code.constraint ≤ 7) }
    ensures { (1 ≤ result) × (result ≤ Isdb.half) × Fits code result }
{
    1usize << (code.constraint - 2)
}

// Whether a generator is below 2n and has the bit n, the top one.
fn has_top(n: usize, g: u8) -> bool
    requires { n ≤ Isdb.states }
    ensures { result ≡ (leb n g && ltb g (2 * n)) }
{
    let g = g as usize;
    if n <= g { g < 2 * n } else { false }
}

// Whether the length is 3 to 7 and both generators are of that length.
pub fn good(code: Code) -> bool
    ensures { result ≡ good_code code }
{
    if code.constraint < 3 {
        return false;
    }
    if code.constraint > 7 {
        return false;
    }
    let n = 2 * half(code);
    if has_top(n, code.g1) {
        has_top(n, code.g2)
    } else {
        false
    }
}

// Row 12.
pub fn bad(code: Code) -> bool
    ensures { result ≡ not (good_code code) }
{
    if good(code) { false } else { true }
}

// 2X + Y of the branch from the state s on the input u.
pub fn label(code: Code, h: usize, u: usize, s: usize) -> u8
    requires { (1 ≤ h) × (h ≤ Isdb.half) × Fits code h × (u < 2) × (s < 2 * h) }
    ensures { (result < 4) × (result ≡ labels code u s) }
{
    let register = (2 * h * u + s) as u8;
    2 * parity(register & code.g1) + parity(register & code.g2)
}

// One input of the encoder; only its low bit counts.
pub fn encode_bit(code: Code, h: usize, state: u8, u: u8) -> Coded
    requires { (1 ≤ h) × (h ≤ Isdb.half) × Fits code h × (state < 2 * h) }
    ensures { (result.x ≡ output (code_of code) code.g1 (u % 2) state) × (result.y ≡ output (code_of code) code.g2 (u % 2) state) × (result.state ≡ moved h (u % 2) state) × (result.state < 2 * h) }
{
    let b = (u % 2) as usize;
    let s = state as usize;
    let pair = label(code, h, b, s);
    Coded {
        state: (h * b + s / 2) as u8,
        x: pair / 2,
        y: pair % 2,
    }
}
