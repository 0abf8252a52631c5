// The code's encoder: one input of ISDB's code, the pair that it gives and the state that it leads to; and the parity of a byte, of which the outputs of every code are made.
#![tactic(auto)]

ghost use Rattle.std.specs.Prelude.{◌≡◌, ◌<◌, ◌%◌};
ghost use Rattle.trellis.specs.Code.{isdb, output, moved};
ghost use Rattle.trellis.specs.Parity.{ones};
ghost use Rattle.trellis.specs.Isdb;

// The outputs X and Y for the input 0: that of the state s is bit s. Both generators tap the input, so the input 1 gives the other bit.
// Worked out from `output isdb` (crates/trellis/specs/Code.antt), the parities under 171 and 133 octal, as the contract of `encode_bit` has it.
const X_OUTPUTS: u64 = 0x55aa_aa55_aa55_55aa;

const Y_OUTPUTS: u64 = 0x6699_9966_6699_9966;

// The pair that an input gives, and the state that it leads to.
#[derive(Clone, Copy)]
pub struct Coded {
    pub state: u8,
    pub x: u8,
    pub y: u8,
}

// The modulo-2 sum of the bits of x.
pub fn parity(x: u8) -> u8
    ensures { result ≡ ones 8 x % 2 }
{
    let four = x ^ (x >> 4);
    let two = four ^ (four >> 2);
    (two ^ (two >> 1)) % 2
}

// One input of the encoder; only its low bit counts.
pub fn encode_bit(state: u8, u: u8) -> Coded
    requires { state < Isdb.states }
    ensures { (result.x ≡ output isdb 0o171 (u % 2) state) × (result.y ≡ output isdb 0o133 (u % 2) state) × (result.state ≡ moved Isdb.half (u % 2) state) }
{
    let b = u % 2;
    Coded {
        state: 32 * b + state / 2,
        x: ((X_OUTPUTS >> state) % 2) as u8 ^ b,
        y: ((Y_OUTPUTS >> state) % 2) as u8 ^ b,
    }
}
