// The list encoder of a code of constraint length 3 to 7 with two generators: X then Y of each input bit, one in a byte.
#![tactic(auto)]

ghost use Rattle.std.specs.Prelude.{◌≡◌, ◌*◌, ◌<◌, ◌≤◌, length, IfOk, MatchResult};
ghost use Rattle.refusal.specs.Rows.{first_row, answer_of};
ghost use Rattle.trellis.specs.Lists.{laid};
ghost use Rattle.trellis.specs.Encoded.{coded_bits, last_state};
ghost use Rattle.short_code.specs.Codes.{code_of, Fits};
ghost use Rattle.short_fec.specs.Rows.{encode_rows};
ghost use Rattle.trellis.specs.Isdb;

use isdb_fec::conv::ConvEncoder;
use refusal::Refusal;
pub use short_code::Code;
use short_code::{bad, encode_bit, half};
use short_rows::few;

// The answer to an encoding of n inputs into `space` places.
fn answer_encode(code: Code, state: u8, n: usize, space: usize) -> Result<(), Refusal>
    ensures { result ≡ first_row (encode_rows code state n space) }
{
    if bad(code) {
        return Err(Refusal::Code);
    }
    if (state as usize) >= 2 * half(code) {
        return Err(Refusal::State);
    }
    if few(space, n) {
        return Err(Refusal::Space);
    }
    Ok(())
}

// X and Y of each input at the front of `out`. The state after the last.
fn encode_all(code: Code, h: usize, state: u8, bits: &[u8], out: &mut [u8]) -> u8
    requires { (1 ≤ h) × (h ≤ Isdb.half) × Fits code h × (state < 2 * h) × (2 * length bits.now ≤ length out.old) }
    ensures { (result ≡ last_state (code_of code) state bits.now) × (out.new ≡ laid (coded_bits (code_of code) state bits.now) out.old) }
{
    let mut s = state;
    for i in 0..bits.len() {
        let c = encode_bit(code, h, s, bits[i]);
        out[2 * i] = c.x;
        out[2 * i + 1] = c.y;
        s = c.state;
    }
    s
}

// Encodes the low bit of each byte: X then Y of each at the front of `out`. The encoder after the call.
pub fn encode(
    code: Code,
    enc: ConvEncoder,
    bits: &[u8],
    out: &mut [u8],
) -> Result<ConvEncoder, Refusal>
    ensures answers { answer_of result ≡ first_row (encode_rows code enc.state (length bits.now) (length out.old)) }
    ensures state { IfOk result (λ e. e.state ≡ last_state (code_of code) enc.state bits.now) }
    ensures coded { MatchResult result (λ _. out.new ≡ laid (coded_bits (code_of code) enc.state bits.now) out.old) (λ _. out.new ≡ out.old) }
{
    let state = enc.state;
    answer_encode(code, state, bits.len(), out.len())?;
    let last = encode_all(code, half(code), state, bits, out);
    Ok(ConvEncoder { state: last })
}
