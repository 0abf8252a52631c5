// What the call of overlay is made of: its answer by rows, the exclusive-or of two strings, and the three encodings beside each other by a code of constraint length
// 3 to 7.
// The chapters of specs/:
//   Rows   the refusal rows of the three encodings
//   Calls  what the three encodings leave
#![tactic(auto)]

ghost use Rattle.std.specs.Prelude.{◌≡◌, true, ◌*◌, ◌≤◌, leb, length, IfOk, IsOk};
ghost use Rattle.refusal.specs.Rows.{first_row};
ghost use Rattle.trellis.specs.Lists.{laid};
ghost use Rattle.short_code.specs.Codes.{good_code, states_of};
ghost use Rattle.overlay_laws.specs.Overlaid.{overlaid};
ghost use Rattle.overlay_parts.specs.Rows.{short_outputs, overlay_rows};
ghost use Rattle.overlay_parts.specs.Calls.{lent, Three, Encodes};

use isdb_fec::conv::ConvEncoder;
use refusal::Refusal;
use short_code::{good, half};
pub use short_encode::Code;
use short_encode::encode;
use short_rows::few;

// A code, and the encoders of the first string and of the second before the call.
#[derive(Clone, Copy)]
pub struct Encoders {
    pub code: Code,
    pub first: ConvEncoder,
    pub second: ConvEncoder,
}

// The lengths that are lent: of both strings, of the place of their exclusive-or, and of the outputs of all three.
#[derive(Clone, Copy)]
pub struct Lengths {
    pub first: usize,
    pub second: usize,
    pub sum: usize,
    pub out1: usize,
    pub out2: usize,
    pub out3: usize,
}

// The encoders of the first string, of the second and of their exclusive-or after the call.
#[derive(Clone, Copy)]
pub struct Encodings {
    pub first: ConvEncoder,
    pub second: ConvEncoder,
    pub third: ConvEncoder,
}

// Whether a state is none of the code's.
fn beyond(code: Code, state: u8) -> bool
    requires { good_code code ≡ true }
    ensures { result ≡ leb (states_of code) state }
{
    2 * half(code) <= (state as usize)
}

// Whether there are too few places for n inputs: `bits` for their exclusive-or, x, y and z for the outputs.
fn short(n: usize, bits: usize, x: usize, y: usize, z: usize) -> bool
    ensures { result ≡ short_outputs n bits x y z }
{
    if bits < n {
        return true;
    }
    if few(x, n) {
        return true;
    }
    if few(y, n) {
        return true;
    }
    few(z, n)
}

// The answer to strings of these lengths from the states s and r.
pub fn answer_overlay(code: Code, s: u8, r: u8, lent: Lengths) -> Result<(), Refusal>
    ensures { result ≡ first_row (overlay_rows code s r lent.first lent.second lent.sum lent.out1 lent.out2 lent.out3) }
{
    if !good(code) {
        return Err(Refusal::Code);
    }
    if beyond(code, s) {
        return Err(Refusal::State);
    }
    if beyond(code, r) {
        return Err(Refusal::State);
    }
    if lent.first != lent.second {
        return Err(Refusal::Length);
    }
    if short(lent.first, lent.sum, lent.out1, lent.out2, lent.out3) {
        return Err(Refusal::Space);
    }
    Ok(())
}

// The exclusive-or of two strings of equal length, at the front of `ws`.
pub fn lay_overlaid(us: &[u8], vs: &[u8], ws: &mut [u8])
    requires { (length us.now ≡ length vs.now) × (length us.now ≤ length ws.old) }
    ensures { ws.new ≡ laid (overlaid us.now vs.now) ws.old }
{
    for i in 0..us.len() {
        ws[i] = us[i] ^ vs[i];
    }
}

// The strings `us` and `vs` from their states, and their exclusive-or, the string `ws`, from the exclusive-or of the states. None of the three is refused.
pub fn encode_three(
    given: Encoders,
    us: &[u8],
    vs: &[u8],
    ws: &[u8],
    out1: &mut [u8],
    out2: &mut [u8],
    out3: &mut [u8],
) -> Result<Encodings, Refusal>
    requires { Three given.code given.first.state given.second.state us.now vs.now ws.now (length out1.old) (length out2.old) (length out3.old) }
    ensures accepted { IsOk result }
    ensures encodes { IfOk result (λ e. Encodes given.code given.first.state given.second.state us.now vs.now e (lent out1.old out2.old out3.old) (lent out1.new out2.new out3.new)) }
{
    let code = given.code;
    let e1 = given.first;
    let e2 = given.second;
    let s = e1.state;
    let r = e2.state;
    let first = encode(code, e1, us, out1)?;
    let second = encode(code, e2, vs, out2)?;
    let third = encode(code, ConvEncoder { state: s ^ r }, ws, out3)?;
    Ok(Encodings {
        first,
        second,
        third,
    })
}
