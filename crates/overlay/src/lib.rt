// Overlaying two test patterns: two strings of equal length and their exclusive-or, encoded beside each other by a code of constraint length 3 to 7. What the call is
// made of is in overlay_parts; that the code is linear, in overlay_laws, and of whole frames in overlay_frames.
#![tactic(auto)]

ghost use Rattle.std.specs.Prelude.{◌≡◌, length, IfOk, MatchResult};
ghost use Rattle.refusal.specs.Rows.{first_row, answer_of, Either};
ghost use Rattle.trellis.specs.Lists.{laid};
ghost use Rattle.overlay_laws.specs.Overlaid.{overlaid};
ghost use Rattle.overlay_parts.specs.Rows.{string_rows, overlay_rows};
ghost use Rattle.overlay_parts.specs.Calls.{lent, Encodes, Overlays};

pub use overlay_parts::{Code, Encoders, Encodings, Lengths};
use overlay_parts::{answer_overlay, encode_three, lay_overlaid};
use refusal::Refusal;

// The exclusive-or of two strings of equal length, byte by byte, at the front of `ws`.
pub fn overlay(us: &[u8], vs: &[u8], ws: &mut [u8]) -> Result<(), Refusal>
    ensures answers { result ≡ first_row (string_rows (length us.now) (length vs.now) (length ws.old)) }
    ensures bytes { Either result (ws.new ≡ laid (overlaid us.now vs.now) ws.old) (ws.new ≡ ws.old) }
{
    if us.len() != vs.len() {
        return Err(Refusal::Length);
    }
    if ws.len() < us.len() {
        return Err(Refusal::Space);
    }
    lay_overlaid(us, vs, ws);
    Ok(())
}

// Encodes the low bit of each byte of the strings `us` and `vs`, which have equal length, and of their exclusive-or from the exclusive-or of the states: the
// exclusive-or at the front of `ws`, X then Y of each input at the front of `out1`, `out2` and `out3`.
pub fn encode_overlaid(
    given: Encoders,
    us: &[u8],
    vs: &[u8],
    ws: &mut [u8],
    out1: &mut [u8],
    out2: &mut [u8],
    out3: &mut [u8],
) -> Result<Encodings, Refusal>
    ensures answers { answer_of result ≡ first_row (overlay_rows given.code given.first.state given.second.state (length us.now) (length vs.now) (length ws.old) (length out1.old) (length out2.old) (length out3.old)) }
    ensures inputs { MatchResult result (λ _. ws.new ≡ laid (overlaid us.now vs.now) ws.old) (λ _. ws.new ≡ ws.old) }
    ensures outputs { MatchResult result
        (λ e. Encodes given.code given.first.state given.second.state us.now vs.now e (lent out1.old out2.old out3.old) (lent out1.new out2.new out3.new))
        (λ _. lent out1.new out2.new out3.new ≡ lent out1.old out2.old out3.old) }
    ensures overlays { IfOk result (λ e. Overlays (length us.now) e (lent out1.new out2.new out3.new)) }
{
    let code = given.code;
    let first = given.first;
    let second = given.second;
    let n = us.len();
    let lent = Lengths {
        first: n,
        second: vs.len(),
        sum: ws.len(),
        out1: out1.len(),
        out2: out2.len(),
        out3: out3.len(),
    };
    answer_overlay(code, first.state, second.state, lent)?;
    lay_overlaid(us, vs, ws);
    encode_three(given, us, vs, &ws[0..n], out1, out2, out3)
}
