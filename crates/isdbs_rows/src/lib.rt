// The answers of the frame calls by their rows, in the order of the table.
#![tactic(auto)]

ghost use Rattle.std.specs.Prelude.{◌≡◌, cond, not, ◌≤◌, length};
ghost use Rattle.refusal.specs.Rows.{first_row, Accepted, Space};
ghost use Rattle.isdbs_plan.specs.RunsOf.{plan_of, Planned};
ghost use Rattle.isdbs_rows.specs.DecodeRows.{bad_scale, some_bad, short_space, point_rows, decode_rows, some_of_beyond};
ghost use Rattle.ieee.specs.Within.{within};
ghost use Rattle.isdbs_rows.specs.EncodeRows.{encode_rows};

use isdbs_core::frame::{MAIN_SYMBOLS, SYNC_BITS};
use isdbs_core::slots::Plan;
use isdbs_core::tmcc::{Table, table_answer};
use isdbs_points::PART_LIMIT;
use refusal::Refusal;
use trellis::FRAME_WORDS;

// The greatest scale that is taken (document 01, refusal 8: "not above 0, or above 64").
pub const SCALE_LIMIT: f32 = 64.0;

// Whether a value is not a number or beyond the limit.
fn beyond(x: f64, limit: f64) -> bool
    ensures { result ≡ not (within limit x) }
{
    !(-limit <= x) | !(x <= limit)
}

// Whether any of the first n values is. All are looked at, so that the loop goes by vectors.
pub fn some_beyond(xs: &[f64], n: usize, limit: f64) -> bool
    requires { n ≤ length xs.now }
    ensures { result ≡ some_of_beyond limit xs.now n }
{
    let mut some = false;
    for x in &xs[..n] {
        some = some | beyond(*x, limit);
    }
    some
}

// Whether a scale is not above 0, or above the limit.
fn bad_scale(s: f32) -> bool
    ensures { result ≡ bad_scale s }
{
    !(s > 0.0) | (s > SCALE_LIMIT)
}

// Row 8: whether any of the seven is.
pub fn some_bad(scales: [f32; 7]) -> bool
    ensures { result ≡ some_bad scales }
{
    let mut some = false;
    for s in &scales {
        some = some | bad_scale(*s);
    }
    some
}

// Rows 6 and 7.
pub fn points_answer(re: &[f64], im: &[f64]) -> Result<(), Refusal>
    ensures { result ≡ first_row (point_rows re.now im.now) }
{
    if re.len() < MAIN_SYMBOLS {
        return Err(Refusal::Symbols);
    }
    if im.len() < MAIN_SYMBOLS {
        return Err(Refusal::Symbols);
    }
    if some_beyond(re, MAIN_SYMBOLS, PART_LIMIT) {
        return Err(Refusal::Sample);
    }
    if some_beyond(im, MAIN_SYMBOLS, PART_LIMIT) {
        return Err(Refusal::Sample);
    }
    Ok(())
}

// Row 9.
fn space_answer(
    p: Plan,
    decisions: usize,
    bits: usize,
    bytes: usize,
    counts: usize,
) -> Result<(), Refusal>
    requires { Planned p }
    ensures { result ≡ cond (short_space p.table decisions bits bytes counts) Space Accepted }
{
    if decisions < FRAME_WORDS {
        return Err(Refusal::Space);
    }
    if bits < p.steps + SYNC_BITS {
        return Err(Refusal::Space);
    }
    if bytes < p.bytes {
        return Err(Refusal::Space);
    }
    if counts < p.valid_slots {
        return Err(Refusal::Space);
    }
    Ok(())
}

// The answer of `decode_frame`, over the lengths of the lent outputs.
pub fn decode_answer(
    p: Plan,
    re: &[f64],
    im: &[f64],
    scales: [f32; 7],
    decisions: usize,
    bits: usize,
    bytes: usize,
    counts: usize,
) -> Result<(), Refusal>
    requires { (p ≡ plan_of p.table) × (p.count ≤ 4) }
    ensures { result ≡ first_row (decode_rows p.table re.now im.now scales decisions bits bytes counts) }
{
    table_answer(p.table)?;
    points_answer(re, im)?;
    if some_bad(scales) {
        return Err(Refusal::Scale);
    }
    space_answer(p, decisions, bits, bytes, counts)
}

// The answer of `encode_frame_with_state`: the parts have a and b elements.
pub fn encode_answer(t: Table, state: u8, a: usize, b: usize) -> Result<(), Refusal>
    ensures { result ≡ first_row (encode_rows t state a b) }
{
    table_answer(t)?;
    if state > 63 {
        return Err(Refusal::State);
    }
    if a < MAIN_SYMBOLS {
        return Err(Refusal::Space);
    }
    if b < MAIN_SYMBOLS {
        return Err(Refusal::Space);
    }
    Ok(())
}
