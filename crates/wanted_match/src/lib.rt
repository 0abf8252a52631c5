// Whether a load encodes to a lent frame: it is encoded in blocks and compared bit by bit.
#![tactic(auto)]

ghost use Rattle.std.specs.Prelude.{◌+◌, ◌-◌, ◌≤◌, length, get_or};
ghost use Rattle.std.specs.Float.{nan};
ghost use Rattle.isdbs_frame.specs.Frame.{main_symbols};
ghost use Rattle.isdbs_plan.specs.RunsOf.{Planned};
ghost use Rattle.isdbs_points.specs.Points.{zero64, conjugated};
ghost use Rattle.encode_blocks.specs.Blocks.{block_symbols};
ghost use Rattle.wanted_match.specs.Alike.{Same, SameParts, SamePoints, Matches};

use encode_blocks::{FrameForm, next_block, start_place};
use isdbs_core::frame::MAIN_SYMBOLS;
use isdbs_points::{Mapping, mirror, start_state};

// Whether two parts have the same bits. A NaN has none to compare.
fn same_bits(x: f64, y: f64) -> bool
    ensures { Same x y result }
{
    x == y && f64::to_bits(x) == f64::to_bits(y)
}

// Whether the n parts from number `from` on have the same bits as the first n of ys.
fn same_parts(xs: &[f64], from: usize, ys: &[f64], n: usize) -> bool
    requires { (from + n ≤ length xs.now) × (n ≤ length ys.now) }
    ensures { SameParts xs.now from (λ k. get_or ys.now k nan) n result }
{
    for (i, y) in ys[..n].iter().enumerate() {
        if !same_bits(xs[from + i], *y) {
            return false;
        }
    }
    true
}

// Whether all of them have the bits of y.
fn same_value(xs: &[f64], from: usize, y: f64, n: usize) -> bool
    requires { from + n ≤ length xs.now }
    ensures { SameParts xs.now from (λ k. y) n result }
{
    for x in &xs[from..from + n] {
        if !same_bits(*x, y) {
            return false;
        }
    }
    true
}

// Whether the n points from number `from` on are those of a block.
#[tactic(auto, using(crate::proofs::Compare::both_compared, crate::proofs::Compare::first_differs))]
fn same_block(re: &[f64], im: &[f64], from: usize, xs: &[f64], ys: &[f64], n: usize) -> bool
    requires { (from + n ≤ length re.now) × (from + n ≤ length im.now) × (n ≤ length xs.now) × (n ≤ length ys.now) }
    ensures { SamePoints re.now im.now from (λ k. get_or xs.now k nan) (λ k. get_or ys.now k nan) n result }
{
    same_parts(re, from, xs, n) && same_parts(im, from, ys, n)
}

// Whether the frame's points from number `from` on are unused ones.
#[tactic(auto, using(crate::proofs::Compare::both_compared, crate::proofs::Compare::first_differs))]
fn same_unused(re: &[f64], im: &[f64], from: usize, m: Mapping) -> bool
    requires { (from ≤ main_symbols) × (main_symbols ≤ length re.now) × (main_symbols ≤ length im.now) }
    ensures { SamePoints re.now im.now from (λ k. zero64) (λ k. conjugated m.conjugate zero64) (main_symbols - from) result }
{
    let y = mirror(m.conjugate, 0.0);
    same_value(re, from, 0.0, MAIN_SYMBOLS - from) && same_value(im, from, y, MAIN_SYMBOLS - from)
}

// Whether a load encodes to the frame, which is made block by block in the lent xs and ys.
pub fn matches(
    f: FrameForm,
    re: &[f64],
    im: &[f64],
    load: &[u8],
    xs: &mut [f64],
    ys: &mut [f64],
) -> bool
    requires { Planned f.plan × (main_symbols ≤ length re.now) × (main_symbols ≤ length im.now) × (block_symbols ≤ length xs.old) × (block_symbols ≤ length ys.old) }
    ensures { Matches f.plan.table f.mapping f.first re.now im.now load.now result }
{
    let p = f.plan;
    let m = f.mapping;
    let first = f.first;
    let mut at = start_place(start_state(first));
    while at.run < p.count {
        let next = next_block(p, load, m, at, xs, ys);
        if !same_block(re, im, at.symbol, xs, ys, next.symbol - at.symbol) {
            return false;
        }
        at = next;
    }
    same_unused(re, im, at.symbol, m)
}
