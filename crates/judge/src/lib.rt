// The verdict: what a reading is worth. The points of a frame outside the margins of a load, for each of the frame's 48 slots (812 symbols each). Where there are none, no other load fits.
#![tactic(auto)]

ghost use Rattle.std.specs.Prelude.{◌≡◌, ◌≤◌, length};
ghost use Rattle.trellis.specs.Lists.{laid};
ghost use Rattle.refusal.specs.Rows.{first_row, Either};
ghost use Rattle.isdbs_frame.specs.Frame.{main_symbols};
ghost use Rattle.isdbs_combination.specs.Combinations.{frame_slots};
ghost use Rattle.isdbs_plan.specs.RunsOf.{plan_of, Planned};
ghost use Rattle.encode_blocks.specs.Blocks.{block_symbols};
ghost use Rattle.judge_points.specs.Outside.{outside_counts};
ghost use Rattle.judge.specs.Rows.{lent_rows, judge_rows};
ghost use Rattle.judge.specs.Judged.{CountsLaid, judged_said, judged_answer, Worth};

use encode_blocks::{BLOCK_SYMBOLS, FrameForm, next_block, start_place};
use isdbs_core::frame::MAIN_SYMBOLS;
use isdbs_core::slots::Plan;
use isdbs_core::tmcc::{Table, table_answer};
use isdbs_plan::plan_of;
pub use isdbs_points::Mapping;
use isdbs_points::start_state;
use isdbs_rows::points_answer;
pub use judge_points::{FRAME_SLOTS, SLOT_SYMBOLS};
use judge_points::{clear_counts, count_points};
use refusal::Refusal;

// Rows 5, 6, 7 and 9: the load has `need` bytes, `bytes` and `counts` are the lengths that are lent.
fn lent_answer(
    need: usize,
    bytes: usize,
    re: &[f64],
    im: &[f64],
    counts: usize,
) -> Result<(), Refusal>
    ensures { result ≡ first_row (lent_rows need bytes re.now im.now counts) }
{
    if bytes != need {
        return Err(Refusal::Length);
    }
    points_answer(re, im)?;
    if counts < FRAME_SLOTS {
        return Err(Refusal::Space);
    }
    Ok(())
}

// Why the call is turned back.
fn judge_answer(p: Plan, bytes: usize, re: &[f64], im: &[f64], counts: usize) -> Result<(), Refusal>
    requires { p ≡ plan_of p.table }
    ensures { result ≡ first_row (judge_rows p.table bytes re.now im.now counts) }
{
    table_answer(p.table)?;
    lent_answer(p.bytes, bytes, re, im, counts)
}

// Encodes the load block by block into the lent xs and ys, and counts the points outside its margins. Past the runs every part is free, whatever stands in xs and ys.
fn judge_load(
    f: FrameForm,
    re: &[f64],
    im: &[f64],
    bytes: &[u8],
    xs: &mut [f64],
    ys: &mut [f64],
    counts: &mut [u32],
) -> u32
    requires { Planned f.plan × (main_symbols ≤ length re.now) × (main_symbols ≤ length im.now) × (block_symbols ≤ length xs.old) × (block_symbols ≤ length ys.old) × (frame_slots ≤ length counts.old) }
    ensures { CountsLaid re.now im.now bytes.now f.plan.table f.mapping f.first counts.old counts.new result }
{
    let p = f.plan;
    let m = f.mapping;
    let first = f.first;
    clear_counts(counts, FRAME_SLOTS);
    let mut sum: u32 = 0;
    let mut at = start_place(start_state(first));
    while at.run < p.count {
        let next = next_block(p, bytes, m, at, xs, ys);
        let n = next.symbol - at.symbol;
        let more = count_points(p, at.symbol, n, xs, ys, re, im, counts);
        sum = sum + more;
        at = next;
    }
    let n = MAIN_SYMBOLS - at.symbol;
    let rest = count_points(p, at.symbol, n, xs, ys, re, im, counts);
    sum + rest
}

// The same in lent arrays of a block's size.
fn judge_arrays(
    f: FrameForm,
    re: &[f64],
    im: &[f64],
    bytes: &[u8],
    xs: &mut [f64; BLOCK_SYMBOLS],
    ys: &mut [f64; BLOCK_SYMBOLS],
    counts: &mut [u32],
) -> u32
    requires { Planned f.plan × (main_symbols ≤ length re.now) × (main_symbols ≤ length im.now) × (frame_slots ≤ length counts.old) }
    ensures { CountsLaid re.now im.now bytes.now f.plan.table f.mapping f.first counts.old counts.new result }
{
    judge_load(f, re, im, bytes, xs, ys, counts)
}

// The same with the arrays.
fn judge_frame(f: FrameForm, re: &[f64], im: &[f64], bytes: &[u8], counts: &mut [u32]) -> u32
    requires { Planned f.plan × (main_symbols ≤ length re.now) × (main_symbols ≤ length im.now) × (frame_slots ≤ length counts.old) }
    ensures { CountsLaid re.now im.now bytes.now f.plan.table f.mapping f.first counts.old counts.new result }
{
    let mut xs = [0.0f64; BLOCK_SYMBOLS];
    let mut ys = [0.0f64; BLOCK_SYMBOLS];
    judge_arrays(f, re, im, bytes, &mut xs, &mut ys, counts)
}

// The first 38,976 points that are lent, held to the margins of demand 3 of a full load: `counts` begins with the points of each slot outside, and the answer is their sum. Where it is 0,
// every full load within whose margins the points lie is the given one.
pub fn judge(
    re: &[f64],
    im: &[f64],
    t: Table,
    m: Mapping,
    first: bool,
    bytes: &[u8],
    counts: &mut [u32],
) -> Result<u32, Refusal>
    ensures answers { judged_said result ≡ judged_answer re.now im.now bytes.now t m first (length counts.old) }
    ensures leaves { Either (first_row (judge_rows t (length bytes.now) re.now im.now (length counts.old)))
        (counts.new ≡ laid (outside_counts re.now im.now bytes.now t m first) counts.old)
        (counts.new ≡ counts.old) }
    ensures worth { Worth re.now im.now bytes.now t m first result }
{
    let p = plan_of(t);
    judge_answer(p, bytes.len(), re, im, counts.len())?;
    let f = FrameForm {
        plan: p,
        mapping: m,
        first,
    };
    Ok(judge_frame(f, re, im, bytes, counts))
}
