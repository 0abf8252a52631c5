// The quality of a reading: for each of the frame's 48 slots (812 symbols each) how many points are counted, and sums of the received points against the points of the bytes. From them follow
// the modulation error ratio, the mean gain and turn, and the offset; here are only the sums, each one equation in f64 operations.
#![tactic(auto)]

ghost use Rattle.std.specs.Prelude.{◌≡◌, cond, ◌<◌, ◌≤◌, length, get_or};
ghost use Rattle.trellis.specs.Lists.{laid};
ghost use Rattle.refusal.specs.Rows.{first_row, accepted};
ghost use Rattle.isdbs_combination.specs.Combinations.{modulation_of};
ghost use Rattle.isdbs_frame.specs.Frame.{main_symbols};
ghost use Rattle.isdbs_plan.specs.RunsOf.{plan_of, Planned, no_run};
ghost use Rattle.encode_blocks.specs.Blocks.{block_symbols};
ghost use Rattle.margins.specs.Margins.{is_bpsk};
ghost use Rattle.quality_sums.specs.Terms.{quality_numbers};
ghost use Rattle.quality.specs.Qualities.{qualities};
ghost use Rattle.quality.specs.Rows.{lent_rows, quality_rows};

use encode_blocks::{BLOCK_SYMBOLS, FrameForm, next_block, start_place};
use isdbs_core::slots::Plan;
use isdbs_core::tmcc::{Table, table_answer};
use isdbs_plan::plan_of;
pub use isdbs_points::Mapping;
use isdbs_points::start_state;
use isdbs_rows::points_answer;
use margins::is_bpsk;
pub use quality_sums::{QUALITY_NUMBERS, SLOT_NUMBERS};
use quality_sums::{add_block, begin};
use refusal::Refusal;

// Rows 5, 6, 7 and 9: the load has `need` bytes, `bytes` and `room` are the lengths that are lent.
fn lent_answer(
    need: usize,
    bytes: usize,
    re: &[f64],
    im: &[f64],
    room: usize,
) -> Result<(), Refusal>
    ensures { result ≡ first_row (lent_rows need bytes re.now im.now room) }
{
    if bytes != need {
        return Err(Refusal::Length);
    }
    points_answer(re, im)?;
    if room < QUALITY_NUMBERS {
        return Err(Refusal::Space);
    }
    Ok(())
}

// Why the call is turned back.
fn quality_answer(p: Plan, bytes: usize, re: &[f64], im: &[f64], room: usize) -> Result<(), Refusal>
    requires { p ≡ plan_of p.table }
    ensures { result ≡ first_row (quality_rows p.table bytes re.now im.now room) }
{
    table_answer(p.table)?;
    lent_answer(p.bytes, bytes, re, im, room)
}

// Whether run i is BPSK.
fn bpsk_run(p: Plan, i: usize) -> bool
    requires { i < 4 }
    ensures { result ≡ is_bpsk (modulation_of (get_or p.runs i no_run).combination) }
{
    let list = p.runs;
    let r = list[i];
    let c = r.combination;
    is_bpsk(c)
}

// Encodes the load block by block in the lent xs and ys, and adds what its points and the received ones beside them add. Nothing is added past the runs.
fn sum_blocks(
    f: FrameForm,
    re: &[f64],
    im: &[f64],
    bytes: &[u8],
    xs: &mut [f64],
    ys: &mut [f64],
    out: &mut [f64],
)
    requires { Planned f.plan × (main_symbols ≤ length re.now) × (main_symbols ≤ length im.now) × (block_symbols ≤ length xs.old) × (block_symbols ≤ length ys.old) × (quality_numbers ≤ length out.old) }
    ensures { out.new ≡ laid (qualities re.now im.now bytes.now f.plan.table f.mapping f.first) out.old }
{
    let p = f.plan;
    let m = f.mapping;
    let first = f.first;
    begin(out);
    let mut at = start_place(start_state(first));
    while at.run < p.count {
        let bpsk = bpsk_run(p, at.run);
        let next = next_block(p, bytes, m, at, xs, ys);
        add_block(
            bpsk,
            re,
            im,
            at.symbol,
            xs,
            ys,
            next.symbol - at.symbol,
            out,
        );
        at = next;
    }
}

// The same in lent arrays of a block's size.
fn sum_arrays(
    f: FrameForm,
    re: &[f64],
    im: &[f64],
    bytes: &[u8],
    xs: &mut [f64; BLOCK_SYMBOLS],
    ys: &mut [f64; BLOCK_SYMBOLS],
    out: &mut [f64],
)
    requires { Planned f.plan × (main_symbols ≤ length re.now) × (main_symbols ≤ length im.now) × (quality_numbers ≤ length out.old) }
    ensures { out.new ≡ laid (qualities re.now im.now bytes.now f.plan.table f.mapping f.first) out.old }
{
    sum_blocks(f, re, im, bytes, xs, ys, out)
}

// The same with the arrays.
fn sum_frame(f: FrameForm, re: &[f64], im: &[f64], bytes: &[u8], out: &mut [f64])
    requires { Planned f.plan × (main_symbols ≤ length re.now) × (main_symbols ≤ length im.now) × (quality_numbers ≤ length out.old) }
    ensures { out.new ≡ laid (qualities re.now im.now bytes.now f.plan.table f.mapping f.first) out.old }
{
    let mut xs = [0.0f64; BLOCK_SYMBOLS];
    let mut ys = [0.0f64; BLOCK_SYMBOLS];
    sum_arrays(f, re, im, bytes, &mut xs, &mut ys, out)
}

// The first 38,976 points that are lent against those of a full load: `out` begins with the seven numbers of each slot.
pub fn quality(
    re: &[f64],
    im: &[f64],
    t: Table,
    m: Mapping,
    first: bool,
    bytes: &[u8],
    out: &mut [f64],
) -> Result<(), Refusal>
    ensures answers { result ≡ first_row (quality_rows t (length bytes.now) re.now im.now (length out.old)) }
    ensures leaves { out.new ≡ cond (accepted result) (laid (qualities re.now im.now bytes.now t m first) out.old) out.old }
{
    let p = plan_of(t);
    quality_answer(p, bytes.len(), re, im, out.len())?;
    let f = FrameForm {
        plan: p,
        mapping: m,
        first,
    };
    sum_frame(f, re, im, bytes, out);
    Ok(())
}
