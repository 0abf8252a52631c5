// The metrics of all steps of a frame, four to a step, run after run, each with the scale of its combination. No row is checked here.
#![tactic(auto)]

ghost use Rattle.std.specs.Prelude.{◌≡◌, ◌+◌, ◌*◌, ◌<◌, ◌≤◌, ◌^◌, length};
ghost use Rattle.trellis.specs.Lists.{upto, laid};
ghost use Rattle.isdbs_frame.specs.Frame.{main_symbols};
ghost use Rattle.isdbs_plan.specs.RunsOf.{frame_steps, Planned};
ghost use Rattle.isdbs_points.specs.Layout.{steps_per_period};
ghost use Rattle.isdbs_metrics.specs.Steps.{LayoutOf, Covers, piece_metrics};
ghost use Rattle.decode_block.specs.Blocks.{Periods, fours};
ghost use Rattle.isdbs_metrics.specs.Scales.{received_by};
ghost use Rattle.best_sides.specs.FrameSides.{frame_metrics};
ghost use Rattle.best_metrics.specs.Floats.{floats};

use decode_all::scale_place;
use decode_block::{BlockPlan, make_block};
use decode_run::block_of;
use isdbs_core::combination::Combination;
use isdbs_core::slots::Plan;
use isdbs_metrics::{PeriodLayout, layout_of};
use isdbs_points::Mapping;

// The first `count` numbers of a block, to the front of `out`.
fn take_block(block: &[f32], count: usize, out: &mut [f32])
    requires { (count ≤ length block.now) × (count ≤ length out.old) }
    ensures { out.new ≡ laid (upto (floats block.now) count) out.old }
{
    for i in 0..count {
        out[i] = block[i];
    }
}

// The metrics of n steps of a run from step k on, whole periods, at most a block, to the front of `out`.
fn write_block(
    layout: PeriodLayout,
    m: Mapping,
    scale: f32,
    k: usize,
    n: usize,
    re: &[f64],
    im: &[f64],
    out: &mut [f32],
)
    requires { LayoutOf layout × Periods layout.combination k × Periods layout.combination n × (n ≤ 64 * steps_per_period layout.combination) × (k + n < 2 ^ 30)
        × Covers layout.combination (k + n) (length re.now) × Covers layout.combination (k + n) (length im.now) × (4 * n ≤ length out.old) }
    ensures { out.new ≡ laid (upto (λ i. fours (piece_metrics layout.combination re.now im.now m scale) (4 * k + i)) (4 * n)) out.old }
{
    let plan = BlockPlan {
        layout,
        mapping: m,
        scale,
        from: k,
        count: n,
    };
    let mut parts = [0.0f64; 512];
    let mut pairs = [0.0f32; 896];
    let mut wide = [0u32; 448];
    let mut block = [0.0f32; 1792];
    let mut marks = [0u8; 448];
    make_block(
        re, im, plan, &mut parts, &mut pairs, &mut wide, &mut block, &mut marks,
    );
    take_block(&block, 4 * n, out);
}

// The metrics of n steps of a run of one combination, whole periods, in blocks, to the front of `metrics`.
fn run_metrics(
    n: usize,
    c: Combination,
    m: Mapping,
    scale: f32,
    re: &[f64],
    im: &[f64],
    metrics: &mut [f32],
)
    requires { Periods c n × (n < 2 ^ 30) × (4 * n ≤ length metrics.old) × Covers c n (length re.now) × Covers c n (length im.now) }
    ensures { metrics.new ≡ laid (upto (fours (piece_metrics c re.now im.now m scale)) (4 * n)) metrics.old }
{
    let layout = layout_of(c);
    let mut k: usize = 0;
    while k < n {
        let len = block_of(n - k, layout.period);
        let from = 4 * k;
        write_block(layout, m, scale, k, len, re, im, &mut metrics[from..]);
        k = k + len;
    }
}

// The metrics of the frame's steps, to the front of `metrics`.
pub fn frame_metrics(
    p: Plan,
    m: Mapping,
    scales: [f32; 7],
    re: &[f64],
    im: &[f64],
    metrics: &mut [f32],
)
    requires { Planned p × (main_symbols ≤ length re.now) × (main_symbols ≤ length im.now) × (4 * frame_steps p.table ≤ length metrics.old) }
    ensures { metrics.new ≡ laid (frame_metrics p.table (received_by re.now im.now m scales)) metrics.old }
{
    let count = p.count;
    let list = p.runs;
    let mut step: usize = 0;
    for i in 0..count {
        let r = list[i];
        let c = r.combination;
        let n = c.steps_per_slot() * r.valid_slots;
        let start = r.symbol_start;
        let place = scale_place(c);
        let scale = scales[place];
        let from = 4 * step;
        run_metrics(
            n,
            c,
            m,
            scale,
            &re[start..],
            &im[start..],
            &mut metrics[from..],
        );
        step = step + n;
    }
}
