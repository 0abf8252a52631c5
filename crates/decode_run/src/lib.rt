// The steps of a run, read in blocks of at most 64 periods.
#![tactic(auto)]

ghost use Rattle.std.specs.Prelude.{◌≡◌, ◌⊎◌, ◌*◌, ◌<◌, ◌≤◌, length};
ghost use Rattle.trellis.specs.Lists.{upto, laid};
ghost use Rattle.decode_block.specs.Blocks.{run_steps, run_mark};
ghost use Rattle.decode_run.specs.Carried.{RunFits, Carried};

use decode_block::{BlockPlan, make_block};
use isdbs_core::combination::Combination;
use isdbs_metrics::layout_of;
use isdbs_points::Mapping;
use trellis::{FRAME_TRACEBACK, STATES};
use viterbi_core::{At, run_steps};
use viterbi_steps::Kind;

// How many of the steps left are taken at once.
pub fn block_of(left: usize, period: usize) -> usize
    requires { (0 < period) × (period ≤ 7) }
    ensures { (result ≤ left) × (result ≤ 64 * period) × (0 < left → 0 < result) × ((result ≡ left) ⊎ (result ≡ 64 * period)) }
{
    left.min(64 * period)
}

// A run and how it is read: its combination, the mapping, its scale, the step of the frame that is its first, and the number of its steps.
#[derive(Clone, Copy)]
pub struct RunPlan {
    pub combination: Combination,
    pub mapping: Mapping,
    pub scale: f32,
    pub first: usize,
    pub count: usize,
}

// Reads a run, whole periods, in blocks, and keeps the marks of its steps.
pub fn read_run(
    pm: &mut [f32; STATES],
    at: At,
    run: RunPlan,
    re: &[f64],
    im: &[f64],
    decisions: &mut [u64],
    bits: &mut [u8],
    marks: &mut [u8],
) -> At
    requires { RunFits run.combination run.first run.count at (length re.now) (length im.now) (length decisions.old) (length bits.old) (length marks.old) }
    ensures read { Carried (run_steps run.combination re.now im.now run.mapping run.scale) run.first run.count pm.old at decisions.old bits.old result pm.new decisions.new bits.new }
    ensures marked { marks.new ≡ laid (upto (run_mark run.combination re.now im.now run.mapping run.scale) run.count) marks.old }
{
    let c = run.combination;
    let layout = layout_of(c);
    let mapping = run.mapping;
    let scale = run.scale;
    let first = run.first;
    let n = run.count;
    let mut parts = [0.0f64; 512];
    let mut pairs = [0.0f32; 896];
    let mut wide = [0u32; 448];
    let mut block = [0.0f32; 1792];
    let mut now_at = at;
    let mut k: usize = 0;
    while k < n {
        let len = block_of(n - k, layout.period);
        let plan = BlockPlan {
            layout,
            mapping,
            scale,
            from: k,
            count: len,
        };
        make_block(
            re,
            im,
            plan,
            &mut parts,
            &mut pairs,
            &mut wide,
            &mut block,
            &mut marks[k..],
        );
        now_at = run_steps(
            pm,
            now_at,
            FRAME_TRACEBACK,
            first + k,
            len,
            Kind::Fours,
            &block,
            &[0u8; 0],
            decisions,
            bits,
        );
        k = k + len;
    }
    now_at
}
