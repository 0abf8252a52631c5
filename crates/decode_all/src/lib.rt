// The runs of a frame read one after the other, each with the scale of its combination. No row is checked here.
#![tactic(auto)]

ghost use Rattle.std.specs.Prelude.{◌≡◌, ◌-◌, ◌<◌, ◌≤◌, length};
ghost use Rattle.trellis.specs.Lists.{upto, laid};
ghost use Rattle.trellis.specs.Isdb.{frame_words};
ghost use Rattle.isdbs_combination.specs.Combinations.{word_of};
ghost use Rattle.isdbs_frame.specs.Frame.{main_symbols};
ghost use Rattle.isdbs_plan.specs.RunsOf.{frame_steps, Planned};
ghost use Rattle.strain_marks.specs.Marks.{frame_mark};
ghost use Rattle.isdbs_metrics.specs.Scales.{received_by};
ghost use Rattle.decode_all.specs.Steps.{RunsRead};

use decode_run::{RunPlan, read_run};
use isdbs_core::combination::Combination;
use isdbs_core::slots::Plan;
use isdbs_points::Mapping;
use trellis::STATES;
use viterbi_core::At;

// The place of a combination's scale.
pub fn scale_place(c: Combination) -> usize
    ensures { (result ≡ word_of c - 1) × (result < 7) }
{
    let word = c.word() as usize;
    word - 1
}

// Reads the runs of a frame, each with the scale of its combination. The steps are counted on over all of them.
pub fn read_runs(
    p: Plan,
    m: Mapping,
    scales: [f32; 7],
    pm: &mut [f32; STATES],
    re: &[f64],
    im: &[f64],
    decisions: &mut [u64],
    bits: &mut [u8],
    marks: &mut [u8],
) -> At
    requires { Planned p × (main_symbols ≤ length re.now) × (main_symbols ≤ length im.now) × (frame_words ≤ length decisions.old) × (frame_steps p.table ≤ length bits.old) × (frame_steps p.table ≤ length marks.old) }
    ensures read { RunsRead p.table (received_by re.now im.now m scales) pm.old decisions.old bits.old result pm.new decisions.new bits.new }
    ensures marked { marks.new ≡ laid (upto (frame_mark p.table (received_by re.now im.now m scales)) (frame_steps p.table)) marks.old }
{
    let mut at = At { held: 0, count: 0 };
    let mut step: usize = 0;
    for r in &p.runs[..p.count] {
        let c = r.combination;
        let n = c.steps_per_slot() * r.valid_slots;
        let start = r.symbol_start;
        let place = scale_place(c);
        let scale = scales[place];
        let run = RunPlan {
            combination: c,
            mapping: m,
            scale,
            first: step,
            count: n,
        };
        at = read_run(
            pm,
            at,
            run,
            &re[start..],
            &im[start..],
            decisions,
            bits,
            &mut marks[step..],
        );
        step = step + n;
    }
    at
}
