// The encoder of a frame: bytes to points. No row is checked here. After demod.rs of isdbs-phy.
#![tactic(auto)]

ghost use Rattle.std.specs.Prelude.{◌≡◌, ◌<◌, ◌≤◌, length, take};
ghost use Rattle.trellis.specs.Lists.{upto, laid};
ghost use Rattle.isdbs_frame.specs.Frame.{main_symbols};
ghost use Rattle.isdbs_plan.specs.RunsOf.{Planned};
ghost use Rattle.isdbs_points.specs.Points.{zero64, conjugated};
ghost use Rattle.isdbs_points.specs.Frame.{end_state};
ghost use Rattle.encode_main.specs.Encoding.{Tiled, RunsMade};
ghost use Rattle.encode_main.specs.Laid.{FrameLaid};
ghost use Rattle.trellis.specs.Isdb;

use encode_run::encode_run;
use isdbs_core::frame::MAIN_SYMBOLS;
use isdbs_core::slots::{Plan, Run, SLOT_BITS};
use isdbs_points::{Mapping, mirror};

// n unused points.
fn put_unused(n: usize, m: Mapping, re: &mut [f64], im: &mut [f64])
    requires { (n ≤ length re.old) × (n ≤ length im.old) }
    ensures { (re.new ≡ laid (upto (λ i. zero64) n) re.old) × (im.new ≡ laid (upto (λ i. conjugated m.conjugate zero64) n) im.old) }
{
    re[..n].fill(0.0);
    im[..n].fill(mirror(m.conjugate, 0.0));
}

// What the runs leave: the state after their last bit, and the symbol after their last one.
#[derive(Clone, Copy)]
pub struct RunsEncoded {
    pub state: u8,
    pub end: usize,
}

// The runs of a frame, one after the other; the state carries on.
fn encode_runs(
    bytes: &[u8],
    list: [Run; 4],
    count: usize,
    start: u8,
    m: Mapping,
    re: &mut [f64],
    im: &mut [f64],
) -> RunsEncoded
    requires { (count ≤ 4) × (length (take count list) ≡ count) × Tiled (take count list) × (start < Isdb.states) × (main_symbols ≤ length re.old) × (main_symbols ≤ length im.old) }
    ensures { RunsMade (take count list) m bytes.now start result re.old re.new im.old im.new }
{
    let mut state = start;
    let mut bit: usize = 0;
    let mut end: usize = 0;
    for r in &list[..count] {
        let c = r.combination;
        let first = r.symbol_start;
        let valid = r.valid_slots;
        let n = c.steps_per_slot() * valid;
        state = encode_run(
            bytes,
            c,
            bit,
            n,
            state,
            m,
            &mut re[first..],
            &mut im[first..],
        );
        bit += SLOT_BITS * valid;
        end = r.symbol_end;
    }
    RunsEncoded { state, end }
}

// The frame of a plan, encoded from the state `start`; the state after its last bit.
pub fn encode_main(
    p: Plan,
    bytes: &[u8],
    start: u8,
    m: Mapping,
    re: &mut [f64],
    im: &mut [f64],
) -> u8
    requires { Planned p × (start < Isdb.states) × (main_symbols ≤ length re.old) × (main_symbols ≤ length im.old) }
    ensures state { result ≡ end_state p.table bytes.now start }
    ensures frame { FrameLaid p.table m bytes.now start re.old re.new im.old im.new }
{
    let list = p.runs;
    let made = encode_runs(bytes, list, p.count, start, m, re, im);
    let end = made.end;
    put_unused(MAIN_SYMBOLS - end, m, &mut re[end..], &mut im[end..]);
    made.state
}
