// The runs of a table: each combination's slots in the frame, and the plan of a frame (ITU-R BO.1408-1, sections 3.2 and 8).
#![tactic(auto)]

ghost use Rattle.std.specs.Prelude.{◌≡◌, ◌<◌, ◌≤◌};
ghost use Rattle.isdbs_plan.specs.RunsOf.{run_of, plan_of, four_runs};

use isdbs_combination::{Combination, CombinationWord, SLOT_SYMBOLS};
use isdbs_frame::SLOT_BYTES;
use isdbs_tables::{Table, table_answer};
use refusal::Refusal;

// One combination's slots in a frame.
#[derive(Clone, Copy)]
pub struct Run {
    pub combination: Combination,
    // Its slots, from slot_start up to but not including slot_end.
    pub slot_start: usize,
    pub slot_end: usize,
    pub valid_slots: usize,
    // Its main-signal symbols, likewise.
    pub symbol_start: usize,
    pub symbol_end: usize,
}

// The run that stands past the count: "the Vec of runs is four records and a count" (document 01).
pub const NO_RUN: Run = Run {
    combination: Combination::Bpsk1_2,
    slot_start: 0,
    slot_end: 0,
    valid_slots: 0,
    symbol_start: 0,
    symbol_end: 0,
};

// The first `count` of four runs, and the valid slots of all.
#[derive(Clone, Copy)]
pub struct FrameRuns {
    pub count: usize,
    pub runs: [Run; 4],
    pub valid_slots: usize,
}

// The runs of a table that is turned back, for a caller that goes on without any.
pub const NO_RUNS: FrameRuns = FrameRuns {
    count: 0,
    runs: [NO_RUN; 4],
    valid_slots: 0,
};

// The run of an entry of n slots.
fn run_of(c: Combination, n: usize, slot: usize, symbol: usize) -> Run
    requires { (n < 256) × (slot < 1024) × (symbol < 1000000) }
    ensures { result ≡ run_of c n slot symbol }
{
    let u = c.slot_unit();
    let units = n / u.slots;
    Run {
        combination: c,
        slot_start: slot,
        slot_end: slot + n,
        valid_slots: units * u.valid,
        symbol_start: symbol,
        symbol_end: symbol + n * SLOT_SYMBOLS,
    }
}

// The layout of a frame: its table's runs, the first `count` of four, and the valid slots, trellis steps and bytes of all.
#[derive(Clone, Copy)]
pub struct Plan {
    pub table: Table,
    pub count: usize,
    pub runs: [Run; 4],
    pub valid_slots: usize,
    pub steps: usize,
    pub bytes: usize,
}

// The plan of any table: no row is checked here.
pub fn plan_of(t: Table) -> Plan
    ensures { (result ≡ plan_of t) × (result.count ≤ 4) }
{
    let mut runs = [NO_RUN; 4];
    let mut count: usize = 0;
    let mut slot: usize = 0;
    let mut symbol: usize = 0;
    let mut valid_slots: usize = 0;
    let mut steps: usize = 0;
    for i in 0..4 {
        let e = t.entries[i];
        let n = e.slots as usize;
        let word = CombinationWord::from_word(e.word);
        let CombinationWord::Assigned(c) = word else {
            slot += n;
            continue;
        };
        let r = run_of(c, n, slot, symbol);
        runs[count] = r;
        count += 1;
        slot += n;
        symbol = r.symbol_end;
        valid_slots += r.valid_slots;
        steps += c.steps_per_slot() * r.valid_slots;
    }
    let bytes = SLOT_BYTES * valid_slots;
    Plan {
        table: t,
        count,
        runs,
        valid_slots,
        steps,
        bytes,
    }
}

// The runs of a table, in slot order, or why it is turned back.
pub fn runs(t: Table) -> Result<FrameRuns, Refusal>
    ensures { result ≡ four_runs t }
{
    table_answer(t)?;
    let p = plan_of(t);
    let runs = p.runs;
    Ok(FrameRuns {
        count: p.count,
        runs,
        valid_slots: p.valid_slots,
    })
}
