// Where each combination's slots sit in the frame's main signal (ITU-R BO.1408-1, sections 3.2 and 8). The puncturing begins anew at each run (Table 2, note 1).
ghost use Rattle.std.specs.Prelude.{◌≡◌, ◌+◌, ◌<◌, ◌≤◌};
ghost use Rattle.isdbs_frame.specs.Answers.{position_said};
ghost use Rattle.isdbs_combination.specs.Combinations.{pairs_of};
ghost use Rattle.isdbs_plan.specs.RunsOf.{RunFits};
ghost use Rattle.isdbs_plan.specs.RunLaws.{Whole};
ghost use Rattle.trellis.specs.Lists.{Each};
ghost use Rattle.isdbs_core.specs.Symbols.{pair_holds, first_pair, last_bit, has_slot, symbol_of_bit, bit_symbol, marked_before, run_byte, byte_in, slot_byte_symbol, slot_byte_said};
ghost use Rattle.isdbs_core.specs.Answers.{byte_said};
ghost use Rattle.isdbs_frame.specs.Frame.{slot_bytes};

pub use isdbs_combination::SLOT_BITS;
use isdbs_combination::{BitPair, Combination, Puncture};
use isdbs_frame::{SLOT_BYTES, main_place};
use isdbs_marks::is_marked;
pub use isdbs_plan::{FrameRuns, NO_RUN, NO_RUNS, Plan, Run, runs};
pub use isdbs_slot_part::{slot_part, slot_part_answer};
use isdbs_tables::Table;
use refusal::Refusal;

// The last information bit that has a position (document 01, refusal 2: "bit above 1,000,000").
pub const LAST_BIT: usize = 1_000_000;

// Whether a pair holds X or Y of input i of a period.
fn holds(p: BitPair, i: usize) -> bool
    ensures { result ≡ pair_holds i p }
{
    p.p1 / 2 == i || p.p0 / 2 == i
}

// The first pair of a period that holds X or Y of its input i.
fn first_pair(p: Puncture, i: usize) -> usize
    ensures { result ≡ first_pair i (pairs_of p) }
{
    let all = p.pairs();
    let pairs = all.pairs;
    let count = all.count;
    let mut j: usize = 0;
    let at = loop {
        if j >= count {
            break j;
        }
        if holds(pairs[j], i) {
            break j;
        }
        j += 1;
    };
    at
}

// As bit_symbol, for a bit that has a position.
fn symbol_of_bit(c: Combination, b: usize) -> usize
    requires { b ≤ last_bit }
    ensures { result ≡ symbol_of_bit c b }
{
    match c.puncturing() {
        Some(p) => {
            let period = p.period();
            let all = p.pairs();
            (b / period) * all.count + first_pair(p, b % period)
        }
        None => {
            let e = c.efficiency();
            b * e.den / e.num
        }
    }
}

// The symbol, counted from the start of a run, that carries the first coded bit of the run's information bit b.
pub fn bit_symbol(c: Combination, b: usize) -> Result<usize, Refusal>
    ensures { position_said result ≡ bit_symbol c b }
{
    if b > LAST_BIT {
        Err(Refusal::Position)
    } else {
        Ok(symbol_of_bit(c, b))
    }
}

// The marked slots of a run before its slot k.
fn marked_before(c: Combination, k: usize) -> usize
    ensures { result ≡ marked_before c k }
{
    let mut n: usize = 0;
    for j in 0..k {
        if is_marked(c, j) {
            n += 1;
        }
    }
    n
}

// Byte of slot k of a run.
fn run_byte(r: Run, k: usize, byte: usize) -> Option<usize>
    requires { (r.slot_start + k < r.slot_end) × RunFits r × Whole r × (byte < slot_bytes) }
    ensures { result ≡ run_byte r k byte }
{
    let c = r.combination;
    if is_marked(c, k) {
        let m = r.symbol_start + symbol_of_bit(c, marked_before(c, k) * SLOT_BITS + 8 * byte);
        return Some(main_place(m));
    }
    None
}

// Whether a run has a slot.
fn has_slot(r: Run, slot: usize) -> bool
    ensures { result ≡ has_slot r slot }
{
    r.slot_start <= slot && slot < r.slot_end
}

// Byte of a slot, in the run that has the slot.
fn byte_in(runs: [Run; 4], slot: usize, byte: usize) -> Option<usize>
    requires { Each RunFits runs × Each Whole runs × (byte < slot_bytes) }
    ensures { result ≡ byte_in runs slot byte }
{
    for i in 0..4 {
        let r = runs[i];
        if has_slot(r, slot) {
            return run_byte(r, slot - r.slot_start, byte);
        }
    }
    None
}

// Symbol within the frame at which byte `byte` of slot `slot` starts; none for a slot that is not sent or a byte that a slot has not.
pub fn slot_byte_symbol(t: Table, slot: usize, byte: usize) -> Result<Option<usize>, Refusal>
    ensures is { result ≡ slot_byte_symbol t slot byte }
    ensures said { byte_said result ≡ slot_byte_said t slot byte }
{
    let all = runs(t)?;
    if byte >= SLOT_BYTES {
        return Ok(None);
    }
    let rs = all.runs;
    Ok(byte_in(rs, slot, byte))
}
