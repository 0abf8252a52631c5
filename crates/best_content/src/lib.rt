// The best content of a stretch of metrics with sides, and by how much it leads in each slot: a forward pass, the bits traced back, their uncoded bits, and a backward pass, slot by slot.
#![tactic(auto)]

ghost use Rattle.std.specs.Prelude.{◌≡◌, ℕ, ◌+◌, ◌-◌, ◌*◌, ◌/◌, ◌%◌, ◌<◌, ◌≤◌, length, get_or, take};
ghost use Rattle.trellis.specs.Lists.{upto, laid};
ghost use Rattle.trellis.specs.Step.{back};
ghost use Rattle.best_grid.specs.Backward.{least_of, fars, low, back_run, other_run};
ghost use Rattle.best_grid.specs.Sides.{two, price_at};
ghost use Rattle.best_backward.specs.Prices.{Asked, BackRoom, Halved};
ghost use Rattle.trellis.specs.Run.{quadruple};
ghost use Rattle.best_grid.specs.Leading.{seq};
ghost use Rattle.best_grid.specs.Grid.{cost_at};
ghost use Rattle.best_grid.specs.Costs.{table_at, word_at};
ghost use Rattle.best_forward.specs.Room.{RoomFor};
ghost use Rattle.best_content.specs.Slots.{Marked, Saved, Lowered, Summable, Lent, lead_at, piece, behind};
ghost use Rattle.best_content.specs.Found.{Found};
ghost use Rattle.best_grid.specs.Best.{start_table, best_bits, best_start, best_end};
ghost use Rattle.trellis.specs.Isdb;

use best_backward::back_steps;
use best_forward::{cheapest_state, pass, start_table};
use best_grid::FAR;
use best_uncoded::write_uncoded;
use path_greatest::Start;
use trellis::{HALF, STATES};
use viterbi_release::trace;

// The state from which the first n decision words lead to `state`.
fn traced_start(decisions: &[u64], n: usize, state: usize) -> usize
    requires { (state < Isdb.states) × (n ≤ length decisions.now) }
    ensures { (result < Isdb.states) × (result ≡ back Isdb.half (take n decisions.now) n state n) }
{
    let mut s = state;
    for t in (0..n).rev() {
        s = 2 * (s % HALF) + ((decisions[t] >> s) % 2) as usize;
    }
    s
}

// The least of what the states cost by both tables together.
fn least_sum(table: &[u64], d: &[u64; STATES]) -> u64
    requires { (length table.now ≡ Isdb.states) × Summable table.now d.now }
    ensures { result ≡ least_of table.now d.now Isdb.states }
{
    let mut m: u64 = FAR + FAR;
    for s in 0..STATES {
        m = m.min(table[s] + d[s]);
    }
    m
}

// The table to the front of the lent ones.
fn keep_table(d: &[u64; STATES], tables: &mut [u64])
    requires { Isdb.states ≤ length tables.old }
    ensures { tables.new ≡ laid (upto (seq d.now) Isdb.states) tables.old }
{
    tables[..STATES].copy_from_slice(d);
}

// The forward pass over the steps from a up to b: the table before them is kept at the place `at`, their words lie from a on.
fn pass_slot(
    d: &mut [u64; STATES],
    metrics: &[f32],
    a: usize,
    b: usize,
    tables: &mut [u64],
    at: usize,
    decisions: &mut [u64],
)
    requires { (a ≤ b) × (4 * b ≤ length metrics.now) × (at + Isdb.states ≤ length tables.old) × (b ≤ length decisions.old) × RoomFor (b - a) d.old }
    ensures table { d.new ≡ table_at d.old (cost_at (quadruple (piece (4 * a) (4 * b) metrics.now))) (b - a) }
    ensures words { decisions.new ≡ behind a (upto (word_at d.old (cost_at (quadruple (piece (4 * a) (4 * b) metrics.now)))) (b - a)) decisions.old }
    ensures kept { tables.new ≡ behind at (upto (seq d.old) Isdb.states) tables.old }
{
    keep_table(d, &mut tables[at..]);
    let from = 4 * a;
    let to = 4 * b;
    pass(d, &metrics[from..to], &mut decisions[a..]);
}

// The forward pass, slot by slot: slot k has the steps from marks[k] up to marks[k + 1]. The table before each slot is kept.
fn pass_slots(
    d: &mut [u64; STATES],
    metrics: &[f32],
    marks: &[u32],
    slots: usize,
    tables: &mut [u64],
    decisions: &mut [u64],
)
    requires { Marked marks.now slots (length metrics.now / 4) × (Isdb.states * slots ≤ length tables.old) × (length metrics.now / 4 ≤ length decisions.old)
        × RoomFor (length metrics.now / 4) d.old }
    ensures table { d.new ≡ table_at d.old (cost_at (quadruple metrics.now)) (length metrics.now / 4) }
    ensures words { decisions.new ≡ laid (upto (word_at d.old (cost_at (quadruple metrics.now))) (length metrics.now / 4)) decisions.old }
    ensures kept { Saved d.old (cost_at (quadruple metrics.now)) marks.now slots tables.new × (length tables.new ≡ length tables.old) }
{
    for k in 0..slots {
        let a = marks[k] as usize;
        let b = marks[k + 1] as usize;
        pass_slot(d, metrics, a, b, tables, 64 * k, decisions);
    }
}

// No content differs yet.
fn none_differs() -> [u64; STATES]
    ensures { result ≡ fars }
{
    [FAR; STATES]
}

// The slot of the steps from `at` on: the table of costs to the end before them, and what the cheapest content that differs in them costs.
fn lead_slot(
    b: &mut [u64; STATES],
    metrics: &[f32],
    sides: &[u8],
    bits: &[u8],
    uncoded: &[u8],
    at: usize,
    count: usize,
    table: &[u64],
) -> u64
    requires { Asked metrics.now sides.now bits.now uncoded.now at count × BackRoom count b.old × (length table.now ≡ Isdb.states) × Halved table.now }
    ensures { (b.new ≡ back_run b.old (low (two metrics.now sides.now) (price_at metrics.now sides.now)) at count)
        × (result ≡ least_of table.now (other_run (two metrics.now sides.now) (price_at metrics.now sides.now) (seq bits.now) (seq uncoded.now) fars b.old at count) Isdb.states) }
{
    let mut d = none_differs();
    back_steps(b, &mut d, metrics, sides, bits, uncoded, at, count);
    least_sum(table, &d)
}

// The lead of each slot, from the last to the first; `own` is what the reading costs.
fn lead_slots(
    metrics: &[f32],
    sides: &[u8],
    bits: &[u8],
    uncoded: &[u8],
    marks: &[u32],
    tables: &[u64],
    own: u64,
    leads: &mut [u64],
)
    requires { Marked marks.now (length leads.old) (length metrics.now / 4) × (length metrics.now / 4 ≤ Isdb.longest_frame) × Asked metrics.now sides.now bits.now uncoded.now 0 (length metrics.now / 4)
        × (Isdb.states * length leads.old ≤ length tables.now) × Lowered (length leads.old) tables.now }
    ensures { leads.new ≡ upto (lead_at metrics.now sides.now bits.now uncoded.now marks.now tables.now own (length metrics.now / 4)) (length leads.old) }
{
    let mut b = [0u64; STATES];
    for left in (0..leads.len()).rev() {
        let at = marks[left] as usize;
        let to = marks[left + 1] as usize;
        let from = 64 * left;
        let end = 64 * left + 64;
        let m = lead_slot(
            &mut b,
            metrics,
            sides,
            bits,
            uncoded,
            at,
            to - at,
            &tables[from..end],
        );
        leads[left] = m.saturating_sub(own);
    }
}

// Where the best path starts, and what it costs.
#[derive(Clone, Copy)]
struct Traced {
    start: u8,
    cost: u64,
}

// The best path: its bits, the table before each slot, its start and its cost.
fn read_best(
    metrics: &[f32],
    marks: &[u32],
    slots: usize,
    start: Start,
    tables: &mut [u64],
    decisions: &mut [u64],
    bits: &mut [u8],
) -> Traced
    requires { Marked marks.now slots (length metrics.now / 4) × (length metrics.now / 4 ≤ Isdb.longest_frame) × (Isdb.states * slots ≤ length tables.old) × (length metrics.now / 4 ≤ length decisions.old) × (length bits.old ≡ length metrics.now / 4) }
    ensures reads { bits.new ≡ best_bits start (quadruple metrics.now) (length metrics.now / 4) }
    ensures starts { (result.start < Isdb.states) × (result.start ≡ best_start start (quadruple metrics.now) (length metrics.now / 4)) }
    ensures costs { result.cost ≡ get_or (table_at (start_table start) (cost_at (quadruple metrics.now)) (length metrics.now / 4)) (best_end start (quadruple metrics.now) (length metrics.now / 4)) 0 }
    ensures kept { Saved (start_table start) (cost_at (quadruple metrics.now)) marks.now slots tables.new × (length tables.new ≡ length tables.old) }
{
    let n = metrics.len() / 4;
    let mut d = start_table(start);
    pass_slots(&mut d, metrics, marks, slots, tables, decisions);
    let end = cheapest_state(&d);
    let cost = d[end];
    trace(decisions, n, end, n, bits);
    let s = traced_start(decisions, n, end);
    Traced {
        start: s as u8,
        cost,
    }
}

// The best content of metrics with sides, and its lead in each slot: as many slots as leads.
pub fn best_content(
    metrics: &[f32],
    sides: &[u8],
    marks: &[u32],
    start: Start,
    tables: &mut [u64],
    decisions: &mut [u64],
    bits: &mut [u8],
    uncoded: &mut [u8],
    leads: &mut [u64],
)
    requires { Lent metrics.now sides.now marks.now tables.old decisions.old bits.old uncoded.old leads.old }
    ensures { Found start metrics.now sides.now marks.now (length leads.old) (length metrics.now / 4) bits.new uncoded.new leads.new }
{
    let n = metrics.len() / 4;
    let slots = leads.len();
    let best = read_best(metrics, marks, slots, start, tables, decisions, bits);
    write_uncoded(sides, bits, best.start, n, uncoded);
    lead_slots(
        metrics, sides, bits, uncoded, marks, tables, best.cost, leads,
    );
}
