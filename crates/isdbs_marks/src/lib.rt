// The combination of each slot of a table (ITU-R BO.1408-1, section 6.1), by its place in its unit.
#![tactic(auto)]

ghost use Rattle.std.specs.Prelude.{◌≡◌, replicate};
ghost use Rattle.isdbs_tables.specs.Tables.{entry_combination};
ghost use Rattle.isdbs_marks.specs.Marks.{marked, mark_in, mark_at, mark, marks_of, slot_marks};
ghost use Rattle.isdbs_combination.specs.Combinations.{frame_slots};

use isdbs_combination::{Combination, FRAME_SLOTS};
use isdbs_tables::{Entry, Table, table_answer};
use refusal::Refusal;

// The mark of a slot.
#[derive(Clone, Copy)]
pub struct SlotMark {
    pub mark: Option<Combination>,
}

// Whether place k of an entry is marked.
pub fn is_marked(c: Combination, k: usize) -> bool
    ensures { result ≡ marked c k }
{
    let u = c.slot_unit();
    k % u.slots < u.valid
}

// The mark of place k of an entry.
fn mark_in(e: Entry, k: usize) -> Option<Combination>
    ensures { result ≡ mark_in (entry_combination e) k }
{
    match e.combination() {
        Some(c) => { if is_marked(c, k) { Some(c) } else { None } }
        None => None,
    }
}

// The mark of slot s.
fn mark_at(t: Table, s: usize) -> Option<Combination>
    ensures { result ≡ mark_at t.entries s }
{
    let mut k = s;
    for i in 0..4 {
        let e = t.entries[i];
        let n = e.slots as usize;
        if k < n {
            return mark_in(e, k);
        }
        k -= n;
    }
    None
}

// No slot marked.
fn no_marks() -> [SlotMark; FRAME_SLOTS]
    ensures { result ≡ replicate frame_slots (mark None) }
{
    [SlotMark { mark: None }; FRAME_SLOTS]
}

// The marks of the slots of any table.
fn marks(t: Table) -> [SlotMark; FRAME_SLOTS]
    ensures { result ≡ marks_of t }
{
    let mut slots = no_marks();
    for s in 0..FRAME_SLOTS {
        let m = mark_at(t, s);
        slots[s] = SlotMark { mark: m };
    }
    slots
}

// The combination of each of the 48 slots, by its place in its unit.
pub fn slot_combinations(t: Table) -> Result<[SlotMark; FRAME_SLOTS], Refusal>
    ensures { result ≡ slot_marks t }
{
    table_answer(t)?;
    Ok(marks(t))
}
