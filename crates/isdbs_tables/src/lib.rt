// The table record of the TMCC information (ITU-R BO.1408-1, section 6.1, Fig. 8). The combination of each slot is in isdbs_marks.
#![tactic(auto)]

ghost use Rattle.std.specs.Prelude.{◌≡◌};
ghost use Rattle.isdbs_tables.specs.Tables.{entry_combination, slot_sum, part_unit, reserved_word, some, table_answer};

use isdbs_combination::{Combination, CombinationWord, FRAME_SLOTS};
use refusal::Refusal;

// Combinations that a table carries, CM (BO.1408-1, Appendix 1, Table 3 item 8).
pub const CM: usize = 4;

// A table entry: a word, of which the low 4 bits count, and its slots.
#[derive(Clone, Copy)]
pub struct Entry {
    pub word: u8,
    pub slots: u8,
}

// An entry not in use (BO.1408-1, section 6.1.2).
pub const DUMMY: Entry = Entry { word: 15, slots: 0 };

impl Entry {
    // The combination of the word, or none.
    pub fn combination(self) -> Option<Combination>
        ensures { result ≡ entry_combination self }
    {
        CombinationWord::from_word(self.word).combination()
    }

    // Whether its slots do not fill whole units of its combination.
    pub fn part_unit(self) -> bool
        ensures { result ≡ part_unit self }
    {
        match self.combination() {
            Some(c) => {
                let u = c.slot_unit();
                self.slots as usize % u.slots != 0
            }
            None => false,
        }
    }

    // Whether it gives slots to a reserved word.
    pub fn reserved_word(self) -> bool
        ensures { result ≡ reserved_word self }
    {
        match CombinationWord::from_word(self.word) {
            CombinationWord::Assigned(_) => false,
            CombinationWord::Dummy => false,
            CombinationWord::Reserved(_) => self.slots != 0,
        }
    }
}

#[derive(Clone, Copy)]
pub struct Table {
    pub entries: [Entry; 4],
}

// Slots that the entries take together.
fn slot_sum(t: Table) -> usize
    ensures { result ≡ slot_sum t.entries }
{
    let mut sum: usize = 0;
    for i in 0..4 {
        let e = t.entries[i];
        sum += e.slots as usize;
    }
    sum
}

// Whether some entry's slots do not fill whole units.
fn has_part(t: Table) -> bool
    ensures { result ≡ some part_unit t.entries }
{
    for i in 0..4 {
        let e = t.entries[i];
        if e.part_unit() {
            return true;
        }
    }
    false
}

// Whether some entry gives slots to a reserved word.
fn has_reserved(t: Table) -> bool
    ensures { result ≡ some reserved_word t.entries }
{
    for i in 0..4 {
        let e = t.entries[i];
        if e.reserved_word() {
            return true;
        }
    }
    false
}

// Whether a call with this table is turned back.
pub fn table_answer(t: Table) -> Result<(), Refusal>
    ensures { result ≡ table_answer t }
{
    if slot_sum(t) > FRAME_SLOTS {
        return Err(Refusal::Table);
    }
    if has_part(t) {
        return Err(Refusal::PartUnit);
    }
    if has_reserved(t) {
        return Err(Refusal::ReservedWord);
    }
    Ok(())
}
