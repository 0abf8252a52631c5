// Calls for C on a table, and positions.
#![tactic(auto)]

ghost use Rattle.std.specs.Prelude.{◌≡◌, ◌*◌, ◌<◌, length, get_or};
ghost use Rattle.trellis.specs.Lists.{laid};
ghost use Rattle.isdbs_combination.specs.Combinations.{combination_of, word_of, frame_slots};
ghost use Rattle.isdbs_plan.specs.RunsOf.{runs_of};
ghost use Rattle.c_table.specs.Forms.{entry_of, table_of, mark_word, run_numbers};
ghost use Rattle.c_answers.specs.Answers.{answered, left};
ghost use Rattle.c_table.specs.Rows.{places_rows, slot_words, all_numbers, bit_symbol_rows, symbol_or_zero};

use isdbs_combination::FRAME_SLOTS;
use isdbs_core::combination::Combination;
use isdbs_core::slots::Run;
use isdbs_core::tmcc::{Entry, Table};

fn entry_of(bits: u64) -> Entry
    ensures { result ≡ entry_of bits }
{
    Entry {
        word: (bits % 256) as u8,
        slots: (bits / 256 % 256) as u8,
    }
}

// The table of a number.
pub fn table_of(table: u64) -> Table
    ensures { result ≡ table_of table }
{
    let e0 = entry_of(table);
    let e1 = entry_of(table >> 16);
    let e2 = entry_of(table >> 32);
    let e3 = entry_of(table >> 48);
    Table {
        entries: [e0, e1, e2, e3],
    }
}

// The word of a combination, 0 for none.
fn mark_word(m: Option<Combination>) -> u8
    ensures { result ≡ mark_word m }
{
    match m {
        Some(c) => c.word(),
        None => 0,
    }
}

// The words of the 48 slots.
#[unsafe(no_mangle)]
pub extern "C" fn isdbs_slot_combinations(table: u64, out: &mut [u8]) -> u32
    ensures answers { result ≡ answered (places_rows (table_of table) frame_slots (length out.old)) }
    ensures leaves { out.new ≡ left result (laid (slot_words (table_of table)) out.old) out.old }
{
    match isdbs_core::tmcc::slot_combinations(table_of(table)) {
        Ok(slots) => {
            if out.len() < FRAME_SLOTS {
                return 9;
            }
            for s in 0..FRAME_SLOTS {
                let slot = slots[s];
                let m = slot.mark;
                out[s] = mark_word(m);
            }
            0
        }
        Err(row) => refusal::number(Err(row)),
    }
}

fn word_number(c: Combination) -> usize
    ensures { result ≡ word_of c }
{
    c.word() as usize
}

// Number i of a run.
fn run_number(r: Run, i: usize) -> usize
    requires { i < 6 }
    ensures { result ≡ get_or (run_numbers r) i 0 }
{
    if i == 0 {
        let c = r.combination;
        return word_number(c);
    }
    if i == 1 {
        return r.slot_start;
    }
    if i == 2 {
        return r.slot_end;
    }
    if i == 3 {
        return r.valid_slots;
    }
    if i == 4 {
        return r.symbol_start;
    }
    r.symbol_end
}

// The runs of a table: six numbers for each, at the front of `out`, and how many runs there are.
#[unsafe(no_mangle)]
pub extern "C" fn isdbs_runs(table: u64, out: &mut [u32], count: &mut u32) -> u32
    ensures answers { result ≡ answered (places_rows (table_of table) (6 * length (runs_of (table_of table))) (length out.old)) }
    ensures leaves { out.new ≡ left result (laid (all_numbers (table_of table)) out.old) out.old }
    ensures counts { count.new ≡ left result (length (runs_of (table_of table))) count.old }
{
    match isdbs_core::slots::runs(table_of(table)) {
        Ok(all) => {
            let runs = all.runs;
            let n = all.count;
            let places = 6 * n;
            if out.len() < places {
                return 9;
            }
            for i in 0..places {
                let r = runs[i / 6];
                out[i] = run_number(r, i % 6) as u32;
            }
            *count = n as u32;
            0
        }
        Err(row) => refusal::number(Err(row)),
    }
}

// The symbol, from the start of its run, of an information bit.
#[unsafe(no_mangle)]
pub extern "C" fn isdbs_bit_symbol(word: u8, bit: u64, out: &mut u64) -> u32
    ensures answers { result ≡ answered (bit_symbol_rows word bit) }
    ensures leaves { out.new ≡ left result (symbol_or_zero (combination_of word) bit) out.old }
{
    match Combination::from_word(word) {
        Some(c) => match isdbs_core::slots::bit_symbol(c, bit as usize) {
            Ok(symbol) => {
                *out = symbol as u64;
                0
            }
            Err(row) => refusal::number(Err(row)),
        },
        None => 2,
    }
}
