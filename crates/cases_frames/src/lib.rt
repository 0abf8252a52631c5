// What the executed programs on frames share: a table and a mapping as a number, the bytes of a load, a table as text. A table's entry i has its word at bit 16 i and its slots at bit 16 i + 8. All calls are total.
#![tactic(auto)]

ghost use Rattle.std.specs.Prelude.{◌*◌, ◌≤◌, ◌<◌};
ghost use Rattle.isdbs_frame.specs.Frame.{slot_bytes};
ghost use Rattle.isdbs_combination.specs.Combinations.{frame_slots};

use cases_lib::{show, text};
use isdbs_core::frame::{LOAD_BYTES, SLOT_BYTES, SLOTS};
use isdbs_core::slots::runs;
use isdbs_core::tmcc::{Entry, Table};
use isdbs_points::Mapping;

// Tables with each combination alone and mixed.
pub const TABLES: [u64; 24] = [
    // each combination in all slots
    0x3007,
    0x3006,
    0x3005,
    0x3004,
    0x3003,
    0x3002,
    0x3001,
    // four in all slots
    0x0801_0c05_0806_1407,
    // each combination in some whole units, the rest of the slots free
    0x0401,
    0x2e02,
    0x2d03,
    0x2c04,
    0x2f07,
    0x2806,
    0x2a05,
    // two in all slots
    0x0402_2c07,
    // four in all slots, in another order
    0x0f07_0804_0903_1006,
    // words that stand for no combination: 15 with slots, 8 without
    0x1007_0a02_0a0f_0c05,
    0x1006_1407_0801_040f,
    0x0c04_0903_0008_0602,
    // a word of which the low 4 bits count
    0x0c03_0c01_0c05_0c17,
    // small runs, free slots
    0x000f_0806_0107_0401,
    0x0f0f_0806_0c05_0c04,
    // a combination twice
    0x0c02_0d07_0c01_0b07,
];

// Entry i of a table.
fn entry(table: u64, i: u32) -> Entry
    requires { i < 4 }
{
    let at = table >> (16 * i);
    Entry {
        word: (at % 256) as u8,
        slots: (at / 256 % 256) as u8,
    }
}

pub fn table_of(table: u64) -> Table {
    let a = entry(table, 0);
    let b = entry(table, 1);
    let c = entry(table, 2);
    let d = entry(table, 3);
    Table {
        entries: [a, b, c, d],
    }
}

pub fn mapping_of(bits: u64) -> Mapping {
    Mapping {
        conjugate: bits % 2 == 1,
        qpsk_p1_on_q: bits / 2 % 2 == 1,
        tc8psk_c1_is_y: bits / 4 % 2 == 1,
    }
}

// The bytes of a table's load.
pub fn load_bytes(table: u64) -> usize
    ensures { result ≤ frame_slots * slot_bytes }
{
    let valid = match runs(table_of(table)) {
        Ok(all) => all.valid_slots,
        Err(_) => 0,
    };
    valid % (SLOTS + 1) * SLOT_BYTES
}

// An end of the margin of a clean 0, 1/sqrt 2 or 1.
pub fn margin_end(clean: f64, upper: bool) -> f64 {
    if clean < 0.25 {
        return if upper { 0.03125 } else { -0.03125 };
    }
    if clean < 0.875 {
        return if upper { 0.734375 } else { 0.6796875 };
    }
    if upper { 1.03125 } else { 0.96875 }
}

// Shows an entry that has slots.
fn show_entry(e: Entry) {
    if e.slots > 0 {
        let found = [e.word as usize, e.slots as usize];
        show(b" #x#", &found);
    }
}

// The entries as WORDxSLOTS.
pub fn show_table(table: u64) {
    text(b"table");
    show_entry(entry(table, 0));
    show_entry(entry(table, 1));
    show_entry(entry(table, 2));
    show_entry(entry(table, 3));
}
