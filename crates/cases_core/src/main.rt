// The examples of document 01 that are executed, and traps of its rules: what is written is held to the file stdout.
#![tactic(auto)]

use cases_frames::table_of;
use cases_lib::{end_line, front, row, show, show_line, show_one, small, text};
use isdbs_core::combination::Combination;
use isdbs_core::slots::{FrameRuns, NO_RUN, Run};
use isdbs_core::tmcc::{Entry, SlotMark, Table};
use isdbs_core::{combination, frame, slots, tmcc};
use refusal::Refusal;

// Tables are numbers: entry i has its word at bit 16 i and its slots at bit 16 i + 8. Word 15 with no slots is an entry not in use.

fn count(n: usize) {
    show_one(b" #", n);
}

fn word(c: Combination) -> usize {
    small(c.word())
}

fn refused(a: Refusal) {
    show_one(b" refused #", row(Err(a)));
}

// A position, or the number of the row.
fn position(p: Result<usize, Refusal>) {
    match p {
        Ok(n) => count(n),
        Err(a) => refused(a),
    }
}

fn slot_byte(p: Result<Option<usize>, Refusal>) {
    match p {
        Ok(Some(n)) => count(n),
        Ok(None) => text(b" nothing"),
        Err(a) => refused(a),
    }
}

// ---- tables

// A run: combination's word, slots, valid slots, symbols.
fn run(r: Run) {
    let c = r.combination;
    let found = [
        word(c),
        r.slot_start,
        r.slot_end,
        r.valid_slots,
        r.symbol_start,
        r.symbol_end,
    ];
    show(b" | # # # # # #", &found);
}

fn four_runs(rs: [Run; 4]) {
    for r in rs {
        run(r);
    }
}

// The row of a table.
fn answer(t: Table) -> usize {
    match slots::runs(t) {
        Ok(_) => 0,
        Err(a) => row(Err(a)),
    }
}

// Its runs: none where it is turned back.
fn runs_of(t: Table) -> FrameRuns {
    match slots::runs(t) {
        Ok(all) => all,
        Err(_) => FrameRuns {
            count: 0,
            runs: [NO_RUN; 4],
            valid_slots: 0,
        },
    }
}

// The answer of `runs`: row, count, valid slots, and the four records.
fn runs(t: Table) {
    let all = runs_of(t);
    let found = [answer(t), all.count, all.valid_slots];
    show(b" # # #", &found);
    let rs = all.runs;
    four_runs(rs);
    end_line();
}

const SHOWN: [u64; 11] = [
    0x0c05_0c05_0c05_0c05,
    0x0d05_0c05_0c05_0c05,
    0x000f_000f_3807_c807,
    0x000f_000f_000f_0117,
    0x000f_000f_000f_3006,
    0x000f_000f_000f_3007,
    0x000f_000f_0107_0002,
    0x0102_0505_0706_0301,
    0x000f_000f_000f_0503,
    0x000f_000f_0202_0a0f,
    0x000f_000f_2c07_0401,
];

fn tables() {
    let shown = SHOWN;
    for (k, table) in shown.iter().enumerate() {
        show_line(
            b"48 slots:\n49 slots:\n200 and 56:\nword 0x17:\nQPSK 7/8 x 48:\nTC8PSK x 48:\nempty QPSK 1/2, TC8PSK 1:\nunder a unit:\nQPSK 2/3, 5:\n15 x 10, QPSK 1/2, 2:\nBPSK 4, TC8PSK 44:",
            k + 1,
        );
        runs(table_of(*table));
    }
}

// Rows 10 and 11: 3:5; 8:3,3:5; 0x13:5; a part unit in the last entry; 3:3,8:3; 0x18:1; 0:1; 14:1 in the last entry; 1, and 1, 10 and 11 at once. Accepted: 8:0; 15:10,2:2; 0x1f:10; 1:0.
const ANSWERED: [u64; 14] = [
    0x000f_000f_000f_0503,
    0x000f_000f_0503_0308,
    0x000f_000f_000f_0513,
    0x0102_0202_0202_0202,
    0x000f_000f_0308_0303,
    0x000f_000f_000f_0118,
    0x000f_000f_000f_0100,
    0x010e_000f_000f_000f,
    0x000f_000f_000f_3106,
    0x000f_000f_2a08_0706,
    0x000f_000f_000f_0008,
    0x000f_000f_0202_0a0f,
    0x000f_000f_000f_0a1f,
    0x000f_000f_000f_0001,
];

fn answers() -> [usize; 14] {
    let tables = ANSWERED;
    let mut found = [99usize; 14];
    for (place, table) in found.iter_mut().zip(tables.iter()) {
        *place = answer(table_of(*table));
    }
    found
}

fn answered_tables() {
    let found = answers();
    show(
        b"part units: # # # #\nreserved words: # # # #\nabove 48: # #\naccepted: # # # #\n",
        &found,
    );
}

// a times b, for a per slot and b slots.
fn times(a: usize, b: usize) -> usize {
    if a <= slots::SLOT_BITS && b <= frame::SLOTS {
        a * b
    } else {
        0
    }
}

// Bytes of a full load and trellis steps, where one run has all the valid slots.
fn load(t: Table) {
    let all = runs_of(t);
    let rs = all.runs;
    let r = rs[0];
    let c = r.combination;
    let found = [
        times(frame::SLOT_BYTES, all.valid_slots),
        times(c.steps_per_slot(), r.valid_slots),
    ];
    show(b" # #\n", &found);
}

fn loads() {
    text(b"load and steps, QPSK 7/8 x 48:");
    load(table_of(0x000f_000f_000f_3006));
    text(b"load and steps, TC8PSK x 48:");
    load(table_of(0x000f_000f_000f_3007));
}

// A mark's word.
fn mark(m: SlotMark) {
    let c = m.mark;
    match c {
        Some(c) => count(word(c)),
        None => text(b" -"),
    }
}

// The word of each slot's mark.
fn marks(t: Table) {
    let ms = match tmcc::slot_combinations(t) {
        Ok(ms) => ms,
        Err(_) => [SlotMark { mark: None }; 48],
    };
    count(answer(t));
    for m in ms {
        mark(m);
    }
    end_line();
}

const MARKED: [u64; 4] = [
    0x0102_0505_0706_0301,
    0x000f_000f_000f_0603,
    0x000f_000f_0202_0a0f,
    0x000f_000f_000f_3107,
];

fn all_marks() {
    let tables = MARKED;
    for (k, table) in tables.iter().enumerate() {
        show_line(
            b"marks, under a unit:\nmarks, QPSK 2/3, 6:\nmarks, 15 x 10, QPSK 1/2, 2:\nmarks, 49 slots:",
            k + 1,
        );
        marks(table_of(*table));
    }
}

// ---- positions

fn bit(c: Combination, b: usize) {
    position(slots::bit_symbol(c, b));
}

fn bits_of_2_3() {
    let bits = [0usize, 1, 2, 3, 4, 5, 6, 7, 1_000_000, 1_000_001];
    text(b"bit_symbol 2/3:");
    for b in bits {
        bit(Combination::Qpsk2_3, b);
    }
    end_line();
}

fn other_bits() {
    text(b"bit_symbol others:");
    bit(Combination::Bpsk1_2, 1_000_000);
    bit(Combination::Qpsk1_2, 1_000_000);
    bit(Combination::Qpsk3_4, 1_000_000);
    bit(Combination::Qpsk5_6, 1_000_000);
    bit(Combination::Qpsk7_8, 1_000_000);
    bit(Combination::Tc8psk2_3, 1_000_000);
    bit(Combination::Tc8psk2_3, 18_446_744_073_709_551_615);
    end_line();
}

fn main_places() {
    text(b"main:");
    position(frame::main_symbol_position(0));
    position(frame::main_symbol_position(202));
    position(frame::main_symbol_position(203));
    position(frame::main_symbol_position(38_975));
    position(frame::main_symbol_position(frame::MAIN_SYMBOLS));
    end_line();
}

fn burst_places() {
    text(b"burst:");
    position(frame::burst_symbol_position(0, 0));
    position(frame::burst_symbol_position(191, 3));
    position(frame::burst_symbol_position(192, 0));
    position(frame::burst_symbol_position(0, 4));
    end_line();
}

// ---- numbers

// The numbers of a frame, as the paper has them.
fn frame_numbers() {
    let found = [
        frame::SLOTS,
        frame::FRAMES,
        frame::SLOT_BYTES,
        frame::PACKET_BYTES,
        frame::MAIN_SYMBOLS,
        frame::FRAME_SYMBOLS,
        frame::SUPERFRAME_SYMBOLS,
        frame::HEADER_SYMBOLS,
        frame::HEADER_BYTES,
        frame::BURSTS,
        frame::BURST_PERIOD,
        frame::BURST_SYMBOLS,
        frame::TMCC_BYTES_PER_FRAME,
        frame::E_MAX,
        tmcc::CM,
    ];
    show(
        b"frame: # # # # # # #\nheader and bursts: # # # # #\nTMCC: # # #\n",
        &found,
    );
}

// The words that a frame's header begins with and ends in, and where their coded tails stand.
fn header_words() {
    let found = [
        frame::W1 as usize,
        frame::W2 as usize,
        frame::W3 as usize,
        frame::CODED_TAIL_BITS,
        frame::W1_TAIL_AT,
        frame::W23_TAIL_AT,
    ];
    show(b"words: # # #\ntails: # # #\n", &found);
}

// The combinations in their order.
fn combinations() {
    text(b"by efficiency:");
    for c in combination::ALL {
        count(word(c));
    }
    end_line();
}

// The word and slots of an entry not in use; the bits of a slot and the last of a run.
fn not_in_use() {
    let unused = tmcc::DUMMY;
    let found = [
        small(combination::DUMMY_WORD),
        small(unused.word),
        small(unused.slots),
        slots::SLOT_BITS,
        slots::LAST_BIT,
    ];
    show(b"not in use: # # #\nbits: # #\n", &found);
}

// The bits of a coded tail.
fn tail(t: u32) {
    for bit in frame::tail_bits(t) {
        count(small(bit));
    }
    end_line();
}

fn tails() {
    let all = [
        frame::W1_CODED_TAIL,
        frame::W2_CODED_TAIL,
        frame::W3_CODED_TAIL,
        0xFFF0_0001,
    ];
    for (k, bits) in all.iter().enumerate() {
        show_line(b"W1 tail:\nW2 tail:\nW3 tail:\nhigh bits ignored:", k + 1);
        tail(*bits);
    }
}

fn maybe(c: Option<Combination>) {
    match c {
        Some(c) => count(word(c)),
        None => text(b" none"),
    }
}

// The combination of a whole word, and that of an entry, by the low 4 bits.
fn assigned(word: u8) {
    maybe(Combination::from_word(word));
    let e = Entry { word, slots: 0 };
    maybe(e.combination());
    end_line();
}

fn words() {
    let all = [0x17u8, 7, 0, 8, 15];
    for (k, word) in all.iter().enumerate() {
        show_line(
            b"word 0x17, whole and low 4 bits:\nword 7:\nword 0:\nword 8:\nword 15:",
            k + 1,
        );
        assigned(*word);
    }
}

// ---- slots of a load

// The first and last byte, where there are any.
fn ends(p: &[u8]) {
    if 0 < p.len() {
        let found = [small(p[0]), small(p[p.len() - 1])];
        show(b" # #", &found);
    }
}

// The part of slot k of a load whose byte i is i mod 251: answer, length, first and last byte.
fn part(bytes: &[u8], t: Table, k: usize) {
    let answer = row(slots::slot_part_answer(bytes, t, k));
    let p = slots::slot_part(bytes, t, k);
    let found = [answer, p.len()];
    show(b" # #", &found);
    ends(p);
    end_line();
}

// Byte i is i mod 251.
fn fill_bytes(bytes: &mut [u8]) {
    for (i, byte) in bytes.iter_mut().enumerate() {
        *byte = (i % 251) as u8;
    }
}

// The bytes, the table and the slot of each case: 2 valid slots, a load of 406 bytes; then one byte too many or too few, and a slot too many.
const LOADS: [usize; 10] = [406, 406, 406, 407, 407, 405, 406, 0, 406, 406];

const PARTED: [u64; 10] = [
    0x000f_000f_000f_0303,
    0x000f_000f_000f_0303,
    0x000f_000f_000f_0303,
    0x000f_000f_000f_0303,
    0x000f_000f_000f_0303,
    0x000f_000f_000f_0303,
    0x000f_000f_000f_3103,
    0x000f_000f_000f_000f,
    0x000f_000f_000f_0503,
    0x000f_000f_0308_0303,
];

const PARTS: [usize; 10] = [
    0,
    1,
    2,
    2,
    0,
    0,
    9,
    0,
    18_446_744_073_709_551_615,
    18_446_744_073_709_551_615,
];

fn parts(bytes: &[u8]) {
    let lengths = LOADS;
    let tables = PARTED;
    let slots = PARTS;
    for k in 0..10usize {
        show_line(
            b"part 0:\npart 1:\nslot 2 of 2:\nslot 2 of 2, 407 bytes:\n407 bytes:\n405 bytes:\n49 slots:\nno valid slot:\npart unit, a wild slot:\nreserved word, a wild slot:",
            k + 1,
        );
        part(front(bytes, lengths[k]), table_of(tables[k]), slots[k]);
    }
}

fn at(table: u64, slot: usize, byte: usize) {
    slot_byte(slots::slot_byte_symbol(table_of(table), slot, byte));
}

const BENCH: u64 = 0x000f_000f_000f_3007;

fn slot_bytes() {
    text(b"bytes, TC8PSK x 48:");
    at(BENCH, 0, 0);
    at(BENCH, 1, 0);
    at(BENCH, 47, 0);
    at(BENCH, 47, 202);
    at(BENCH, 47, 203);
    at(BENCH, 48, 0);
    end_line();
}

const MIXED: u64 = 0x000f_000f_0303_0401;

fn mixed_bytes() {
    text(b"bytes, BPSK 4, QPSK 2/3 3:");
    at(MIXED, 0, 9);
    at(MIXED, 1, 0);
    at(MIXED, 4, 9);
    at(MIXED, 5, 9);
    at(MIXED, 6, 0);
    at(MIXED, 7, 0);
    at(MIXED, 8, 0);
    at(0x000f_000f_000f_3107, 0, 0);
    at(0x000f_000f_0503_0401, 0, 0);
    at(0x000f_000f_0100_0401, 0, 0);
    end_line();
}

fn slots_of_a_load() {
    let mut bytes = io::buffer();
    fill_bytes(&mut bytes);
    parts(&bytes);
    slot_bytes();
    mixed_bytes();
}

fn main() {
    tables();
    answered_tables();
    loads();
    all_marks();
    bits_of_2_3();
    other_bits();
    main_places();
    burst_places();
    frame_numbers();
    header_words();
    combinations();
    not_in_use();
    tails();
    words();
    slots_of_a_load();
    text(b"end\n");
}
