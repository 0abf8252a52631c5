// Reports: the table as understood, refusals, and differences.
ghost use Rattle.std.specs.Prelude.{◌≡◌, ◌-◌, ◌%◌, ◌<◌, ◌≤◌};
ghost use Rattle.isdbs_combination.specs.Combinations.{unit_of};
ghost use Rattle.isdbs_frame.specs.Frame.{slot_bytes};

use crate::text::{byte, combination, one_of, say, text};
use bench_line::agreement::agreeing;
use bench_line::words::part;
use isdbs_core::combination::Combination;
use isdbs_core::frame::{MAIN_SYMBOLS, SLOT_BYTES, SLOTS};
use isdbs_core::slots;
use isdbs_core::slots::Run;
use isdbs_core::tmcc::{Entry, Table};
use isdbs_points::PART_LIMIT;
use refusal::Refusal;

fn word_of(e: Entry) -> usize {
    usize::from(e.word)
}

fn slots_of(e: Entry) -> usize
    ensures { result < 256 }
{
    usize::from(e.slots)
}

// An entry that takes slots and carries nothing.
fn entry_line(e: Entry) {
    if e.slots == 0 {
        return;
    }
    let c = e.combination();
    match c {
        Some(_) => {}
        None => say(
            b"  word $: no combination, $ slots that carry nothing\n",
            &[word_of(e), slots_of(e)],
        ),
    }
}

fn run_line(r: Run) {
    text(b"  ");
    let c = r.combination;
    combination(c);
    if r.slot_end < r.slot_start {
        return;
    }
    if r.symbol_end < r.symbol_start {
        return;
    }
    let slots = r.slot_end - r.slot_start;
    let symbols = r.symbol_end - r.symbol_start;
    say(
        b": $ slots from slot $, of them $ valid; $ symbols from symbol $\n",
        &[slots, r.slot_start, r.valid_slots, symbols, r.symbol_start],
    );
}

// What each row of document 01's table says, by its number; 0 is none of them.
fn meaning(number: usize) {
    let rows = b"the library does not take this\n\
        the table takes more than 48 slots\n\
        the table has no valid slot to compare\n\
        the traceback is 0 or above 1,024\n\
        a state is out of its range\n\
        a length does not fit\n\
        a frame has 38,976 points\n\
        a part of a point is not a finite number, or is beyond 65,536\n\
        a scale is not above 0, or is above 64\n\
        the space for what is written is too short\n\
        the slots of an entry do not fill whole units\n\
        an entry gives slots to a reserved word\n\
        a code has a length of 3 to 7 and two generators of that length\n\
        no full load has exactly these points\n\
        a window is of 1 to 256 frames\n\
        no coded stretch between these states lies within four bits";
    text(part(rows, b'\n', number));
}

fn number_of(row: Refusal) -> usize {
    refusal::number(Err(row)) as usize
}

// How the last line of a refused run begins.
pub fn refused(row: Refusal) {
    say(b"refused $: ", &[number_of(row)]);
}

// The last line of a call that was turned back.
pub fn refuse(row: Refusal) {
    refused(row);
    meaning(number_of(row));
    text(b"\n");
}

// Slots of a unit.
fn unit_of(c: Combination) -> usize
    ensures { (0 < result) × (result ≤ 8) × (result ≡ (unit_of c).slots) }
{
    let u = c.slot_unit();
    u.slots as usize
}

// How many of n slots fill whole units.
fn filled(n: usize, unit: usize) -> usize
    requires { 0 < unit }
    ensures { (result ≤ n) × (result ≡ n - n % unit) }
{
    n - n % unit
}

// Entry i, counted from 1, has a part unit.
fn refuse_part(i: usize, e: Entry) {
    let c = e.combination();
    match c {
        Some(c) => {
            let n = slots_of(e);
            let unit = unit_of(c);
            let low = filled(n, unit);
            refused(Refusal::PartUnit);
            say(b"entry $, ", &[i]);
            combination(c);
            say(
                b" with $ slots: units of $; $ or $ would be whole\n",
                &[n, unit, low, low + unit],
            );
        }
        None => {}
    }
}

// Whether entry i has a part unit; then it is shown.
fn part_at(i: usize, e: Entry) -> bool {
    if e.part_unit() {
        refuse_part(i, e);
        return true;
    }
    false
}

// Whether entry i gives slots to a reserved word; then it is shown.
fn reserved_at(i: usize, e: Entry) -> bool {
    if e.reserved_word() {
        refused(Refusal::ReservedWord);
        say(
            b"entry $, word $ with $ slots: the word is reserved; with 0 slots, or with word 15, it would be taken\n",
            &[i, word_of(e), slots_of(e)],
        );
        return true;
    }
    false
}

// Whether a refusal is about entry i; then it is shown.
fn entry_at(row: Refusal, i: usize, e: Entry) -> bool {
    match row {
        Refusal::PartUnit => part_at(i, e),
        _ => reserved_at(i, e),
    }
}

// The first entry that a refusal is about.
fn refuse_entry(t: Table, row: Refusal) {
    for (i, e) in t.entries.iter().enumerate() {
        if entry_at(row, i + 1, *e) {
            return;
        }
    }
}

// The slots of a table that are too many.
fn refuse_sum(t: Table, row: Refusal) {
    let es = t.entries;
    refused(row);
    let sum = slots_of(es[0]) + slots_of(es[1]) + slots_of(es[2]) + slots_of(es[3]);
    say(
        b"the table takes $ slots, and a frame has $\n",
        &[sum, SLOTS],
    );
}

// The last line of a table that was turned back.
fn refuse_table(t: Table, row: Refusal) {
    match row {
        Refusal::Table => refuse_sum(t, row),
        Refusal::PartUnit | Refusal::ReservedWord => refuse_entry(t, row),
        _ => refuse(row),
    }
}

// The table as understood, and its valid slots, at most those of a frame; none where it is refused, which is then said.
pub fn table(t: Table) -> Option<usize> {
    let all = match slots::runs(t) {
        Ok(all) => all,
        Err(row) => {
            refuse_table(t, row);
            return None;
        }
    };
    text(b"table:\n");
    let rs = all.runs;
    for r in rs.iter().take(all.count) {
        run_line(*r);
    }
    for e in &t.entries {
        entry_line(*e);
    }
    let v = all.valid_slots;
    if v > SLOTS {
        return None;
    }
    say(
        b"  in all $ valid slots of $ bytes: the frame carries $ bytes\n",
        &[v, SLOT_BYTES, SLOT_BYTES * v],
    );
    Some(v)
}

// Whether a part of a point is refused by row 7.
fn is_bad(x: f64) -> bool {
    !(x <= PART_LIMIT && x >= -PART_LIMIT)
}

fn is_number(x: f64) -> bool {
    x - x == 0.0f64
}

fn bad_part(k: usize, name: &[u8], x: f64) {
    say(b"refused 7: point $'s ", &[k]);
    text(name);
    one_of(
        b" part is not a finite number (points are counted from 0)\n| part is beyond 65,536 (points are counted from 0)\n",
        is_number(x) as usize,
    );
}

// The first point of the frame with a bad part.
fn refuse_sample(re: &[f64; MAIN_SYMBOLS], im: &[f64; MAIN_SYMBOLS]) {
    for k in 0..MAIN_SYMBOLS {
        if is_bad(re[k]) {
            bad_part(k, b"real", re[k]);
            return;
        }
        if is_bad(im[k]) {
            bad_part(k, b"imaginary", im[k]);
            return;
        }
    }
}

fn refuse_symbols(points: usize, over: usize) {
    say(
        b"refused 6: the file has $ points and $ bytes over, and a frame has $ points\n",
        &[points, over, MAIN_SYMBOLS],
    );
}

// The last line of a reading that was turned back.
pub fn refuse_reading(
    row: Refusal,
    points: usize,
    over: usize,
    re: &[f64; MAIN_SYMBOLS],
    im: &[f64; MAIN_SYMBOLS],
) {
    match row {
        Refusal::Symbols => refuse_symbols(points, over),
        Refusal::Sample => refuse_sample(re, im),
        _ => refuse(row),
    }
}

// The first place where two slices differ.
fn difference(a: &[u8], b: &[u8]) {
    for (i, (x, y)) in a.iter().zip(b).enumerate() {
        if x != y {
            say(b"; first difference at byte $: sent 0x", &[i]);
            byte(*x);
            text(b", read 0x");
            byte(*y);
            return;
        }
    }
}

// A valid slot as sent and as read, and how many of its bytes agree, at most all.
pub fn slot_line(k: usize, a: &[u8], b: &[u8]) -> usize
    ensures { result ≤ slot_bytes }
{
    let n = agreeing(a, b);
    say(b"  valid slot $: $ of $ bytes agree", &[k, n, SLOT_BYTES]);
    difference(a, b);
    text(b"\n");
    n.min(SLOT_BYTES)
}

// n of m bytes agree.
pub fn agree(n: usize, m: usize) {
    say(b"$ of $ bytes agree", &[n, m]);
}
