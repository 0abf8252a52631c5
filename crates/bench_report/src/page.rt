// The lines of a report.
use crate::names::{put_hex, put_marked, put_quoted, put_word};
use crate::slots::{put_places, put_slots, put_strengths};
use bench_line::words::part;
use bench_quality::{Sums, frame_quality, put_words};
use bench_setting::choice::{Reading, has, named};
use bench_setting::usage::VERSION;
use bench_verdict::facts::{Facts, Frame};
use bench_verdict::last::{NO_HEADER, NOT_TOLD, put_turn};
use isdbs_core::frame::SLOT_BYTES;
use picture_bars::form::fill_form;
use picture_sheet::Sheet;

// The file that was read: its bytes, their checksum and its points; of its header the turn in eighths (8: not told, 9: there is none) and how many of W1's 20
// symbols and of the last 20 agree.
#[derive(Clone, Copy)]
pub struct Input {
    pub bytes: usize,
    pub checksum: u32,
    pub points: usize,
    pub turn: u8,
    pub w1: usize,
    pub last: usize,
}

// A reading and what it rests on: how the frame was read, the file that it is from, and what was found.
#[derive(Clone, Copy)]
pub struct Outcome {
    pub reading: Reading,
    pub input: Input,
    pub frame: Frame,
}

// The mean quality of the frame's points.
fn put_quality(sheet: &mut Sheet, sums: &Sums) {
    sheet.put(b"quality: ");
    put_words(sheet, frame_quality(sums));
    sheet.put(b"\n");
}

// The page for the screen: the slots that want a look, or all, and the sums.
pub fn put_page(sheet: &mut Sheet, f: Frame, facts: &Facts, sums: &Sums, is_all: bool) {
    put_slots(sheet, f, facts, is_all);
    if is_all {
        put_places(sheet, facts, sums);
    }
    put_strengths(sheet, f, facts);
    put_quality(sheet, sums);
    put_difference(sheet, f);
}

// A line of a name and a text.
fn put_line(sheet: &mut Sheet, name: &[u8], s: &[u8]) {
    sheet.put(name);
    sheet.put(s);
    sheet.put(b"\n");
}

// The word for a kind.
fn put_kind(sheet: &mut Sheet, first: bool) {
    sheet.put(if first {
        b"kind: first"
    } else {
        b"kind: other"
    });
}

// Where the kind is from.
fn put_origin(sheet: &mut Sheet, is_told: bool) {
    let origin: &[u8] = if is_told {
        b", as the header says\n"
    } else {
        b", as given\n"
    };
    sheet.put(origin);
}

// The scales as they were given.
fn put_scales(sheet: &mut Sheet, line: &[u8]) {
    if has(line, b"scale") {
        put_line(sheet, b"scales: all ", named(line, b"scale"));
        return;
    }
    if has(line, b"scales") {
        put_line(sheet, b"scales: ", named(line, b"scales"));
        return;
    }
    sheet.put(b"scales: all 8\n");
}

fn put_start(sheet: &mut Sheet, is_known: bool) {
    let start: &[u8] = if is_known {
        b"start: known\n"
    } else {
        b"start: unknown\n"
    };
    sheet.put(start);
}

// How the frame was read.
fn put_setting(sheet: &mut Sheet, line: &[u8], s: Reading, is_told: bool) {
    put_line(sheet, b"table: ", part(line, 0, 1));
    put_line(sheet, b"mapping: ", part(line, 0, 2));
    put_kind(sheet, s.first);
    put_origin(sheet, is_told);
    put_start(sheet, s.known_start);
    put_scales(sheet, line);
}

// The file that was read.
fn put_input(sheet: &mut Sheet, name: &[u8], i: Input) {
    sheet.put(b"input: ");
    put_quoted(sheet, name, b"\\x");
    fill_form(sheet, b", @ bytes, @ points, CRC-32 ", &[i.bytes, i.points]);
    put_word(sheet, i.checksum);
    sheet.put(b"\n");
}

// What the header says.
fn put_header(sheet: &mut Sheet, i: Input) {
    let turn = i.turn;
    if turn == NO_HEADER {
        sheet.put(b"header: none: these are main points, and cut and phase are taken as given\n");
        return;
    }
    fill_form(
        sheet,
        b"header: W1 @ of 20, the last @ of 20: ",
        &[i.w1, i.last],
    );
    put_turn(sheet, turn);
    sheet.put(b"\n");
}

// The first byte of which the best reading has another.
fn put_difference(sheet: &mut Sheet, f: Frame) {
    let Some(first) = f.apart else {
        sheet.put(b"best: no other reading fits better\n");
        return;
    };
    fill_form(
        sheet,
        b"not the best: first difference in valid slot @ at byte @: read 0x",
        &[first.at / SLOT_BYTES, first.at % SLOT_BYTES],
    );
    put_hex(sheet, first.read);
    put_marked(sheet, first.best, b", best 0x");
    sheet.put(b"\n");
}

// The sums of the frame.
fn put_sums(sheet: &mut Sheet, f: Frame) {
    fill_form(
        sheet,
        b"valid slots: @\nbytes: @\nsteps: @\nstrained: @\npoints outside the margins: @\n",
        &[
            f.valid,
            f.size,
            f.steps,
            f.strained as usize,
            f.outside as usize,
        ],
    );
}

// Puts the text that is kept, with the header's line and the last line.
pub fn put_report(
    sheet: &mut Sheet,
    line: &[u8],
    o: Outcome,
    facts: &Facts,
    sums: &Sums,
    last: &[u8],
) {
    let s = o.reading;
    let i = o.input;
    let f = o.frame;
    put_line(sheet, b"bench read, version ", &VERSION);
    put_setting(sheet, line, s, i.turn < NOT_TOLD);
    put_input(sheet, part(line, 0, 4), i);
    put_header(sheet, i);
    put_sums(sheet, f);
    put_strengths(sheet, f, facts);
    put_quality(sheet, sums);
    put_difference(sheet, f);
    put_line(sheet, b"verdict: ", last);
    put_slots(sheet, f, facts, true);
    put_places(sheet, facts, sums);
}
