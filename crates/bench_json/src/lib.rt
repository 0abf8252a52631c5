// A reading as one JSON object. Text is ASCII: any other byte of a name is written by its number, as \u00e9.
#![tactic(auto)]

mod slots;

use bench_line::words::{digits, part, parts};
use bench_quality::{Sums, frame_quality, put_json};
use bench_report::names::{put_quoted, put_word};
use bench_report::page::{Input, Outcome};
use bench_setting::choice::{Reading, has, named};
use bench_setting::usage::VERSION;
use bench_verdict::facts::{Facts, Frame};
use bench_verdict::last;
use bench_verdict::last::Worth;
use picture_bars::form::fill_form;
use picture_sheet::Sheet;

// A text.
fn put_text(sheet: &mut Sheet, s: &[u8]) {
    put_quoted(sheet, s, b"\\u00");
}

// A name of the object and its text.
fn put_member(sheet: &mut Sheet, name: &[u8], s: &[u8]) {
    sheet.put(name);
    put_text(sheet, s);
    sheet.put(b",\n");
}

fn put_truth(sheet: &mut Sheet, name: &[u8], so: bool) {
    sheet.put(name);
    let truth: &[u8] = if so { b"true,\n" } else { b"false,\n" };
    sheet.put(truth);
}

// The digits of a word as a number.
fn put_digits(sheet: &mut Sheet, word: &[u8]) {
    match digits(word) {
        Some(n) => sheet.number(u64::from(n)),
        None => sheet.put(b"0"),
    }
}

// A scale of one to three digits, and up to three after a point.
fn put_scale(sheet: &mut Sheet, word: &[u8]) {
    put_digits(sheet, part(word, b'.', 0));
    if parts(word, b'.') < 2 {
        return;
    }
    sheet.put(b".");
    sheet.put(part(word, b'.', 1));
}

// The scale of word i + 1.
fn put_scale_at(sheet: &mut Sheet, line: &[u8], i: usize) {
    if has(line, b"scale") {
        put_scale(sheet, named(line, b"scale"));
        return;
    }
    if has(line, b"scales") {
        put_scale(sheet, part(named(line, b"scales"), b',', i));
        return;
    }
    sheet.put(b"8");
}

// The seven scales.
fn put_scales(sheet: &mut Sheet, line: &[u8]) {
    sheet.put(b"\"scales\":[");
    for i in 0..7 {
        if i > 0 {
            sheet.put(b",");
        }
        put_scale_at(sheet, line, i);
    }
    sheet.put(b"],\n");
}

fn put_kind(sheet: &mut Sheet, first: bool) {
    let kind: &[u8] = if first { b"first" } else { b"other" };
    sheet.put(b"\"kind\":\"");
    sheet.put(kind);
    sheet.put(b"\",\n");
}

// How the frame was read.
fn put_setting(sheet: &mut Sheet, line: &[u8], s: Reading, is_told: bool) {
    put_member(sheet, b"\"table\":", part(line, 0, 1));
    put_member(sheet, b"\"mapping\":", part(line, 0, 2));
    put_kind(sheet, s.first);
    put_truth(sheet, b"\"kind_from_header\":", is_told);
    put_truth(sheet, b"\"known_start\":", s.known_start);
    put_scales(sheet, line);
}

// The file that was read.
fn put_input(sheet: &mut Sheet, name: &[u8], i: Input) {
    sheet.put(b"\"input\":{\"name\":");
    put_text(sheet, name);
    fill_form(
        sheet,
        b",\"bytes\":@,\"points\":@,\"crc32\":\"",
        &[i.bytes, i.points],
    );
    put_word(sheet, i.checksum);
    sheet.put(b"\"},\n");
}

// The header: its symbols that agree, and its turn in degrees.
fn put_header(sheet: &mut Sheet, i: Input) {
    let turn = i.turn;
    if turn == last::NO_HEADER {
        sheet.put(b"\"header\":null,\n");
        return;
    }
    fill_form(
        sheet,
        b"\"header\":{\"w1\":@,\"last\":@,\"turn_degrees\":",
        &[i.w1, i.last],
    );
    put_turn(sheet, turn);
}

fn put_turn(sheet: &mut Sheet, turn: u8) {
    if turn >= last::NOT_TOLD {
        sheet.put(b"null},\n");
        return;
    }
    fill_form(sheet, b"@},\n", &[45 * (turn as usize)]);
}

// The sums of the frame.
fn put_sums(sheet: &mut Sheet, f: Frame, sums: &Sums) {
    fill_form(
        sheet,
        b"\"valid_slots\":@,\n\"bytes\":@,\n\"steps\":@,\n\"strained\":@,\n\"points_outside\":@,\n",
        &[
            f.valid,
            f.size,
            f.steps,
            f.strained as usize,
            f.outside as usize,
        ],
    );
    put_json(sheet, frame_quality(sums));
    sheet.put(b",\n");
}

// The word for a worth.
fn word_of(worth: Worth) -> &'static [u8] {
    match worth {
        Worth::Certain => b"certain",
        Worth::Firm => b"firm",
        Worth::Weak => b"weak",
        Worth::Other => b"not best",
        Worth::Turned => b"turned",
        Worth::Aside => b"align",
    }
}

// The verdict and the last line.
fn put_worth(sheet: &mut Sheet, worth: Worth, words: &[u8]) {
    sheet.put(b"\"verdict\":\"");
    sheet.put(word_of(worth));
    sheet.put(b"\",\n");
    put_truth(sheet, b"\"ok\":", last::is_ok(worth));
    put_member(sheet, b"\"last_line\":", words);
}

// The object, from a place on.
pub fn put_object(
    sheet: &mut Sheet,
    line: &[u8],
    o: Outcome,
    facts: &Facts,
    sums: &Sums,
    words: &[u8],
) {
    let s = o.reading;
    let i = o.input;
    let f = o.frame;
    let turn = i.turn;
    put_member(sheet, b"{\"version\":", &VERSION);
    put_setting(sheet, line, s, turn < last::NOT_TOLD);
    put_input(sheet, part(line, 0, 4), i);
    put_header(sheet, i);
    put_sums(sheet, f, sums);
    put_worth(
        sheet,
        last::worth_of(f, facts, frame_quality(sums), turn),
        words,
    );
    slots::put_slots(sheet, f, facts);
    slots::put_places(sheet, facts, sums);
    sheet.put(b"}\n");
}
