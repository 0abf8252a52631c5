// The upper part of the picture of a frame that was read: the report's last line, what was read and how; by slot the strength, the strained steps, the modulation error ratio and the points outside the margins; and what the panels below show.
#![tactic(auto)]

mod levels;
pub mod rows;

ghost use Rattle.std.specs.Prelude.{◌≤◌};

use isdbs_combination::SLOT_SYMBOLS;
use isdbs_core::frame::SLOTS;
use isdbs_core::slots;
use isdbs_core::slots::Run;
use isdbs_core::tmcc::Table;
use picture_bars::form::fill_form;
use picture_bars::{bars, form};
use picture_sheet::Sheet;
use rows::Rows;

// How many rows of panels n runs have: two panels in a row, of one run where points are shown after alignment too.
fn panel_rows(n: usize, is_aside: bool) -> usize
    ensures { result ≤ 4 }
{
    match (n, is_aside) {
        (0, _) => 0,
        (1, _) | (2, false) => 1,
        (2, true) | (_, false) => 2,
        (_, true) => 4,
    }
}

// How high a picture with so many rows of panels is.
fn page(n: usize) -> usize {
    match n {
        0 => 2510,
        1 => 3440,
        2 => 4380,
        _ => 6260,
    }
}

// The picture's size, its ground, and the letters of its words.
fn open(sheet: &mut Sheet, n: usize) {
    fill_form(
        sheet,
        b"<svg xmlns=\"http://www.w3.org/2000/svg\" width=\"900\" viewBox=\"0 0 1800 @\" font-family=\"sans-serif\" font-size=\"22\">\n<rect width=\"1800\" height=\"@\" fill=\"#fff\"/>\n",
        &[page(n), page(n)],
    );
}

// What a picture is of: the frame's table, its steps and how many are strained, how many points lie outside their margins, and whether gain or turn are off.
#[derive(Clone, Copy)]
pub struct Facts {
    pub table: Table,
    pub steps: usize,
    pub strained: u32,
    pub outside: u32,
    pub is_aside: bool,
}

// The lines of words beside a picture: the report's last line, the name, the setting and the quality.
#[derive(Clone, Copy)]
pub struct Lines<'a> {
    pub words: &'a [u8],
    pub name: &'a [u8],
    pub setting: &'a [u8],
    pub quality: &'a [u8],
}

// A line of words at the top.
fn line(sheet: &mut Sheet, y: usize, letters: usize, words: &[u8]) {
    fill_form(
        sheet,
        b"<text x=\"60\" y=\"@\" font-size=\"@\">",
        &[y, letters],
    );
    form::name(sheet, words);
    sheet.put(b"</text>\n");
}

// The lines at the top.
fn head(sheet: &mut Sheet, lines: Lines, f: Facts) {
    line(sheet, 60, 34, lines.words);
    line(sheet, 106, 26, lines.name);
    line(sheet, 144, 26, lines.setting);
    fill_form(
        sheet,
        b"<text x=\"60\" y=\"182\" font-size=\"22\">$ of $ steps strained, $ points outside their margins; ",
        &[f.strained as usize, f.steps, f.outside as usize],
    );
    form::name(sheet, lines.quality);
    sheet.put(b"</text>\n");
}

// The start of the bars of panel i, a title over them and the words below.
fn panel(sheet: &mut Sheet, i: usize, title: &[u8], below: &[u8])
    requires { i ≤ 3 }
{
    fill_form(
        sheet,
        b"<g transform=\"translate(0 @)\">\n<text x=\"140\" y=\"-10\" font-size=\"24\">",
        &[250 + 560 * i],
    );
    sheet.put(title);
    sheet.put(b"</text><text x=\"908\" y=\"500\" text-anchor=\"middle\">");
    sheet.put(below);
    sheet.put(b"</text>\n");
}

// The strips of the runs' letters below the bars of the valid slots.
fn strips(sheet: &mut Sheet, rs: [Run; 4]) {
    let mut from = 0;
    for (i, r) in rs.iter().enumerate() {
        let to = bars::after(from, r.valid_slots);
        bars::strip(sheet, i, from, to);
        from = to;
    }
}

// The strength of n valid slots.
fn strength(sheet: &mut Sheet, rs: [Run; 4], n: usize, rows: &Rows) {
    panel(
        sheet,
        0,
        b"Strength of the reading, in percent of a clean slot's. Blue: firm. Orange: not firm (n noisy, d disturbed, w weak, b not the best reading)",
        b"valid slot, the letters are those of the panels below; a black line: the strength that the slot needs (noisy or disturbed, none would do)",
    );
    levels::strengths(sheet, rows, n);
    strips(sheet, rs);
    sheet.put(b"</g>\n");
}

// The bars of the strained steps of n valid slots.
fn strained_steps(sheet: &mut Sheet, rs: [Run; 4], n: usize, rows: &Rows) {
    panel(
        sheet,
        1,
        b"Strained steps: there the points spoke against the bits that were read. None at all does not yet mean a good frame",
        b"valid slot (of 812 steps in TC8PSK, of 1,624 else)",
    );
    bars::bars(sheet, &rows.strained, n, b"#3182bd");
    strips(sheet, rs);
    sheet.put(b"</g>\n");
}

// The strips of the runs' letters below the slots of the frame.
fn frame_strips(sheet: &mut Sheet, rs: [Run; 4]) {
    for (i, r) in rs.iter().enumerate() {
        bars::strip(
            sheet,
            i,
            r.symbol_start / SLOT_SYMBOLS,
            r.symbol_end / SLOT_SYMBOLS,
        );
    }
}

// The bars of the modulation error ratio of the slots of the frame.
fn ratio(sheet: &mut Sheet, rs: [Run; 4], rows: &Rows) {
    panel(
        sheet,
        2,
        b"Modulation error ratio (MER) in dB, against the points of the bytes that were read; a bar beyond 25 dB ends with the scale",
        b"slot of the frame",
    );
    levels::ratios(sheet, rows);
    frame_strips(sheet, rs);
    sheet.put(b"</g>\n");
}

// The bars of the points outside the margins of the slots of the frame.
fn misses(sheet: &mut Sheet, rs: [Run; 4], rows: &Rows) {
    panel(
        sheet,
        3,
        b"Points outside their margin: none at all proves the bytes, and many may still be read rightly",
        b"slot of the frame (812 points each)",
    );
    bars::bars(sheet, &rows.outside, SLOTS, b"#de2d26");
    frame_strips(sheet, rs);
    sheet.put(b"</g>\n");
}

// What the squares and boxes of the panels are.
fn legend(sheet: &mut Sheet) {
    sheet.put(
        b"<g transform=\"translate(60 2470)\">\n<path fill=\"#9ecae1\" d=\"M0 0h20v20h-20z\"/><path fill=\"#fcae91\" d=\"M24 0h20v20h-20z\"/><text x=\"52\" y=\"18\">1</text><path fill=\"#6baed6\" d=\"M90 0h20v20h-20z\"/><path fill=\"#fb6a4a\" d=\"M114 0h20v20h-20z\"/><text x=\"142\" y=\"18\">2 or 3</text><path fill=\"#3182bd\" d=\"M230 0h20v20h-20z\"/><path fill=\"#de2d26\" d=\"M254 0h20v20h-20z\"/><text x=\"282\" y=\"18\">4 to 15</text><path fill=\"#08306b\" d=\"M380 0h20v20h-20z\"/><path fill=\"#a50f15\" d=\"M404 0h20v20h-20z\"/><text x=\"432\" y=\"18\">16 or more points in a square of 1/64 by 1/64, blue within the margin, red outside</text>\n<path fill=\"none\" stroke=\"#ff7f0e\" stroke-width=\"3\" d=\"M1362 2h16v16h-16z\"/><path stroke=\"#ff7f0e\" d=\"M1365 10h10M1370 5v10\"/><text x=\"1390\" y=\"18\">an ideal point and its margin</text>\n</g>\n",
    );
}

// Draws the upper part on a sheet, from its place on.
pub fn draw_head(sheet: &mut Sheet, lines: Lines, f: Facts, rows: &Rows) {
    let all = slots::runs(f.table).unwrap_or(slots::NO_RUNS);
    let rs = all.runs;
    let n = all.valid_slots;
    open(sheet, panel_rows(all.count, f.is_aside));
    head(sheet, lines, f);
    strength(sheet, rs, n, rows);
    strained_steps(sheet, rs, n, rows);
    ratio(sheet, rs, rows);
    misses(sheet, rs, rows);
    legend(sheet);
}
