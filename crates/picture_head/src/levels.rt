// Bars on a scale that is the same in every picture: strength, and modulation error ratio. They stand on y = 400, as those of picture_bars.
ghost use Rattle.std.specs.Prelude.{◌<◌, ◌≤◌};
ghost use Rattle.isdbs_combination.specs.Combinations.{frame_slots};

use crate::rows::{Lack, Level, Rows};
use picture_bars::form::fill_form;
use picture_sheet::{Sheet, height};

// The greatest bar of each scale: a hundred percent, 25 decibels in tenths.
const MOST_STRENGTH: usize = 100;

const MOST_RATIO: usize = 250;

// The zero of a ratio.
const NO_DECIBELS: u32 = 300;

// No line is drawn for a greater need, in percent.
const MOST_NEED: u32 = 100;

// Six lines of a scale, `unit` from one to the next.
fn scale(sheet: &mut Sheet, unit: usize)
    requires { unit ≤ 1000 }
{
    fill_form(
        sheet,
        b"<path stroke=\"#d0d0d0\" d=\"M140 400h1536M140 336h1536M140 272h1536M140 208h1536M140 144h1536M140 80h1536\"/>\n<g text-anchor=\"end\"><text x=\"128\" y=\"408\">0</text><text x=\"128\" y=\"344\">@</text><text x=\"128\" y=\"280\">@</text><text x=\"128\" y=\"216\">@</text><text x=\"128\" y=\"152\">@</text><text x=\"128\" y=\"88\">@</text></g>\n",
        &[unit, 2 * unit, 3 * unit, 4 * unit, 5 * unit],
    );
}

// The bar of slot k and its number below, up to its colour.
fn bar(sheet: &mut Sheet, k: usize, n: usize, most: usize)
    requires { k < frame_slots }
{
    let h = height(n, most);
    fill_form(
        sheet,
        b"<g transform=\"translate(@ 0)\"><text x=\"16\" y=\"424\" text-anchor=\"middle\" font-size=\"18\">@</text><path d=\"M4 400h24v-@h-24z\" fill=\"",
        &[140 + 32 * k, k, h],
    );
}

// The start of the words above a bar, after its colour.
fn above(sheet: &mut Sheet, n: usize, most: usize) {
    let h = height(n, most);
    fill_form(
        sheet,
        b"\"/><text transform=\"translate(23 @) rotate(-90)\">",
        &[392 - h],
    );
}

// The letter of what a slot lacks.
fn lack_letter(lack: Lack) -> &'static [u8] {
    match lack {
        Lack::Noisy => b" n",
        Lack::Disturbed => b" d",
        Lack::Weak => b" w",
        Lack::NotBest => b" b",
    }
}

// The strength that a slot needs, where a line is drawn for it.
fn drawn_need(level: Level) -> Option<usize> {
    match level.need {
        Some(need) if need <= MOST_NEED => Some(need as usize),
        _ => None,
    }
}

// The line of the strength that a slot needs.
fn need_line(sheet: &mut Sheet, need: usize) {
    let h = height(need, MOST_STRENGTH);
    fill_form(
        sheet,
        b"<path stroke=\"#000\" stroke-width=\"4\" d=\"M1 @h30\"/>",
        &[400 - h],
    );
}

// The strength of valid slot k. Its number stands above the bar and the line.
fn strength(sheet: &mut Sheet, k: usize, level: Level)
    requires { k < frame_slots }
{
    let n = level.strength as usize;
    let need = drawn_need(level);
    bar(sheet, k, n, MOST_STRENGTH);
    sheet.put(if level.lack.is_none() {
        b"#3182bd"
    } else {
        b"#e6550d"
    });
    above(sheet, need.map_or(n, |x| n.max(x)), MOST_STRENGTH);
    sheet.number(n as u64);
    if let Some(lack) = level.lack {
        sheet.put(lack_letter(lack));
    }
    sheet.put(b"</text>");
    if let Some(x) = need {
        need_line(sheet, x);
    }
    sheet.put(b"</g>\n");
}

// The bars of the strength of the valid slots, over their scale.
pub(crate) fn strengths(sheet: &mut Sheet, rows: &Rows, valid: usize) {
    scale(sheet, MOST_STRENGTH / 5);
    for (k, &level) in rows.levels.iter().enumerate().take(valid) {
        strength(sheet, k, level);
    }
}

// Decibels in tenths: how far a ratio lies above its zero.
fn over(ratio: u32) -> usize {
    ratio.saturating_sub(NO_DECIBELS) as usize
}

// The decibels of a ratio, after a minus sign where it is below its zero.
fn decibels(sheet: &mut Sheet, ratio: u32) {
    if ratio < NO_DECIBELS {
        sheet.put(b"-");
    }
    let n = ratio.abs_diff(NO_DECIBELS) as usize;
    fill_form(sheet, b"@.@", &[n / 10, n % 10]);
}

// The ratio of slot k of the frame.
fn ratio(sheet: &mut Sheet, k: usize, level: u32)
    requires { k < frame_slots }
{
    let n = over(level);
    bar(sheet, k, n, MOST_RATIO);
    sheet.put(b"#31a354");
    above(sheet, n, MOST_RATIO);
    decibels(sheet, level);
    sheet.put(b"</text></g>\n");
}

// The bars of the modulation error ratio of the frame's slots, over their scale in decibels. A slot without points has none.
pub(crate) fn ratios(sheet: &mut Sheet, rows: &Rows) {
    scale(sheet, MOST_RATIO / 50);
    for (k, &found) in rows.ratios.iter().enumerate() {
        if let Some(level) = found {
            ratio(sheet, k, level);
        }
    }
}
