// Bars: a count for each slot, on a scale of five units, 320 high. They stand on y = 400.
ghost use Rattle.std.specs.Prelude.{◌<◌, ◌≤◌};
ghost use Rattle.isdbs_combination.specs.Combinations.{frame_slots};

use crate::form::fill_form;
use isdbs_frame::SLOTS;
use picture_sheet::{Sheet, height, scale_unit};

// The greatest of the counts.
fn greatest(counts: &[u32; SLOTS]) -> usize {
    counts.iter().max().map_or(0, |&n| n as usize)
}

// The lines of the scale of the greatest bar, and what each stands for.
fn scale(sheet: &mut Sheet, most: usize) {
    let unit = scale_unit(most);
    fill_form(
        sheet,
        b"<path stroke=\"#d0d0d0\" fill=\"none\" d=\"M140 400h1536M140 336h1536M140 272h1536M140 208h1536M140 144h1536M140 80h1536\"/>\n<g text-anchor=\"end\"><text x=\"128\" y=\"408\">$</text><text x=\"128\" y=\"344\">$</text><text x=\"128\" y=\"280\">$</text><text x=\"128\" y=\"216\">$</text><text x=\"128\" y=\"152\">$</text><text x=\"128\" y=\"88\">$</text></g>\n",
        &[0, unit, 2 * unit, 3 * unit, 4 * unit, 5 * unit],
    );
}

// The bar of slot k, its count above it and its number below.
fn bar(sheet: &mut Sheet, k: usize, n: usize, most: usize)
    requires { k < frame_slots }
{
    let h = height(n, most);
    fill_form(
        sheet,
        b"<g transform=\"translate(@ 0)\"><rect x=\"4\" y=\"@\" width=\"24\" height=\"@\"/><text fill=\"#000\" transform=\"translate(23 @) rotate(-90)\">$</text><text fill=\"#000\" x=\"16\" y=\"424\" text-anchor=\"middle\" font-size=\"18\">@</text></g>\n",
        &[140 + 32 * k, 400 - h, h, 392 - h, n, k],
    );
}

// The bars of the first n slots, at most all.
fn slot_bars(sheet: &mut Sheet, counts: &[u32; SLOTS], n: usize, most: usize) {
    for (k, &count) in counts.iter().enumerate().take(n) {
        bar(sheet, k, count as usize, most);
    }
}

// The start of a group in a colour.
fn coloured(sheet: &mut Sheet, colour: &[u8]) {
    sheet.put(b"<g fill=\"");
    sheet.put(colour);
    sheet.put(b"\">\n");
}

// The bars of the first n slots in a colour, over their scale.
pub fn bars(sheet: &mut Sheet, counts: &[u32; SLOTS], n: usize, colour: &[u8]) {
    let most = greatest(counts);
    scale(sheet, most);
    coloured(sheet, colour);
    slot_bars(sheet, counts, n, most);
    sheet.put(b"</g>\n");
}

// The letter of run i.
pub fn letter(sheet: &mut Sheet, i: usize) {
    let letter = match i {
        0 => b"A",
        1 => b"B",
        2 => b"C",
        _ => b"D",
    };
    sheet.put(letter);
}

// The slot after n of them from `from` on; at most the end of a frame.
pub fn after(from: usize, n: usize) -> usize
    ensures { result ≤ frame_slots }
{
    if from > SLOTS || n > SLOTS - from {
        return SLOTS;
    }
    from + n
}

// A strip with the letter of run i below the slots from `from` up to but not including `to`.
pub fn strip(sheet: &mut Sheet, i: usize, from: usize, to: usize) {
    if from >= to || to > SLOTS {
        return;
    }
    let width = 32 * (to - from);
    fill_form(
        sheet,
        b"<g transform=\"translate(@ 0)\"><rect x=\"2\" y=\"434\" width=\"@\" height=\"6\" fill=\"#888\"/><text x=\"@\" y=\"464\" text-anchor=\"middle\">",
        &[140 + 32 * from, width - 4, width / 2],
    );
    letter(sheet, i);
    sheet.put(b"</text></g>\n");
}
