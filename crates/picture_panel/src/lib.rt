// What a panel shows beside the points that it gathers: title, lines, squares, the ideal points of a modulation and their margins. It is 768 wide and high, and a part of 1 is 256 long.
#![tactic(auto)]

mod squares;

use crate::squares::{Shade, squares};
use isdbs_core::combination::{Combination, Modulation};
use picture_bars::bars::letter;
use picture_bars::form::{fill_form, put_combination};
use picture_sheet::{Sheet, Squares};

// Demand 3's margins, as boxes around (0, 0): a part of 0 within 8, of 1 from 248 to 264, of 0.7071 from 174 to 188. BPSK's imaginary part is free.
fn margin_boxes(m: Modulation) -> &'static [u8] {
    match m {
        Modulation::Bpsk => b"M248 -384h16v768h-16zM-264 -384h16v768h-16z",
        Modulation::Qpsk =>
            b"M174 174h14v14h-14zM-188 174h14v14h-14zM174 -188h14v14h-14zM-188 -188h14v14h-14z",
        Modulation::Tc8psk =>
            b"M174 174h14v14h-14zM-188 174h14v14h-14zM174 -188h14v14h-14zM-188 -188h14v14h-14zM248 -8h16v16h-16zM-264 -8h16v16h-16zM-8 248h16v16h-16zM-8 -264h16v16h-16z",
    }
}

// The ideal points, as crosses around (0, 0).
fn ideal_points(m: Modulation) -> &'static [u8] {
    match m {
        Modulation::Bpsk => b"M251 0h10M256 -5v10M-261 0h10M-256 -5v10",
        Modulation::Qpsk =>
            b"M176 181h10M181 176v10M-186 181h10M-181 176v10M176 -181h10M181 -186v10M-186 -181h10M-181 -186v10",
        Modulation::Tc8psk =>
            b"M176 181h10M181 176v10M-186 181h10M-181 176v10M176 -181h10M181 -186v10M-186 -181h10M-181 -186v10M251 0h10M256 -5v10M-261 0h10M-256 -5v10M-5 256h10M0 251v10M-5 -256h10M0 -261v10",
    }
}

// Margins and ideal points over the squares; the end of the panel.
pub fn marks(sheet: &mut Sheet, m: Modulation) {
    sheet.put(
        b"<g transform=\"translate(384 384)\" fill=\"none\">\n<path stroke=\"#ff7f0e\" stroke-width=\"3\" d=\"",
    );
    sheet.put(margin_boxes(m));
    sheet.put(b"\"/>\n<path stroke=\"#ff7f0e\" d=\"");
    sheet.put(ideal_points(m));
    sheet.put(b"\"/>\n</g>\n</g>\n");
}

fn out_of_view(sheet: &mut Sheet, n: usize) {
    if n == 0 {
        return;
    }
    fill_form(
        sheet,
        b"<text y=\"-12\">$ beyond 1.5, drawn at the edge</text>\n",
        &[n],
    );
}

// The lines above the panel of run i, its points after alignment.
pub fn aligned_title(sheet: &mut Sheet, i: usize, beyond: usize) {
    sheet.put(b"<text y=\"-42\" font-size=\"26\">");
    letter(sheet, i);
    sheet.put(b" after alignment: the mean gain and turn taken out</text>\n");
    out_of_view(sheet, beyond);
}

// The lines above the panel of run i.
pub fn title(sheet: &mut Sheet, i: usize, c: Combination, points: usize, beyond: usize) {
    sheet.put(b"<text y=\"-42\" font-size=\"26\">");
    letter(sheet, i);
    sheet.put(b": ");
    put_combination(sheet, c);
    fill_form(sheet, b", $ points</text>\n", &[points]);
    out_of_view(sheet, beyond);
}

// The border, and lines at -1, 0 and 1.
pub fn grid(sheet: &mut Sheet) {
    sheet.put(
        b"<rect width=\"768\" height=\"768\" fill=\"none\" stroke=\"#888\"/>\n<path stroke=\"#d0d0d0\" d=\"M128 0v768M384 0v768M640 0v768M0 128h768M0 384h768M0 640h768\"/>\n",
    );
}

// The words of both axes.
pub fn axes(sheet: &mut Sheet) {
    sheet.put(
        b"<g text-anchor=\"middle\"><text x=\"128\" y=\"796\">-1</text><text x=\"384\" y=\"796\">0</text><text x=\"640\" y=\"796\">1</text><text x=\"384\" y=\"830\">real part (1: the amplitude of an ideal point)</text><text transform=\"translate(-52 384) rotate(-90)\">imaginary part</text></g>\n<g text-anchor=\"end\"><text x=\"-10\" y=\"136\">1</text><text x=\"-10\" y=\"392\">0</text><text x=\"-10\" y=\"648\">-1</text></g>\n",
    );
}

// The squares of the points within their margins, which were gathered. A stroke lies in the middle of its row.
pub fn within(sheet: &mut Sheet, bins: &Squares) {
    sheet.put(b"<g transform=\"translate(0 2) scale(4)\">\n");
    squares(sheet, bins, Shade::One, b"#9ecae1");
    squares(sheet, bins, Shade::Few, b"#6baed6");
    squares(sheet, bins, Shade::Several, b"#3182bd");
    squares(sheet, bins, Shade::Many, b"#08306b");
}

// The squares of those outside.
pub fn outside(sheet: &mut Sheet, bins: &Squares) {
    squares(sheet, bins, Shade::One, b"#fcae91");
    squares(sheet, bins, Shade::Few, b"#fb6a4a");
    squares(sheet, bins, Shade::Several, b"#de2d26");
    squares(sheet, bins, Shade::Many, b"#a50f15");
    sheet.put(b"</g>\n");
}
