// The panels of the picture of a reading.
#![tactic(auto)]

use bench_setting::choice::Reading;
use bench_words::report;
use isdbs_core::frame::MAIN_SYMBOLS;
use isdbs_phy::demod::encode_frame;
use picture_chart::{Chart, draw};
use picture_sheet::{BINS, Sheet};

// Draws the panels beside the points of the bytes.
fn draw_encoded(
    sheet: &mut Sheet,
    c: Chart,
    re: &[f64; MAIN_SYMBOLS],
    im: &[f64; MAIN_SYMBOLS],
    clean_re: &[f64; MAIN_SYMBOLS],
    clean_im: &[f64; MAIN_SYMBOLS],
) {
    let mut bins = [[0u32; BINS]; BINS];
    draw(sheet, &mut bins, c, re, im, clean_re, clean_im);
}

// Encodes the bytes again; else says why not.
fn encode(
    s: Reading,
    bytes: &[u8],
    clean_re: &mut [f64; MAIN_SYMBOLS],
    clean_im: &mut [f64; MAIN_SYMBOLS],
) -> bool {
    let t = s.table;
    let m = s.mapping;
    if let Err(row) = encode_frame(bytes, t, s.first, m, clean_re, clean_im) {
        report::refuse(row);
        return false;
    }
    true
}

// Draws the panels of a reading on a sheet, after the picture's upper part; answers whether the bytes could be encoded again, else says why not.
pub fn draw_reading(
    sheet: &mut Sheet,
    s: Reading,
    c: Chart,
    bytes: &[u8],
    re: &[f64; MAIN_SYMBOLS],
    im: &[f64; MAIN_SYMBOLS],
) -> bool {
    let mut clean_re = [0.0f64; MAIN_SYMBOLS];
    let mut clean_im = [0.0f64; MAIN_SYMBOLS];
    if !encode(s, bytes, &mut clean_re, &mut clean_im) {
        return false;
    }
    draw_encoded(sheet, c, re, im, &clean_re, &clean_im);
    true
}
