// The numbers of a quality on a sheet.
use crate::{NO_DECIBELS, NO_OFFSET, NO_TURN, Quality};
use picture_bars::form::fill_form;
use picture_sheet::Sheet;

// Puts words and a minus sign where a number is below its zero; answers how far it is from it.
fn put_sign(sheet: &mut Sheet, words: &[u8], n: u32, zero: u32) -> usize {
    sheet.put(words);
    if n < zero {
        sheet.put(b"-");
    }
    n.abs_diff(zero) as usize
}

// Tenths after some words.
fn tenths(sheet: &mut Sheet, words: &[u8], n: u32, zero: u32) {
    let d = put_sign(sheet, words, n, zero);
    fill_form(sheet, b"@.@", &[d / 10, d % 10]);
}

fn hundredths(sheet: &mut Sheet, words: &[u8], n: u32) {
    let d = put_sign(sheet, words, n, 0);
    fill_form(sheet, b"@.@@", &[d / 100, d / 10 % 10, d % 10]);
}

fn thousandths(sheet: &mut Sheet, words: &[u8], n: u32) {
    let d = put_sign(sheet, words, n, NO_OFFSET);
    fill_form(
        sheet,
        b"@.@@@",
        &[d / 1_000, d / 100 % 10, d / 10 % 10, d % 10],
    );
}

// Gain and turn.
pub fn put_aside(sheet: &mut Sheet, q: Quality) {
    hundredths(sheet, b"gain ", q.gain);
    tenths(sheet, b", turn ", q.turn, NO_TURN);
    sheet.put(b" degrees");
}

// All of it in words.
pub fn put_words(sheet: &mut Sheet, quality: Option<Quality>) {
    let Some(q) = quality else {
        sheet.put(b"no points");
        return;
    };
    tenths(sheet, b"MER ", q.ratio, NO_DECIBELS);
    sheet.put(b" dB, ");
    put_aside(sheet, q);
    thousandths(sheet, b", offset (", q.re);
    thousandths(sheet, b", ", q.im);
    sheet.put(b")");
}

// All of it as members of a JSON object.
pub fn put_json(sheet: &mut Sheet, quality: Option<Quality>) {
    let Some(q) = quality else {
        sheet.put(b"\"mer_db\":null,\"gain\":null,\"turn_degrees\":null,\"offset\":null");
        return;
    };
    tenths(sheet, b"\"mer_db\":", q.ratio, NO_DECIBELS);
    hundredths(sheet, b",\"gain\":", q.gain);
    tenths(sheet, b",\"turn_degrees\":", q.turn, NO_TURN);
    thousandths(sheet, b",\"offset\":[", q.re);
    thousandths(sheet, b",", q.im);
    sheet.put(b"]");
}
