// The words of read and best.
use crate::options::first_bad;
pub use crate::options::{has, named};
use crate::setting::{Setting, setting_at, setting_of};
use crate::usage::misused;
use bench_line::words;
use bench_line::words::{part, parts, same};
use isdbs_core::tmcc::Table;
use isdbs_points::Mapping;

// A scale for each combination.
const SCALES: usize = 7;

// How a frame is read: its scales in the order of words 1 to 7.
#[derive(Clone, Copy)]
pub struct Reading {
    pub table: Table,
    pub mapping: Mapping,
    pub first: bool,
    pub known_start: bool,
    pub scales: [f32; SCALES],
}

// No scales: a word after BYTES is not understood.
fn bad_choice(word: &[u8]) -> Option<[f32; SCALES]> {
    misused(
        b"after BYTES come [unknown] [SCALES], of read also [full] [all] [best BYTES2] [chart FILE] [report FILE] [json FILE], each once, not",
        word,
    );
    None
}

// A number for all seven.
fn one_scale(number: &[u8]) -> Option<[f32; SCALES]> {
    let Some(n) = words::scale(number) else {
        return bad_choice(number);
    };
    Some([n; SCALES])
}

// Seven numbers with commas between.
fn seven_scales(list: &[u8]) -> Option<[f32; SCALES]> {
    if parts(list, b',') != SCALES {
        return bad_choice(list);
    }
    let mut scales = [8.0f32; SCALES];
    for (i, scale) in scales.iter_mut().enumerate() {
        let Some(n) = words::scale(part(list, b',', i)) else {
            return bad_choice(list);
        };
        *scale = n;
    }
    Some(scales)
}

// The scales: one for all, seven, or 8.
fn scales_of(line: &[u8]) -> Option<[f32; SCALES]> {
    match (has(line, b"scale"), has(line, b"scales")) {
        (true, true) => bad_choice(b"scales"),
        (true, false) => one_scale(named(line, b"scale")),
        (false, true) => seven_scales(named(line, b"scales")),
        (false, false) => Some([8.0f32; SCALES]),
    }
}

// TABLE, MAPPING and KIND, where there are as many words as there must be.
fn setting_for(line: &[u8], form: &[u8]) -> Option<Setting> {
    if parts(line, 0) < 6 {
        misused(form, b"");
        return None;
    }
    setting_at(line)
}

// The same of read, of which KIND may be `header`.
fn setting_of_read(line: &[u8], form: &[u8]) -> Option<Setting> {
    if kind_is_header(line) && parts(line, 0) >= 6 {
        return setting_of(part(line, 0, 1), part(line, 0, 2), b"other");
    }
    setting_for(line, form)
}

// Whether KIND is left to the frame's header.
pub fn kind_is_header(line: &[u8]) -> bool {
    same(part(line, 0, 3), b"header")
}

// The reading by a setting and the words after BYTES, which are some of a list's.
fn reading_by(s: Setting, line: &[u8], list: &[u8]) -> Option<Reading> {
    let scales = match first_bad(line, list) {
        Some(i) => bad_choice(part(line, 0, i))?,
        None => scales_of(line)?,
    };
    Some(Reading {
        table: s.table,
        mapping: s.mapping,
        first: s.first,
        known_start: !has(line, b"unknown"),
        scales,
    })
}

// read TABLE MAPPING KIND FRAME BYTES [unknown] [SCALES] [full] [all] [best BYTES2] [chart FILE] [report FILE] [json FILE]
pub fn reading_of(line: &[u8]) -> Option<Reading> {
    let s = setting_of_read(
        line,
        b"read takes TABLE MAPPING KIND FRAME BYTES [unknown] [SCALES] [full] [all] [best BYTES2] [chart FILE] [report FILE] [json FILE]",
    )?;
    reading_by(
        s,
        line,
        b"unknown scale scales full main all best chart report json",
    )
}

// best TABLE MAPPING KIND FRAME BYTES [unknown] [SCALES]
pub fn best_reading_of(line: &[u8]) -> Option<Reading> {
    let s = setting_for(
        line,
        b"best takes TABLE MAPPING KIND FRAME BYTES [unknown] [SCALES]",
    )?;
    reading_by(s, line, b"unknown scale scales")
}

// The same reading of a frame of another kind.
pub fn of_kind(s: Reading, first: bool) -> Reading {
    Reading { first, ..s }
}
