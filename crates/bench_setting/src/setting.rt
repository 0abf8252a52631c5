// The words that commands share: TABLE, MAPPING and KIND.
use crate::usage::misused;
use bench_line::words;
use bench_line::words::{part, parts, same};
use isdbs_core::tmcc::Table;
use isdbs_points::Mapping;

// A frame's table, mapping and kind.
#[derive(Clone, Copy)]
pub struct Setting {
    pub table: Table,
    pub mapping: Mapping,
    pub first: bool,
}

// No setting: a word is not understood.
fn bad_setting(why: &[u8], word: &[u8]) -> Option<Setting> {
    misused(why, word);
    None
}

// Whether a word is the kind of a first frame; none where it is no kind.
fn kind_of(word: &[u8]) -> Option<bool> {
    if same(word, b"first") {
        return Some(true);
    }
    if same(word, b"other") {
        return Some(false);
    }
    None
}

// What three words of a line say; says which is not understood.
pub fn setting_of(table: &[u8], mapping: &[u8], kind: &[u8]) -> Option<Setting> {
    let Some(t) = words::table(table) else {
        return bad_setting(b"this is no TABLE:", table);
    };
    let Some(m) = words::mapping(mapping) else {
        return bad_setting(b"this is no MAPPING:", mapping);
    };
    let Some(first) = kind_of(kind) else {
        return bad_setting(b"this is no KIND:", kind);
    };
    Some(Setting {
        table: t,
        mapping: m,
        first,
    })
}

// What words 1 to 3 of a line say.
pub fn setting_at(line: &[u8]) -> Option<Setting> {
    setting_of(part(line, 0, 1), part(line, 0, 2), part(line, 0, 3))
}

// The same of a command that takes two files after them; else `usage` is said.
pub fn setting_for_two(line: &[u8], usage: &[u8]) -> Option<Setting> {
    if parts(line, 0) != 6 {
        return bad_setting(usage, b"");
    }
    setting_at(line)
}
