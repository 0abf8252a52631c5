// The page that the command read says, and the upper part of the picture of a reading, where it is asked for.
#![tactic(auto)]

ghost use Rattle.std.specs.Prelude.{◌<◌};
ghost use Rattle.isdbs_combination.specs.Combinations.{frame_slots};

use bench_line::words::part;
use bench_quality::{Quality, Sums, frame_quality, is_aside, put_words, slot_quality};
use bench_report::names::{put_quoted, put_word};
use bench_report::page::{Input, Outcome, put_page};
use bench_setting::choice::{Reading, has};
use bench_setting::usage::VERSION;
use bench_verdict::facts;
use bench_verdict::facts::Frame;
use bench_verdict::last::{NOT_TOLD, put_last};
use isdbs_core::frame::SLOTS;
use picture_bars::form::fill_form;
use picture_head::rows::{Lack, Level, Rows};
use picture_head::{Facts, Lines, draw_head};
use picture_sheet::Sheet;

// The texts at the top of a picture, which stand one after the other on a page: where they begin, and the ends of the last line, the input, the setting and the quality.
#[derive(Clone, Copy)]
pub struct Texts {
    pub from: usize,
    pub words: usize,
    pub input: usize,
    pub setting: usize,
    pub quality: usize,
}

// The file that was read, named as in the report; its size and checksum where they were worked out, which a report asks for.
fn put_input(page: &mut Sheet, name: &[u8], i: Input) {
    page.put(b"frame ");
    put_quoted(page, name, b"\\x");
    if i.bytes == 0 {
        fill_form(page, b", $ points", &[i.points]);
        return;
    }
    fill_form(page, b", $ bytes, $ points, CRC-32 ", &[i.bytes, i.points]);
    put_word(page, i.checksum);
}

fn put_kind(page: &mut Sheet, first: bool) {
    page.put(if first {
        b", kind first"
    } else {
        b", kind other"
    });
}

// Where the kind is from, and the words before the version.
fn put_origin(page: &mut Sheet, is_told: bool) {
    let origin: &[u8] = if is_told {
        b", as the header says"
    } else {
        b", as given"
    };
    page.put(origin);
    page.put(b"; read by bench ");
}

// How the frame was read, and by which version.
fn put_setting(page: &mut Sheet, line: &[u8], s: Reading, is_told: bool) {
    page.put(b"table ");
    page.put(part(line, 0, 1));
    page.put(b", mapping ");
    page.put(part(line, 0, 2));
    put_kind(page, s.first);
    put_origin(page, is_told);
    page.put(&VERSION);
}

// Puts the page that is said, the last line and the texts of a picture on a sheet.
pub fn put_texts(
    page: &mut Sheet,
    line: &[u8],
    o: Outcome,
    facts: &facts::Facts,
    sums: &Sums,
) -> Texts {
    let i = o.input;
    let quality = frame_quality(sums);
    put_page(page, o.frame, facts, sums, has(line, b"all"));
    let from = page.at;
    put_last(page, o.frame, facts, quality, i.turn);
    let words = page.at;
    put_input(page, part(line, 0, 4), i);
    let input = page.at;
    put_setting(page, line, o.reading, i.turn < NOT_TOLD);
    let setting = page.at;
    put_words(page, quality);
    Texts {
        from,
        words,
        input,
        setting,
        quality: page.at,
    }
}

// What the picture is of.
fn drawn(f: Frame, is_aside: bool) -> Facts {
    let table = f.table;
    Facts {
        table,
        steps: f.steps,
        strained: f.strained,
        outside: f.outside,
        is_aside,
    }
}

// What valid slot k lacks.
fn lack_of(known: &facts::Facts, k: usize) -> Option<Lack>
    requires { k < frame_slots }
{
    if known.apart[k] > 0 {
        return Some(Lack::NotBest);
    }
    match known.firmness[k].lack {
        None => None,
        Some(bench_firm::Lack::Noisy) => Some(Lack::Noisy),
        Some(bench_firm::Lack::Disturbed) => Some(Lack::Disturbed),
        Some(bench_firm::Lack::Weak) => Some(Lack::Weak),
    }
}

// What the bars show.
fn rows_of(known: &facts::Facts, sums: &Sums) -> Rows {
    let mut levels = [Level {
        strength: 0,
        lack: None,
        need: None,
    }; SLOTS];
    let mut ratios = [None; SLOTS];
    for k in 0..SLOTS {
        levels[k] = Level {
            strength: known.strength[k],
            lack: lack_of(known, k),
            need: known.firmness[k].need,
        };
        ratios[k] = slot_quality(sums, k).map(|q| q.ratio);
    }
    Rows {
        levels,
        strained: known.strained,
        ratios,
        outside: known.outside,
    }
}

// Whether the gain or the turn of points is off.
fn is_off(quality: Option<Quality>) -> bool {
    match quality {
        Some(q) => is_aside(q),
        None => false,
    }
}

// Draws the upper part of the picture on a sheet. Its texts are those of a page.
pub fn draw_upper(
    sheet: &mut Sheet,
    page: &Sheet,
    t: Texts,
    f: Frame,
    known: &facts::Facts,
    sums: &Sums,
) {
    let lines = Lines {
        words: page.between(t.from, t.words),
        name: page.between(t.words, t.input),
        setting: page.between(t.input, t.setting),
        quality: page.between(t.setting, t.quality),
    };
    let drawn = drawn(f, is_off(frame_quality(sums)));
    draw_head(sheet, lines, drawn, &rows_of(known, sums));
}
