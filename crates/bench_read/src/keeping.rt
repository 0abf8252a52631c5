// What is said of a reading, and what is kept of it.
use bench_json::put_object;
use bench_line::space::LOAD_SPACE;
use bench_line::words::front;
use bench_outputs::keep;
use bench_pages::{Texts, draw_upper, put_texts};
use bench_picture::draw_reading;
use bench_quality::{Sums, frame_mean, frame_quality, is_aside};
use bench_report::page::{Outcome, put_report};
use bench_setting::choice::has;
use bench_verdict::facts::Facts;
use bench_words::text::text;
use isdbs_core::frame::MAIN_SYMBOLS;
use picture_chart::{Chart, Mean};
use picture_sheet::{SHEET_BYTES, Sheet};

// Whether what was put on a sheet fits on it; else says that it does not.
fn fits(sheet: &Sheet) -> bool {
    if sheet.at <= SHEET_BYTES {
        return true;
    }
    text(b"failed: the report or the picture is too large\n");
    false
}

// Keeps the bytes, the best reading's bytes, the picture, the report that ends at a place of the texts and the object after it.
fn keep_all(
    rt: &HostRuntime,
    texts: &Sheet,
    report: usize,
    sheet: &Sheet,
    line: &[u8],
    bytes: &[u8],
    best: &[u8; LOAD_SPACE],
) -> bool {
    if !fits(sheet) || !fits(texts) {
        return false;
    }
    keep(
        rt,
        line,
        bytes,
        front(best, bytes.len()),
        sheet.between(0, sheet.at),
        texts.between(0, report),
        texts.between(report, texts.at),
    )
}

// The mean by which the points are shown after alignment, where their gain or turn is off.
fn aside_of(sums: &Sums) -> Option<Mean> {
    match frame_quality(sums) {
        Some(q) if is_aside(q) => {
            let mean = frame_mean(sums);
            Some(Mean {
                re: mean.re,
                im: mean.im,
            })
        }
        _ => None,
    }
}

// Draws the picture where it is asked for; answers whether it is whole, else says why not.
fn draw(
    sheet: &mut Sheet,
    page: &Sheet,
    t: Texts,
    o: Outcome,
    line: &[u8],
    bytes: &[u8],
    facts: &Facts,
    sums: &Sums,
    re: &[f64; MAIN_SYMBOLS],
    im: &[f64; MAIN_SYMBOLS],
) -> bool {
    if !has(line, b"chart") {
        return true;
    }
    draw_upper(sheet, page, t, o.frame, facts, sums);
    let chart = Chart {
        table: o.reading.table,
        aside: aside_of(sums),
    };
    draw_reading(sheet, o.reading, chart, bytes, re, im)
}

// Puts the page, the picture, the report and the object on sheets; says the page and the last line after it, and keeps everything in between.
pub fn conclude(
    rt: &HostRuntime,
    o: Outcome,
    line: &[u8],
    bytes: &[u8],
    best: &[u8; LOAD_SPACE],
    facts: &Facts,
    sums: &Sums,
    re: &[f64; MAIN_SYMBOLS],
    im: &[f64; MAIN_SYMBOLS],
) {
    let mut page = Sheet {
        bytes: [0u8; SHEET_BYTES],
        at: 0,
    };
    let mut sheet = Sheet {
        bytes: [0u8; SHEET_BYTES],
        at: 0,
    };
    let mut texts = Sheet {
        bytes: [0u8; SHEET_BYTES],
        at: 0,
    };
    let t = put_texts(&mut page, line, o, facts, sums);
    let is_drawn = draw(&mut sheet, &page, t, o, line, bytes, facts, sums, re, im);
    let last = page.between(t.from, t.words);
    put_report(&mut texts, line, o, facts, sums, last);
    let report = texts.at;
    put_object(&mut texts, line, o, facts, sums, last);
    text(page.between(0, t.from));
    if is_drawn && keep_all(rt, &texts, report, &sheet, line, bytes, best) {
        text(last);
        text(b"\n");
    }
}
