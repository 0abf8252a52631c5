// The bench program's command read: points of a frame to bytes, with the verdict on them; and to a picture, a report and the best reading's bytes where they are asked for.
#![tactic(auto)]

mod keeping;

use bench_calls::reading::read_of;
use bench_input::{Held, read_points};
use bench_line::space::LOAD_SPACE;
use bench_line::words::front;
use bench_outputs::are_apart;
use bench_quality::NUMBERS;
use bench_report::page::Outcome;
use bench_setting::choice::{Reading, reading_of};
use bench_verdict::facts::{Facts, Frame, facts_of};
use bench_weigh::{decoded, weigh_over};
use bench_words::report;
use bench_words::text::{say, text};
use isdbs_core::frame::{MAIN_SYMBOLS, SLOTS};
use keeping::conclude;

// Whether the reading was by a known start and all scales at 8.
fn is_plain(s: Reading) -> bool {
    s.known_start && s.scales.iter().all(|&scale| scale == 8.0f32)
}

// Reports what was read, and whether the points prove it.
fn tell(s: Reading, f: Frame, facts: &Facts, turn: u8) {
    say(b"decoded: $ trellis steps\n", &[f.steps]);
    bench_verdict::in_all(f.steps, f.strained);
    if !is_plain(s) {
        text(
            b"read by other settings than a known start and all scales at 8; judged are the bytes that they gave\n",
        );
    }
    bench_verdict::tell(
        f.size,
        f.outside,
        &facts.outside,
        f.strained,
        &facts.strained,
        turn,
    );
}

// What was read of held points, and what was found of it.
fn outcome_of(h: Held, frame: Frame) -> Outcome {
    let reading = h.reading;
    let input = h.input;
    Outcome {
        reading,
        input,
        frame,
    }
}

// Weighs what was read, on space of its own; says and keeps it.
fn weigh(
    rt: &HostRuntime,
    h: Held,
    line: &[u8],
    f: Frame,
    bytes: &[u8],
    counts: &[u32; SLOTS],
    re: &[f64; MAIN_SYMBOLS],
    im: &[f64; MAIN_SYMBOLS],
) {
    let s = h.reading;
    let i = h.input;
    let mut best = [0u8; LOAD_SPACE];
    let mut facts = facts_of(*counts);
    let mut sums = [0.0f64; NUMBERS * SLOTS];
    match weigh_over(s, f, bytes, re, im, &mut best, &mut facts, &mut sums) {
        Ok(found) => {
            tell(s, found, &facts, i.turn);
            let outcome = outcome_of(h, found);
            conclude(rt, outcome, line, bytes, &best, &facts, &sums, re, im);
        }
        Err(row) => report::refuse(row),
    }
}

// Decodes the points over lent space for the bytes, and weighs what was read or says why they are refused.
fn decode_over(
    rt: &HostRuntime,
    h: Held,
    v: usize,
    line: &[u8],
    re: &[f64; MAIN_SYMBOLS],
    im: &[f64; MAIN_SYMBOLS],
    bytes: &mut [u8; LOAD_SPACE],
) {
    let s = h.reading;
    let n = h.count;
    let mut counts = [0u32; SLOTS];
    match read_of(s, n, re, im, bytes, &mut counts) {
        Ok(r) => weigh(
            rt,
            h,
            line,
            decoded(s, v, r.bytes, r.steps, r.strained),
            front(bytes, r.bytes),
            &counts,
            re,
            im,
        ),
        Err(row) => report::refuse_reading(row, n, h.over, re, im),
    }
}

// The same, on space of its own.
fn decode_held(
    rt: &HostRuntime,
    h: Held,
    v: usize,
    line: &[u8],
    re: &[f64; MAIN_SYMBOLS],
    im: &[f64; MAIN_SYMBOLS],
) {
    let mut bytes = [0u8; LOAD_SPACE];
    decode_over(rt, h, v, line, re, im, &mut bytes);
}

// Reads the frame, where the outputs can be written.
fn read_frame(rt: &HostRuntime, s: Reading, v: usize, line: &[u8]) {
    if !are_apart(line) {
        return;
    }
    let mut re = [0.0f64; MAIN_SYMBOLS];
    let mut im = [0.0f64; MAIN_SYMBOLS];
    if let Some(h) = read_points(rt, s, line, &mut re, &mut im) {
        decode_held(rt, h, v, line, &re, &im);
    }
}

// bench read TABLE MAPPING KIND FRAME BYTES [unknown] [SCALES] [full] [all] [best BYTES2] [chart FILE] [report FILE] [json FILE]
pub fn read(rt: &HostRuntime, line: &[u8]) {
    let Some(s) = reading_of(line) else {
        return;
    };
    let t = s.table;
    if let Some(v) = report::table(t) {
        read_frame(rt, s, v, line);
    }
}
