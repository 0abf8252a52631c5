// What a reading is worth: judged by its points, laid beside the best reading, and held to the rule of firmness.
#![tactic(auto)]

use bench_calls::reading::{best_of, clean_leads};
use bench_calls::strength::strengths;
use bench_compare::differing;
use bench_firm::lacks;
use bench_line::space::LOAD_SPACE;
use bench_line::words::front;
use bench_quality::Sums;
use bench_setting::choice::Reading;
use bench_verdict::facts::{Apart, Facts, Frame};
use isdbs_core::frame::{MAIN_SYMBOLS, SLOTS};
use judge::judge;
use quality::quality;
use refusal::Refusal;

// The sums of the points beside those of the bytes.
fn measure(
    s: Reading,
    bytes: &[u8],
    re: &[f64; MAIN_SYMBOLS],
    im: &[f64; MAIN_SYMBOLS],
    sums: &mut Sums,
) -> Result<(), Refusal> {
    let t = s.table;
    let m = s.mapping;
    quality(re, im, t, m, s.first, bytes, sums)
}

// The strength of each slot by its lead, the clean leads being those of the best reading's bytes.
fn set_strengths(
    s: Reading,
    best: &[u8],
    leads: &[u64; SLOTS],
    facts: &mut Facts,
) -> Result<(), Refusal> {
    let mut clean = [0u64; SLOTS];
    clean_leads(s, best, &mut clean)?;
    strengths(leads, &clean, &mut facts.strength);
    Ok(())
}

// The best reading of the points, the strength of each slot, and in which of the v valid slots its bytes are others.
fn best_beside(
    s: Reading,
    v: usize,
    bytes: &[u8],
    re: &[f64; MAIN_SYMBOLS],
    im: &[f64; MAIN_SYMBOLS],
    best: &mut [u8; LOAD_SPACE],
    facts: &mut Facts,
) -> Result<(), Refusal> {
    let mut leads = [0u64; SLOTS];
    best_of(s, MAIN_SYMBOLS, re, im, best, &mut leads)?;
    let found = front(best, bytes.len());
    differing(s.table, v, found, bytes, &mut facts.apart);
    set_strengths(s, found, &leads, facts)
}

// The first byte of which the best reading has another.
fn first_apart(bytes: &[u8], best: &[u8]) -> Option<Apart> {
    for (at, (&read, &best)) in bytes.iter().zip(best).enumerate() {
        if read != best {
            return Some(Apart { at, read, best });
        }
    }
    None
}

// Lays the bytes beside the best reading and the points.
fn lay_beside(
    s: Reading,
    f: Frame,
    bytes: &[u8],
    re: &[f64; MAIN_SYMBOLS],
    im: &[f64; MAIN_SYMBOLS],
    best: &mut [u8; LOAD_SPACE],
    facts: &mut Facts,
    sums: &mut Sums,
) -> Result<(), Refusal> {
    best_beside(s, f.valid, bytes, re, im, best, facts)?;
    measure(s, bytes, re, im, sums)?;
    facts.firmness = lacks(f.table, f.valid, sums, &facts.strength);
    Ok(())
}

// Judges the bytes by the points, and sets their row of points outside the margins; then how many these are.
fn judge_bytes(
    s: Reading,
    bytes: &[u8],
    re: &[f64; MAIN_SYMBOLS],
    im: &[f64; MAIN_SYMBOLS],
    facts: &mut Facts,
) -> Result<u32, Refusal> {
    let t = s.table;
    let m = s.mapping;
    judge(re, im, t, m, s.first, bytes, &mut facts.outside)
}

// Weighs the bytes that were read of a whole frame: its best reading, and what is known of each slot, are set; gives the frame with what was found of it.
pub fn weigh_over(
    s: Reading,
    f: Frame,
    bytes: &[u8],
    re: &[f64; MAIN_SYMBOLS],
    im: &[f64; MAIN_SYMBOLS],
    best: &mut [u8; LOAD_SPACE],
    facts: &mut Facts,
    sums: &mut Sums,
) -> Result<Frame, Refusal> {
    let outside = judge_bytes(s, bytes, re, im, facts)?;
    lay_beside(s, f, bytes, re, im, best, facts, sums)?;
    let apart = first_apart(bytes, front(best, bytes.len()));
    Ok(Frame {
        outside,
        apart,
        ..f
    })
}

// A frame as it was decoded: its valid slots, bytes, steps and strained steps.
pub fn decoded(s: Reading, valid: usize, size: usize, steps: usize, strained: u32) -> Frame {
    Frame {
        table: s.table,
        valid,
        size,
        steps,
        strained,
        outside: 0,
        apart: None,
    }
}
