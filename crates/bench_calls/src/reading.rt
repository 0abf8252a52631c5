// The calls on the points of a frame, each on space of its own.
use bench_line::space::{BIT_SPACE, LOAD_SPACE};
use bench_line::words::front;
use bench_setting::choice::Reading;
use best_frame::best_reading;
use isdbs_core::frame::{MAIN_SYMBOLS, SLOTS};
use isdbs_phy::demod::{DemodOptions, FrameDecoded, decode_frame, encode_frame};
use refusal::Refusal;
use trellis::{FRAME_WORDS, STATES};

// Four metrics for each step.
const METRIC_SPACE: usize = 4 * BIT_SPACE;
// A number for each state at the start of each slot.
const TABLE_SPACE: usize = STATES * SLOTS;

fn options(s: Reading) -> DemodOptions {
    let mapping = s.mapping;
    let scales = s.scales;
    DemodOptions {
        mapping,
        known_start: s.known_start,
        scales,
    }
}

// The best reading of the first n points, over lent scratch.
fn best_over(
    s: Reading,
    n: usize,
    re: &[f64; MAIN_SYMBOLS],
    im: &[f64; MAIN_SYMBOLS],
    metrics: &mut [f32; METRIC_SPACE],
    sides: &mut [u8; BIT_SPACE],
    words: &mut [u64; BIT_SPACE],
    tables: &mut [u64; TABLE_SPACE],
    bits: &mut [u8; BIT_SPACE],
    uncoded: &mut [u8; BIT_SPACE],
    bytes: &mut [u8; LOAD_SPACE],
    leads: &mut [u64; SLOTS],
) -> Result<(), Refusal> {
    let t = s.table;
    let o = options(s);
    best_reading(
        front(re, n),
        front(im, n),
        t,
        s.first,
        o,
        metrics,
        sides,
        words,
        tables,
        bits,
        uncoded,
        bytes,
        leads,
    )
}

// The best reading of the first n points, and its lead in each valid slot.
pub fn best_of(
    s: Reading,
    n: usize,
    re: &[f64; MAIN_SYMBOLS],
    im: &[f64; MAIN_SYMBOLS],
    bytes: &mut [u8; LOAD_SPACE],
    leads: &mut [u64; SLOTS],
) -> Result<(), Refusal> {
    let mut metrics = [0.0f32; METRIC_SPACE];
    let mut sides = [0u8; BIT_SPACE];
    let mut words = [0u64; BIT_SPACE];
    let mut tables = [0u64; TABLE_SPACE];
    let mut bits = [0u8; BIT_SPACE];
    let mut uncoded = [0u8; BIT_SPACE];
    best_over(
        s,
        n,
        re,
        im,
        &mut metrics,
        &mut sides,
        &mut words,
        &mut tables,
        &mut bits,
        &mut uncoded,
        bytes,
        leads,
    )
}

// The leads in the clean frame of a load, over a lent frame.
fn clean_over(
    s: Reading,
    load: &[u8],
    re: &mut [f64; MAIN_SYMBOLS],
    im: &mut [f64; MAIN_SYMBOLS],
    bytes: &mut [u8; LOAD_SPACE],
    leads: &mut [u64; SLOTS],
) -> Result<(), Refusal> {
    let t = s.table;
    let m = s.mapping;
    encode_frame(load, t, s.first, m, re, im)?;
    best_of(s, MAIN_SYMBOLS, re, im, bytes, leads)
}

// The leads in the clean frame of a load, read in the same way.
pub fn clean_leads(s: Reading, load: &[u8], leads: &mut [u64; SLOTS]) -> Result<(), Refusal> {
    let mut re = [0.0f64; MAIN_SYMBOLS];
    let mut im = [0.0f64; MAIN_SYMBOLS];
    let mut bytes = [0u8; LOAD_SPACE];
    clean_over(s, load, &mut re, &mut im, &mut bytes, leads)
}

// What read gives of the first n points, over lent scratch.
fn read_over(
    s: Reading,
    n: usize,
    re: &[f64; MAIN_SYMBOLS],
    im: &[f64; MAIN_SYMBOLS],
    decisions: &mut [u64; FRAME_WORDS],
    bits: &mut [u8; BIT_SPACE],
    bytes: &mut [u8; LOAD_SPACE],
    counts: &mut [u32; SLOTS],
) -> Result<FrameDecoded, Refusal> {
    let t = s.table;
    let o = options(s);
    decode_frame(
        front(re, n),
        front(im, n),
        t,
        s.first,
        o,
        decisions,
        bits,
        bytes,
        counts,
    )
}

// What read gives of the first n points, with the strained steps of each valid slot.
pub fn read_of(
    s: Reading,
    n: usize,
    re: &[f64; MAIN_SYMBOLS],
    im: &[f64; MAIN_SYMBOLS],
    bytes: &mut [u8; LOAD_SPACE],
    counts: &mut [u32; SLOTS],
) -> Result<FrameDecoded, Refusal> {
    let mut decisions = [0u64; FRAME_WORDS];
    let mut bits = [0u8; BIT_SPACE];
    read_over(s, n, re, im, &mut decisions, &mut bits, bytes, counts)
}
