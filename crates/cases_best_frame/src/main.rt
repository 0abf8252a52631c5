// `best_reading` on frames of six tables: clean, from a known (case 1) and from an unknown start (2); with noise all over (3); with more noise in one stretch of symbols (4, 5). Of each are shown how many of
// its bytes are read wrong, how many `decode_frame` reads otherwise, and the least, the greatest and the last lead, in whole units of a metric. Then rows 1, 6, 8 and 9.
#![tactic(auto)]

use best_frame::best_reading;
use cases_frames::{load_bytes, mapping_of, show_table, table_of};
use cases_lib::{alike, bytes_of, draw, least, row, show, step, text, words_of};
use isdbs_core::frame::{FRAME_BITS, LOAD_BYTES, MAIN_SYMBOLS, SLOTS};
use isdbs_phy::demod::{DemodOptions, decode_frame, encode_frame};
use trellis::FRAME_WORDS;

// Each combination alone but QPSK 2/3, 3/4 and 5/6; four in all slots; one twice.
const TABLES: [u64; 6] = [
    0x3006,
    0x3007,
    0x3002,
    0x3001,
    0x0801_0c05_0806_1407,
    0x0c02_0d07_0c01_0b07,
];

// The most steps of a frame, and the metrics of so many.
const STEPS: usize = 68208;

const METRICS: usize = 272832;

const TABLE_WORDS: usize = 3072;

// What is read: the case's number, the table, the way (mapping and kind of frame), whether the start is known, and the scale.
#[derive(Clone, Copy)]
struct Case {
    how: usize,
    table: u64,
    way: u64,
    known: bool,
    scale: f32,
}

fn case_of(how: usize, table: u64, way: u64, known: bool) -> Case {
    Case {
        how,
        table,
        way,
        known,
        scale: 8.0,
    }
}

fn options(c: Case) -> DemodOptions {
    DemodOptions {
        mapping: mapping_of(c.way),
        known_start: c.known,
        scales: [c.scale; 7],
    }
}

fn is_first(way: u64) -> bool {
    way / 8 % 2 == 1
}

fn read_best(
    c: Case,
    re: &[f64],
    im: &[f64],
    metrics: &mut [f32; METRICS],
    sides: &mut [u8; STEPS],
    words: &mut [u64; STEPS],
    tables: &mut [u64],
    bits: &mut [u8; STEPS],
    uncoded: &mut [u8; STEPS],
    bytes: &mut [u8; LOAD_BYTES],
    leads: &mut [u64],
) -> usize {
    let a = best_reading(
        re,
        im,
        table_of(c.table),
        is_first(c.way),
        options(c),
        metrics,
        sides,
        words,
        tables,
        bits,
        uncoded,
        bytes,
        leads,
    );
    row(a)
}

fn read_plain(
    c: Case,
    re: &[f64; MAIN_SYMBOLS],
    im: &[f64; MAIN_SYMBOLS],
    decisions: &mut [u64; FRAME_WORDS],
    bits: &mut [u8; FRAME_BITS],
    bytes: &mut [u8; LOAD_BYTES],
) -> usize {
    let mut counts = [0u32; SLOTS];
    let r = decode_frame(
        re,
        im,
        table_of(c.table),
        is_first(c.way),
        options(c),
        decisions,
        bits,
        bytes,
        &mut counts,
    );
    match r {
        Ok(_) => 0,
        Err(a) => row(Err(a)),
    }
}

// ---- noise

// A part between -1 and 1, the mean of two draws.
fn drawn(x: u64) -> f64 {
    let a = (x / 0x1_0000_0000) as u32;
    let b = (x % 0x1_0000_0000) as u32;
    a as f64 / 4294967296.0 + b as f64 / 4294967296.0 - 1.0
}

// Noise of a size on the symbols from a place up to another.
fn damage(
    re: &mut [f64; MAIN_SYMBOLS],
    im: &mut [f64; MAIN_SYMBOLS],
    from: usize,
    to: usize,
    size: f64,
    seed: u64,
) {
    let end = least(to, MAIN_SYMBOLS);
    let mut x = seed;
    for k in from..end {
        x = step(x);
        re[k] = re[k] + size * drawn(x);
        x = step(x);
        im[k] = im[k] + size * drawn(x);
    }
}

// ---- what is shown

// The least and the greatest of the leads but the last.
#[derive(Clone, Copy)]
struct Ends {
    low: u64,
    high: u64,
    last: u64,
}

fn ends_of(leads: &[u64; SLOTS], slots: usize) -> Ends {
    let end = least(slots, SLOTS);
    let mut low: u64 = 0xffff_ffff_ffff_ffff;
    let mut high: u64 = 0;
    let mut last: u64 = 0;
    for k in 0..end {
        let d = leads[k];
        last = d;
        if k + 1 < end {
            low = if d < low { d } else { low };
            high = if d > high { d } else { high };
        }
    }
    Ends { low, high, last }
}

// A lead in whole units of a metric, and its tenths.
fn units(d: u64) -> usize {
    (d / 1048576) as usize
}

fn tenths(d: u64) -> usize {
    (d % 1048576 * 10 / 1048576) as usize
}

fn show_leads(e: Ends) {
    let found = [
        units(e.low),
        tenths(e.low),
        units(e.high),
        tenths(e.high),
        units(e.last),
        tenths(e.last),
    ];
    show(b"; leads #.# to #.#, last #.#\n", &found);
}

// ---- one reading of each kind

fn shown(
    c: Case,
    best: usize,
    other: usize,
    load: &[u8; LOAD_BYTES],
    bytes: &[u8; LOAD_BYTES],
    plain: &[u8; LOAD_BYTES],
    leads: &[u64; SLOTS],
) {
    let n = load_bytes(c.table);
    let right = alike(load, 0, bytes, n);
    let same = alike(plain, 0, bytes, n);
    let found = [c.how, best, other, n - right, n, n - same];
    show(
        b"  case #: answers # and #, # of # bytes wrong, # read otherwise",
        &found,
    );
    show_leads(ends_of(leads, n / 203));
}

// The pseudo-random load of a case.
fn seed_of(c: Case) -> u64 {
    0x9e37_79b9 + c.way % 64
}

fn both(
    c: Case,
    re: &[f64; MAIN_SYMBOLS],
    im: &[f64; MAIN_SYMBOLS],
    metrics: &mut [f32; METRICS],
    sides: &mut [u8; STEPS],
    words: &mut [u64; STEPS],
    bits: &mut [u8; STEPS],
    uncoded: &mut [u8; STEPS],
) {
    let mut decisions = [0u64; FRAME_WORDS];
    let mut kept = [0u8; FRAME_BITS];
    let mut tables = [0u64; TABLE_WORDS];
    let mut bytes = [0u8; LOAD_BYTES];
    let mut plain = [0u8; LOAD_BYTES];
    let mut leads = [0u64; SLOTS];
    let mut load = [0u8; LOAD_BYTES];
    draw(&mut load, load_bytes(c.table), seed_of(c));
    let a = read_best(
        c,
        re,
        im,
        metrics,
        sides,
        words,
        &mut tables,
        bits,
        uncoded,
        &mut bytes,
        &mut leads,
    );
    let b = read_plain(c, re, im, &mut decisions, &mut kept, &mut plain);
    shown(c, a, b, &load, &bytes, &plain, &leads);
}

// The frames of a table: clean, from an unknown start, with noise all over, with noise in one stretch.
fn one_table(
    c: Case,
    re: &mut [f64; MAIN_SYMBOLS],
    im: &mut [f64; MAIN_SYMBOLS],
    metrics: &mut [f32; METRICS],
    sides: &mut [u8; STEPS],
    words: &mut [u64; STEPS],
    bits: &mut [u8; STEPS],
    uncoded: &mut [u8; STEPS],
) {
    let table = c.table;
    let way = c.way;
    show_table(table);
    text(b"\n");
    make(c, re, im);
    both(c, re, im, metrics, sides, words, bits, uncoded);
    let unknown = case_of(2, table, way, false);
    both(unknown, re, im, metrics, sides, words, bits, uncoded);
    damage(re, im, 0, MAIN_SYMBOLS, noise_of(table), 77);
    let noisy = case_of(3, table, way, true);
    both(noisy, re, im, metrics, sides, words, bits, uncoded);
    damage(re, im, 9000, 12000, 2.0, 78);
    let torn = case_of(4, table, way, true);
    both(torn, re, im, metrics, sides, words, bits, uncoded);
    let lost = case_of(5, table, way, false);
    both(lost, re, im, metrics, sides, words, bits, uncoded);
}

// Noise that a table's weakest combination stands.
fn noise_of(table: u64) -> f64 {
    match table {
        0x3001 => 1.5,
        0x3002 => 1.0,
        _ => 0.5,
    }
}

fn make(c: Case, re: &mut [f64; MAIN_SYMBOLS], im: &mut [f64; MAIN_SYMBOLS]) {
    let mut load = [0u8; LOAD_BYTES];
    draw(&mut load, load_bytes(c.table), seed_of(c));
    let _ = encode_frame(
        &load,
        table_of(c.table),
        is_first(c.way),
        mapping_of(c.way),
        re,
        im,
    );
}

fn all_tables(
    re: &mut [f64; MAIN_SYMBOLS],
    im: &mut [f64; MAIN_SYMBOLS],
    metrics: &mut [f32; METRICS],
    sides: &mut [u8; STEPS],
    words: &mut [u64; STEPS],
    bits: &mut [u8; STEPS],
    uncoded: &mut [u8; STEPS],
) {
    let tables = TABLES;
    for k in 0..6usize {
        one_table(
            case_of(1, tables[k], 3 * k as u64 + 1, true),
            re,
            im,
            metrics,
            sides,
            words,
            bits,
            uncoded,
        );
    }
}

// ---- rows

// The first n parts, or none where there are fewer.
fn front_parts<'a>(s: &'a [f64], n: usize) -> &'a [f64] {
    if n <= s.len() { &s[0..n] } else { &s[0..0] }
}

// What is lent in each case: the table, the points, whether the scale is 0, the places of the tables and of the leads.
#[derive(Clone, Copy)]
struct Lent {
    table: u64,
    points: usize,
    silent: bool,
    few: usize,
    places: usize,
}

// A reading with the first points of the one part, the first places of the tables and of the leads.
fn read_front(
    l: Lent,
    re: &[f64; MAIN_SYMBOLS],
    im: &[f64; MAIN_SYMBOLS],
    metrics: &mut [f32; METRICS],
    sides: &mut [u8; STEPS],
    words: &mut [u64; STEPS],
    tables: &mut [u64],
    bits: &mut [u8; STEPS],
    uncoded: &mut [u8; STEPS],
    bytes: &mut [u8; LOAD_BYTES],
    leads: &mut [u64],
) -> usize {
    let c = Case {
        how: 0,
        table: l.table,
        way: 4,
        known: true,
        scale: if l.silent { 0.0 } else { 8.0 },
    };
    let a = least(l.few, tables.len());
    let b = least(l.places, leads.len());
    read_best(
        c,
        front_parts(re, l.points),
        im,
        metrics,
        sides,
        words,
        &mut tables[0..a],
        bits,
        uncoded,
        bytes,
        &mut leads[0..b],
    )
}

// How many bytes are 7.
fn kept(bytes: &[u8; LOAD_BYTES]) -> usize {
    bytes_of(bytes, 0, LOAD_BYTES, 7)
}

// Refused: a table of 49 slots, 38,975 points, a scale of 0, a word too few for the tables, a place too few for the leads. All is lent as 7s, and so it stays.
fn one_row(
    l: Lent,
    re: &[f64; MAIN_SYMBOLS],
    im: &[f64; MAIN_SYMBOLS],
    metrics: &mut [f32; METRICS],
    sides: &mut [u8; STEPS],
    words: &mut [u64; STEPS],
    bits: &mut [u8; STEPS],
    uncoded: &mut [u8; STEPS],
) {
    let mut tables = [7u64; TABLE_WORDS];
    let mut bytes = [7u8; LOAD_BYTES];
    let mut leads = [7u64; SLOTS];
    let a = read_front(
        l,
        re,
        im,
        metrics,
        sides,
        words,
        &mut tables,
        bits,
        uncoded,
        &mut bytes,
        &mut leads,
    );
    let found = [
        a,
        words_of(&tables, 0, TABLE_WORDS, 7),
        kept(&bytes),
        words_of(&leads, 0, SLOTS, 7),
    ];
    show(b"row #: # words, # bytes and # leads as lent\n", &found);
}

fn lent_in(i: usize) -> Lent {
    Lent {
        table: if i == 0 { 0x3107 } else { 0x3007 },
        points: if i == 1 { 38975 } else { MAIN_SYMBOLS },
        silent: i == 2,
        few: if i == 3 { 3071 } else { TABLE_WORDS },
        places: if i == 4 { 47 } else { SLOTS },
    }
}

fn rows(
    re: &[f64; MAIN_SYMBOLS],
    im: &[f64; MAIN_SYMBOLS],
    metrics: &mut [f32; METRICS],
    sides: &mut [u8; STEPS],
    words: &mut [u64; STEPS],
    bits: &mut [u8; STEPS],
    uncoded: &mut [u8; STEPS],
) {
    one_row(lent_in(0), re, im, metrics, sides, words, bits, uncoded);
    one_row(lent_in(1), re, im, metrics, sides, words, bits, uncoded);
    one_row(lent_in(2), re, im, metrics, sides, words, bits, uncoded);
    one_row(lent_in(3), re, im, metrics, sides, words, bits, uncoded);
    one_row(lent_in(4), re, im, metrics, sides, words, bits, uncoded);
}

fn more(
    metrics: &mut [f32; METRICS],
    words: &mut [u64; STEPS],
    re: &mut [f64; MAIN_SYMBOLS],
    im: &mut [f64; MAIN_SYMBOLS],
) {
    let mut sides = [0u8; STEPS];
    let mut bits = [0u8; STEPS];
    let mut uncoded = [0u8; STEPS];
    all_tables(re, im, metrics, &mut sides, words, &mut bits, &mut uncoded);
    rows(re, im, metrics, &mut sides, words, &mut bits, &mut uncoded);
}

fn main() {
    let mut metrics = [0.0f32; METRICS];
    let mut words = [0u64; STEPS];
    let mut re = [0.0f64; MAIN_SYMBOLS];
    let mut im = [0.0f64; MAIN_SYMBOLS];
    more(&mut metrics, &mut words, &mut re, &mut im);
}
