// `read_frame` on 25 frames at the ends of the margins: every combination alone and mixed, words that stand for no combination, the empty table, all
// mappings, both kinds of frame. Each part of each point lies at one end or the other of its margin, as the generator draws; a free part, which may have any accepted value,
// is 65,536 or -65,536. Free are the imaginary parts of BPSK and both parts of the points outside every run. The slices are ten points longer than a frame, and these hold
// 100,000, more than a part of a frame may be. A line for each frame shows its table as WORDxSLOTS, how many bytes of the load come back, and how many parts are free: one for each
// symbol of BPSK, and two for each of the 38,976 that is in no run, a slot of a run being 812 symbols.
#![tactic(auto)]

ghost use Rattle.std.specs.Prelude.{◌≤◌, ◌<◌};

use cases_frames::{TABLES, load_bytes, mapping_of, margin_end, show_table, table_of};
use cases_lib::{alike, draw, front, one, row, show, show_one, step, text};
use isdbs_core::combination::Combination;
use isdbs_core::frame::{FRAME_BITS, LOAD_BYTES, MAIN_SYMBOLS, SLOTS};
use isdbs_core::slots::{Run, runs};
use isdbs_phy::demod::{FrameDecoded, encode_frame};
use refusal::Refusal;
use trellis::FRAME_WORDS;

// Table k: those that each program goes through, and the empty table. Frame k has the mapping k % 8.
fn table(k: usize) -> u64
    requires { k < 25 }
{
    let tables = TABLES;
    if k < 24 {
        tables[k]
    } else {
        0x000f_000f_000f_000f
    }
}

// The kind of frame k: both kinds with each mapping.
fn is_first(k: u64) -> bool {
    k % 2 == k / 8 % 2
}

// An end of the margin of a clean part.
fn moved(clean: f64, draw: u64) -> f64 {
    let upper = draw >> 63 == 1;
    if clean < 0.0 {
        return -margin_end(-clean, upper);
    }
    margin_end(clean, upper)
}

// The symbols of BPSK, from `from` up to but not including `to`.
#[derive(Clone, Copy)]
struct Symbols {
    from: usize,
    to: usize,
}

// The symbols of the run if it is BPSK's and has any, else those found before.
fn bpsk_run(before: Symbols, run: Run) -> Symbols {
    let c = run.combination;
    if run.symbol_start >= run.symbol_end {
        return before;
    }
    match c {
        Combination::Bpsk1_2 => Symbols {
            from: run.symbol_start,
            to: run.symbol_end,
        },
        _ => before,
    }
}

// The symbols of BPSK in a table, in which it stands once at most.
fn bpsk_symbols(table: u64) -> Symbols {
    let none = Symbols { from: 0, to: 0 };
    let Ok(all) = runs(table_of(table)) else {
        return none;
    };
    let rs = all.runs;
    let a = bpsk_run(none, rs[0]);
    let b = bpsk_run(a, rs[1]);
    let c = bpsk_run(b, rs[2]);
    bpsk_run(c, rs[3])
}

// The part received for a clean one.
fn part(clean: f64, free: bool, draw: u64) -> f64 {
    if free {
        return if draw >> 63 == 1 { 65536.0 } else { -65536.0 };
    }
    moved(clean, draw)
}

// Whether a point is outside every run: none within is (0, 0).
fn is_outside(re: f64, im: f64) -> bool {
    (re == 0.0) & (im == 0.0)
}

// Whether the imaginary part of symbol k is free.
fn is_free(outside: bool, k: usize, bpsk: Symbols) -> bool {
    outside | ((bpsk.from <= k) & (k < bpsk.to))
}

// Moves every part of the clean points to an end of its margin. How many parts are free.
fn receive(re: &mut [f64; 38986], im: &mut [f64; 38986], bpsk: Symbols, seed: u64) -> usize {
    let mut x = seed;
    let mut n: usize = 0;
    for k in 0..MAIN_SYMBOLS {
        let outside = is_outside(re[k], im[k]);
        let free = is_free(outside, k, bpsk);
        x = step(x);
        re[k] = part(re[k], outside, x);
        x = step(x);
        im[k] = part(im[k], free, x);
        n += one(outside) + one(free);
    }
    n
}

// The clean frame of the first `count` bytes: the number of its answer.
fn clean(
    k: u64,
    table: u64,
    bytes: &[u8],
    count: usize,
    re: &mut [f64; 38986],
    im: &mut [f64; 38986],
) -> usize {
    let t = table_of(table);
    let m = mapping_of(k);
    row(encode_frame(front(bytes, count), t, is_first(k), m, re, im))
}

// What is read.
fn read(
    k: u64,
    table: u64,
    re: &[f64; 38986],
    im: &[f64; 38986],
    decisions: &mut [u64; FRAME_WORDS],
    bits: &mut [u8; FRAME_BITS],
    bytes: &mut [u8; LOAD_BYTES],
) -> Result<FrameDecoded, Refusal> {
    let t = table_of(table);
    let m = mapping_of(k);
    let first = is_first(k);
    let mut counts = [7u32; SLOTS];
    exact_frame::read_frame(re, im, t, first, m, decisions, bits, bytes, &mut counts)
}

// Whether the answer is that of a load of so many bytes, without strain.
fn told(r: Result<FrameDecoded, Refusal>, count: usize) -> bool {
    match r {
        Ok(f) => (f.bytes == count) & (f.strained == 0),
        Err(_) => false,
    }
}

// Makes the load and the received points of frame k. How many received parts are free; 99,999 where the load is not encoded.
fn make(
    k: u64,
    table: u64,
    count: usize,
    re: &mut [f64; 38986],
    im: &mut [f64; 38986],
    load: &mut [u8; LOAD_BYTES],
) -> usize {
    let seed = step(k ^ 0x9e37_79b9_7f4a_7c15);
    draw(load, count, seed);
    let answer = clean(k, table, load, count, re, im);
    let free = receive(re, im, bpsk_symbols(table), seed ^ 0x5555_5555_5555_5555);
    if answer == 0 { free } else { 99999 }
}

// Lends words that are not 0, another one at each place.
fn soil(decisions: &mut [u64; FRAME_WORDS], seed: u64) {
    let mut x = seed;
    for word in decisions {
        x = step(x);
        *word = x;
    }
}

// How many bytes of the load of frame k come back: none where the answer is not that of a full load without strain.
fn read_back(
    k: u64,
    table: u64,
    count: usize,
    re: &[f64; 38986],
    im: &[f64; 38986],
    load: &[u8; LOAD_BYTES],
) -> usize {
    let mut decisions = [0u64; FRAME_WORDS];
    let mut bits = [0u8; FRAME_BITS];
    let mut bytes = [0u8; LOAD_BYTES];
    soil(&mut decisions, k ^ 0x9e37_79b9_7f4a_7c15);
    let r = read(k, table, re, im, &mut decisions, &mut bits, &mut bytes);
    if told(r, count) {
        return alike(load, 0, &bytes, count);
    }
    99999
}

fn show_frame(k: u64, table: u64, agree: usize, count: usize, free: usize) {
    show_table(table);
    let found = [(k % 8) as usize, agree, count, free];
    if is_first(k) {
        show(
            b" mapping # kind first: # of # bytes agree, # parts free\n",
            &found,
        );
    } else {
        show(
            b" mapping # kind other: # of # bytes agree, # parts free\n",
            &found,
        );
    }
}

// Whether the whole load of frame k comes back.
fn passes(k: u64, table: u64) -> bool {
    let mut re = [100000.0f64; 38986];
    let mut im = [100000.0f64; 38986];
    let mut load = [0u8; LOAD_BYTES];
    let count = load_bytes(table);
    let free = make(k, table, count, &mut re, &mut im, &mut load);
    let agree = read_back(k, table, count, &re, &im, &load);
    show_frame(k, table, agree, count, free);
    (agree == count) & (free != 99999)
}

// How many frames pass.
fn passing() -> usize
    ensures { result ≤ 25 }
{
    let mut n: usize = 0;
    for k in 0..25usize {
        n += one(passes(k as u64, table(k)));
    }
    n
}

fn main() {
    let n = passing();
    if n == 25 {
        text(b"25 frames, all bytes agree, no step is strained\n");
    } else {
        show_one(b"# of 25 frames differ\n", 25 - n);
    }
}
