// The codes of constraint length 3 to 7 run: the worked cases of length 3, readings of every length beside a search through all paths, and length 7 with 171
// and 133 octal beside the calls of isdb_fec.
#![tactic(auto)]

ghost use Rattle.std.specs.Prelude.{◌+◌, ◌*◌, ◌≤◌, ◌<◌};

use cases_lib::{alike, one, row, show, show_line, show_one, small, wide};
use cases_paths::{floats, has_inputs, larger, scattered, search_all};
use isdb_fec::conv::{ConvEncoder, Released, ViterbiDecoder};
use refusal::Refusal;
use short_best::Start;
use short_fec::Code;
use trellis::FRAME_WORDS;

fn code_of(constraint: u8, g1: u8, g2: u8) -> Code {
    Code { constraint, g1, g2 }
}

// The older modem line.
fn three() -> Code {
    code_of(3, 7, 5)
}

// ---- worked cases of length 3

// The inputs 1, 0, 0 from state 0: the pairs 3, 2, 3, the state 0 and nothing behind them.
fn three_inputs() -> bool {
    let bits = [1u8, 0, 254];
    let mut out = [9u8; 7];
    let enc = ConvEncoder { state: 0 };
    let wanted = [1u8, 1, 1, 0, 1, 1, 9];
    let Ok(after) = short_encode::encode(three(), enc, &bits, &mut out) else {
        return false;
    };
    (alike(&out, 0, &wanted, 7) == 7) & (after.state == 0)
}

// The answer to three inputs from a state, with a place for each bit.
fn encoder_answer(state: u8) -> usize {
    let bits = [1u8, 0, 0];
    let mut out = [9u8; 6];
    let enc = ConvEncoder { state };
    row(short_encode::encode(three(), enc, &bits, &mut out).map(|_| ()))
}

// And with a place too few.
fn five_places() -> usize {
    let bits = [1u8, 0, 0];
    let mut out = [9u8; 5];
    let enc = ConvEncoder { state: 0 };
    row(short_encode::encode(three(), enc, &bits, &mut out).map(|_| ()))
}

// Start 5 is state 1 of four; the values past them are 0.
fn fifth_start() -> bool {
    let Ok(dec) = short_fec::with_state(three(), 128, 5) else {
        return false;
    };
    let pm = dec.pm;
    (pm[0] == -1.0e6)
        & (pm[1] == 0.0)
        & (pm[2] == -1.0e6)
        & (pm[3] == -1.0e6)
        & (pm[4] == 0.0)
        & (pm[63] == 0.0)
}

fn handed(pm: [f32; 64], held: usize, traceback: usize) -> ViterbiDecoder {
    ViterbiDecoder {
        pm,
        held,
        traceback,
    }
}

// An empty push of a decoder.
fn nothing_pushed(code: Code, dec: ViterbiDecoder) -> Result<Released, Refusal> {
    let mut decisions = [0u64; 5120];
    let mut out = [9u8; 4];
    let pairs = [0.0f32; 2];
    short_fec::push(code, dec, &pairs[..0], &mut decisions, &mut out)
}

fn number(r: Result<Released, Refusal>) -> usize {
    row(r.map(|_| ()))
}

// The greatest of the four values is subtracted from them alone.
fn four_values() -> bool {
    let mut pm = [0.0f32; 64];
    pm[0] = -5.0;
    pm[1] = -6.0;
    pm[2] = -7.0;
    pm[3] = -8.0;
    let Ok(r) = nothing_pushed(three(), handed(pm, 0, 128)) else {
        return false;
    };
    let dec = r.dec;
    let q = dec.pm;
    (q[0] == 0.0)
        & (q[1] == -1.0)
        & (q[2] == -2.0)
        & (q[3] == -3.0)
        & (q[4] == 0.0)
        & (q[63] == 0.0)
}

// The answer to an empty push where place k holds no number, and whether it is still there.
fn no_number(k: usize) -> usize
    requires { k < 64 }
{
    let mut pm = [0.0f32; 64];
    pm[k] = 0.0f32 / 0.0f32;
    let before = handed(pm, 0, 128);
    let r = nothing_pushed(three(), before);
    let dec = r.map_or(before, |p| p.dec);
    let q = dec.pm;
    let x = q[k];
    if x == x {
        return 99;
    }
    number(r)
}

// The answer of a fresh decoder of traceback 128.
fn fresh_answer(code: Code) -> usize {
    row(short_fec::new_unknown_state(code, 128).map(|_| ()))
}

// The answer to an empty push of a state that holds so many words.
fn handed_answer(code: Code, held: usize, traceback: usize) -> usize {
    let pm = [0.0f32; 64];
    number(nothing_pushed(code, handed(pm, held, traceback)))
}

// Whether case k holds.
fn holds(k: usize) -> bool {
    match k {
        0 => three_inputs(),
        1 => encoder_answer(3) == 0,
        2 => encoder_answer(4) == 4,
        3 => five_places() == 9,
        4 => fifth_start(),
        5 => four_values(),
        6 => no_number(4) == 0,
        7 => no_number(3) == 4,
        _ => code_holds(k),
    }
}

fn code_holds(k: usize) -> bool {
    match k {
        8 => fresh_answer(code_of(3, 3, 8)) == 12,
        9 => fresh_answer(code_of(3, 4, 3)) == 12,
        10 => fresh_answer(code_of(3, 4, 4)) == 0,
        11 => fresh_answer(code_of(2, 3, 2)) == 12,
        12 => fresh_answer(code_of(255, 255, 255)) == 12,
        13 => handed_answer(code_of(8, 128, 128), 0, 0) == 3,
        14 => handed_answer(code_of(8, 128, 128), FRAME_WORDS, 128) == 12,
        _ => handed_answer(code_of(7, 64, 64), FRAME_WORDS, 128) == 4,
    }
}

fn worked_cases() {
    for k in 0..16usize {
        show_line(
            b"inputs 1, 0, 0 give 3, 2, 3\nencoder state 3\nencoder state 4\nfive places\nstart 5 is state 1\nfour values\nno number at place 4\nno number at place 3\ngenerators 3 and 8\ngenerators 4 and 3\ngenerators 4 and 4\nlength 2\nlength 255\ntraceback 0, length 8\nlength 8, too many held\nlength 7, too many held",
            k + 1,
        );
        show_one(b" @\n", one(holds(k)));
    }
}

// ---- every length beside a search

// Whether the one call reads the inputs.
fn read_once(
    code: Code,
    xs: &[f32; 32],
    start: Start,
    inputs: u32,
    decisions: &mut [u64; FRAME_WORDS],
) -> bool {
    let mut out = [9u8; 8];
    let Ok(count) = short_best::greatest_sum_reading(code, xs, start, decisions, &mut out) else {
        return false;
    };
    (count == 8) & has_inputs(&out, 8, inputs)
}

fn fresh(code: Code, start: Start) -> Result<ViterbiDecoder, Refusal> {
    match start {
        Start::Given(s) => short_fec::with_state(code, 128, s),
        Start::Unknown => short_fec::new_unknown_state(code, 128),
    }
}

// Whether a fresh decoder, its metrics and a flush read the inputs.
fn read_by_calls(
    code: Code,
    xs: &[f32; 32],
    start: Start,
    inputs: u32,
    decisions: &mut [u64; FRAME_WORDS],
) -> bool {
    let mut out = [9u8; 8];
    let Ok(dec) = fresh(code, start) else {
        return false;
    };
    let Ok(p) = short_fec::push_metrics(code, dec, xs, decisions, &mut out) else {
        return false;
    };
    let Ok(r) = short_fec::flush(code, p.dec, decisions, &mut out) else {
        return false;
    };
    (p.count == 0) & (r.count == 8) & has_inputs(&out, 8, inputs)
}

// Whether the reading is the first path of greatest sum, and how many paths have that sum.
#[derive(Clone, Copy)]
struct Trial {
    first: usize,
    paths: u32,
}

fn tried(code: Code, half: u32, metrics: &[u8; 32], start: Start, from: u32, to: u32) -> Trial
    ensures { result.first ≤ 1 }
{
    let s = search_all(code.g1, code.g2, half, metrics, 8, from, to);
    let mut decisions = [0u64; FRAME_WORDS];
    let xs = floats(metrics);
    let once = read_once(code, &xs, start, s.inputs, &mut decisions);
    let calls = read_by_calls(code, &xs, start, s.inputs, &mut decisions);
    Trial {
        first: one(once & calls),
        paths: s.count,
    }
}

// A start state mod the number of states.
fn folded(state: u32, states: u32) -> u32
    ensures { result < 256 }
{
    if states > 0 { state % states % 256 } else { 0 }
}

// Eight lists of metrics, read from a given start, which may be past the last state, and from none.
fn readings(code: Code, half: u32)
    requires { half ≤ 32 }
{
    let mut first: usize = 0;
    let mut paths: u32 = 0;
    let states = 2 * half;
    for seed in 0..8u32 {
        let ms = scattered(seed + code.g1 as u32, seed % 2 == 0);
        let state = seed * 37 % 256;
        let from = folded(state, states);
        let given = tried(code, half, &ms, Start::Given(state as u8), from, from + 1);
        let any = tried(code, half, &ms, Start::Unknown, 0, states);
        first = first + given.first + any.first;
        paths = larger(paths, larger(given.paths, any.paths));
    }
    let found = [small(code.constraint), first, wide(paths)];
    show(b"length % first % of 016, equal paths up to %\n", &found);
}

fn main() {
    worked_cases();
    readings(code_of(3, 7, 5), 2);
    readings(code_of(3, 4, 4), 2);
    readings(code_of(4, 0o15, 0o17), 4);
    readings(code_of(5, 0o23, 0o35), 8);
    readings(code_of(6, 0o53, 0o75), 16);
    readings(code_of(7, 0o171, 0o133), 32);
}
