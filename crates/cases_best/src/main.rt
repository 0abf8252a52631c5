// Readings of whole quadruples beside a search through all paths: the greatest sum, how many paths have it, the first of them, and what
// the decoder reads.
#![tactic(auto)]

ghost use Rattle.std.specs.Prelude.{◌≤◌};

use cases_lib::{end_line, one, row, show, show_bits, show_one, wide};
use cases_paths::{Survey, floats, has_inputs, scattered, search_all};
use isdb_fec::conv::{G1, G2};
use path_reading::Start;
use trellis::FRAME_WORDS;

// The inputs 00000000 and 10000000 from state 0 have the greatest sum: both end in state 0, by way of the states 0 and 1.
const TWO: [u8; 32] = [
    32, 0, 0, 32, 32, 0, 32, 0, 32, 0, 0, 32, 32, 0, 0, 32, 32, 0, 0, 0, 32, 32, 0, 0, 32, 0, 0,
    32, 32, 0, 0, 0,
];

// All paths of n steps of the code from the states `from` to `to`, the last not among them.
fn search(metrics: &[u8; 32], n: usize, from: u32, to: u32) -> Survey {
    search_all(G1, G2, 32, metrics, n, from, to)
}

// The eight inputs, the first in the lowest bit.
fn inputs_of(inputs: u32) -> [u8; 8] {
    let mut bits = inputs;
    let mut us = [0u8; 8];
    for u in us.iter_mut() {
        *u = (bits % 2) as u8;
        bits = bits / 2;
    }
    us
}

// The reading of eight quadruples: its number.
fn read(
    metrics: &[u8; 32],
    start: Start,
    decisions: &mut [u64; FRAME_WORDS],
    out: &mut [u8; 8],
) -> usize {
    let xs = floats(metrics);
    let r = path_reading::greatest_sum_reading(&xs, start, decisions, out);
    row(r.map(|_| ()).map_err(|t| t.row))
}

fn show_eight(bits: &[u8; 8]) {
    show_bits(bits);
}

fn line(metrics: &[u8; 32], start: Start, from: u32, to: u32) {
    let s = search(metrics, 8, from, to);
    let found = [wide(s.greatest), wide(s.count)];
    show(b"greatest $ paths $ first ", &found);
    let first = inputs_of(s.inputs);
    show_eight(&first);
    let mut decisions = [0u64; FRAME_WORDS];
    let mut out = [9u8; 8];
    let answer = read(metrics, start, &mut decisions, &mut out);
    show_one(b" answer $ bits ", answer);
    show_eight(&out);
    end_line();
}

fn both(metrics: &[u8; 32], start: u8) {
    let from = start as u32 % 64;
    line(metrics, Start::Given(start), from, from + 1);
    line(metrics, Start::Unknown, 0, 64);
}

// Whether the reading of the first n quadruples is accepted and has the n inputs.
fn agrees(
    xs: &[f32; 32],
    n: usize,
    start: Start,
    inputs: u32,
    decisions: &mut [u64; FRAME_WORDS],
    out: &mut [u8; 8],
) -> bool
    requires { n ≤ 8 }
{
    let all: &[f32] = xs;
    let end = 4 * n;
    let Ok(r) = path_reading::greatest_sum_reading(&all[..end], start, decisions, out) else {
        return false;
    };
    (r.count == n) & has_inputs(out, n, inputs)
}

// Whether the reading is the first path of greatest sum, and how many paths have that sum.
#[derive(Clone, Copy)]
struct Trial {
    first: usize,
    paths: u32,
}

fn tried(metrics: &[u8; 32], n: usize, start: Start, from: u32, to: u32) -> Trial
    requires { n ≤ 8 }
    ensures { result.first ≤ 1 }
{
    let s = search(metrics, n, from, to);
    let mut decisions = [0u64; FRAME_WORDS];
    let mut out = [9u8; 8];
    let xs = floats(metrics);
    Trial {
        first: one(agrees(&xs, n, start, s.inputs, &mut decisions, &mut out)),
        paths: s.count,
    }
}

// Sixteen lists of metrics, 0 or 1 each, read from a given start and from none.
fn stretch(n: usize)
    requires { n ≤ 8 }
{
    let mut first: usize = 0;
    let mut paths: u32 = 0;
    for seed in 0..16u32 {
        let ms = scattered(seed, true);
        let from = seed * 13 % 64;
        let given = tried(&ms, n, Start::Given(from as u8), from, from + 1);
        let any = tried(&ms, n, Start::Unknown, 0, 64);
        first = first + given.first + any.first;
        paths = paths.max(given.paths.max(any.paths));
    }
    let found = [n, first, wide(paths)];
    show(b"steps $ first $ of 00032, equal paths up to $\n", &found);
}

// Stretches of up to eight steps.
fn stretches() {
    for n in 0..9usize {
        stretch(n);
    }
}

// Pseudo-random metrics.
fn drawn() {
    for seed in 0..4 {
        let ms = scattered(seed, true);
        both(&ms, 63);
        let ns = scattered(seed + 100, false);
        both(&ns, 200);
    }
}

fn main() {
    stretches();
    let two = TWO;
    both(&two, 0);
    // All equal.
    let flat = [16u8; 32];
    both(&flat, 5);
    drawn();
}
