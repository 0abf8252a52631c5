// The best content of stretches of four to ten steps beside a search through all contents (start, inputs, uncoded bits): the inputs and uncoded bits of the first of greatest sum, and by how much every
// content that differs in a slot is smaller. A metric m is kept as m + 16 where the step has no uncoded bit, so a sum of n steps is kept plus 16 n. Few different metrics make equal sums.
#![tactic(auto)]

ghost use Rattle.std.specs.Prelude.{◌≡◌, true, ◌≤◌, ◌<◌, leb, length};
ghost use Rattle.best_grid.specs.Grid.{below};
ghost use Rattle.best_grid.specs.Sides.{Upright};

use best_content::best_content;
use cases_lib::{one, show, text, wide};
use cases_paths::{isdb_label, next};
use path_greatest::Start;

// The lowest k bits.
fn lowest(k: u32) -> u32 {
    0x7fff_ffff >> (31 - k % 32)
}

// ---- the search

// A content's sum; its place in the order of paths: the end state, then the predecessor's low bit at the last step, the step before it, and so on; and whether each uncoded bit is the better one.
#[derive(Clone, Copy)]
struct Walked {
    sum: u32,
    place: u32,
    better: bool,
}

// Whether z is the better uncoded bit at the pair l.
fn is_better(side: u8, l: u32, z: u32) -> bool {
    let s = side as u32;
    s < 16 || (s >> (l % 4)) % 2 == z
}

// What a step adds, kept plus 16: the metric, or its negative where the uncoded bit is the worse one.
fn added(m: u8, side: u8, better: bool) -> u32
    ensures { result < 256 }
{
    if side < 16 {
        return m as u32;
    }
    let x = (m % 16) as u32;
    if better { 16 + x } else { 16 - x }
}

fn walk(ms: &[u8; 40], sides: &[u8; 10], n: usize, start: u32, inputs: u32, uncoded: u32) -> Walked
    requires { n ≤ 10 }
{
    let mut state = start % 64;
    let mut us = inputs;
    let mut zs = uncoded;
    let mut sum: u32 = 0;
    let mut lows: u32 = 0;
    let mut better = true;
    for k in 0..n {
        let u = us % 2;
        let l = isdb_label(u, state);
        let good = is_better(sides[k], l, zs % 2);
        sum = (sum + added(ms[4 * k + l as usize], sides[k], good)) % 65536;
        better = better & good;
        lows = (lows % 1024) / 2 + (state % 2) * 512;
        state = 32 * u + (state % 64) / 2;
        us = us / 2;
        zs = zs / 2;
    }
    let place = (state % 64) * 1024 + lows % 1024;
    Walked { sum, place, better }
}

// Of the contents looked at: the greatest sum, how many have it, and of these the first path with the better uncoded bits.
#[derive(Clone, Copy)]
struct Survey {
    greatest: u32,
    count: u32,
    place: u32,
    inputs: u32,
    uncoded: u32,
}

// What is known of the contents looked at, and one more.
fn seen(s: Survey, w: Walked, inputs: u32, uncoded: u32) -> Survey {
    if s.count > 0 && w.sum < s.greatest {
        return s;
    }
    let equal = s.count > 0 && w.sum == s.greatest;
    let count = if equal { s.count % 0x1000_0000 + 1 } else { 1 };
    if equal && (w.place < s.place || !w.better) {
        return Survey {
            greatest: s.greatest,
            count,
            place: s.place,
            inputs: s.inputs,
            uncoded: s.uncoded,
        };
    }
    Survey {
        greatest: w.sum,
        count,
        place: w.place,
        inputs,
        uncoded,
    }
}

// Which contents are looked at: from the states `from` to `to`, the last not among them; uncoded bits stand in the steps of `two`; and where `mask` is not 0, those that differ from the inputs and the
// uncoded bits in a step of it.
#[derive(Clone, Copy)]
struct Range {
    from: u32,
    to: u32,
    two: u32,
    mask: u32,
    inputs: u32,
    uncoded: u32,
}

fn is_in(r: Range, inputs: u32, uncoded: u32) -> bool {
    let other = (inputs ^ r.inputs) | (uncoded ^ r.uncoded);
    (uncoded | r.two) == r.two && (r.mask == 0 || (other & r.mask) != 0)
}

// What is known of the contents looked at, and one more if it is in the range.
fn seen_one(
    ms: &[u8; 40],
    sides: &[u8; 10],
    n: usize,
    r: Range,
    start: u32,
    inputs: u32,
    uncoded: u32,
    before: Survey,
) -> Survey
    requires { n ≤ 10 }
{
    if is_in(r, inputs, uncoded) {
        let w = walk(ms, sides, n, start, inputs, uncoded);
        return seen(before, w, inputs, uncoded);
    }
    before
}

fn seen_on(
    ms: &[u8; 40],
    sides: &[u8; 10],
    n: usize,
    r: Range,
    start: u32,
    inputs: u32,
    before: Survey,
) -> Survey
    requires { n ≤ 10 }
{
    let end = r.two % 1024 + 1;
    let mut s = before;
    for uncoded in 0..end {
        let more = seen_one(ms, sides, n, r, start, inputs, uncoded, s);
        s = more;
    }
    s
}

fn seen_from(
    ms: &[u8; 40],
    sides: &[u8; 10],
    n: usize,
    r: Range,
    start: u32,
    before: Survey,
) -> Survey
    requires { n ≤ 10 }
{
    let end = lowest(n as u32) % 1024 + 1;
    let mut s = before;
    for inputs in 0..end {
        let more = seen_on(ms, sides, n, r, start, inputs, s);
        s = more;
    }
    s
}

fn search(ms: &[u8; 40], sides: &[u8; 10], n: usize, r: Range) -> Survey
    requires { n ≤ 10 }
{
    let mut s = Survey {
        greatest: 0,
        count: 0,
        place: 0,
        inputs: 0,
        uncoded: 0,
    };
    let to = r.to;
    for start in r.from..to {
        let more = seen_from(ms, sides, n, r, start, s);
        s = more;
    }
    s
}

// By how much the contents that differ from the first in a step from a up to b are smaller, in units of 2^-20.
fn lead(ms: &[u8; 40], sides: &[u8; 10], n: usize, all: Range, first: Survey, a: u32, b: u32) -> u64
    requires { n ≤ 10 }
{
    let r = Range {
        from: all.from,
        to: all.to,
        two: all.two,
        mask: lowest(a) ^ lowest(b),
        inputs: first.inputs,
        uncoded: first.uncoded,
    };
    let s = search(ms, sides, n, r);
    let d = (first.greatest % 65536 + 65536 - s.greatest % 65536) % 65536;
    d as u64 * 1_048_576
}

// ---- what is read

// 0 as it is kept, or 0 and 1, or -16 to 15, which is 0 to 15 in a step with an uncoded bit.
fn metric(x: u32, kind: u32) -> u8 {
    let v = (x / 256) % 32;
    match kind {
        0 => 16,
        1 => 16 + (v % 2) as u8,
        _ => v as u8,
    }
}

fn metrics(seed: u32, kind: u32) -> [u8; 40] {
    let mut x = seed % 65536;
    let mut ms = [16u8; 40];
    for k in 0..40usize {
        x = next(x);
        ms[k] = metric(x, kind);
    }
    ms
}

// A step's side: 16 and the better uncoded bits, pseudo-random, in the steps of `two`, else 0.
fn side(x: u32, two: u32) -> u8 {
    if two % 2 == 1 {
        16 + ((x / 256) % 16) as u8
    } else {
        0
    }
}

fn sides(seed: u32, two: u32) -> [u8; 10] {
    let mut x = seed % 65536;
    let mut left = two;
    let mut ss = [0u8; 10];
    for k in 0..10usize {
        x = next(x);
        ss[k] = side(x, left);
        left = left / 2;
    }
    ss
}

// The metric as the reading takes it: not below 0 where the step has an uncoded bit.
fn value(m: u8, side: u8) -> f32
    ensures { leb 16 side ≡ true → below result ≡ 0 }
{
    if side < 16 {
        m as f32 - 16.0
    } else {
        (m % 16) as f32
    }
}

fn values(ms: &[u8; 40], sides: &[u8; 10]) -> [f32; 40]
    ensures { Upright result sides.now 10 }
{
    let mut xs = [0.0f32; 40];
    for k in 0..40usize {
        xs[k] = value(ms[k], sides[k / 4]);
    }
    xs
}

// Three slots of n steps: the steps up to a, from a up to b, and from b on.
#[derive(Clone, Copy)]
struct Slots {
    n: usize,
    a: u32,
    b: u32,
}

fn read(
    xs: &[f32],
    sides: &[u8],
    s: Slots,
    start: Start,
    bits: &mut [u8],
    uncoded: &mut [u8],
    leads: &mut [u64],
)
    requires { (s.n ≤ 10) × (0 < s.a) × (s.a < s.b) × (s.b < s.n) × (length xs.now ≡ 40) × (length sides.now ≡ 10) × (length bits.old ≡ 10) × (length uncoded.old ≡ 10) × (length leads.old ≡ 3) × Upright xs.now sides.now 10 }
{
    let n = s.n;
    let marks = [0u32, s.a, s.b, n as u32];
    let mut tables = [0u64; 192];
    let mut decisions = [0u64; 10];
    let end = 4 * n;
    best_content(
        &xs[..end],
        sides,
        &marks,
        start,
        &mut tables,
        &mut decisions,
        &mut bits[..n],
        &mut uncoded[..n],
        leads,
    );
}

// Whether the places hold the bits, the first in the lowest, and 9 from n on.
fn holds(out: &[u8; 10], n: usize, bits: u32) -> bool {
    let mut left = bits;
    for k in 0..10usize {
        let wanted = if k < n { (left % 2) as u8 } else { 9 };
        if out[k] != wanted {
            return false;
        }
        left = left / 2;
    }
    true
}

// Whether these are the leads of the first content.
fn led(
    ms: &[u8; 40],
    sides: &[u8; 10],
    n: usize,
    a: u32,
    b: u32,
    all: Range,
    first: Survey,
    leads: &[u64; 3],
) -> bool {
    if n > 10 {
        return false;
    }
    (leads[0] == lead(ms, sides, n, all, first, 0, a))
        & (leads[1] == lead(ms, sides, n, all, first, a, b))
        & (leads[2] == lead(ms, sides, n, all, first, b, n as u32))
}

// Whether the reading is the first content of greatest sum with its leads; how many contents have that sum, and how many leads are 0.
#[derive(Clone, Copy)]
struct Trial {
    agrees: usize,
    contents: u32,
    zeros: usize,
}

fn tried(seed: u32, n: usize, a: u32, b: u32, start: Start, all: Range) -> Trial
    requires { (n ≤ 10) × (0 < a) × (a < b) × (b < n) }
    ensures { (result.agrees ≤ 1) × (result.zeros ≤ 3) }
{
    let ms = metrics(seed, seed % 4);
    let ss = sides(seed % 65536 + 7, all.two);
    let xs = values(&ms, &ss);
    let mut bits = [9u8; 10];
    let mut uncoded = [9u8; 10];
    let mut leads = [9u64; 3];
    read(
        &xs,
        &ss,
        Slots { n, a, b },
        start,
        &mut bits,
        &mut uncoded,
        &mut leads,
    );
    let s = search(&ms, &ss, n, all);
    let same = holds(&bits, n, s.inputs)
        & holds(&uncoded, n, s.uncoded)
        & led(&ms, &ss, n, a, b, all, s, &leads);
    Trial {
        agrees: one(same),
        contents: s.count,
        zeros: one(leads[0] == 0) + one(leads[1] == 0) + one(leads[2] == 0),
    }
}

// The contents from one state, or from all.
fn all_from(from: u32, to: u32, two: u32) -> Range {
    Range {
        from,
        to,
        two,
        mask: 0,
        inputs: 0,
        uncoded: 0,
    }
}

// What came of a number of trials.
#[derive(Clone, Copy)]
struct Tally {
    agree: usize,
    equal: usize,
    zeros: usize,
    most: u32,
}

fn counted(t: Tally, one_more: Trial) -> Tally {
    Tally {
        agree: t.agree % 65536 + one_more.agrees % 2,
        equal: t.equal % 65536 + one(one_more.contents > 1),
        zeros: t.zeros % 65536 + one_more.zeros % 4,
        most: t.most.max(one_more.contents),
    }
}

fn tried_from(seed: u32, n: usize, a: u32, b: u32, two: u32, known: bool) -> Trial
    requires { (n ≤ 10) × (0 < a) × (a < b) × (b < n) }
{
    let from = seed % 64 * 13 % 64;
    if known {
        tried(
            seed,
            n,
            a,
            b,
            Start::Given(from as u8),
            all_from(from, from + 1, two),
        )
    } else {
        tried(seed, n, a, b, Start::Unknown, all_from(0, 64, two))
    }
}

// Stretches of n steps, of which those of `two` have an uncoded bit; a quarter has metrics of 0 alone, a quarter of 0 and 1.
fn stretches(count: u32, n: usize, a: u32, b: u32, two: u32, known: bool)
    requires { (n ≤ 10) × (0 < a) × (a < b) × (b < n) }
{
    let mut t = Tally {
        agree: 0,
        equal: 0,
        zeros: 0,
        most: 0,
    };
    for seed in 0..count {
        let trial = tried_from(seed, n, a, b, two, known);
        let more = counted(t, trial);
        t = more;
    }
    let found = [n, t.agree, wide(count), t.equal, wide(t.most), t.zeros];
    show(
        b"steps % agree % of %, with equals % up to #, leads of 0 %\n",
        &found,
    );
}

fn main() {
    text(b"from a given start\n");
    stretches(60, 4, 1, 2, 0b1111, true);
    stretches(60, 7, 2, 3, 0b111_1111, true);
    stretches(60, 8, 3, 7, 0b1011_0100, true);
    stretches(60, 10, 4, 5, 0, true);
    text(b"from any\n");
    stretches(16, 5, 2, 4, 0b1_1111, false);
    stretches(16, 8, 1, 7, 0b1100_0001, false);
    stretches(16, 9, 5, 7, 0b1_0100_0000, false);
    stretches(16, 10, 2, 9, 0, false);
}
