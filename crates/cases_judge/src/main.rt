// `judge` (the verdict) on 32 frames: each mapping and kind of frame with four tables. Of each frame are judged: the clean frame; every part at an end of its margin; noise; two points of
// the first run with one part at an end, or one ulp beyond it; the same points negated; the last point at the limit of a part, which is free where no run has it. A point outside must be
// counted alone and in its slot. Then each row, alone and before a later one, with no count changed. The slices are four points longer than a frame, and these are beyond the limit.
#![tactic(auto)]

ghost use Rattle.std.specs.Prelude.{◌<◌, ◌≤◌};
ghost use Rattle.isdbs_frame.specs.Frame.{main_symbols};

use cases_frames::{load_bytes, mapping_of, margin_end, table_of};
use cases_lib::{draw, front, least, nan, one, row, show, step, wide};
use isdbs_core::frame::{LOAD_BYTES, MAIN_SYMBOLS, SLOTS};
use isdbs_phy::demod::encode_frame;
use judge::judge;

// The tables. Entry i has its word at bit 16 i and its slots at bit 16 i + 8.
const TABLES: [u64; 8] = [
    0x3007,
    0x2806,
    0x1007_0a02_0a0f_0c05,
    0x2c04,
    0x2d03,
    0x0801_0c05_0806_1407,
    0x000f_0806_0107_0401,
    0x2c07_0402,
];

// The kind of frame k: both with each mapping.
fn is_first(k: u64) -> bool {
    k / 8 % 2 == 1
}

// ---- changed parts

// One ulp from an end: away from 0 above 1/sqrt 2 and 1 and at 0, else towards it.
fn beyond(x: f64, upper: bool) -> f64 {
    if upper || x < 0.0 {
        x * 1.0000000000000002
    } else {
        x * 0.9999999999999999
    }
}

// The parts' changes: 0 and 1 an end, 2 and 3 one ulp beyond it, else the part negated. Where a part is negative, so is its margin.
fn changed(clean: f64, how: u64) -> f64 {
    if how > 3 {
        return -clean;
    }
    if clean < 0.0 {
        return -changed_up(-clean, how);
    }
    changed_up(clean, how)
}

fn changed_up(clean: f64, how: u64) -> f64 {
    let upper = how % 2 == 1;
    let x = margin_end(clean, upper);
    if how < 2 { x } else { beyond(x, upper) }
}

// A part at an end as drawn, or noise.
fn spread_part(clean: f64, draw: u64, noisy: bool) -> f64 {
    if noisy {
        let n = (draw / 0x1_0000_0000) as u32;
        return n as f64 / 1073741824.0 - 2.0;
    }
    changed(clean, draw / 0x1_0000_0000 % 2)
}

// Every part of the frame so.
fn spread(re: &mut [f64; 38980], im: &mut [f64; 38980], seed: u64, noisy: bool) {
    let mut x = seed;
    for (real, imaginary) in re.iter_mut().zip(im.iter_mut()).take(MAIN_SYMBOLS) {
        x = step(x);
        *real = spread_part(*real, x, noisy);
        x = step(x);
        *imaginary = spread_part(*imaginary, x, noisy);
    }
}

// A point of the first run.
fn place(draw: u64, table: u64) -> usize
    ensures { result < main_symbols }
{
    let slots = table / 256 % 256;
    if slots == 0 {
        return 0;
    }
    let slot = draw / 65536 % slots;
    if slot < 48 {
        (slot * 812 + draw % 812) as usize
    } else {
        0
    }
}

// ---- what is judged

// What `judge` says.
#[derive(Clone, Copy)]
struct Told {
    number: usize,
    sum: u32,
}

fn ask(way: u64, table: u64, re: &[f64], im: &[f64], bytes: &[u8], counts: &mut [u32]) -> Told {
    let t = table_of(table);
    let m = mapping_of(way);
    let r = judge(re, im, t, m, is_first(way), bytes, counts);
    match r {
        Ok(n) => Told { number: 0, sum: n },
        Err(reason) => Told {
            number: row(Err(reason)),
            sum: 0,
        },
    }
}

// The same with the first n counts.
fn ask_front(
    way: u64,
    table: u64,
    re: &[f64],
    im: &[f64],
    bytes: &[u8],
    counts: &mut [u32],
    n: usize,
) -> Told {
    let e = least(n, counts.len());
    ask(way, table, re, im, bytes, &mut counts[0..e])
}

// The sum of the 48 counts.
fn total(counts: &[u32; 50]) -> u32 {
    let mut sum: u32 = 0;
    for count in counts.iter().take(SLOTS) {
        sum = sum.wrapping_add(*count);
    }
    sum
}

// What a case must give: the points outside, all of them in one slot; noise has more.
#[derive(Clone, Copy)]
struct Wanted {
    outside: u32,
    slot: usize,
    noisy: bool,
    end: u32,
}

fn is_right(told: Told, w: Wanted, counts: &[u32; 50]) -> bool
    requires { w.slot < 48 }
{
    let slot = w.slot;
    let placed = (told.sum == w.outside) & (counts[slot] == w.outside);
    (told.number == 0)
        & (told.sum == total(counts))
        & (counts[48] == 7)
        & (counts[49] == 7)
        & (if w.noisy { told.sum > 100 } else { placed })
}

// Point k with its real (how below 4) or its imaginary part changed, or both negated (8).
fn change(re: &mut [f64; 38980], im: &mut [f64; 38980], k: usize, how: u64)
    requires { k < main_symbols }
{
    if how < 4 {
        re[k] = changed(re[k], how);
        return;
    }
    im[k] = changed(im[k], if how == 8 { 8 } else { how % 4 });
    if how == 8 {
        re[k] = changed(re[k], 8);
    }
}

// Whether a change leaves the point outside. An imaginary part of BPSK is free.
fn leaves(how: u64, bpsk: bool) -> u32 {
    match how {
        2 | 3 | 8 => 1,
        6 | 7 => if bpsk { 0 } else { 1 },
        _ => 0,
    }
}

// 0, 1, -1, 1/sqrt 2, -1/sqrt 2 by their numbers.
fn class(clean: f64) -> u32
    ensures { result < 5 }
{
    if clean == 0.0 {
        return 0;
    }
    if clean > 0.875 {
        return 1;
    }
    if clean < -0.875 {
        return 2;
    }
    if clean > 0.0 { 3 } else { 4 }
}

// A bit for each end of each margin, and one for one ulp beyond it; none for a point that is negated.
fn end_of(re: f64, im: f64, how: u64) -> u32 {
    if how > 7 {
        return 0;
    }
    let c = class(if how < 4 { re } else { im });
    1u32 << (4 * c + (how % 4) as u32)
}

// Case i of a frame: 0 clean, 1 at the ends, 2 noise, 3 the last point at the limit, then 9 changes of two points.
fn prepare(re: &mut [f64; 38980], im: &mut [f64; 38980], table: u64, i: u64, seed: u64) -> Wanted
    ensures { result.slot < 48 }
{
    if i == 3 {
        let last = MAIN_SYMBOLS - 1;
        let used = re[last] != 0.0 || im[last] != 0.0;
        re[last] = 65536.0;
        im[last] = -65536.0;
        return Wanted {
            outside: used as u32,
            slot: 47,
            noisy: false,
            end: 0,
        };
    }
    if i < 4 {
        if i > 0 {
            spread(re, im, seed, i == 2);
        }
        return Wanted {
            outside: 0,
            slot: 0,
            noisy: i == 2,
            end: 0,
        };
    }
    let k = place(seed, table);
    let how = (i - 4) % 9;
    let end = end_of(re[k], im[k], how);
    change(re, im, k, how);
    Wanted {
        outside: leaves(how, table % 16 == 1),
        slot: k / 812,
        noisy: false,
        end,
    }
}

// A case that is judged right, and its end.
#[derive(Clone, Copy)]
struct Case {
    right: bool,
    end: u32,
}

// Case i of frame k.
fn one_case(
    k: u64,
    table: u64,
    i: u64,
    re: &mut [f64; 38980],
    im: &mut [f64; 38980],
    load: &[u8; 9750],
) -> Case
    requires { (k < 32) × (i < 22) }
{
    let mut counts = [7u32; 50];
    let n = load_bytes(table);
    let made = encode_frame(
        front(load, n),
        table_of(table),
        is_first(k),
        mapping_of(k),
        re,
        im,
    );
    let w = prepare(re, im, table, i, step(step(k * 64 + i + 0x9e37_79b9)));
    let told = ask_front(k, table, re, im, front(load, n), &mut counts, 50);
    Case {
        right: (row(made) == 0) & is_right(told, w, &counts),
        end: w.end,
    }
}

// How many cases are right, and the ends that were met.
#[derive(Clone, Copy)]
struct Cases {
    right: usize,
    ends: u32,
}

// The 22 cases of frame k.
fn one_frame(
    k: u64,
    table: u64,
    re: &mut [f64; 38980],
    im: &mut [f64; 38980],
    load: &[u8; 9750],
) -> Cases
    requires { k < 32 }
    ensures { result.right ≤ 22 }
{
    let mut right: usize = 0;
    let mut ends: u32 = 0;
    for i in 0..22u64 {
        let c = one_case(k, table, i, re, im, load);
        right = right + one(c.right);
        ends = ends | c.end;
    }
    Cases { right, ends }
}

// The 32 frames.
fn frames(re: &mut [f64; 38980], im: &mut [f64; 38980], load: &[u8; 9750]) -> Cases {
    let tables = TABLES;
    let mut right: usize = 0;
    let mut ends: u32 = 0;
    for k in 0..32usize {
        let c = one_frame(k as u64, tables[(k + 3 * (k / 8)) % 8], re, im, load);
        right = right + c.right;
        ends = ends | c.ends;
    }
    Cases { right, ends }
}

// ---- the rows

// What is lent in each case, of bytes, real parts, imaginary parts and counts, and the number that must come back.
const LENT: [[usize; 5]; 17] = [
    [LOAD_BYTES, MAIN_SYMBOLS, MAIN_SYMBOLS, 48, 0],
    [LOAD_BYTES, MAIN_SYMBOLS, MAIN_SYMBOLS, 48, 1],
    [609, MAIN_SYMBOLS, MAIN_SYMBOLS, 48, 10],
    [0, MAIN_SYMBOLS, MAIN_SYMBOLS, 48, 11],
    [9743, MAIN_SYMBOLS, MAIN_SYMBOLS, 48, 5],
    [9745, MAIN_SYMBOLS, MAIN_SYMBOLS, 48, 5],
    [LOAD_BYTES, 38975, MAIN_SYMBOLS, 48, 6],
    [LOAD_BYTES, MAIN_SYMBOLS, 38975, 48, 6],
    [LOAD_BYTES, MAIN_SYMBOLS, MAIN_SYMBOLS, 48, 7],
    [LOAD_BYTES, MAIN_SYMBOLS, MAIN_SYMBOLS, 48, 7],
    [LOAD_BYTES, MAIN_SYMBOLS, MAIN_SYMBOLS, 48, 7],
    [LOAD_BYTES, MAIN_SYMBOLS, MAIN_SYMBOLS, 48, 7],
    [LOAD_BYTES, MAIN_SYMBOLS, MAIN_SYMBOLS, 47, 9],
    [9743, 38975, MAIN_SYMBOLS, 47, 1],
    [9743, 38975, MAIN_SYMBOLS, 47, 5],
    [LOAD_BYTES, 38975, MAIN_SYMBOLS, 47, 6],
    [LOAD_BYTES, MAIN_SYMBOLS, MAIN_SYMBOLS, 47, 7],
];

// Number j of case i.
fn lent(i: usize, j: usize) -> usize
    requires { (i < 17) × (j < 5) }
{
    let all = LENT;
    all[i][j]
}

// Its table: 49 slots, a part of a unit, a reserved word, or a good one.
fn lent_table(i: usize) -> u64 {
    match i {
        1 | 13 => 0x3107,
        2 => 0x0306,
        3 => 0x0108,
        _ => 0x3007,
    }
}

// Its last imaginary part.
fn lent_part(i: usize) -> f64 {
    match i {
        0 => 65536.0,
        8 => 65536.00000000001,
        9 => -65536.00000000001,
        10 => 1.0 / 0.0,
        11 | 13..=16 => nan(),
        _ => 0.0,
    }
}

// Whether case i is answered right, and refused with all counts as they were.
fn one_row(i: usize, re: &[f64; 38980], im: &mut [f64; 38980], load: &[u8; 9750]) -> bool
    requires { i < 17 }
{
    let mut counts = [7u32; 50];
    im[MAIN_SYMBOLS - 1] = lent_part(i);
    let told = ask_front(
        4,
        lent_table(i),
        front(re, lent(i, 1)),
        front(im, lent(i, 2)),
        front(load, lent(i, 0)),
        &mut counts,
        lent(i, 3),
    );
    let kept = total(&counts) == 336;
    let number = lent(i, 4);
    (told.number == number) & (kept == (number != 0))
}

// How many of the 17 are. A closure in a shared function would be called with any number; a case needs one below 17.
fn rows(re: &[f64; 38980], im: &mut [f64; 38980], load: &[u8; 9750]) -> usize {
    let mut right: usize = 0;
    for i in 0..17usize {
        right = right + one(one_row(i, re, im, load));
    }
    right
}

fn run(re: &mut [f64; 38980], im: &mut [f64; 38980]) {
    let mut load = [0u8; 9750];
    draw(&mut load, 9750, 0x9e37_79b9_7f4a_7c15);
    let c = frames(re, im, &load);
    let found = [c.right, wide(u32::count_ones(c.ends)), rows(re, im, &load)];
    show(
        b"# of 704 cases of 32 frames are judged right\n# of 20 ends of margins and ulps beyond them were met\n# of 17 rows are answered right\n",
        &found,
    );
}

fn main() {
    let mut re = [100000.0f64; 38980];
    let mut im = [100000.0f64; 38980];
    run(&mut re, &mut im);
}
