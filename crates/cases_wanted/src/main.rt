// `wanted_load` there and back, and on frames that are changed (request P9): 25 tables with every combination alone and mixed, each with all eight mappings and both kinds of frame. A
// load is drawn and encoded; `wanted_load` must give it back, count its bytes and leave the others. Then one part of one point, as drawn, is changed in four ways: its sign is turned, it is moved by
// its last bit, the sign of an imaginary part of the last point is turned, and it is no number. A changed frame must be answered by 13 with no byte changed, or by a load that encodes to it.
// The slices are ten points longer than a frame, and these hold no numbers.
#![tactic(auto)]

ghost use Rattle.std.specs.Prelude.{◌*◌, ◌≤◌, ◌<◌};
ghost use Rattle.isdbs_frame.specs.Frame.{main_symbols, slot_bytes};
ghost use Rattle.isdbs_combination.specs.Combinations.{frame_slots};

use cases_frames::{TABLES, load_bytes, mapping_of, show_table, table_of};
use cases_lib::{
    alike, bytes_of, draw, front, least, nan, one, row, same_double, show, show_one, step,
};
use isdbs_core::frame::{LOAD_BYTES, MAIN_SYMBOLS};
use isdbs_phy::demod::encode_frame;
use refusal::Refusal;
use wanted_load::wanted_load;

// The tables: those that each program goes through, and one with no valid slot.
fn table(i: usize) -> u64
    requires { i < 25 }
{
    let tables = TABLES;
    if i < 24 { tables[i] } else { 0x300f }
}

// Which of the 16 ways: the mapping, then the kind.
fn is_first(way: u64) -> bool {
    way / 8 % 2 == 1
}

// The frame of the first `count` bytes.
fn encode(
    way: u64,
    table: u64,
    bytes: &[u8],
    count: usize,
    re: &mut [f64; 38986],
    im: &mut [f64; 38986],
) -> usize {
    let t = table_of(table);
    let m = mapping_of(way);
    row(encode_frame(front(bytes, count), t, is_first(way), m, re, im))
}

// What `wanted_load` says: its number, and the bytes of the load.
#[derive(Clone, Copy)]
struct Told {
    number: usize,
    bytes: usize,
}

fn tell(r: Result<usize, Refusal>) -> Told {
    match r {
        Ok(n) => Told {
            number: 0,
            bytes: n,
        },
        Err(reason) => Told {
            number: row(Err(reason)),
            bytes: 0,
        },
    }
}

fn ask(way: u64, table: u64, re: &[f64], im: &[f64], bytes: &mut [u8]) -> Told {
    let t = table_of(table);
    let m = mapping_of(way);
    tell(wanted_load(re, im, t, m, is_first(way), bytes))
}

// Whether the first `count` bytes are the load and the others 165.
fn is_laid(load: &[u8; LOAD_BYTES], bytes: &[u8; 9750], count: usize) -> bool
    requires { count ≤ frame_slots * slot_bytes }
{
    (alike(load, 0, bytes, count) == count) & (bytes_of(bytes, count, 9750, 165) == 9750 - count)
}

// A symbol of the frame.
fn place(x: u64) -> usize
    ensures { result < main_symbols }
{
    (x % MAIN_SYMBOLS as u64) as usize
}

// A part with its last bit changed.
fn nudged(x: f64) -> f64 {
    if x == 0.0 {
        5e-324
    } else {
        x * 1.0000000000000002
    }
}

// A part changed in one of four ways.
fn changed(x: f64, how: u64) -> f64 {
    match how {
        0 => -x,
        1 => nudged(x),
        2 => -x,
        _ => nan(),
    }
}

// Changes one part, the real one where `real` is true.
fn change(re: &mut [f64; 38986], im: &mut [f64; 38986], real: bool, k: usize, how: u64)
    requires { k < main_symbols }
{
    if real {
        re[k] = changed(re[k], how);
    } else {
        im[k] = changed(im[k], how);
    }
}

// Whether two frames are the same.
fn same_points(a: &[f64; 38986], b: &[f64; 38986]) -> bool {
    // Not ==: the sign of a zero counts, and a NaN is as another.
    a.iter()
        .zip(b.iter())
        .take(MAIN_SYMBOLS)
        .all(|(x, y)| same_double(*x, *y))
}

// What the changed frames of a table gave.
#[derive(Clone, Copy)]
struct Found {
    back: u32,
    none: u32,
    other: u32,
    wrong: u32,
}

// Whether the load encodes to the frame.
fn fits(
    way: u64,
    table: u64,
    load: &[u8; 9750],
    count: usize,
    re: &[f64; 38986],
    im: &[f64; 38986],
) -> bool {
    let mut xs = [0.0f64; 38986];
    let mut ys = [0.0f64; 38986];
    let number = encode(way, table, load, count, &mut xs, &mut ys);
    (number == 0) & same_points(re, &xs) & same_points(im, &ys)
}

// How a changed frame is answered: 13 and no byte changed; a load that encodes to it; or neither.
#[derive(Clone, Copy)]
enum Verdict {
    None,
    Other,
    Wrong,
}

fn right_or_wrong(holds: bool, v: Verdict) -> Verdict {
    if holds { v } else { Verdict::Wrong }
}

fn tell_found(
    way: u64,
    table: u64,
    count: usize,
    re: &[f64; 38986],
    im: &[f64; 38986],
    load: &[u8; LOAD_BYTES],
) -> Verdict
    requires { count ≤ frame_slots * slot_bytes }
{
    let mut bytes = [165u8; 9750];
    let told = ask(way, table, re, im, &mut bytes);
    if told.number == 13 {
        return right_or_wrong(is_laid(load, &bytes, 0), Verdict::None);
    }
    if (told.number == 0) & (told.bytes == count) {
        return right_or_wrong(fits(way, table, &bytes, count, re, im), Verdict::Other);
    }
    Verdict::Wrong
}

fn one_more(n: u32) -> u32 {
    if n < 1_000_000 { n + 1 } else { n }
}

fn counted(f: Found, v: Verdict) -> Found {
    match v {
        Verdict::None => Found {
            back: f.back,
            none: one_more(f.none),
            other: f.other,
            wrong: f.wrong,
        },
        Verdict::Other => Found {
            back: f.back,
            none: f.none,
            other: one_more(f.other),
            wrong: f.wrong,
        },
        Verdict::Wrong => Found {
            back: f.back,
            none: f.none,
            other: f.other,
            wrong: one_more(f.wrong),
        },
    }
}

// The place, the part and the way of change `how`: the last point for 2.
fn change_drawn(re: &mut [f64; 38986], im: &mut [f64; 38986], draw: u64, how: u64) {
    if how == 2 {
        change(re, im, false, MAIN_SYMBOLS - 1, how);
    } else {
        change(re, im, draw / 65536 % 2 == 1, place(draw), how);
    }
}

// One changed frame: it is encoded, changed, asked for and judged.
fn one_change(
    way: u64,
    table: u64,
    count: usize,
    how: u64,
    re: &mut [f64; 38986],
    im: &mut [f64; 38986],
    load: &[u8; LOAD_BYTES],
) -> Verdict
    requires { count ≤ frame_slots * slot_bytes }
{
    if encode(way, table, load, count, re, im) != 0 {
        return Verdict::Wrong;
    }
    let drawn = step(step(table ^ (way << 40) ^ (how << 50) ^ 0x9e37_79b9));
    change_drawn(re, im, drawn, how);
    tell_found(way, table, count, re, im, load)
}

// Whether the load comes back.
fn comes_back(
    way: u64,
    table: u64,
    count: usize,
    re: &mut [f64; 38986],
    im: &mut [f64; 38986],
    load: &[u8; LOAD_BYTES],
) -> bool
    requires { count ≤ frame_slots * slot_bytes }
{
    let made = encode(way, table, load, count, re, im);
    let mut bytes = [165u8; 9750];
    let told = ask(way, table, re, im, &mut bytes);
    (made == 0) & (told.number == 0) & (told.bytes == count) & is_laid(load, &bytes, count)
}

// What was found, and the load there and back.
fn and_back(f: Found, back: bool) -> Found {
    if back {
        return Found {
            back: one_more(f.back),
            none: f.none,
            other: f.other,
            wrong: f.wrong,
        };
    }
    f
}

// A table in one of 16 ways: the load there and back, and four changed frames. Past a frame there are no numbers.
fn one_way(f: Found, way: u64, table: u64) -> Found {
    let mut re = [nan(); 38986];
    let mut im = [nan(); 38986];
    let mut load = [0u8; LOAD_BYTES];
    let count = load_bytes(table);
    draw(&mut load, count, step(table ^ (way << 40) ^ 0x7f4a_7c15));
    let mut g = and_back(f, comes_back(way, table, count, &mut re, &mut im, &load));
    for how in 0..4u64 {
        let v = one_change(way, table, count, how, &mut re, &mut im, &load);
        g = counted(g, v);
    }
    g
}

fn show_found(f: Found) {
    let found = [
        f.back as usize,
        f.none as usize,
        f.other as usize,
        f.wrong as usize,
    ];
    show(
        b": # of 16 loads come back; of 64 changed frames # fit no load, # another one, # wrong\n",
        &found,
    );
}

// Whether all is right with a table.
fn one_table(table: u64) -> bool {
    let mut f = Found {
        back: 0,
        none: 0,
        other: 0,
        wrong: 0,
    };
    for way in 0..16u64 {
        let g = one_way(f, way, table);
        f = g;
    }
    show_table(table);
    show_found(f);
    (f.back == 16) & (f.wrong == 0)
}

// How many tables pass.
fn passing() -> usize
    ensures { result ≤ 25 }
{
    let mut n: usize = 0;
    for i in 0..25usize {
        n += one(one_table(table(i)));
    }
    n
}

// The answer to the first `points` points and `room` bytes.
fn answer(way: u64, table: u64, re: &[f64], im: &[f64], points: usize, room: usize) -> usize {
    let mut bytes = [165u8; 9750];
    let n = least(room, 9750);
    let x = least(points, re.len());
    let y = least(points, im.len());
    let told = ask(way, table, &re[0..x], &im[0..y], &mut bytes[0..n]);
    told.number
}

// The rows in their order, on a frame that no load has: 49 slots; a part of a unit and a reserved word; a reserved word; a point too few; a byte too few; neither.
fn refused_rows(re: &mut [f64; 38986], im: &[f64; 38986]) -> [usize; 6] {
    re[0] = nan();
    let tables = [0x3106u64, 0x0108_2f06, 0x0108_2806, 0x3006, 0x3006, 0x3006];
    let points = [38975usize, 38975, 38975, 38975, MAIN_SYMBOLS, MAIN_SYMBOLS];
    let rooms = [8525usize, 8525, 8525, 8525, 8525, 8526];
    let mut found = [99usize; 6];
    for k in 0..6usize {
        let n = answer(4, tables[k], re, im, points[k], rooms[k]);
        found[k] = n;
    }
    found
}

// The answer to a frame without a valid slot.
fn answer_without_slot(way: u64, re: &[f64; 38986], im: &[f64; 38986]) -> usize {
    answer(way, 0x300f, re, im, MAIN_SYMBOLS, 0)
}

// The rows; then frames without a valid slot, the last encoded with conjugation.
fn rows() -> bool {
    let mut re = [nan(); 38986];
    let mut im = [nan(); 38986];
    let mut load = [0u8; LOAD_BYTES];
    draw(&mut load, LOAD_BYTES, 1);
    let made = encode(4, 0x3006, &load, 8526, &mut re, &mut im);
    let r = refused_rows(&mut re, &im);
    let empty = encode(0, 0x300f, &load, 0, &mut re, &mut im);
    let g = answer_without_slot(0, &re, &im);
    let h = answer_without_slot(1, &re, &im);
    let mirrored = encode(1, 0x300f, &load, 0, &mut re, &mut im);
    let i = answer_without_slot(1, &re, &im);
    show_rows(r, g, h, i) & (made == 0) & (empty == 0) & (mirrored == 0)
}

// Shows the answers; whether they are as expected.
fn show_rows(r: [usize; 6], g: usize, h: usize, i: usize) -> bool {
    let found = [r[0], r[1], r[2], r[3], r[4], r[5], g, h, i];
    show(
        b"49 slots, 38,975 points: #\na part of a unit and a reserved word, 38,975 points: #\na reserved word, 38,975 points: #\n38,975 points and 8,525 bytes: #\na wrong frame and 8,525 bytes: #\na wrong frame and 8,526 bytes: #\nno valid slot, all points (+0, +0): #\nthe same conjugated: #\nno valid slot, all points (+0, -0), conjugated: #\n",
        &found,
    );
    let first = (r[0] == 1)
        & (r[1] == 10)
        & (r[2] == 11)
        & (r[3] == 6)
        & (r[4] == 9)
        & (r[5] == 13);
    first & (g == 0) & (h == 13) & (i == 0)
}

fn main() {
    let n = passing();
    let right = rows();
    if (n == 25) & right {
        show_one(b"# tables, all as expected\n", n);
    } else {
        show_one(b"# tables pass, SOME CASE IS WRONG\n", n);
    }
}
