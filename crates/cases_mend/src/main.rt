// Mended stretches: the cases of request P13 and its rows, a stretch of 4,096 steps, and every stretch of up to 7 steps beside an exhaustive search.
#![tactic(auto)]

use cases_lib::{alike, front, row, show, show_one, small, wide, words_of};
use isdb_fec::conv::ConvEncoder;
use refusal::Refusal;
use trellis::FRAME_WORDS;

// A coded stretch of up to 7 steps: its bits, the first of them at bit 0, and the state that it leads to.
#[derive(Clone, Copy)]
struct Sent {
    bits: u32,
    end: u8,
}

// What the search finds: how many coded stretches lie within four bits, and the last of them.
#[derive(Clone, Copy)]
struct Near {
    count: u32,
    bits: u32,
}

// The weight where the bit is 1, else 0.
fn weighed(bit: u8, weight: u32) -> u32 {
    if bit == 1 { weight } else { 0 }
}

// The coded stretch of n inputs, up to 7, the first at bit 0 of `inputs`.
fn send(start: u8, inputs: u32, n: u32) -> Sent {
    let mut enc = ConvEncoder { state: start % 64 };
    let mut rest = inputs;
    let mut bits: u32 = 0;
    let mut weight: u32 = 1;
    for i in 0..n {
        let Ok(pushed) = enc.push((rest % 2) as u8) else {
            break;
        };
        bits = bits | weighed(pushed.x, weight) | weighed(pushed.y, weight % 16384 * 2);
        let after = pushed.enc;
        enc = after;
        rest = rest / 2;
        weight = weight % 16384 * 4;
    }
    Sent {
        bits,
        end: enc.state(),
    }
}

// All coded stretches of n steps.
fn send_all(start: u8, n: u32, bits: &mut [u32; 128], ends: &mut [u8; 128]) {
    for i in 0..128u32 {
        let sent = send(start, i, n);
        bits[i as usize] = sent.bits;
        ends[i as usize] = sent.end;
    }
}

// Those of the first `count` that lead to `end` and differ from `stored` in at most four bits.
fn search(stored: u32, end: u8, count: u32, bits: &[u32; 128], ends: &[u8; 128]) -> Near {
    let mut found: u32 = 0;
    let mut last: u32 = 0;
    for (sent, reached) in bits.iter().zip(ends.iter()).take(count as usize) {
        if *reached == end && u32::count_ones(*sent ^ stored) <= 4 {
            found = found % 128 + 1;
            last = *sent;
        }
    }
    Near {
        count: found,
        bits: last,
    }
}

fn unpack(stored: u32) -> [u8; 14] {
    let mut bits = [0u8; 14];
    let mut rest = stored;
    for bit in bits.iter_mut() {
        *bit = (rest % 2) as u8;
        rest = rest / 2;
    }
    bits
}

// The call, named once: its code is then compiled once.
fn mend_stretch(
    bits: &[u8],
    start: u8,
    end: u8,
    decisions: &mut [u64],
    out: &mut [u8],
    list: &mut [u32],
) -> Result<usize, Refusal> {
    mend::mend(bits, start, end, decisions, out, list)
}

// Whether the first `count` places hold the bits of `sent`, and the others what they held before.
fn out_is(out: &[u8; 14], sent: u32, count: usize) -> bool {
    let mut rest = sent;
    for (k, place) in out.iter().enumerate() {
        let wanted = if k < count { (rest % 2) as u8 } else { 9 };
        if *place != wanted {
            return false;
        }
        rest = rest / 2;
    }
    true
}

// Whether the places from `count` on hold what they held before.
fn rest_kept(list: &[u32; 6], count: usize) -> bool {
    list.iter().skip(count).all(|place| *place == 77)
}

// Whether the first `count` places hold the places of the ones of `changes`, rising, and the others what they held before.
fn list_is(list: &[u32; 6], count: usize, changes: u32) -> bool {
    let mut rest = changes;
    let mut at: usize = 0;
    for k in 0..14u32 {
        if rest % 2 == 1 {
            if at > 3 {
                return false;
            }
            if list[at] != k {
                return false;
            }
            at = at + 1;
        }
        rest = rest / 2;
    }
    (at == count) & rest_kept(list, at)
}

// What the mended stretches of a survey were.
#[derive(Clone, Copy)]
struct Tally {
    mended: u32,
    refused: u32,
    wrong: u32,
}

fn add(t: Tally, mended: bool, right: bool) -> Tally {
    if !right {
        return Tally {
            mended: t.mended,
            refused: t.refused,
            wrong: t.wrong % 10000000 + 1,
        };
    }
    if mended {
        return Tally {
            mended: t.mended % 10000000 + 1,
            refused: t.refused,
            wrong: t.wrong,
        };
    }
    Tally {
        mended: t.mended,
        refused: t.refused % 10000000 + 1,
        wrong: t.wrong,
    }
}

// Mends the stored stretch of `steps` steps, and compares with what the search found.
fn mend_and_compare(
    t: Tally,
    stored: u32,
    steps: usize,
    start: u8,
    end: u8,
    near: Near,
    decisions: &mut [u64; 4226],
) -> Tally {
    let bits = unpack(stored);
    let mut out = [9u8; 14];
    let mut list = [77u32; 6];
    let n = steps % 8 * 2;
    let m = mend_stretch(front(&bits, n), start, end, decisions, &mut out, &mut list);
    let count = m.unwrap_or(0);
    let number = number(m);
    if number == 15 {
        return add(
            t,
            false,
            (near.count == 0) & (count == 0) & out_is(&out, 0, 0) & list_is(&list, 0, 0),
        );
    }
    add(
        t,
        true,
        (number == 0)
            & (near.count == 1)
            & out_is(&out, near.bits, n)
            & list_is(&list, count, near.bits ^ stored),
    )
}

// All ends of one stored stretch.
fn all_ends(
    t: Tally,
    stored: u32,
    steps: usize,
    start: u8,
    bits: &[u32; 128],
    ends: &[u8; 128],
    decisions: &mut [u64; 4226],
) -> Tally {
    let mut tally = t;
    let count = 1u32 << (steps % 8);
    for end in 0..64u8 {
        let near = search(stored, end, count, bits, ends);
        let more = mend_and_compare(tally, stored, steps, start, end, near, decisions);
        tally = more;
    }
    tally
}

// Every stored stretch of so many steps, beside the search among the coded ones.
fn all_stored(
    steps: usize,
    start: u8,
    bits: &[u32; 128],
    ends: &[u8; 128],
    decisions: &mut [u64; 4226],
) -> Tally {
    let mut tally = Tally {
        mended: 0,
        refused: 0,
        wrong: 0,
    };
    let most = 1u32 << (steps % 8 * 2);
    for stored in 0..16384u32 {
        if stored < most {
            let more = all_ends(tally, stored, steps, start, bits, ends, decisions);
            tally = more;
        }
    }
    tally
}

fn survey(steps: usize, start: u8, decisions: &mut [u64; 4226]) {
    let mut bits = [0u32; 128];
    let mut ends = [0u8; 128];
    send_all(start, (steps % 8) as u32, &mut bits, &mut ends);
    let tally = all_stored(steps, start, &bits, &ends, decisions);
    let found = [
        steps,
        small(start),
        wide(tally.mended),
        wide(tally.refused),
        wide(tally.wrong),
    ];
    show(
        b"steps # from # to every end: mended #, refused by 15 #, otherwise than the search #\n",
        &found,
    );
}

// Fills the words anew.
fn reset_words(decisions: &mut [u64; 4226]) {
    decisions.fill(7);
}

// The places of an output as digits.
fn put_out(out: &[u8; 14]) {
    for place in out.iter() {
        show_one(b"#", small(*place));
    }
}

fn number(m: Result<usize, Refusal>) -> usize {
    row(m.map(|_| ()))
}

// The list whole, and the words that became 0.
fn put_lent(list: &[u32; 6], decisions: &[u64; 4226]) {
    let found = [
        wide(list[0]),
        wide(list[1]),
        wide(list[2]),
        wide(list[3]),
        wide(list[4]),
        wide(list[5]),
        words_of(decisions, 0, 4226, 0),
    ];
    show(b", list # # # # # #, words of 0: #\n", &found);
}

// One stretch, with all that was lent.
fn stretch(stored: u32, steps: usize, start: u8, end: u8, decisions: &mut [u64; 4226]) {
    reset_words(decisions);
    let bits = unpack(stored);
    let mut out = [9u8; 14];
    let mut list = [77u32; 6];
    let n = steps % 8 * 2;
    let m = mend_stretch(front(&bits, n), start, end, decisions, &mut out, &mut list);
    let found = [steps, small(start), small(end), number(m), m.unwrap_or(0)];
    show(b"steps # from # to #: answer #, changed #, output ", &found);
    put_out(&out);
    put_lent(&list, decisions);
}

fn cases(decisions: &mut [u64; 4226]) {
    stretch(0, 0, 67, 3, decisions);
    stretch(0, 0, 3, 4, decisions);
    stretch(0, 1, 0, 32, decisions);
    stretch(0, 1, 0, 1, decisions);
    stretch(23, 7, 0, 0, decisions);
    stretch(55, 7, 0, 0, decisions);
    stretch(119, 7, 128, 192, decisions);
}

// The answer of the first n bits from state 0 to state 0, where the output, the list and the words are so long.
fn answer_of(
    bits: &[u8],
    n: usize,
    out: &mut [u8],
    places: usize,
    list: &mut [u32],
    positions: usize,
    decisions: &mut [u64],
    words: usize,
) -> usize {
    if n > bits.len() {
        return 99;
    }
    if places > out.len() {
        return 99;
    }
    if positions > list.len() {
        return 99;
    }
    if words > decisions.len() {
        return 99;
    }
    let m = mend_stretch(
        &bits[..n],
        0,
        64,
        &mut decisions[..words],
        &mut out[..places],
        &mut list[..positions],
    );
    number(m)
}

// The row of a stretch whose first byte is `first`.
fn row_of(
    n: usize,
    first: u8,
    places: usize,
    positions: usize,
    words: usize,
    bits: &mut [u8; 8194],
    out: &mut [u8; 8194],
    decisions: &mut [u64; 4226],
) {
    let mut list = [77u32; 4];
    bits[0] = first;
    let answer = answer_of(bits, n, out, places, &mut list, positions, decisions, words);
    let found = [n, small(first), places, positions, words, answer];
    show(
        b"bits #, the first #, output #, list #, words #: answer #\n",
        &found,
    );
}

fn rows_on(bits: &mut [u8; 8194], out: &mut [u8; 8194], decisions: &mut [u64; 4226]) {
    let ns = [3usize, 8194, 8192, 14, 14, 14, 14, 14, 2, 0];
    let firsts = [0u8, 0, 0, 2, 2, 0, 0, 0, 1, 0];
    let places = [8194usize, 8194, 8192, 14, 13, 13, 14, 14, 1, 0];
    let positions = [4usize, 4, 4, 4, 3, 4, 3, 4, 4, 4];
    let words = [
        FRAME_WORDS,
        FRAME_WORDS,
        FRAME_WORDS,
        FRAME_WORDS,
        4223,
        FRAME_WORDS,
        FRAME_WORDS,
        4223,
        FRAME_WORDS,
        FRAME_WORDS,
    ];
    for k in 0..10usize {
        row_of(
            ns[k],
            firsts[k],
            places[k],
            positions[k],
            words[k],
            bits,
            out,
            decisions,
        );
    }
}

fn rows(decisions: &mut [u64; 4226]) {
    let mut bits = [0u8; 8194];
    let mut out = [9u8; 8194];
    rows_on(&mut bits, &mut out, decisions);
}

// The coded bits of 4,096 inputs from the state 5. The state that they lead to.
fn encode_long(bits: &mut [u8; 8192]) -> u8 {
    let mut enc = ConvEncoder { state: 5 };
    for t in 0..4096usize {
        let Ok(pushed) = enc.push((t / 3 % 2) as u8) else {
            break;
        };
        bits[2 * t] = pushed.x;
        bits[2 * t + 1] = pushed.y;
        let after = pushed.enc;
        enc = after;
    }
    enc.state()
}

fn flip(bits: &mut [u8; 8192], k: usize) {
    if k < 8192 {
        bits[k] = 1 - bits[k] % 2;
    }
}

// Makes the first `wrong` of the places 8191, 4096, 1, 0 and 8190 wrong.
fn spoil(bits: &mut [u8; 8192], wrong: usize) {
    let places = [8191usize, 4096, 1, 0, 8190];
    for place in places.iter().take(wrong) {
        flip(bits, *place);
    }
}

// 4,096 steps with so many wrong bits.
fn long(
    wrong: usize,
    sent: &mut [u8; 8192],
    bits: &mut [u8; 8192],
    out: &mut [u8; 8192],
    decisions: &mut [u64; 4226],
) {
    reset_words(decisions);
    let end = encode_long(sent);
    encode_long(bits);
    spoil(bits, wrong);
    let mut list = [77u32; 6];
    let m = mend_stretch(bits, 5, end, decisions, out, &mut list);
    let found = [
        wrong,
        number(m),
        m.unwrap_or(0),
        8192 - alike(out, 0, sent, 8192),
    ];
    show(
        b"steps 4096, wrong bits #: answer #, changed #, output unlike what was sent in #",
        &found,
    );
    put_lent(&list, decisions);
}

fn longs(decisions: &mut [u64; 4226]) {
    let mut sent = [0u8; 8192];
    let mut bits = [0u8; 8192];
    let mut out = [9u8; 8192];
    for wrong in [5usize, 4, 1, 0] {
        long(wrong, &mut sent, &mut bits, &mut out, decisions);
    }
}

// Every stretch of fewer than `count` steps.
fn surveys(count: usize, start: u8, decisions: &mut [u64; 4226]) {
    for n in 0..count {
        survey(n, start, decisions);
    }
}

fn main() {
    let mut decisions = [7u64; 4226];
    cases(&mut decisions);
    rows(&mut decisions);
    longs(&mut decisions);
    surveys(8, 0, &mut decisions);
    surveys(6, 45, &mut decisions);
}
