// Length 7 with 171 and 133 octal beside the calls of isdb_fec: the same inputs to both, with the numbers, the states, the counts, the decisions and the output
// compared. Calls of 4,500 and 9,000 steps, so that bits are released, and calls that are refused.
#![tactic(auto)]

ghost use Rattle.std.specs.Prelude.{◌+◌, ◌*◌, ◌≤◌, ◌<◌};

use cases_lib::{alike, least, one, row, show_line, show_one};
use cases_paths::next;
use isdb_fec::conv::{ConvEncoder, Released, ViterbiDecoder};
use refusal::Refusal;
use short_fec::Code;
use trellis::FRAME_WORDS;

fn seven() -> Code {
    short_same::isdb_code()
}

fn same_state(a: ViterbiDecoder, b: ViterbiDecoder) -> bool {
    (a.held == b.held) & (a.traceback == b.traceback) & (a.pm == b.pm)
}

fn same_made(a: Result<ViterbiDecoder, Refusal>, b: Result<ViterbiDecoder, Refusal>) -> bool {
    match (a, b) {
        (Ok(v), Ok(w)) => same_state(v, w),
        (Err(x), Err(y)) => row(Err(x)) == row(Err(y)),
        _ => false,
    }
}

// A soft value from -8 to 8.
fn soft(x: u32) -> f32 {
    let b = (x / 256 % 65) as u8;
    let m = b as f32;
    m / 4.0 - 8.0
}

fn fill_values(values: &mut [f32; 18000], seed: u32) {
    let mut x = seed % 65536;
    for value in values.iter_mut() {
        x = next(x);
        *value = soft(x);
    }
}

fn fill_bits(bits: &mut [u8; 4500], seed: u32) {
    let mut x = seed % 65536;
    for bit in bits.iter_mut() {
        x = next(x);
        *bit = (x / 256) as u8;
    }
}

// Fresh decoders at the state s, with a traceback that may be refused.
fn fresh_agree(s: u8) -> bool {
    let tb = 8 * usize::from(s);
    let given = same_made(
        short_fec::with_state(seven(), tb, s),
        ViterbiDecoder::with_state(tb, s),
    );
    let unknown = same_made(
        short_fec::new_unknown_state(seven(), tb),
        ViterbiDecoder::new_unknown_state(tb),
    );
    given & unknown
}

// The encoder at the state s, which may be past the last.
fn bit_agrees(s: u8, u: u8) -> bool {
    let enc = ConvEncoder { state: s };
    match (short_fec::push_bit(seven(), enc, u), enc.push(u)) {
        (Ok(a), Ok(b)) => {
            let after = a.enc;
            let other = b.enc;
            (a.x == b.x) & (a.y == b.y) & (after.state == other.state)
        }
        (Err(x), Err(y)) => row(Err(x)) == row(Err(y)),
        _ => false,
    }
}

// Every state and more, with the inputs 254 and 3.
fn starts() -> bool {
    (0..=255u8).all(|s| fresh_agree(s) && bit_agrees(s, 254) && bit_agrees(s, 3))
}

// ---- calls one after another

#[derive(Clone, Copy)]
enum Call {
    Push,
    Metrics,
    Known,
    FlushAt(u8),
    Flush,
}

// Call k of the row.
fn call_of(k: usize) -> Call {
    match k {
        0 | 3 => Call::Push,
        1 | 4 | 6 => Call::Metrics,
        2 | 9 => Call::Known,
        5 => Call::FlushAt(77),
        10 => Call::FlushAt(3),
        _ => Call::Flush,
    }
}

// What it is lent of the values: all, a number that is no whole one of pairs, a few.
fn lent(k: usize) -> usize {
    match k {
        3 | 4 => 3,
        6 => 400,
        _ => 18000,
    }
}

// The answer's number.
fn expected(k: usize) -> usize {
    match k {
        3 | 4 => 5,
        8 => 3,
        9 => 4,
        10 => 9,
        _ => 0,
    }
}

// Its decoder: that of the call before it; the last three are refused for traceback, words held and space.
fn handed(k: usize, dec: ViterbiDecoder) -> ViterbiDecoder {
    let pm = dec.pm;
    let held = if k == 9 { FRAME_WORDS } else { 0 };
    let traceback = match k {
        8 => 1025,
        9 => 128,
        _ => 1000,
    };
    if k < 8 {
        dec
    } else {
        ViterbiDecoder {
            pm,
            held,
            traceback,
        }
    }
}

fn by_code(
    call: Call,
    dec: ViterbiDecoder,
    values: &[f32],
    bits: &[u8; 4500],
    words: &mut [u64; 4300],
    out: &mut [u8; 9000],
) -> Result<Released, Refusal> {
    match call {
        Call::Push => short_fec::push(seven(), dec, values, words, out),
        Call::Metrics => short_fec::push_metrics(seven(), dec, values, words, out),
        Call::Known => short_fec::push_known(seven(), dec, bits, words, out),
        Call::FlushAt(end) => short_fec::flush_at(seven(), dec, end, words, out),
        Call::Flush => short_fec::flush(seven(), dec, words, out),
    }
}

fn by_isdb(
    call: Call,
    dec: ViterbiDecoder,
    values: &[f32],
    bits: &[u8; 4500],
    words: &mut [u64; 4300],
    out: &mut [u8; 9000],
) -> Result<Released, Refusal> {
    match call {
        Call::Push => dec.push(values, words, out),
        Call::Metrics => dec.push_metrics(values, words, out),
        Call::Known => dec.push_known(bits, words, out),
        Call::FlushAt(end) => dec.flush_at(end, words, out),
        Call::Flush => dec.flush(words, out),
    }
}

// The line of a call's name.
fn name(call: Call) -> usize {
    match call {
        Call::Push => 1,
        Call::Metrics => 2,
        Call::Known => 3,
        Call::FlushAt(_) => 4,
        Call::Flush => 5,
    }
}

fn show_call(call: Call, holds: bool) {
    show_line(
        b"push\npush_metrics\npush_known\nflush_at\nflush",
        name(call),
    );
    show_one(b" &s\n", one(holds));
}

// Whether two results are the same, with the number that is expected.
fn same_result(k: usize, a: Result<Released, Refusal>, b: Result<Released, Refusal>) -> bool {
    match (a, b) {
        (Ok(r), Ok(s)) => (expected(k) == 0) & (r.count == s.count) & same_state(r.dec, s.dec),
        (Err(x), Err(y)) => (row(Err(x)) == expected(k)) & (row(Err(y)) == expected(k)),
        _ => false,
    }
}

// The first n values.
fn front<'a>(values: &'a [f32; 18000], n: usize) -> &'a [f32] {
    let all: &[f32] = values;
    let end = least(n, all.len());
    &all[0..end]
}

// Call k by both, and how the states go on: where it is refused, with the decoder that was handed.
fn compared(
    k: usize,
    before: ViterbiDecoder,
    values: &[f32; 18000],
    bits: &[u8; 4500],
    words: &mut [u64; 4300],
    others: &mut [u64; 4300],
    out: &mut [u8; 9000],
    other: &mut [u8; 9000],
) -> ViterbiDecoder {
    let dec = handed(k, before);
    let xs = front(values, lent(k));
    let a = by_code(call_of(k), dec, xs, bits, words, out);
    let b = by_isdb(call_of(k), dec, xs, bits, others, other);
    let same = same_result(k, a, b) & (*words == *others);
    show_call(call_of(k), same & (alike(out, 0, other, 9000) == 9000));
    a.map_or(dec, |r| r.dec)
}

fn run(values: &[f32; 18000], bits: &[u8; 4500]) {
    let mut words = [7u64; 4300];
    let mut others = [7u64; 4300];
    let mut out = [9u8; 9000];
    let mut other = [9u8; 9000];
    let Ok(made) = short_fec::with_state(seven(), 128, 69) else {
        return;
    };
    let mut dec = made;
    for k in 0..11usize {
        dec = compared(
            k,
            dec,
            values,
            bits,
            &mut words,
            &mut others,
            &mut out,
            &mut other,
        );
    }
}

fn main() {
    show_one(b"fresh decoders and the encoder &s\n", one(starts()));
    let mut values = [0.0f32; 18000];
    let mut bits = [0u8; 4500];
    fill_values(&mut values, 1);
    fill_bits(&mut bits, 2);
    run(&values, &bits);
}
