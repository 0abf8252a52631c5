// The ISDB-T calls on generated streams, held to what the given Rust made of them: data/isdbt.txt, written by compare/isdbt_vectors.sh. A
// line: the call (e: encode_punctured twice, the encoder carried on; p: depuncture; v: decode_punctured), the rate's row in Table 3-8, the
// traceback, the periods, and a digest of the output, all in hexadecimal. Lines that differ are shown, then how many agree and differ.
#![tactic(auto)]

ghost use Rattle.std.specs.Prelude.{◌≤◌, ◌<◌};

use cases_lib::{agreeing, float_bits, float_of, number, show_agreeing, small, wide};
use isdb_fec::conv::ConvEncoder;
use isdbt_fec::conv::{CodeRate, Puncturing, decode_punctured, depuncture, encode_punctured};
use std::fs::File;
use std::os::fd::AsRawFd;

const LINES: usize = 220;

// The generator of the streams.
fn draw(seed: u64) -> u64
    ensures { result < 4294967296 }
{
    (seed % 4294967296 * 1103515245 + 12345) % 4294967296
}

// The digest with one number more.
fn digested(digest: u64, value: usize) -> u64 {
    (digest % 4294967291 * 1000003 + value as u64 % 4294967296 + 1) % 4294967291
}

// A soft value from two numbers: from 2^-8 to 2^8, of either sign.
fn soft_of(a: u64, b: u64) -> f32
    requires { (a < 65536) × (b < 65536) }
{
    float_of((a % 2 * 0x8000_0000 + (119 + a / 2 % 16) * 0x80_0000 + b * 128) as u32)
}

fn fill_bytes(out: &mut [u8], seed: u64) {
    let mut s = seed;
    for x in out.iter_mut() {
        s = draw(s);
        *x = (s / 65536 % 256) as u8;
    }
}

fn fill_values(out: &mut [f32], seed: u64) {
    let mut s = seed;
    for x in out.iter_mut() {
        let a = draw(s);
        s = draw(a);
        *x = soft_of(a / 65536, s / 65536);
    }
}

fn digest_bytes(start: u64, bytes: &[u8]) -> u64 {
    bytes
        .iter()
        .fold(start, |digest, &x| digested(digest, small(x)))
}

fn digest_values(start: u64, values: &[f32]) -> u64 {
    values
        .iter()
        .fold(start, |digest, &x| digested(digest, wide(float_bits(x))))
}

// What a line asks for.
#[derive(Clone, Copy)]
struct Case {
    call: u8,
    rate: CodeRate,
    seed: u64,
    traceback: usize,
    periods: usize,
}

// The elements of so many periods; 0 where the line asks for more than the lists have.
fn elements(periods: usize, per: usize) -> usize {
    if periods > 10000 {
        return 0;
    }
    if per > 14 {
        return 0;
    }
    periods * per
}

// One encoding: the digest goes on with the sent bits and the state.
#[derive(Clone, Copy)]
struct Sent {
    enc: ConvEncoder,
    digest: u64,
}

fn encoding(enc: ConvEncoder, rate: CodeRate, digest: u64, bits: &[u8], out: &mut [u8]) -> Sent {
    let Ok(r) = encode_punctured(enc, rate, bits, out) else {
        return Sent { enc, digest: 1 };
    };
    let next = r.enc;
    Sent {
        enc: next,
        digest: digested(digest_bytes(digest, out), small(next.state)),
    }
}

// The bits encoded twice, the encoder carried on.
fn encode_twice(c: Case, bits: &mut [u8], out: &mut [u8]) -> u64 {
    let rate = c.rate;
    fill_bytes(bits, c.seed);
    let first = encoding(ConvEncoder::new(), rate, 0, bits, out);
    let enc = first.enc;
    let second = encoding(enc, rate, first.digest, bits, out);
    second.digest
}

fn depunctured(c: Case, values: &mut [f32], out: &mut [f32]) -> u64 {
    fill_values(values, c.seed);
    let rate = c.rate;
    let Ok(_) = depuncture(rate, values, out) else {
        return 1;
    };
    digest_values(0, out)
}

fn decoded(c: Case, values: &mut [f32], decisions: &mut [u64], out: &mut [u8]) -> u64 {
    fill_values(values, c.seed);
    let rate = c.rate;
    let Ok(count) = decode_punctured(rate, values, c.traceback, decisions, out) else {
        return 1;
    };
    digest_bytes(count as u64, out)
}

// The same on as much of the lists as the call needs, no place more; 1 where they are too short.
fn encode_case(c: Case, bytes: &mut [u8], out: &mut [u8]) -> u64 {
    let rate = c.rate;
    let p = Puncturing::new(rate);
    let count = elements(c.periods, p.period);
    let sent = elements(c.periods, p.n);
    if count > bytes.len() {
        return 1;
    }
    if sent > out.len() {
        return 1;
    }
    encode_twice(c, &mut bytes[..count], &mut out[..sent])
}

fn depuncture_case(c: Case, values: &mut [f32], out: &mut [f32]) -> u64 {
    let rate = c.rate;
    let p = Puncturing::new(rate);
    let count = elements(c.periods, p.n);
    let all = elements(c.periods, p.period % 8 * 2);
    if count > values.len() {
        return 1;
    }
    if all > out.len() {
        return 1;
    }
    depunctured(c, &mut values[..count], &mut out[..all])
}

fn decode_case(c: Case, values: &mut [f32], decisions: &mut [u64], out: &mut [u8]) -> u64 {
    let rate = c.rate;
    let p = Puncturing::new(rate);
    let count = elements(c.periods, p.n);
    let all = elements(c.periods, p.period);
    if count > values.len() {
        return 1;
    }
    if all > out.len() {
        return 1;
    }
    decoded(c, &mut values[..count], decisions, &mut out[..all])
}

fn rate_of(row: u64) -> CodeRate {
    match row {
        0 => CodeRate::R1_2,
        1 => CodeRate::R2_3,
        2 => CodeRate::R3_4,
        3 => CodeRate::R5_6,
        _ => CodeRate::R7_8,
    }
}

fn case_of(line: &[u8]) -> Case {
    let row = number(line, 2, 3) % 16;
    let periods = number(line, 9, 14) % 0x10_0000;
    Case {
        call: line.first().copied().unwrap_or(b'd'),
        rate: rate_of(row),
        seed: row * 100000 + periods,
        traceback: (number(line, 4, 8) % 0x1_0000) as usize,
        periods: periods as usize,
    }
}

// The digest of a call on the lists lent.
fn answer(
    c: Case,
    values: &mut [f32; 18688],
    spread: &mut [f32; 9856],
    decisions: &mut [u64; 5120],
    bytes: &mut [u8; 9472],
    out: &mut [u8; 9472],
) -> u64 {
    let call = c.call;
    match call {
        b'e' => encode_case(c, bytes, out),
        b'p' => depuncture_case(c, values, spread),
        _ => decode_case(c, values, decisions, out),
    }
}

// Whether the call gives the line's digest.
fn agrees(line: &[u8]) -> bool {
    let mut values = [0.0f32; 18688];
    let mut spread = [0.0f32; 9856];
    let mut decisions = [0u64; 5120];
    let mut bytes = [0u8; 9472];
    let mut out = [0u8; 9472];
    let given = answer(
        case_of(line),
        &mut values,
        &mut spread,
        &mut decisions,
        &mut bytes,
        &mut out,
    );
    given == number(line, 15, 23)
}

fn main(rt: HostRuntime) {
    let path = "isdbt.txt";
    let file = match File::open(&rt, path) {
        Ok(file) => file,
        Err(e) => {
            let _ = eprintln!(rt; "{path}: {e}");
            return;
        }
    };
    let agree = agreeing(file.as_raw_fd(), LINES, &mut [0u8; 24], agrees);
    show_agreeing(agree, LINES);
}
