// Points as bytes: real and imaginary parts in turn, the low byte first, of f64 (cf64_le), f32 (cf32_le) or 16-bit integers in units of 1/32,768 (ci16_le).
ghost use Rattle.std.specs.Prelude.{◌<◌, ◌≤◌};

use crate::forms::Form;

// The bytes that are read or written at a time.
pub const BLOCK: usize = 65_536;

// A point.
#[derive(Clone, Copy)]
pub struct Point {
    pub re: f64,
    pub im: f64,
}

// The f64 of a pattern, a NaN's too.
fn f64_of(bits: u64) -> f64 {
    if bits % 0x8000_0000_0000_0000 <= 0x7ff0_0000_0000_0000 {
        f64::from_bits(bits)
    } else {
        0.0f64 / 0.0f64
    }
}

// The f32 of a pattern, a NaN's too.
fn f32_of(bits: u32) -> f32 {
    if bits % 0x8000_0000 <= 0x7f80_0000 {
        f32::from_bits(bits)
    } else {
        0.0f32 / 0.0f32
    }
}

// The number of the four bytes from `at` on; 0 where the block ends before.
fn four_at(b: &[u8; BLOCK], at: usize) -> u32 {
    if at > BLOCK - 4 {
        return 0;
    }
    u32::from_le_bytes([b[at], b[at + 1], b[at + 2], b[at + 3]])
}

fn f64_at(b: &[u8; BLOCK], at: usize) -> f64
    requires { at ≤ 1048584 }
{
    f64_of(u64::from(four_at(b, at)) + u64::from(four_at(b, at + 4)) * 0x1_0000_0000)
}

fn f32_at(b: &[u8; BLOCK], at: usize) -> f64 {
    std::num::f32_to_f64_with_nan(f32_of(four_at(b, at)))
}

// The part that two bytes in two's complement give, in units of 1/32,768: every step is exact.
fn f64_of_i16(low: u8, high: u8) -> f64 {
    let n = std::num::nearest_u64_to_f64(u64::from(u16::from_le_bytes([low, high])));
    if high < 128 {
        return n / 32_768.0f64;
    }
    (n - 65_536.0f64) / 32_768.0f64
}

fn read_f64(b: &[u8; BLOCK], at: usize) -> Point
    requires { at ≤ 1048576 }
{
    Point {
        re: f64_at(b, at),
        im: f64_at(b, at + 8),
    }
}

fn read_f32(b: &[u8; BLOCK], at: usize) -> Point
    requires { at ≤ 1048576 }
{
    Point {
        re: f32_at(b, at),
        im: f32_at(b, at + 4),
    }
}

fn read_i16(b: &[u8; BLOCK], at: usize) -> Point {
    if at > BLOCK - 4 {
        return Point {
            re: 0.0f64,
            im: 0.0f64,
        };
    }
    Point {
        re: f64_of_i16(b[at], b[at + 1]),
        im: f64_of_i16(b[at + 2], b[at + 3]),
    }
}

// Where point i of a block begins.
fn place_of(form: Form, i: usize) -> usize
    ensures { result ≤ 1048576 }
{
    if i > BLOCK {
        return BLOCK;
    }
    match form {
        Form::F32 => 8 * i,
        Form::I16 => 4 * i,
        Form::F64 => 16 * i,
    }
}

// Point i of a block.
pub fn point_of(form: Form, b: &[u8; BLOCK], i: usize) -> Point {
    let at = place_of(form, i);
    match form {
        Form::F32 => read_f32(b, at),
        Form::I16 => read_i16(b, at),
        Form::F64 => read_f64(b, at),
    }
}

// The pattern of an f64, one for every NaN.
pub fn f64_bits(x: f64) -> u64 {
    if x != x {
        return 0x7ff8_0000_0000_0000;
    }
    f64::to_bits(x)
}

// The pattern of the f32 nearest to x.
fn f32_bits(x: f64) -> u32 {
    let y = ieee_cast::soft(x);
    if y != y {
        return 0x7fc0_0000;
    }
    f32::to_bits(y)
}

// Puts a point's parts as f64 at a place of a block, the low byte first, where they fit.
fn put_f64(b: &mut [u8; BLOCK], at: usize, x: f64, y: f64) {
    if at <= BLOCK - 16 {
        b[at..at + 8].copy_from_slice(&f64_bits(x).to_le_bytes());
        b[at + 8..at + 16].copy_from_slice(&f64_bits(y).to_le_bytes());
    }
}

// The same as f32.
fn put_f32(b: &mut [u8; BLOCK], at: usize, x: f64, y: f64) {
    if at <= BLOCK - 8 {
        b[at..at + 4].copy_from_slice(&f32_bits(x).to_le_bytes());
        b[at + 4..at + 8].copy_from_slice(&f32_bits(y).to_le_bytes());
    }
}

// Puts a point at place i of a block, as f32 or as f64.
pub fn put_point(form: Form, b: &mut [u8; BLOCK], i: usize, x: f64, y: f64) {
    let at = place_of(form, i);
    match form {
        Form::F32 => put_f32(b, at, x, y),
        _ => put_f64(b, at, x, y),
    }
}
