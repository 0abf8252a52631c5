// The words of a command: parts of a line, and what they mean.
ghost use Rattle.std.specs.Prelude.{◌≡◌, ◌+◌, ◌-◌, ◌*◌, ◌^◌, ◌<◌, ◌≤◌, ◌==◌, cond, false, nat_le, None, Some};
ghost use Rattle.std.specs.Float.{binary32};
ghost use Rattle.std.specs.Float.Ieee.{round};
ghost use Rattle.bench_line.specs.Numbers.{digit_of, digits_of, scale_from, scale_of};
ghost use Rattle.bench_line.specs.NumberLaws.{most, Below};
ghost use Rattle.bench_line.specs.Words.{entry_from, entry_of, entry_at, table_of, is_flag, mapping_of, narrow_name};

pub use bench_split::{front, part, parts, same};
use isdbs_core::tmcc;
use isdbs_core::tmcc::{Entry, Table};
use isdbs_points::Mapping;

// The number of a digit.
fn digit(b: u8) -> Option<u32>
    ensures { result ≡ cond (nat_le (digit_of b) 9) (Some (digit_of b)) None }
{
    match b {
        b'0'..=b'9' => Some(u32::from(b - b'0')),
        _ => None,
    }
}

// A number of one to seven decimal digits.
pub fn digits(s: &[u8]) -> Option<u32>
    ensures { result ≡ digits_of s.now }
{
    if s.is_empty() {
        return None;
    }
    if s.len() > 7 {
        return None;
    }
    let mut value: u32 = 0;
    for b in s {
        value = value * 10 + digit(*b)?;
    }
    Some(value)
}

// An entry of a word up to 15 and a slot count up to 255.
fn entry_from(word: Option<u32>, slots: Option<u32>) -> Option<Entry>
    ensures { result ≡ entry_from word slots }
{
    let w = word?;
    let n = slots?;
    if w > 15 || n > 255 {
        return None;
    }
    Some(Entry {
        word: w as u8,
        slots: n as u8,
    })
}

// word:slots.
fn entry_of(s: &[u8]) -> Option<Entry>
    ensures { result ≡ entry_of s.now }
{
    if parts(s, b':') != 2 {
        return None;
    }
    entry_from(digits(part(s, b':', 0)), digits(part(s, b':', 1)))
}

// Entry i of a table, one not in use where the table has fewer.
fn entry_at(s: &[u8], i: usize) -> Option<Entry>
    ensures { result ≡ entry_at s.now i }
{
    if i < parts(s, b',') {
        entry_of(part(s, b',', i))
    } else {
        Some(tmcc::DUMMY)
    }
}

// One to four entries joined by commas.
pub fn table(s: &[u8]) -> Option<Table>
    ensures { result ≡ table_of s.now }
{
    if parts(s, b',') > 4 {
        return None;
    }
    let a = entry_at(s, 0)?;
    let b = entry_at(s, 1)?;
    let c = entry_at(s, 2)?;
    let d = entry_at(s, 3)?;
    Some(Table {
        entries: [a, b, c, d],
    })
}

// What a digit 0 or 1 says.
fn flag(b: u8) -> Option<bool>
    ensures { result ≡ cond (is_flag b) (Some (b == 49)) None }
{
    if b == b'0' {
        Some(false)
    } else if b == b'1' {
        Some(true)
    } else {
        None
    }
}

// Three digits 0 or 1: conjugate, qpsk_p1_on_q, tc8psk_c1_is_y.
pub fn mapping(s: &[u8]) -> Option<Mapping>
    ensures { result ≡ mapping_of s.now }
{
    if s.len() != 3 {
        return None;
    }
    let conjugate = flag(s[0])?;
    let qpsk_p1_on_q = flag(s[1])?;
    let tc8psk_c1_is_y = flag(s[2])?;
    Some(Mapping {
        conjugate,
        qpsk_p1_on_q,
        tc8psk_c1_is_y,
    })
}

// whole and a fraction of n digits, in thousandths.
fn thousandths(whole: u32, fraction: u32, n: usize) -> u32
    requires { (whole < 1000) × ((n ≤ 3) × (fraction < most n)) }
    ensures { (result ≡ whole * 1000 + fraction * 10 ^ (3 - n)) × (result < 1000000) }
{
    match n {
        0 => whole * 1_000,
        1 => whole * 1_000 + fraction * 100,
        2 => whole * 1_000 + fraction * 10,
        _ => whole * 1_000 + fraction,
    }
}

// The f32 nearest to a number in thousandths: both sides of the division are exact.
fn decimal(thousandths: u32) -> f32
    requires { thousandths < 1000000 }
    ensures { result ≡ round binary32 false thousandths 1000 }
{
    std::num::nearest_u32_to_f32(thousandths) / 1_000.0f32
}

// The scale of the digits before a point, and of the n digits after it where there is one.
fn scale_from(plain: bool, whole: Option<u32>, fraction: Option<u32>, n: usize) -> Option<f32>
    requires { (n ≤ 3) × (Below 1000 whole × Below (most n) fraction) }
    ensures { result ≡ scale_from plain whole fraction n }
{
    let w = whole?;
    if plain {
        return Some(decimal(thousandths(w, 0, 0)));
    }
    let f = fraction?;
    Some(decimal(thousandths(w, f, n)))
}

// Up to three digits, and up to three more after a point.
pub fn scale(s: &[u8]) -> Option<f32>
    ensures { result ≡ scale_of s.now }
{
    let before = part(s, b'.', 0);
    let after = part(s, b'.', 1);
    let n = after.len();
    let count = parts(s, b'.');
    if count > 2 {
        return None;
    }
    if before.len() > 3 {
        return None;
    }
    if n > 3 {
        return None;
    }
    scale_from(count == 1, digits(before), digits(after), n)
}

// Whether a file's name says that its points are of f32 parts.
pub fn is_narrow(name: &[u8]) -> bool
    ensures { result ≡ narrow_name name.now }
{
    let n = name.len();
    if n < 5 {
        return false;
    }
    same(&name[n - 5..], b".cf32")
}
