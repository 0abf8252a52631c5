// What is written on standard output.
use bench_line::words::{part, parts};
use isdbs_core::combination::Combination;

// The number of standard output.
const STDOUT_FILENO: i32 = 1;

pub fn text(s: &[u8]) {
    io::write_all(STDOUT_FILENO, s);
}

fn plain(n: u64) {
    io::print_decimal(STDOUT_FILENO, n);
}

// Three digits after a comma.
fn three(n: u64) {
    text(b",");
    plain(n / 100 % 10);
    plain(n / 10 % 10);
    plain(n % 10);
}

// A number below a thousand million, with a comma at each thousand.
pub fn number(n: u64) {
    if n < 1_000 {
        plain(n);
        return;
    }
    if n < 1_000_000 {
        plain(n / 1_000);
    } else {
        plain(n / 1_000_000);
        three(n / 1_000);
    }
    three(n);
}

pub fn count(n: usize) {
    number(n as u64);
}

// Writes a form, each $ of it replaced by the next of the numbers.
pub fn say(form: &[u8], numbers: &[usize]) {
    for i in 0..parts(form, b'$') {
        text(part(form, b'$', i));
        if let Some(n) = numbers.get(i) {
            count(*n);
        }
    }
}

pub fn byte(b: u8) {
    io::print_hex(STDOUT_FILENO, b as u64, 2);
}

// Whether a byte is shown as it is: no control byte.
fn is_shown(b: u8) -> bool {
    b >= 32 && b != 127
}

// A byte of a name: a control byte as \x and its two digits.
fn letter(b: u8) {
    if is_shown(b) {
        text(&[b]);
        return;
    }
    text(b"\\x");
    byte(b);
}

// A name with its control bytes as \x and their digits, so that it stays within its line.
pub fn name(s: &[u8]) {
    if s.iter().all(|b| is_shown(*b)) {
        text(s);
        return;
    }
    for b in s {
        letter(*b);
    }
}

// A name in quotation marks.
pub fn quoted(s: &[u8]) {
    text(b"\"");
    name(s);
    text(b"\"");
}

// A form, its $ replaced by a name in quotation marks.
pub fn say_named(form: &[u8], s: &[u8]) {
    text(part(form, b'$', 0));
    quoted(s);
    text(part(form, b'$', 1));
}

// Part k of a list, whose parts are separated by bars.
pub fn one_of(list: &[u8], k: usize) {
    text(part(list, b'|', k));
}

// A file by its kind and name, and n of what it holds.
pub fn file(kind: &[u8], path: &[u8], n: usize, what: &[u8]) {
    text(kind);
    text(b" ");
    quoted(path);
    say(b": $", &[n]);
    text(what);
}

pub fn combination(c: Combination) {
    text(match c {
        Combination::Bpsk1_2 => b"BPSK 1/2",
        Combination::Qpsk1_2 => b"QPSK 1/2",
        Combination::Qpsk2_3 => b"QPSK 2/3",
        Combination::Qpsk3_4 => b"QPSK 3/4",
        Combination::Qpsk5_6 => b"QPSK 5/6",
        Combination::Qpsk7_8 => b"QPSK 7/8",
        Combination::Tc8psk2_3 => b"TC8PSK 2/3",
    });
}
