// What the executed programs share: lines of text with numbers, pseudo-random numbers, comparing and counting, the hexadecimal numbers of a stored line. All calls are total.
#![tactic(auto)]

ghost use Rattle.std.specs.Prelude.{◌+◌, ◌≤◌, ◌<◌, length};

use refusal::Refusal;

// The number of standard output.
const STDOUT_FILENO: i32 = 1;

// ---- lines

pub fn text(s: &[u8]) {
    io::write_all(STDOUT_FILENO, s);
}

fn put(byte: u8) {
    let one = [byte];
    text(&one);
}

pub fn end_line() {
    put(b'\n');
}

// The last decimal digit.
fn digit_of(n: usize) -> u8 {
    b'0' + (n % 10) as u8
}

fn put_three(n: usize) {
    let digits = [digit_of(n / 100), digit_of(n / 10), digit_of(n)];
    text(&digits);
}

fn put_five(n: usize) {
    put_three(n / 100);
    let digits = [digit_of(n / 10), digit_of(n)];
    text(&digits);
}

fn put_holds(n: usize) {
    if n == 1 {
        text(b"holds");
    } else {
        text(b"FAILS");
    }
}

fn put_agree(n: usize) {
    if n == 1 {
        text(b"agree");
    } else {
        text(b"DIFFER");
    }
}

fn put_decimal(n: usize) {
    io::print_decimal(STDOUT_FILENO, n as u64);
}

fn put_number(mark: u8, n: usize) {
    match mark {
        b'#' => put_decimal(n),
        b'%' => put_three(n),
        b'$' => put_five(n),
        b'&' => put_agree(n),
        _ => put_holds(n),
    }
}

fn is_mark(byte: u8) -> bool {
    matches!(byte, b'#' | b'%' | b'$' | b'&' | b'@')
}

// A byte of a text, or the number that stands for it. How many numbers were shown.
fn put_next(byte: u8, numbers: &[usize], k: usize) -> usize {
    if k < numbers.len() {
        if is_mark(byte) {
            put_number(byte, numbers[k]);
            return k + 1;
        }
    }
    put(byte);
    k
}

// A text with numbers, a mark for each: # in decimal, % by three digits, $ by five, & for "agree" where it is 1 and else "DIFFER", @ for "holds" or "FAILS".
pub fn show(words: &[u8], numbers: &[usize]) {
    let mut k: usize = 0;
    for b in words {
        k = put_next(*b, numbers, k);
    }
}

// A text with one number.
pub fn show_one(words: &[u8], number: usize) {
    let numbers = [number];
    show(words, &numbers);
}

// A byte of the lines, where it stands in the first of those left. How many lines are still before the one that is shown.
fn put_left(byte: u8, left: usize) -> usize {
    if byte == b'\n' {
        return left.saturating_sub(1);
    }
    if left == 1 {
        put(byte);
    }
    left
}

// Line k of a text, the first being 1, without its end.
pub fn show_line(lines: &[u8], k: usize) {
    let mut left = k;
    for b in lines {
        left = put_left(*b, left);
    }
}

fn put_bit(bit: u8) {
    match bit {
        0 => put(b'0'),
        1 => put(b'1'),
        _ => put(b'?'),
    }
}

// Bits as 0 and 1, anything else as ?.
pub fn show_bits(bits: &[u8]) {
    for b in bits {
        put_bit(*b);
    }
}

// ---- numbers

// The row's number, and 0 for accepted.
pub fn row(answer: Result<(), Refusal>) -> usize {
    refusal::number(answer) as usize
}

// To be counted.
pub fn one(holds: bool) -> usize
    ensures { result ≤ 1 }
{
    if holds { 1 } else { 0 }
}

pub fn least(a: usize, b: usize) -> usize
    ensures { (result ≤ a) × (result ≤ b) }
{
    if a < b { a } else { b }
}

// The generator of the lists.
pub fn step(x: u64) -> u64 {
    let a = x ^ (x << 13);
    let b = a ^ (a >> 7);
    b ^ (b << 17)
}

// The first `count` bytes of the load of a seed.
pub fn draw(bytes: &mut [u8], count: usize, seed: u64) {
    let end = least(count, bytes.len());
    let mut x = seed;
    for b in &mut bytes[..end] {
        x = step(x);
        *b = (x / 0x100_0000_0000_0000 % 256) as u8;
    }
}

// A number as it is shown: `usize::from` takes no u32.
pub fn wide(n: u32) -> usize {
    n as usize
}

pub fn small(n: u8) -> usize {
    usize::from(n)
}

// The lists' digest of the first n bytes.
pub fn digest(bytes: &[u8], n: usize) -> u64 {
    let end = least(n, bytes.len());
    let mut h: u64 = 0x9e37_79b9_7f4a_7c15;
    for b in &bytes[..end] {
        h = step(h ^ u64::from(*b));
    }
    h
}

fn digit(byte: u8) -> u64 {
    match byte {
        b'0'..=b'9' => u64::from(byte - b'0'),
        b'a'..=b'f' => u64::from(byte - b'a') + 10,
        _ => 0,
    }
}

// The places from..to of a list, as far as it reaches: without a walk to them.
fn part<'a, T>(all: &'a [T], from: usize, to: usize) -> &'a [T] {
    let end = least(to, all.len());
    if from <= end {
        &all[from..end]
    } else {
        &all[..0]
    }
}

// The number of the hexadecimal digits from..to of a line, of which the last 16 count.
pub fn number(line: &[u8], from: usize, to: usize) -> u64 {
    let mut value: u64 = 0;
    for byte in part(line, from, to) {
        value = value % 0x1000_0000_0000_0000 * 16 + digit(*byte) % 16;
    }
    value
}

// The f64 of a pattern that is no NaN's.
pub fn double_of(bits: u64) -> f64 {
    if bits % 0x8000_0000_0000_0000 <= 0x7ff0_0000_0000_0000 {
        f64::from_bits(bits)
    } else {
        0.0
    }
}

// The f32 of a pattern that is no NaN's.
pub fn float_of(bits: u32) -> f32 {
    if bits % 0x8000_0000 <= 0x7f80_0000 {
        f32::from_bits(bits)
    } else {
        0.0
    }
}

// The pattern of an f64, one for every NaN.
pub fn double_bits(x: f64) -> u64 {
    if x != x {
        return 0x7ff8_0000_0000_0000;
    }
    f64::to_bits(x)
}

// The pattern of an f32, one for every NaN.
pub fn float_bits(x: f32) -> u32 {
    if x != x {
        return 0x7fc0_0000;
    }
    f32::to_bits(x)
}

pub fn nan() -> f64 {
    0.0 / 0.0
}

// ---- comparing

// Whether two values are the same, the sign of a zero too; of a NaN, that both are one.
pub fn same_double(a: f64, b: f64) -> bool {
    double_bits(a) == double_bits(b)
}

// The first n of a list, or none where there are fewer.
pub fn front<'a, T>(all: &'a [T], n: usize) -> &'a [T] {
    if n <= all.len() { &all[..n] } else { &all[..0] }
}

// How many of the n bytes of a from `from` on are those of b, as far as both reach.
pub fn alike(a: &[u8], from: usize, b: &[u8], n: usize) -> usize
    ensures { result ≤ n }
{
    if from > a.len() {
        return 0;
    }
    let end = least(n, least(a.len() - from, b.len()));
    a[from..from + end]
        .iter()
        .zip(b[..end].iter())
        .filter(|(x, y)| **x == **y)
        .count()
}

// How many of the bytes from..to are x, as far as they reach.
pub fn bytes_of(bytes: &[u8], from: usize, to: usize, x: u8) -> usize {
    part(bytes, from, to).iter().filter(|b| **b == x).count()
}

// How many of the words from..to are w, as far as they reach.
pub fn words_of(words: &[u64], from: usize, to: usize, w: u64) -> usize {
    part(words, from, to)
        .iter()
        .filter(|word| **word == w)
        .count()
}

// ---- stored lists

// Whether the file has a whole line more, which is put in the slice.
pub fn read_line(file: i32, line: &mut [u8]) -> bool {
    io::read_full(file, line) == line.len()
}

// How many of so many lines of a file, each as long as the slice that they are put in, agree: none of those that are missing. A line that does not is shown.
pub fn agreeing<F: Fn(&[u8]) -> bool>(file: i32, lines: usize, line: &mut [u8], agrees: F) -> usize
    requires { F.IsAlwaysCallable agrees }
    ensures { result ≤ lines }
{
    let mut agree: usize = 0;
    for i in 0..lines {
        if read_line(file, line) {
            agree += one(passed(line, agrees(line)));
        }
    }
    agree
}

// Shows a line that does not agree, and says whether it does.
pub fn passed(line: &[u8], agrees: bool) -> bool {
    if !agrees {
        text(line);
    }
    agrees
}

// How many of the lines agree, and how many do not.
pub fn show_agreeing(agree: usize, lines: usize) {
    let found = [agree, lines - least(agree, lines)];
    show(b"# agree\n# differ\n", &found);
}
