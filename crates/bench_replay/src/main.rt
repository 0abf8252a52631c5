// The bench program's commands, run one after another on files of this folder: what is written is held to the file stdout.
// The file data/lines has a line for each step: $ and a command of bench; # and words that are shown; or what is done to a file by hand:
// show NAME, cut NAME SIZE, patch NAME PLACE BYTES (in hexadecimal digits), noise NAME, join NAME NAME OUT, turn NAME OUT.
#![tactic(auto)]

ghost use Rattle.std.specs.Prelude.{◌≤◌};

use bench_files::system;
use bench_line::space::LINE_BYTES;
use bench_line::words::{digits, front, part, parts, same};
use isdbs_frame::MAIN_SYMBOLS;
use std::fs::File;
use std::os::fd::AsRawFd;
use std::os::unix::fs::FileExt;

// The number of standard output.
const STDOUT_FILENO: i32 = 1;

// The parts of a frame's points.
const PARTS: usize = 2 * MAIN_SYMBOLS;

// A command's words are separated by 0 bytes; a bar stands for the end of a line in a word.
fn separated(b: u8) -> u8 {
    match b {
        b' ' => 0,
        b'|' => b'\n',
        _ => b,
    }
}

fn separate(line: &mut [u8; LINE_BYTES]) {
    for i in 0..LINE_BYTES {
        line[i] = separated(line[i]);
    }
}

fn text(s: &[u8]) {
    io::write_all(STDOUT_FILENO, s);
}

// Shows a command, and runs it.
fn bench(rt: &HostRuntime, words: &[u8]) {
    text(b"$ bench ");
    text(words);
    text(b"\n");
    let mut line = io::buffer();
    let n = bench_lib::put(&mut line, 0, words);
    separate(&mut line);
    bench_lib::run_first(rt, &line, n);
    text(b"\n");
}

// The number that word i of a line has.
fn number(line: &[u8], i: usize) -> u64 {
    digits(part(line, b' ', i)).map_or(0, |n| u64::from(n))
}

// The number of hexadecimal digit i; 0 where there is none.
fn nibble(digits: &[u8], i: usize) -> u8
    ensures { result ≤ 15 }
{
    if i >= digits.len() {
        return 0;
    }
    let d = digits[i];
    match d {
        b'0'..=b'9' => d - b'0',
        b'a'..=b'f' => d - b'a' + 10,
        _ => 0,
    }
}

// The bytes of hexadecimal digits, two for each; answers how many.
fn unhex(digits: &[u8], bytes: &mut [u8; LINE_BYTES]) -> usize {
    let count = digits.len().div_ceil(2).min(LINE_BYTES);
    for (i, byte) in bytes.iter_mut().enumerate().take(count) {
        *byte = 16 * nibble(digits, 2 * i) + nibble(digits, 2 * i + 1);
    }
    count
}

// Writes the bytes of a line into a file at its place.
fn write_at(file: &File, line: &[u8], bytes: &mut [u8; LINE_BYTES]) {
    let n = unhex(part(line, b' ', 3), bytes);
    let _ = file.write_at(front(bytes, n), number(line, 2));
}

// patch NAME PLACE BYTES: writes bytes into a file.
fn patch(rt: &HostRuntime, line: &[u8]) {
    let Ok(file) = system::open_update(rt, part(line, b' ', 1)) else {
        text(b"no such file to patch\n");
        return;
    };
    let mut bytes = io::buffer();
    write_at(&file, line, &mut bytes);
}

// cut NAME SIZE: cuts a file.
fn cut(rt: &HostRuntime, line: &[u8]) {
    let Ok(file) = system::open_update(rt, part(line, b' ', 1)) else {
        text(b"no such file to cut\n");
        return;
    };
    let _ = file.set_len(number(line, 2));
}

// Copies some of an open file to another, and answers whether there may be more.
fn copy_some(from: i32, to: i32) -> bool {
    let mut buffer = io::buffer();
    let n = io::read_full(from, &mut buffer);
    io::write_all(to, &buffer[..n]);
    n == LINE_BYTES
}

// Copies an open file of up to 1,000 buffers.
fn copy_all(from: i32, to: i32) {
    for _ in 0..1_000 {
        if !copy_some(from, to) {
            return;
        }
    }
}

// Shows a file that was written.
fn show(rt: &HostRuntime, name: &[u8]) {
    text(b"# the file ");
    text(name);
    text(b":\n");
    let Ok(file) = system::open_read(rt, name) else {
        text(b"there is none\n\n");
        return;
    };
    copy_all(file.as_raw_fd(), STDOUT_FILENO);
    text(b"\n");
}

// Adds a file to an open one.
fn add(rt: &HostRuntime, name: &[u8], to: &File) {
    let Ok(file) = system::open_read(rt, name) else {
        text(b"no such file to join\n");
        return;
    };
    copy_all(file.as_raw_fd(), to.as_raw_fd());
}

// join NAME NAME OUT: one file after another.
fn join(rt: &HostRuntime, line: &[u8]) {
    let Ok(out) = system::open_overwrite(rt, part(line, b' ', 3)) else {
        text(b"no file to join in\n");
        return;
    };
    add(rt, part(line, b' ', 1), &out);
    add(rt, part(line, b' ', 2), &out);
}

// Copies a part with its other sign, and answers whether there may be more.
fn turn_part(from: i32, to: i32) -> bool {
    let mut bytes = [0u8; 8];
    let n = io::read_full(from, &mut bytes);
    bytes[7] = bytes[7] ^ 0x80;
    n == 8 && io::write_all(to, &bytes)
}

// Copies the points of an open file, of up to ten frames, turned by 180 degrees.
fn turn_all(from: i32, to: i32) {
    for _ in 0..10 * PARTS {
        if !turn_part(from, to) {
            return;
        }
    }
}

// turn NAME OUT: the points of a file turned by 180 degrees.
fn turn(rt: &HostRuntime, line: &[u8]) {
    let file = system::open_read(rt, part(line, b' ', 1));
    let out = system::open_overwrite(rt, part(line, b' ', 2));
    let Ok(from) = file else {
        return;
    };
    let Ok(to) = out else {
        return;
    };
    turn_all(from.as_raw_fd(), to.as_raw_fd());
}

// The next pseudo-random number.
fn next_random(n: u32) -> u32 {
    let a = n ^ (n << 13);
    let b = a ^ (a >> 17);
    b ^ (b << 5)
}

fn low(n: u32) -> u8 {
    (n % 256) as u8
}

fn sign(n: u32) -> u8 {
    if n / 65_536 % 2 == 0 { 0x3f } else { 0xbf }
}

// Writes a part between 0.5 and 1 in size, as n has it.
fn write_part(file: i32, n: u32) {
    let high = 0xe0 + low(n) % 16;
    let bytes = [0, 0, 0, low(n), low(n / 256), low(n / 4_096), high, sign(n)];
    io::write_all(file, &bytes);
}

fn write_noise(file: i32) {
    let mut n: u32 = 1;
    for k in 0..PARTS {
        n = next_random(n);
        write_part(file, n);
    }
}

// noise NAME: writes pseudo-random parts into a file of a frame.
fn noise(rt: &HostRuntime, name: &[u8]) {
    let Ok(file) = system::open_update(rt, name) else {
        text(b"no such file for noise\n");
        return;
    };
    write_noise(file.as_raw_fd());
}

// A line past its first two bytes.
fn rest<'a>(line: &'a [u8]) -> &'a [u8] {
    if line.len() < 2 {
        return &line[0..0];
    }
    &line[2..]
}

// What is done to a file by hand.
fn by_hand(rt: &HostRuntime, line: &[u8]) {
    let what = part(line, b' ', 0);
    if same(what, b"patch") {
        patch(rt, line);
        return;
    }
    if same(what, b"cut") {
        cut(rt, line);
        return;
    }
    if same(what, b"show") {
        show(rt, part(line, b' ', 1));
        return;
    }
    if same(what, b"noise") {
        noise(rt, part(line, b' ', 1));
        return;
    }
    if same(what, b"join") {
        join(rt, line);
        return;
    }
    if same(what, b"turn") {
        turn(rt, line);
        return;
    }
    text(b"no step: ");
    text(line);
    text(b"\n");
}

// One line; an empty one is none.
fn step(rt: &HostRuntime, line: &[u8]) {
    if line.len() == 0 {
        return;
    }
    match line[0] {
        b'$' => bench(rt, rest(line)),
        b'#' => {
            text(line);
            text(b"\n");
        }
        _ => by_hand(rt, line),
    }
}

fn run_lines(rt: &HostRuntime, lines: &[u8]) {
    let n = parts(lines, b'\n');
    for i in 0..n {
        step(rt, part(lines, b'\n', i));
    }
}

fn main(rt: HostRuntime) {
    let Ok(file) = File::open(&rt, "lines") else {
        return;
    };
    let mut lines = io::large_buffer();
    let n = io::read_full(file.as_raw_fd(), &mut lines);
    drop(file);
    run_lines(&rt, &lines[..n]);
}
