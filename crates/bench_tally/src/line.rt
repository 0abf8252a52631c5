// A line of the report, put together in a buffer. Numbers have no commas, as PLACE of cut has none.
use crate::drift::Drift;
use bench_files::files;
use bench_frames::words::whole;
use bench_header::Told;
use bench_line::space::LINE_BYTES;
use bench_line::words::front;

// A line, and the place after what was put on it. What does not fit is cut off.
#[derive(Drop)]
pub(crate) struct Line {
    bytes: [u8; LINE_BYTES],
    at: usize,
}

impl Line {
    pub(crate) fn new() -> Line {
        Line {
            bytes: io::buffer(),
            at: 0,
        }
    }

    pub(crate) fn put(&mut self, s: &[u8]) {
        self.at = files::put(&mut self.bytes, self.at, s);
    }

    fn number(&mut self, n: u64) {
        let mut digits = [0u8; 20];
        let k = io::decimal(n, &mut digits);
        self.put(&digits[..k]);
    }

    // A form: each $ in it is the next of the numbers, where there is one.
    pub(crate) fn form(&mut self, form: &[u8], numbers: &[usize]) {
        let mut rest = numbers.iter();
        for &b in form {
            if b != b'$' {
                self.put(&[b]);
            } else if let Some(&n) = rest.next() {
                self.number(n as u64);
            }
        }
    }

    // Writes what was put, and answers whether all of it is there.
    pub(crate) fn write(&self, report: i32) -> bool {
        io::write_all(report, front(&self.bytes, self.at))
    }
}

// A number of 0 or more, to the nearest hundredth.
fn put_hundredths(line: &mut Line, x: f64) {
    if x < 1000000000.0f64 {
        let n = whole(x * 100.0f64 + 0.5f64);
        line.number(n / 100);
        line.put(b".");
        line.number(n / 10 % 10);
        line.number(n % 10);
    } else {
        line.put(b"beyond measure");
    }
}

// A number after some words.
fn put_signed(line: &mut Line, words: &[u8], x: f64) {
    line.put(words);
    if x <= -0.005f64 {
        line.put(b"-");
        put_hundredths(line, -x);
    } else if x < 0.0f64 {
        line.put(b"0.00");
    } else {
        put_hundredths(line, x);
    }
}

pub(crate) fn put_drift(line: &mut Line, d: Drift) {
    put_signed(line, b"; drift ", d.degrees);
    put_signed(line, b" degrees, ", d.hertz);
    line.put(b" Hz");
}

// The degrees of a turn in eighths.
fn degrees(turn: u8) -> usize {
    if turn < 8 { 45 * (turn as usize) } else { 0 }
}

pub(crate) fn put_turn(line: &mut Line, turn: u8) {
    if turn == 0 {
        line.put(b"not turned");
    } else {
        line.form(b"turned by $ degrees", &[degrees(turn)]);
    }
}

// Its kind, with the frame's number in its superframe, where that is known.
fn put_kind(line: &mut Line, first: bool, position: Option<usize>) {
    if first {
        line.put(b"first");
        return;
    }
    line.put(b"other");
    if let Some(n) = position {
        line.form(b" ($ of 8)", &[n]);
    }
}

// The number of the last word of a header: W2 in the first frame of a superframe, W3 in another.
fn last_word(first: bool) -> usize {
    if first { 2 } else { 3 }
}

// What the header says.
pub(crate) fn put_header(line: &mut Line, told: Told, position: Option<usize>) {
    put_kind(line, told.first, position);
    line.put(b", ");
    put_turn(line, told.turn);
    line.form(
        b", W1 $ of 20, W$ $ of 20",
        &[told.w1, last_word(told.first), told.last],
    );
}
