// How the commands are used, and what is said of a header: kind, turn, sums and mean.
use bench_header::say_turn;
use bench_setting::usage;
use bench_words::text::{count, number, one_of, say, text};
use header_find::Header;
use header_mean::{Mean, mean_at};
use header_sync::no_frame;

// How frames, cut and capture are used.
pub fn show_usage() {
    text(
        b"captures:\n  \
        bench frames CAPTURE                                             every frame of CAPTURE by its header: place, kind, turn, sums, gain and mean\n  \
        bench cut CAPTURE PLACE FULL [align]                             the frame of CAPTURE from point PLACE on to FULL; align: by the mean of its header\n  \
        bench capture TABLE MAPPING CAPTURE REPORT [align]               every frame of CAPTURE read, its kind by its header; a line for each to REPORT\n  \
        CAPTURE, PLACE    any number of points in the same forms as FRAME; one of them, counted from 0\n",
    );
}

// The last line of a command that is not understood, after the usage.
pub fn misused(why: &[u8], word: &[u8]) {
    show_usage();
    usage::misused(why, word);
}

// A sum that is held with 40 more, after some words.
fn sum(words: &[u8], held: usize) {
    text(words);
    if held < 40 {
        say(b"-$", &[40 - held]);
        return;
    }
    count(held - 40);
}

// Kind and turn, where a turn is told.
fn told(first: bool, eighths: u8) {
    if eighths > 7 {
        text(b"no header is told");
        return;
    }
    one_of(
        b"another frame, |first frame of a superframe, ",
        first as usize,
    );
    say_turn(eighths);
}

// Where t is above -1 and below 2^64, its whole part; else 0.
pub fn whole(t: f64) -> u64 {
    if t > -1.0f64 {
        if t < 18446744073709551616.0f64 {
            let n = std::num::truncating_f64_to_u64(t);
            return n;
        }
        return 0;
    }
    0
}

// A number of 0 or more, to the nearest hundredth.
fn hundredths(x: f64) {
    if x < 1000000000.0f64 {
        let n = whole(x * 100.0f64 + 0.5f64);
        number(n / 100);
        text(b".");
        number(n / 10 % 10);
        number(n % 10);
        return;
    }
    text(b"beyond measure");
}

// A number after some words.
fn signed(words: &[u8], x: f64) {
    text(words);
    if x <= -0.005f64 {
        text(b"-");
        hundredths(-x);
        return;
    }
    if x < 0.0f64 {
        text(b"0.00");
        return;
    }
    hundredths(x);
}

// Newton's steps from above to the root of a number.
const STEPS: usize = 64;

// The root of a number, nearly.
pub fn root(x: f64) -> f64 {
    let mut r = x + 1.0f64;
    for _ in 0..STEPS {
        r = (r + x / r) / 2.0f64;
    }
    r
}

// The end of a line: the gain and the mean.
fn say_mean(mean: Mean) {
    hundredths(root(mean.power));
    signed(b", mean (", mean.re);
    signed(b", ", mean.im);
    text(b")\n");
}

// The mean of the header at a place; 0 where no frame fits there.
pub fn mean_there(first: bool, re: &[f64], im: &[f64], at: usize) -> Mean {
    if no_frame(re.len(), im.len(), at) {
        return Mean {
            re: 0.0,
            im: 0.0,
            power: 0.0,
        };
    }
    mean_at(first, re, im, at)
}

// The rest of a line on the frame at a place: its kind, turn, sums and mean.
pub(crate) fn header(h: Header, re: &[f64], im: &[f64], at: usize) {
    text(b": ");
    let first = h.first;
    told(first, h.turn);
    sum(b", sums ", h.re);
    sum(b" and ", h.im);
    text(b" of 40, gain ");
    say_mean(mean_there(first, re, im, at));
}
