// The bench program's command check: frame after frame is read and compared with the load that was sent.
#![tactic(auto)]

ghost use Rattle.std.specs.Prelude.{◌<◌};

use bench_compare::{differing, is_load};
use bench_files::files;
use bench_line::agreement::agreeing;
use bench_line::space::LOAD_SPACE;
use bench_line::words::{front, part, parts};
use bench_series::plain::{decode, points_of};
use bench_series::{Place, frame_name, refused_line};
use bench_setting::setting::{Setting, setting_at};
use bench_setting::usage::misused;
use bench_verdict::places;
use bench_words::report;
use bench_words::text::{say, text};
use isdbs_core::frame::{MAIN_SYMBOLS, SLOTS};

// The words before the first frame: check, TABLE, MAPPING, KIND and LOAD.
const BEFORE: usize = 5;

// How many bytes are wrong, and in which valid slots.
fn wrong_bytes(s: Setting, v: usize, n: usize, load: &[u8], read: &[u8]) {
    let t = s.table;
    let mut apart = [0u32; SLOTS];
    differing(t, v, load, read, &mut apart);
    if n < load.len() {
        say(b"; wrong: $", &[load.len() - n]);
    }
    places(&apart, b" valid slot");
    text(b"\n");
}

// The line of a frame that was read, and whether it has the bytes of the load.
fn compare(s: Setting, v: usize, place: Place, name: &[u8], load: &[u8], read: &[u8]) -> bool {
    let n = agreeing(load, read);
    frame_name(place, name);
    text(b", ");
    report::agree(n, load.len());
    wrong_bytes(s, v, n, load, read);
    n == load.len()
}

// Reads a frame, and answers whether it has the bytes of the load; none where it cannot be read, which stops the run.
fn check_one(
    rt: &HostRuntime,
    s: Setting,
    v: usize,
    place: Place,
    name: &[u8],
    load: &[u8],
    re: &mut [f64; MAIN_SYMBOLS],
    im: &mut [f64; MAIN_SYMBOLS],
    bytes: &mut [u8; LOAD_SPACE],
) -> Option<bool> {
    let got = points_of(rt, name, re, im);
    if !got.well {
        return None;
    }
    let done = decode(s, got.count, re, im, bytes);
    match done {
        Ok(r) => Some(compare(s, v, place, name, load, front(bytes, r.bytes))),
        Err(row) => {
            refused_line(place, name, row);
            report::refuse_reading(row, got.count, got.over, re, im);
            None
        }
    }
}

// The last line of a run in which every frame was read.
fn end(wrong: usize, all: usize) {
    if wrong == 0 {
        text(b"ok\n");
    } else {
        say(b"failed: frames with wrong bytes: $ of $\n", &[wrong, all]);
    }
}

// Reads frame after frame until one stops the run.
fn check_all(
    rt: &HostRuntime,
    line: &[u8],
    s: Setting,
    v: usize,
    words: usize,
    load: &[u8],
    re: &mut [f64; MAIN_SYMBOLS],
    im: &mut [f64; MAIN_SYMBOLS],
    bytes: &mut [u8; LOAD_SPACE],
)
    requires { 5 < words }
{
    let mut wrong: usize = 0;
    for i in BEFORE..words {
        let place = Place {
            read: i - BEFORE,
            all: words - BEFORE,
        };
        let name = part(line, 0, i);
        let Some(is_same) = check_one(rt, s, v, place, name, load, re, im, bytes) else {
            return;
        };
        if !is_same {
            wrong += 1;
        }
    }
    end(wrong, words - BEFORE);
}

// Reads the frames of a run of `words` words, on space of its own.
fn check_in_space(rt: &HostRuntime, line: &[u8], s: Setting, v: usize, words: usize, load: &[u8])
    requires { 5 < words }
{
    let mut re = [0.0f64; MAIN_SYMBOLS];
    let mut im = [0.0f64; MAIN_SYMBOLS];
    let mut bytes = [0u8; LOAD_SPACE];
    check_all(rt, line, s, v, words, load, &mut re, &mut im, &mut bytes);
}

// Reads the load, and the frames where it is one of the table.
fn check_load(rt: &HostRuntime, line: &[u8], s: Setting, v: usize, space: &mut [u8; LOAD_SPACE]) {
    let words = parts(line, 0);
    if words <= BEFORE {
        return;
    }
    let t = s.table;
    let name = part(line, 0, 4);
    let got = files::bytes_of(rt, name, space);
    if !got.well {
        return;
    }
    let load = front(space, got.count);
    if is_load(t, name, load) {
        check_in_space(rt, line, s, v, words, load);
    }
}

// The same, on space of its own.
fn check_by(rt: &HostRuntime, line: &[u8], s: Setting, v: usize) {
    let mut space = [0u8; LOAD_SPACE];
    check_load(rt, line, s, v, &mut space);
}

// How check is used, and compare with its last word.
pub fn show_usage() {
    text(
        b"a tuner under test:\n  \
        bench check TABLE MAPPING KIND LOAD FRAME..                      each FRAME read and compared with LOAD, the bytes that were sent\n  \
        bench compare TABLE SENT READ all                                compare with a line for every slot\n",
    );
}

// bench check TABLE MAPPING KIND LOAD FRAME..
pub fn check(rt: &HostRuntime, line: &[u8]) {
    if parts(line, 0) <= BEFORE {
        show_usage();
        misused(b"check takes TABLE MAPPING KIND LOAD FRAME..", b"");
        return;
    }
    let Some(s) = setting_at(line) else {
        return;
    };
    let t = s.table;
    if let Some(v) = report::table(t) {
        check_by(rt, line, s, v);
    }
}
