// The bench program's command series: the strained steps of frame after frame, with the total and the greatest of the last frames, and what the reading of each frame is worth.
#![tactic(auto)]

pub mod plain;

ghost use Rattle.std.specs.Prelude.{◌<◌};

use crate::plain::{decode, plain_reading, points_of};
use bench_line::space::LOAD_SPACE;
use bench_line::words::{digits, front, part, parts};
use bench_setting::setting::{Setting, setting_of};
use bench_setting::usage::misused;
use bench_verdict::last::is_ok;
use bench_weigh::decoded;
use bench_words::report;
use bench_words::text::{quoted, say, text};
use bench_worth::{Verdict, say_worth, weigh};
use isdbs_core::frame::{MAIN_SYMBOLS, SLOT_BYTES};
use isdbs_phy::demod::FrameDecoded;
use refusal::Refusal;
use strain_window::{Pushed, WindowState, push};

// The longest window.
const LONGEST: usize = 256;

// The words before the first frame: series, WINDOW, TABLE, MAPPING and KIND.
const BEFORE: usize = 5;

// A frame's number, counted from 0, and how many frames there are.
#[derive(Clone, Copy)]
pub struct Place {
    pub read: usize,
    pub all: usize,
}

// What was found of a frame: its steps, the strained ones, and what its reading is worth.
#[derive(Clone, Copy)]
struct Found {
    steps: usize,
    strained: u32,
    verdict: Verdict,
}

// Whether a frame's reading is good, and the window after it.
#[derive(Clone, Copy)]
struct Went {
    is_ok: bool,
    state: WindowState,
}

// The words of the line of a frame that was read, before what was found of it.
pub fn frame_name(place: Place, name: &[u8]) {
    if place.read < place.all {
        say(b"$ of $ frames read: ", &[place.read + 1, place.all]);
    }
    quoted(name);
}

// What the reading of a frame is worth.
fn say_verdict(v: Verdict) {
    if v.outside > 0 {
        say(b"; points outside the margins: $", &[v.outside as usize]);
    }
    text(b"; ");
    say_worth(v);
    text(b"\n");
}

// The line of a frame that was read.
fn frame_line(place: Place, name: &[u8], found: Found, kept: Pushed) {
    let state = kept.state;
    frame_name(place, name);
    say(
        b", $ of $ steps strained; last $: total $, greatest $",
        &[
            found.strained as usize,
            found.steps,
            state.fill as usize,
            kept.total as usize,
            kept.greatest as usize,
        ],
    );
    let v = found.verdict;
    say_verdict(v);
}

// The line above the last one of a run that a frame's refusal ends.
pub fn refused_line(place: Place, name: &[u8], row: Refusal) {
    quoted(name);
    say(
        b" is refused by row $; before it $ of $ frames read\n",
        &[refusal::number(Err(row)) as usize, place.read, place.all],
    );
}

// The last lines of a run that ends at a frame that was read.
fn refuse(place: Place, name: &[u8], row: Refusal) {
    refused_line(place, name, row);
    report::refuse(row);
}

// Keeps the sum of a frame that was read; the first one's push clears. None where that stops the run.
fn keep(
    place: Place,
    name: &[u8],
    found: Found,
    state: WindowState,
    sums: &mut [u32; LONGEST],
) -> Option<Went> {
    match push(state, place.read == 0, found.strained, sums) {
        Ok(kept) => {
            frame_line(place, name, found, kept);
            Some(Went {
                is_ok: is_ok(found.verdict.worth),
                state: kept.state,
            })
        }
        Err(row) => {
            refuse(place, name, row);
            None
        }
    }
}

// Weighs a frame that was read, and keeps its sum; or says why it cannot be weighed.
fn weigh_and_keep(
    s: Setting,
    r: FrameDecoded,
    place: Place,
    name: &[u8],
    state: WindowState,
    sums: &mut [u32; LONGEST],
    re: &[f64; MAIN_SYMBOLS],
    im: &[f64; MAIN_SYMBOLS],
    bytes: &[u8; LOAD_SPACE],
) -> Option<Went> {
    let FrameDecoded {
        bytes: size,
        steps,
        strained,
        ..
    } = r;
    let f = decoded(plain_reading(s), size / SLOT_BYTES, size, steps, strained);
    match weigh(plain_reading(s), f, front(bytes, size), re, im) {
        Ok(verdict) => {
            let found = Found {
                steps,
                strained,
                verdict,
            };
            keep(place, name, found, state, sums)
        }
        Err(row) => {
            refuse(place, name, row);
            None
        }
    }
}

// Reads a frame, and keeps its sum.
fn read_one(
    rt: &HostRuntime,
    s: Setting,
    place: Place,
    name: &[u8],
    state: WindowState,
    sums: &mut [u32; LONGEST],
    re: &mut [f64; MAIN_SYMBOLS],
    im: &mut [f64; MAIN_SYMBOLS],
    bytes: &mut [u8; LOAD_SPACE],
) -> Option<Went> {
    let got = points_of(rt, name, re, im);
    if !got.well {
        return None;
    }
    match decode(s, got.count, re, im, bytes) {
        Ok(r) => weigh_and_keep(s, r, place, name, state, sums, re, im, bytes),
        Err(row) => {
            refused_line(place, name, row);
            report::refuse_reading(row, got.count, got.over, re, im);
            None
        }
    }
}

// The last line of a run in which every frame was read.
fn end(doubtful: usize, all: usize) {
    if doubtful == 0 {
        text(b"ok\n");
    } else {
        say(
            b"doubtful: $ of $ frames neither certain nor firm\n",
            &[doubtful, all],
        );
    }
}

// Reads frame after frame until one stops the run.
fn read_all(
    rt: &HostRuntime,
    line: &[u8],
    s: Setting,
    window: u32,
    words: usize,
    sums: &mut [u32; LONGEST],
    re: &mut [f64; MAIN_SYMBOLS],
    im: &mut [f64; MAIN_SYMBOLS],
    bytes: &mut [u8; LOAD_SPACE],
)
    requires { 5 < words }
{
    let mut state = fresh(window);
    let mut doubtful: usize = 0;
    for i in BEFORE..words {
        let place = Place {
            read: i - BEFORE,
            all: words - BEFORE,
        };
        let name = part(line, 0, i);
        let Some(went) = read_one(rt, s, place, name, state, sums, re, im, bytes) else {
            return;
        };
        state = went.state;
        if !went.is_ok {
            doubtful += 1;
        }
    }
    end(doubtful, words - BEFORE);
}

// A window that keeps nothing yet.
fn fresh(window: u32) -> WindowState {
    WindowState {
        window,
        fill: 0,
        next: 0,
    }
}

// Whether a window of this length is taken; else says why not. The sum that is tried is forgotten by the first frame's push.
fn is_window(window: u32, sums: &mut [u32; LONGEST]) -> bool {
    let Err(row) = push(fresh(window), true, 0, sums) else {
        return true;
    };
    report::refused(row);
    say(
        b"a window is of 1 to $ frames, not of $\n",
        &[LONGEST, window as usize],
    );
    false
}

// Reads the frames of a series of `words` words, on space of its own.
fn read_in_space(
    rt: &HostRuntime,
    line: &[u8],
    s: Setting,
    window: u32,
    words: usize,
    sums: &mut [u32; LONGEST],
)
    requires { 5 < words }
{
    let mut re = [0.0f64; MAIN_SYMBOLS];
    let mut im = [0.0f64; MAIN_SYMBOLS];
    let mut bytes = [0u8; LOAD_SPACE];
    read_all(
        rt, line, s, window, words, sums, &mut re, &mut im, &mut bytes,
    );
}

fn series_of(rt: &HostRuntime, line: &[u8], s: Setting, window: u32) {
    let words = parts(line, 0);
    if words <= BEFORE {
        return;
    }
    let mut sums = [0u32; LONGEST];
    if !is_window(window, &mut sums) {
        return;
    }
    say(
        b"window of $; a sum of 0 alone does not mean a good frame\n0 of $ frames read\n",
        &[window as usize, words - BEFORE],
    );
    read_in_space(rt, line, s, window, words, &mut sums);
}

// bench series WINDOW TABLE MAPPING KIND FRAME..
pub fn series(rt: &HostRuntime, line: &[u8]) {
    if parts(line, 0) <= BEFORE {
        misused(b"series takes WINDOW TABLE MAPPING KIND FRAME..", b"");
        return;
    }
    let Some(window) = digits(part(line, 0, 1)) else {
        misused(b"this is no WINDOW:", part(line, 0, 1));
        return;
    };
    let Some(s) = setting_of(part(line, 0, 2), part(line, 0, 3), part(line, 0, 4)) else {
        return;
    };
    let t = s.table;
    if report::table(t).is_some() {
        series_of(rt, line, s, window);
    }
}
