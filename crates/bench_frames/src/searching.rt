// frames: every frame of a capture, of which so many points are held at once.
use crate::{PIECE, words};
use bench_files::files;
use bench_header::{minus, plus};
use bench_line::words::front;
use bench_words::report;
use bench_words::text::{file, say, text};
use header_find::{Header, find_frame};
use isdbs_frame::FRAME_SYMBOLS;
use refusal::Refusal;
use std::fs::File;

// The frames found: how many, how many of them begin within the one before, and the place after the last.
#[derive(Clone, Copy)]
struct Found {
    frames: usize,
    within: usize,
    end: usize,
}

// The points that are held: how many, and which of the capture the first one is; whether the capture was read well so far, and how many bytes of one more point it has.
#[derive(Clone, Copy)]
pub struct Held {
    pub count: usize,
    pub start: usize,
    pub well: bool,
    pub over: usize,
}

// A frame that was found among the points that are held: at which of them, and what its header says.
#[derive(Clone, Copy)]
pub struct Seen {
    pub at: usize,
    pub header: Header,
}

// What is held, and the frames found.
#[derive(Clone, Copy)]
struct Run {
    held: Held,
    found: Found,
}

// No point yet.
pub fn none_held() -> Held {
    Held {
        count: 0,
        start: 0,
        well: true,
        over: 0,
    }
}

// Moves the points from a place on to the front.
fn move_down(s: &mut [f64; PIECE], by: usize) {
    if by < PIECE {
        s.copy_within(by.., 0);
    }
}

// Reads on into the slices, from a place on.
pub(crate) fn read_from(
    rt: &HostRuntime,
    opened: &File,
    name: &[u8],
    from: usize,
    re: &mut [f64],
    im: &mut [f64],
) -> files::Got {
    if from > re.len() {
        return files::nothing();
    }
    if from > im.len() {
        return files::nothing();
    }
    files::read_next(rt, opened, name, &mut re[from..], &mut im[from..])
}

// Reads on behind the points that are held.
pub fn read_on(
    rt: &HostRuntime,
    opened: &File,
    name: &[u8],
    held: Held,
    re: &mut [f64; PIECE],
    im: &mut [f64; PIECE],
) -> Held {
    let got = read_from(rt, opened, name, held.count, re, im);
    Held {
        count: plus(held.count, got.count),
        start: held.start,
        well: got.well,
        over: plus(held.over, got.over),
    }
}

// Looks for a frame among the points that are held.
pub fn look_for(held: Held, re: &[f64; PIECE], im: &[f64; PIECE]) -> Option<Seen> {
    let count = held.count;
    match find_frame(front(re, count), front(im, count), 0) {
        Ok(found) if found.header.turn <= 7 => Some(Seen {
            at: found.place,
            header: found.header,
        }),
        _ => None,
    }
}

// Forgets the first points.
pub fn forget(held: Held, by: usize, re: &mut [f64; PIECE], im: &mut [f64; PIECE]) -> Held {
    move_down(re, by);
    move_down(im, by);
    Held {
        count: minus(held.count, by),
        start: plus(held.start, by),
        well: held.well,
        over: held.over,
    }
}

// How many points are forgotten where no frame was found: one for each place that was looked at.
pub fn looked_at(held: Held) -> usize {
    plus(minus(held.count, FRAME_SYMBOLS), 1)
}

// What lies between the end of the frame before and a frame, and the frames with this one.
fn next_found(found: Found, place: usize) -> Found {
    if place < found.end {
        text(b"  it begins within the frame before it\n");
    }
    if place > found.end {
        say(
            b"  before it $ points in no frame\n",
            &[minus(place, found.end)],
        );
    }
    Found {
        frames: plus(found.frames, 1),
        within: if place < found.end {
            plus(found.within, 1)
        } else {
            found.within
        },
        end: plus(place, FRAME_SYMBOLS),
    }
}

// Looks for a frame among the points that are held, says it, and forgets the points up to its first; where there is none, all places that were looked at.
fn look(run: Run, re: &mut [f64; PIECE], im: &mut [f64; PIECE]) -> Run {
    let held = run.held;
    let found = run.found;
    let count = held.count;
    let Some(s) = look_for(held, re, im) else {
        let rest = forget(held, looked_at(held), re, im);
        return Run { held: rest, found };
    };
    let h = s.header;
    let place = plus(held.start, s.at);
    say(b"frame at point $", &[place]);
    words::header(h, front(re, count), front(im, count), s.at);
    let more = next_found(found, place);
    let rest = forget(held, plus(s.at, 1), re, im);
    Run {
        held: rest,
        found: more,
    }
}

// The most pieces that are read.
pub const PIECES: usize = 1_000_000;

// Whether a frame fits into the points that are held, which were read well.
pub fn may_look(held: Held) -> bool {
    held.well && held.count >= FRAME_SYMBOLS
}

// All pieces.
fn all(
    rt: &HostRuntime,
    opened: &File,
    name: &[u8],
    re: &mut [f64; PIECE],
    im: &mut [f64; PIECE],
) -> Run {
    let mut run = Run {
        held: none_held(),
        found: Found {
            frames: 0,
            within: 0,
            end: 0,
        },
    };
    for _ in 0..PIECES {
        let held = read_on(rt, opened, name, run.held, re, im);
        let found = run.found;
        run = Run { held, found };
        if !may_look(held) {
            return run;
        }
        run = look(run, re, im);
    }
    run
}

// The last line, by the points of the capture.
fn verdict(points: usize, found: Found) {
    if points < FRAME_SYMBOLS {
        report::refused(Refusal::Symbols);
        text(b"a whole frame has 39,936 points\n");
        return;
    }
    text(if found.frames == 0 {
        b"doubtful: no frame was found\n"
    } else if found.within > 0 {
        b"doubtful: a frame begins within another\n"
    } else {
        b"ok\n"
    });
}

// How many points of a capture follow its last frame.
fn tell_rest(points: usize, end: usize) {
    if points > end {
        say(b"; in no frame at the end: $ points", &[minus(points, end)]);
    }
    text(b"\n");
}

// The line of a capture: its points, how many frames were found, and what follows the last one, which ends before point `end`.
pub fn tell_capture(name: &[u8], held: Held, frames: usize, end: usize) {
    let points = plus(held.start, held.count);
    file(b"capture", name, points, b" points");
    if held.over > 0 {
        say(b" and $ bytes over", &[held.over]);
    }
    say(b"; frames found: $", &[frames]);
    tell_rest(points, end);
}

// The last lines.
fn end(name: &[u8], held: Held, found: Found) {
    tell_capture(name, held, found.frames, found.end);
    verdict(plus(held.start, held.count), found);
}

pub(crate) fn frames(rt: &HostRuntime, name: &[u8], re: &mut [f64; PIECE], im: &mut [f64; PIECE]) {
    let Some(opened) = files::open(rt, name) else {
        return;
    };
    let run = all(rt, &opened, name, re, im);
    drop(opened);
    let held = run.held;
    if held.well {
        end(name, held, run.found);
    }
}
