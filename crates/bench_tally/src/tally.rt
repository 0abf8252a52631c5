// The frames that were read so far, each entered with its line.
use crate::drift::between;
use crate::line;
use crate::line::Line;
use bench_header::{Told, plus};
use bench_verdict::firm::Weakest;
use bench_verdict::last;
use header_mean::Mean;
use isdbs_core::frame::{FRAME_SYMBOLS, FRAMES};
use refusal::Refusal;
use strain_window::{Pushed, WindowState, push};

// What a frame's reading is worth: the worth that bench_verdict gives it; the points outside the margins of its bytes; how many slots are weak or not the best,
// and the first of them; its steps and strained steps; its weakest valid slot, where there is one.
#[derive(Clone, Copy)]
pub struct Worth {
    pub worth: last::Worth,
    pub outside: usize,
    pub slots: usize,
    pub first: usize,
    pub steps: usize,
    pub strained: u32,
    pub weakest: Option<Weakest>,
}

// A frame of the capture: its place, what its header says, the header's mean, whether it was turned right before it was read, and what its reading is worth or why it was refused.
#[derive(Clone, Copy)]
pub struct Frame {
    pub place: usize,
    pub told: Told,
    pub mean: Mean,
    pub is_aligned: bool,
    pub worth: Result<Worth, Refusal>,
}

// How many frames, and how many of each verdict; whether every line was written; the place after the last frame, its number in its superframe, where that is
// known, and its header's mean; and the window of strain.
#[derive(Clone, Copy)]
pub struct Tally {
    pub frames: usize,
    pub certain: usize,
    pub best: usize,
    pub doubtful: usize,
    pub is_written: bool,
    pub end: usize,
    pub position: Option<usize>,
    pub mean: Mean,
    pub window: WindowState,
}

// Why a frame is doubtful, with the numbers that are said of it.
#[derive(Clone, Copy)]
enum Reason {
    Turned(u8),
    Within,
    Disorder,
    Refused(Refusal),
    OtherBytes(usize),
    Weak(Worth),
    Aside(usize),
}

// The window of strain: a superframe.
const WINDOW: u32 = 8;

pub fn none_yet() -> Tally {
    Tally {
        frames: 0,
        certain: 0,
        best: 0,
        doubtful: 0,
        is_written: true,
        end: 0,
        position: None,
        mean: Mean {
            re: 0.0,
            im: 0.0,
            power: 0.0,
        },
        window: WindowState {
            window: WINDOW,
            fill: 0,
            next: 0,
        },
    }
}

// Whether a frame follows at once on the one before it.
fn follows(t: Tally, place: usize) -> bool {
    t.frames > 0 && place == t.end
}

// The number of a frame in its superframe, where it is known.
fn next_position(t: Tally, place: usize, first: bool) -> Option<usize> {
    if first {
        return Some(1);
    }
    match t.position {
        Some(n) if follows(t, place) && n < FRAMES => Some(plus(n, 1)),
        _ => None,
    }
}

// Whether the kind of a frame that follows at once is not the one that follows in a superframe of eight.
fn is_disorder(t: Tally, place: usize, first: bool) -> bool {
    match t.position {
        Some(n) if follows(t, place) => first == (n != FRAMES),
        _ => false,
    }
}

// Why a frame is doubtful, the first reason that holds.
fn reason_of(t: Tally, f: Frame) -> Option<Reason> {
    let h = f.told;
    if !h.fits && !f.is_aligned {
        return Some(Reason::Turned(h.turn));
    }
    if f.place < t.end {
        return Some(Reason::Within);
    }
    if is_disorder(t, f.place, h.first) {
        return Some(Reason::Disorder);
    }
    match f.worth {
        Ok(w) => by_worth(w, f.is_aligned),
        Err(row) => Some(Reason::Refused(row)),
    }
}

// Why a reading of this worth is doubtful. What the mean of a header leaves of gain and turn in a frame that was turned right is no reason.
fn by_worth(w: Worth, is_aligned: bool) -> Option<Reason> {
    match w.worth {
        last::Worth::Certain | last::Worth::Firm => None,
        last::Worth::Weak => Some(Reason::Weak(w)),
        last::Worth::Other => Some(Reason::OtherBytes(w.outside)),
        last::Worth::Turned | last::Worth::Aside => {
            if is_aligned {
                return None;
            }
            Some(Reason::Aside(w.outside))
        }
    }
}

fn put_reason(line: &mut Line, why: Reason) {
    match why {
        Reason::Turned(turn) => line::put_turn(line, turn),
        Reason::Within => line.put(b"it begins within the frame before it"),
        Reason::Disorder => line.put(b"its kind is not the next one of a superframe"),
        Reason::Refused(row) => { line.form(b"refused $", &[refusal::number(Err(row)) as usize]) }
        Reason::OtherBytes(outside) => line.form(
            b"$ points outside the margins, and another reading fits better",
            &[outside],
        ),
        Reason::Weak(w) => line.form(
            b"valid slots weak: $, the weakest slot $; $ points outside the margins",
            &[w.slots, w.first, w.outside],
        ),
        Reason::Aside(outside) => line.form(
            b"gain or turn off: align first; $ points outside the margins",
            &[outside],
        ),
    }
}

// The points outside the margins of the bytes that were read; 0 of a frame that was refused.
fn outside_of(f: Frame) -> usize {
    match f.worth {
        Ok(w) => w.outside,
        Err(_) => 0,
    }
}

fn put_verdict(line: &mut Line, why: Option<Reason>, f: Frame) {
    if let Some(reason) = why {
        line.put(b"; doubtful: ");
        put_reason(line, reason);
        return;
    }
    match outside_of(f) {
        0 => line.put(b"; certain"),
        n => line.form(
            b"; best, firm in every slot: $ points outside the margins",
            &[n],
        ),
    }
}

// Strain and the weakest slot of a frame that was read.
fn put_strain(line: &mut Line, w: Worth, kept: Pushed) {
    line.form(
        b"; $ of $ steps strained, last $: total $, greatest $",
        &[
            w.strained as usize,
            w.steps,
            kept.state.fill as usize,
            kept.total as usize,
            kept.greatest as usize,
        ],
    );
    if let Some(weakest) = w.weakest {
        line.form(
            b"; weakest valid slot $: strength $ %",
            &[weakest.slot, weakest.strength as usize],
        );
    }
}

// Writes the line of a frame, and answers whether all of it is there.
fn write_frame(report: i32, t: Tally, f: Frame, why: Option<Reason>, kept: Pushed) -> bool {
    let mut line = Line::new();
    line.form(b"frame $ at point $: ", &[plus(t.frames, 1), f.place]);
    line::put_header(&mut line, f.told, next_position(t, f.place, f.told.first));
    if follows(t, f.place) {
        line::put_drift(&mut line, between(t.mean, f.mean));
    }
    put_verdict(&mut line, why, f);
    if let Ok(w) = f.worth {
        put_strain(&mut line, w, kept);
    }
    line.put(b"\n");
    line.write(report)
}

// The tally with one frame more.
fn counted(
    t: Tally,
    f: Frame,
    why: Option<Reason>,
    is_written: bool,
    window: WindowState,
) -> Tally {
    let is_best = why.is_none() && outside_of(f) > 0;
    let is_certain = why.is_none() && !is_best;
    Tally {
        frames: plus(t.frames, 1),
        certain: plus(t.certain, usize::from(is_certain)),
        best: plus(t.best, usize::from(is_best)),
        doubtful: plus(t.doubtful, usize::from(why.is_some())),
        is_written,
        end: plus(f.place, FRAME_SYMBOLS),
        position: next_position(t, f.place, f.told.first),
        mean: f.mean,
        window,
    }
}

// Keeps the strain of a frame that was read. Where nothing is kept: the window as it was, and no sums to tell of.
fn keep_strain(t: Tally, f: Frame, sums: &mut [u32; FRAMES]) -> Pushed {
    let unmoved = Pushed {
        state: t.window,
        total: 0,
        greatest: 0,
    };
    match f.worth {
        Ok(w) => push(t.window, false, w.strained, sums).unwrap_or(unmoved),
        Err(_) => unmoved,
    }
}

// Enters a frame: its line to the report, and the tally with it.
pub fn enter(report: i32, t: Tally, f: Frame, sums: &mut [u32; FRAMES]) -> Tally {
    let why = reason_of(t, f);
    let kept = keep_strain(t, f, sums);
    let is_written = write_frame(report, t, f, why, kept);
    counted(t, f, why, is_written, kept.state)
}
