// One frame read: turned right where that is asked, its main points decoded with a known start and all scales at 8, weighed as read weighs it.
use bench_calls::reading::read_of;
use bench_line::space::LOAD_SPACE;
use bench_line::words::front;
use bench_setting::choice::Reading;
use bench_tally::tally::Worth;
use bench_verdict::facts::Frame;
use bench_weigh::decoded;
use bench_worth::{Verdict, weigh};
use header_align::align_frame;
use isdbs_core::frame::{
    BURST_SYMBOLS, BURSTS, FRAME_SYMBOLS, HEADER_SYMBOLS, MAIN_SYMBOLS, SLOTS,
};
use isdbs_core::tmcc::Table;
use isdbs_points::Mapping;
use refusal::Refusal;

// The burst points of a full frame.
const BURST_POINTS: usize = BURSTS * BURST_SYMBOLS;

// How every frame is read: table and mapping, how many valid slots the table has, and whether frames are turned right first.
#[derive(Clone, Copy)]
pub struct How {
    pub table: Table,
    pub mapping: Mapping,
    pub slots: usize,
    pub aligns: bool,
}

// ---- the worth of bytes

// The worth of a frame of these steps by the verdict on its bytes.
fn worth_by(v: Verdict, steps: usize, strained: u32) -> Worth {
    Worth {
        worth: v.worth,
        outside: v.outside as usize,
        slots: v.slots,
        first: v.first,
        steps,
        strained,
        weakest: v.weakest,
    }
}

// Weighs the bytes that were read.
fn weigh_bytes(
    s: Reading,
    f: Frame,
    bytes: &[u8],
    re: &[f64; MAIN_SYMBOLS],
    im: &[f64; MAIN_SYMBOLS],
) -> Result<Worth, Refusal> {
    let v = weigh(s, f, bytes, re, im)?;
    Ok(worth_by(v, f.steps, f.strained))
}

// ---- the reading

// Decodes the main points over lent space for the bytes, and weighs what was read.
fn read_over(
    s: Reading,
    slots: usize,
    re: &[f64; MAIN_SYMBOLS],
    im: &[f64; MAIN_SYMBOLS],
    bytes: &mut [u8; LOAD_SPACE],
) -> Result<Worth, Refusal> {
    let mut counts = [0u32; SLOTS];
    let r = read_of(s, MAIN_SYMBOLS, re, im, bytes, &mut counts)?;
    let f = decoded(s, slots, r.bytes, r.steps, r.strained);
    weigh_bytes(s, f, front(bytes, r.bytes), re, im)
}

// The same, on space of its own.
fn read_main(
    s: Reading,
    slots: usize,
    re: &[f64; MAIN_SYMBOLS],
    im: &[f64; MAIN_SYMBOLS],
) -> Result<Worth, Refusal> {
    let mut bytes = [0u8; LOAD_SPACE];
    read_over(s, slots, re, im, &mut bytes)
}

// Reads the main points of the frame at the front of two parts.
fn read_front(s: Reading, slots: usize, re: &[f64], im: &[f64]) -> Result<Worth, Refusal> {
    let mut header_re = [0.0f64; HEADER_SYMBOLS];
    let mut header_im = [0.0f64; HEADER_SYMBOLS];
    let mut main_re = [0.0f64; MAIN_SYMBOLS];
    let mut main_im = [0.0f64; MAIN_SYMBOLS];
    let mut burst_re = [0.0f64; BURST_POINTS];
    let mut burst_im = [0.0f64; BURST_POINTS];
    full_frame::take_apart(
        re,
        im,
        &mut header_re,
        &mut header_im,
        &mut main_re,
        &mut main_im,
        &mut burst_re,
        &mut burst_im,
    )?;
    read_main(s, slots, &main_re, &main_im)
}

// The parts from a place on.
fn from_place<'a>(s: &'a [f64], at: usize) -> &'a [f64] {
    if at > s.len() {
        return &s[0..0];
    }
    &s[at..]
}

// Reads the frame at a place, turned right first.
fn read_aligned(
    s: Reading,
    slots: usize,
    re: &[f64],
    im: &[f64],
    at: usize,
    out_re: &mut [f64; FRAME_SYMBOLS],
    out_im: &mut [f64; FRAME_SYMBOLS],
) -> Result<Worth, Refusal> {
    align_frame(re, im, at, out_re, out_im)?;
    read_front(s, slots, out_re, out_im)
}

// With a known start and all scales at 8.
fn reading_by(how: How, first: bool) -> Reading {
    let table = how.table;
    let mapping = how.mapping;
    Reading {
        table,
        mapping,
        first,
        known_start: true,
        scales: [8.0f32; 7],
    }
}

// Reads the frame at a place of two parts, of a kind.
pub fn read_at(how: How, first: bool, re: &[f64], im: &[f64], at: usize) -> Result<Worth, Refusal> {
    let s = reading_by(how, first);
    if !how.aligns {
        return read_front(s, how.slots, from_place(re, at), from_place(im, at));
    }
    let mut out_re = [0.0f64; FRAME_SYMBOLS];
    let mut out_im = [0.0f64; FRAME_SYMBOLS];
    read_aligned(s, how.slots, re, im, at, &mut out_re, &mut out_im)
}
