// One part, real or imaginary, of a full frame: laid from that part of header, main signal and bursts, and taken apart again; and the tests of the calls' rows.
#![tactic(auto)]

ghost use Rattle.std.specs.Prelude.{◌≡◌, ◌<◌, ◌≤◌, length};
ghost use Rattle.trellis.specs.Lists.{laid};
ghost use Rattle.full_frame_parts.specs.Places.{from, points_of, source_at, place_in, lent_inputs, lent_point, full_part, taken};
ghost use Rattle.full_frame_parts.specs.Rows.{short_inputs, short_frame};
ghost use Rattle.isdbs_frame.specs.Frame.{frame_symbols, main_symbols, burst_points, header_symbols};

use isdbs_core::frame::{
    BURST_PERIOD, BURST_SYMBOLS, BURSTS, FRAME_SYMBOLS, HEADER_SYMBOLS, MAIN_SYMBOLS,
};

// Symbols from one burst to the next (ITU-R BO.1408-1, section 7).
const PERIOD: usize = BURST_PERIOD + BURST_SYMBOLS;
// Points of the burst input: 192 bursts of 4 (document 02, P1).
const BURST_POINTS: usize = BURSTS * BURST_SYMBOLS;

// The three inputs of a frame.
#[derive(Clone, Copy)]
pub enum Input {
    Header,
    Main,
    Burst,
}

// ---- one part, real or imaginary

// The point of place p of the frame.
fn point_at(header: &[f64], signal: &[f64], bursts: &[f64], p: usize) -> f64
    requires { (p < frame_symbols) × (header_symbols ≤ length header.now) × (main_symbols ≤ length signal.now) × (burst_points ≤ length bursts.now) }
    ensures { result ≡ lent_point (lent_inputs header.now signal.now bursts.now) (source_at p) }
{
    if p < HEADER_SYMBOLS {
        return header[p];
    }
    let b = (p - HEADER_SYMBOLS) / PERIOD;
    let q = (p - HEADER_SYMBOLS) % PERIOD;
    if q < BURST_PERIOD {
        signal[BURST_PERIOD * b + q]
    } else {
        bursts[BURST_SYMBOLS * b + (q - BURST_PERIOD)]
    }
}

// One part of a frame from that part of the three inputs.
pub fn lay_part(header: &[f64], signal: &[f64], bursts: &[f64], out: &mut [f64])
    requires { (header_symbols ≤ length header.now) × (main_symbols ≤ length signal.now) × (burst_points ≤ length bursts.now) × (frame_symbols ≤ length out.old) }
    ensures { out.new ≡ laid (full_part (lent_inputs header.now signal.now bursts.now)) out.old }
{
    for p in 0..FRAME_SYMBOLS {
        out[p] = point_at(header, signal, bursts, p);
    }
}

// How many points of an input a frame takes.
fn points(input: Input) -> usize
    ensures { result ≡ points_of input }
{
    match input {
        Input::Header => HEADER_SYMBOLS,
        Input::Main => MAIN_SYMBOLS,
        Input::Burst => BURST_POINTS,
    }
}

// The place in the frame of point i of an input.
fn place(input: Input, i: usize) -> usize
    requires { i < points_of input }
    ensures { (result ≡ place_in (from input i)) × (result < frame_symbols) }
{
    match input {
        Input::Header => i,
        Input::Main => HEADER_SYMBOLS + i / BURST_PERIOD * PERIOD + i % BURST_PERIOD,
        Input::Burst => HEADER_SYMBOLS
            + i / BURST_SYMBOLS * PERIOD
            + BURST_PERIOD
            + i % BURST_SYMBOLS,
    }
}

// The points that one part of a frame holds for an input.
fn take_input(input: Input, full: &[f64], out: &mut [f64])
    requires { (frame_symbols ≤ length full.now) × (points_of input ≤ length out.old) }
    ensures { out.new ≡ laid (taken input full.now) out.old }
{
    let n = points(input);
    for i in 0..n {
        let p = place(input, i);
        out[i] = full[p];
    }
}

// One part of a frame into that part of the three inputs.
pub fn take_part(full: &[f64], header: &mut [f64], signal: &mut [f64], bursts: &mut [f64])
    requires { (frame_symbols ≤ length full.now) × (header_symbols ≤ length header.old) × (main_symbols ≤ length signal.old) × (burst_points ≤ length bursts.old) }
    ensures { (header.new ≡ laid (taken Input.Header full.now) header.old) × (signal.new ≡ laid (taken Input.Main full.now) signal.old) × (bursts.new ≡ laid (taken Input.Burst full.now) bursts.old) }
{
    take_input(Input::Header, full, header);
    take_input(Input::Main, full, signal);
    take_input(Input::Burst, full, bursts);
}

// ---- the rows, over lengths

// Whether one part of header, main signal or bursts is short.
#[tactic(auto, unfolding(crate::specs::Rows::short_inputs))]
pub fn short_inputs(header: usize, signal: usize, bursts: usize) -> bool
    ensures { result ≡ short_inputs header signal bursts }
{
    header < HEADER_SYMBOLS || signal < MAIN_SYMBOLS || bursts < BURST_POINTS
}

// Whether either part of a full frame is short.
#[tactic(auto, unfolding(crate::specs::Rows::short_frame))]
pub fn short_frame(re: usize, im: usize) -> bool
    ensures { result ≡ short_frame re im }
{
    re < FRAME_SYMBOLS || im < FRAME_SYMBOLS
}
