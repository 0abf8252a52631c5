// What the header of a frame says, and where a frame begins: kind, turn and the sums A and B, each held with 40 more.
#![tactic(auto)]

ghost use Rattle.std.specs.Prelude.{◌≡◌, ◌+◌, ◌≤◌, length};
ghost use Rattle.isdbs_frame.specs.Frame.{frame_symbols};
ghost use Rattle.header_find.specs.Headers.{header_at, header_says, doubted, find_says};

use header_mean::{mean_at, turn_of};
use header_sync::{best_here, fit_here, further_of, no_frame, squares_of};
use refusal::Refusal;

// First frame of a superframe or another one, the turn in eighths, 8 for none, and the sums.
#[derive(Clone, Copy)]
pub struct Header {
    pub first: bool,
    pub turn: u8,
    pub re: usize,
    pub im: usize,
}

// A place and what the header there says.
#[derive(Clone, Copy)]
pub struct Found {
    pub place: usize,
    pub header: Header,
}

// What the header of the frame says that begins at a place with room for it.
#[tactic(auto, unfolding(crate::specs::Headers::header_of))]
fn header_here(re: &[f64], im: &[f64], at: usize) -> Header
    requires { (at + frame_symbols ≤ length re.now) × (at + frame_symbols ≤ length im.now) }
    ensures { (result ≡ header_at re.now im.now at) × (result.re ≤ 80) × (result.im ≤ 80) }
{
    let fit = fit_here(re, im, at);
    let mean = mean_at(fit.first, re, im, at);
    let squares = squares_of(fit.re, fit.im);
    let turn = turn_of(squares, mean);
    Header {
        first: fit.first,
        turn,
        re: fit.re,
        im: fit.im,
    }
}

// What the header of the frame says that begins at point `at`, or why there is none.
pub fn header_at(re: &[f64], im: &[f64], at: usize) -> Result<Header, Refusal>
    ensures { result ≡ header_says re.now im.now at }
{
    if no_frame(re.len(), im.len(), at) {
        return Err(Refusal::Symbols);
    }
    Ok(header_here(re, im, at))
}

// The header found, with no turn where its A A + B B is below 1,296.
#[tactic(auto, unfolding(crate::specs::Headers::doubted))]
fn doubted_of(header: Header) -> Header
    requires { (header.re ≤ 80) × (header.im ≤ 80) }
    ensures { result ≡ doubted header }
{
    let squares = squares_of(header.re, header.im);
    if squares < 1296 {
        Header { turn: 8, ..header }
    } else {
        header
    }
}

// The first place from `from` on at which a frame fits best, and what its header says.
pub fn find_frame(re: &[f64], im: &[f64], from: usize) -> Result<Found, Refusal>
    ensures { result ≡ find_says re.now im.now from }
{
    if no_frame(re.len(), im.len(), from) {
        return Err(Refusal::Symbols);
    }
    let count = further_of(re.len(), im.len(), from);
    let place = best_here(re, im, from, count);
    let header = doubted_of(header_here(re, im, place));
    Ok(Found { place, header })
}
