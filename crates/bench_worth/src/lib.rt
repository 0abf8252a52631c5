// The verdict on a reading in a few words, for commands that read many frames: what the last line of read would say of it.
#![tactic(auto)]

mod words;

use bench_line::space::LOAD_SPACE;
use bench_quality::{NUMBERS, Sums, frame_quality};
use bench_setting::choice::Reading;
use bench_verdict::facts::{Facts, Frame, facts_of};
use bench_verdict::firm::{Kind, Weakest, at_rank, how_many, weakest_of};
use bench_verdict::last::{NO_HEADER, Worth, worth_of};
use bench_weigh::weigh_over;
use isdbs_core::frame::{MAIN_SYMBOLS, SLOTS};
use refusal::Refusal;
pub use words::say_worth;

// What a reading without a header is worth, as the last line of read says it; its points outside the margins; how many slots are not firm, or differ from the
// best reading where it is not that, and the weakest of them, 0 where there is none; and the weakest of all valid slots, where there is one.
#[derive(Clone, Copy)]
pub struct Verdict {
    pub worth: Worth,
    pub outside: u32,
    pub slots: usize,
    pub first: usize,
    pub weakest: Option<Weakest>,
}

// The kind of slots that a worth is about.
fn kind_of(worth: Worth) -> Kind {
    match worth {
        Worth::Other => Kind::Other,
        _ => Kind::Weak,
    }
}

fn verdict_by(f: Frame, facts: &Facts, sums: &Sums) -> Verdict {
    let worth = worth_of(f, facts, frame_quality(sums), NO_HEADER);
    let kind = kind_of(worth);
    Verdict {
        worth,
        outside: f.outside,
        slots: how_many(facts, f.valid, kind),
        first: at_rank(facts, f.valid, kind, 0).unwrap_or(0),
        weakest: weakest_of(facts, f.valid),
    }
}

// The verdict on the bytes that were read of a whole frame, or why they cannot be weighed.
pub fn weigh(
    s: Reading,
    f: Frame,
    bytes: &[u8],
    re: &[f64; MAIN_SYMBOLS],
    im: &[f64; MAIN_SYMBOLS],
) -> Result<Verdict, Refusal> {
    let mut best = [0u8; LOAD_SPACE];
    let mut facts = facts_of([0u32; SLOTS]);
    let mut sums = [0.0f64; NUMBERS * SLOTS];
    let found = weigh_over(s, f, bytes, re, im, &mut best, &mut facts, &mut sums)?;
    Ok(verdict_by(found, &facts, &sums))
}
