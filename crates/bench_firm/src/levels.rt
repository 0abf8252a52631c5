// The level of each of the frame's slots, 812 symbols: signal by error power in tenths of a decibel, with 300 more, cut down to whole tenths.
use bench_quality::{Sums, slot_level};
use isdbs_combination::SLOT_SYMBOLS;
use isdbs_core::combination::Combination;
use isdbs_core::frame::SLOTS;
use isdbs_core::slots::Run;

// None of a slot of which no point counts.
pub type Levels = [Option<u32>; SLOTS];

// Of BPSK the imaginary parts do not count, so that its level stands 3 dB above the others', up to the highest level that is told.
const BPSK_LESS: u32 = 30;

const HIGHEST: u32 = 900;

// The slot of a symbol.
pub fn slot_of(symbol: usize) -> usize {
    symbol / SLOT_SYMBOLS
}

fn level_by(c: Combination, level: u32) -> u32 {
    match c {
        Combination::Bpsk1_2 if level < HIGHEST => level.saturating_sub(BPSK_LESS),
        _ => level,
    }
}

fn set_run(r: Run, sums: &Sums, levels: &mut Levels) {
    let c = r.combination;
    for j in slot_of(r.symbol_start)..slot_of(r.symbol_end).min(SLOTS) {
        levels[j] = slot_level(sums, j).map(|level| level_by(c, level));
    }
}

// The levels of the slots of `count` runs.
pub fn levels_of(rs: [Run; 4], count: usize, sums: &Sums) -> Levels {
    let mut levels = [None; SLOTS];
    for &r in rs.iter().take(count) {
        set_run(r, sums, &mut levels);
    }
    levels
}

// The level of slot j, where there is such a slot.
pub fn level_at(levels: &Levels, j: usize) -> Option<u32> {
    if j < SLOTS { levels[j] } else { None }
}

// How many slots have a level of at least x that counts.
fn at_least(levels: &Levels, x: u32) -> usize {
    levels
        .iter()
        .filter(|&&level| level.is_some_and(|l| l >= x))
        .count()
}

// The greatest level that more than half of the slots that count have; 0 where none counts.
pub fn middle_of(levels: &Levels) -> u32 {
    let all = at_least(levels, 0);
    let mut middle: u32 = 0;
    for &level in levels {
        if let Some(x) = level {
            if x > middle && at_least(levels, x) > all / 2 {
                middle = x;
            }
        }
    }
    middle
}

// The lower of two levels, of those that count.
pub fn lower(a: Option<u32>, b: Option<u32>) -> Option<u32> {
    match (a, b) {
        (Some(x), Some(y)) => Some(x.min(y)),
        (Some(x), None) => Some(x),
        (None, y) => y,
    }
}

// The least level of the slots from `from` on before `to`.
pub fn worst_of(levels: &Levels, from: usize, to: usize) -> Option<u32> {
    let mut worst = None;
    for &level in levels.iter().take(to).skip(from) {
        worst = lower(worst, level);
    }
    worst
}
