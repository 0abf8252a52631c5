// When the reading of a valid slot is firm: its strength beside the level (signal by error power) of the frame's slots in which it lies. A measured rule, with its tables in docs/BENCH.md.
#![tactic(auto)]

mod levels;

ghost use Rattle.std.specs.Prelude.{◌<◌};
ghost use Rattle.isdbs_combination.specs.Combinations.{frame_slots};

use bench_quality::Sums;
use isdbs_core::combination::Combination;
use isdbs_core::frame::SLOTS;
use isdbs_core::slots;
use isdbs_core::slots::Run;
use isdbs_core::tmcc::Table;
use levels::{Levels, level_at, levels_of, lower, middle_of, slot_of, worst_of};

// What a slot lacks to be firm: level, the level of the others, strength.
#[derive(Clone, Copy, PartialEq, Eq)]
pub enum Lack {
    Noisy,
    Disturbed,
    Weak,
}

// What a slot lacks to be firm, and the strength that it needs for that: none where no strength would do because of its level, or there is no slot.
#[derive(Clone, Copy)]
pub struct Firmness {
    pub lack: Option<Lack>,
    pub need: Option<u32>,
}

// Of no slot.
pub const NO_SLOT: Firmness = Firmness {
    lack: None,
    need: None,
};

// A level is in tenths of a decibel, with 300 more.
const ZERO: u32 = 300;

// So far above the level at which bytes fail a slot must lie.
const ABOVE: u32 = 13;

// A level below the middle one by more than the usual is made up by strength, 6 % for each tenth, up to two tenths, in the frame's last slot one.
const USUAL: u32 = 3;

const USUAL_BPSK: u32 = 5;

const MOST_SHORT: u32 = 2;

const MOST_SHORT_LAST: u32 = 1;

const FOR_SHORT: u32 = 6;

// The strength that is asked for, in percent: by the middle level, and beside a slot that lies lower by more than this.
const MOST: u32 = 30;

const HIGH: u32 = 60;

const LOWER: u32 = 10;

// That of the frame's last slot, whose last bits one or two coded bits carry since its end is open: so much, and 3 % less for each two tenths by which the middle level is above the one where it begins to fall, up to 36 tenths.
const END_MOST: u32 = 100;

const END_LEAST: u32 = 45;

const END_TENTHS: u32 = 36;

// The level at which bytes begin to fail under white noise.
fn fails_at(c: Combination) -> u32 {
    match c {
        Combination::Bpsk1_2 => ZERO,
        Combination::Qpsk1_2 => ZERO + 30,
        Combination::Qpsk2_3 => ZERO + 50,
        Combination::Qpsk3_4 => ZERO + 70,
        Combination::Qpsk5_6 => ZERO + 70,
        Combination::Qpsk7_8 => ZERO + 80,
        Combination::Tc8psk2_3 => ZERO + 90,
    }
}

fn usual(c: Combination) -> u32 {
    match c {
        Combination::Bpsk1_2 => USUAL_BPSK,
        _ => USUAL,
    }
}

// The strength that is asked for at any level: of TC8PSK more, since noise makes slots wrong with up to 20 % where the level is high enough.
fn least(c: Combination) -> u32 {
    match c {
        Combination::Tc8psk2_3 => 22,
        _ => 10,
    }
}

// The strength that the middle level asks for, where bytes fail at `fails`.
fn asked(c: Combination, middle: u32, fails: u32) -> u32 {
    let x = middle.saturating_sub(fails.saturating_add(10));
    x.max(least(c)).min(MOST)
}

// The level from which on the last slot needs less.
fn falls_at(c: Combination) -> u32 {
    match c {
        Combination::Bpsk1_2 => ZERO,
        Combination::Qpsk1_2 => ZERO + 30,
        _ => ZERO + 60,
    }
}

// The strength that the middle level asks for in the last slot.
fn asked_at_end(c: Combination, middle: u32) -> u32 {
    let x = middle.saturating_sub(falls_at(c));
    if x > END_TENTHS {
        return END_LEAST;
    }
    END_MOST - 3 * x / 2
}

// The strength that a level short of the middle one asks for beside that.
fn made_up(short: u32) -> u32 {
    if short > MOST_SHORT {
        return HIGH;
    }
    FOR_SHORT * short
}

// How many tenths may be made up.
fn most_short(is_last: bool) -> u32 {
    if is_last { MOST_SHORT_LAST } else { MOST_SHORT }
}

// The strength that is asked for in any case.
fn in_any_case(middle: u32, beside: Option<u32>) -> u32 {
    match beside {
        Some(level) if level.saturating_add(LOWER) < middle => HIGH,
        _ => 0,
    }
}

// What the frame around a slot says: the middle level, the worst of its own, the worst beside it; and whether it is the last.
#[derive(Clone, Copy)]
struct Around {
    middle: u32,
    worst: Option<u32>,
    beside: Option<u32>,
    is_last: bool,
}

// By how much the level of a slot is short of the middle one.
fn short_of(c: Combination, a: Around) -> u32 {
    match a.worst {
        Some(level) => a.middle.saturating_sub(level.saturating_add(usual(c))),
        None => 0,
    }
}

// The strength that the middle level asks for.
fn by_level(c: Combination, a: Around) -> u32 {
    if a.is_last {
        return asked_at_end(c, a.middle);
    }
    asked(c, a.middle, fails_at(c))
}

// The strength that a slot needs whose level is good enough.
fn strength_for(c: Combination, a: Around) -> u32 {
    let need = by_level(c, a).saturating_add(made_up(short_of(c, a)));
    need.max(in_any_case(a.middle, a.beside))
}

// What the level of a slot lacks.
fn level_lack(c: Combination, a: Around) -> Option<Lack> {
    match a.worst {
        Some(level) if level < fails_at(c).saturating_add(ABOVE) => Some(Lack::Noisy),
        _ if short_of(c, a) > most_short(a.is_last) => Some(Lack::Disturbed),
        _ => None,
    }
}

fn firmness_by(c: Combination, a: Around, strength: u32) -> Firmness {
    let lack = level_lack(c, a);
    if lack.is_some() {
        return Firmness { lack, need: None };
    }
    let need = strength_for(c, a);
    Firmness {
        lack: if strength < need {
            Some(Lack::Weak)
        } else {
            None
        },
        need: Some(need),
    }
}

// The level of the slot before slot j, where there is one.
fn before(levels: &Levels, j: usize) -> Option<u32> {
    if j == 0 {
        None
    } else {
        level_at(levels, j - 1)
    }
}

// The slots of the frame in which valid slot i of a run lies, without the last.
#[derive(Clone, Copy)]
struct Span {
    from: usize,
    to: usize,
}

// Of valid slot i, below 48, of a run: by its unit's slots and valid ones (8 and 7 of QPSK 7/8 and so on).
fn span_in(c: Combination, i: usize) -> Span
    requires { i < frame_slots }
{
    match c {
        Combination::Bpsk1_2 => Span {
            from: 4 * i,
            to: 4 * i + 4,
        },
        Combination::Qpsk1_2 => Span {
            from: 2 * i,
            to: 2 * i + 2,
        },
        Combination::Qpsk2_3 => Span {
            from: 3 * i / 2,
            to: (3 * i + 4) / 2,
        },
        Combination::Qpsk3_4 => Span {
            from: 4 * i / 3,
            to: (4 * i + 6) / 3,
        },
        Combination::Qpsk5_6 => Span {
            from: 6 * i / 5,
            to: (6 * i + 10) / 5,
        },
        Combination::Qpsk7_8 => Span {
            from: 8 * i / 7,
            to: (8 * i + 14) / 7,
        },
        Combination::Tc8psk2_3 => Span { from: i, to: i + 1 },
    }
}

fn span_of(r: Run, i: usize) -> Span {
    let first = slot_of(r.symbol_start);
    let c = r.combination;
    if i >= SLOTS {
        return Span {
            from: SLOTS,
            to: SLOTS,
        };
    }
    let own = span_in(c, i);
    Span {
        from: first.saturating_add(own.from),
        to: first.saturating_add(own.to),
    }
}

// Valid slot i of a run, where it is the frame's last or not.
fn firmness_in(
    r: Run,
    i: usize,
    is_last: bool,
    levels: &Levels,
    middle: u32,
    strength: u32,
) -> Firmness {
    let span = span_of(r, i);
    let around = Around {
        middle,
        worst: worst_of(levels, span.from, span.to),
        beside: lower(before(levels, span.from), level_at(levels, span.to)),
        is_last,
    };
    let c = r.combination;
    firmness_by(c, around, strength)
}

// The run of a valid slot, and the slot's number in it.
#[derive(Clone, Copy)]
pub struct Place {
    pub run: Run,
    pub i: usize,
}

// Where valid slot k lies; past the other runs in the last one.
pub fn place_of(rs: [Run; 4], k: usize) -> Place {
    let mut i = k;
    for &run in &rs[..3] {
        if i < run.valid_slots {
            return Place { run, i };
        }
        i -= run.valid_slots;
    }
    Place { run: rs[3], i }
}

// What each of the `valid` valid slots of these strengths lacks, and the strength that each needs.
pub fn lacks(t: Table, valid: usize, sums: &Sums, strong: &[u32; SLOTS]) -> [Firmness; SLOTS] {
    let all = slots::runs(t).unwrap_or(slots::NO_RUNS);
    let levels = levels_of(all.runs, all.count, sums);
    let middle = middle_of(&levels);
    let mut found = [NO_SLOT; SLOTS];
    for k in 0..valid.min(SLOTS) {
        let p = place_of(all.runs, k);
        found[k] = firmness_in(p.run, p.i, k == valid - 1, &levels, middle, strong[k]);
    }
    found
}
