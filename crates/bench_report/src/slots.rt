// The lines of the slots.
ghost use Rattle.std.specs.Prelude.{◌<◌};
ghost use Rattle.isdbs_combination.specs.Combinations.{frame_slots};

use bench_firm::{Lack, place_of};
use bench_quality::{Sums, put_words, slot_quality};
use bench_verdict::facts::{Facts, Frame};
use bench_verdict::firm::{Kind, at_rank, is_firm};
use isdbs_core::combination::Combination;
use isdbs_core::frame::SLOTS;
use isdbs_core::slots;
use picture_bars::form::{fill_form, put_combination};
use picture_sheet::Sheet;

// How many of a million steps n of so many are.
fn share(n: u32, steps: usize) -> u64 {
    if steps == 0 {
        return 0;
    }
    (n as u64) * 1_000_000 / (steps as u64)
}

// Whether a slot is strained at least twice as much as its frame.
fn is_strained(own: u64, all: u64) -> bool {
    own > 0 && own / 2 >= all
}

// Whether valid slot k is named on a page that does not have every slot.
fn is_named(f: Frame, facts: &Facts, steps: usize, k: usize) -> bool
    requires { k < frame_slots }
{
    let own = share(facts.strained[k], steps);
    !is_firm(facts, k) || facts.apart[k] > 0 || is_strained(own, share(f.strained, f.steps))
}

// What a slot lacks.
fn put_lack(sheet: &mut Sheet, lack: Lack) {
    match lack {
        Lack::Noisy => sheet.put(b"; noisy"),
        Lack::Disturbed => sheet.put(b"; disturbed"),
        Lack::Weak => sheet.put(b"; weak"),
    }
}

// The line of valid slot k.
fn put_slot(sheet: &mut Sheet, facts: &Facts, c: Combination, k: usize)
    requires { k < frame_slots }
{
    fill_form(sheet, b"  valid slot @, ", &[k]);
    put_combination(sheet, c);
    fill_form(
        sheet,
        b": strength @ %, $ of $ steps strained",
        &[
            facts.strength[k] as usize,
            facts.strained[k] as usize,
            c.steps_per_slot(),
        ],
    );
    if let Some(lack) = facts.firmness[k].lack {
        put_lack(sheet, lack);
    }
    if facts.apart[k] > 0 {
        sheet.put(b"; the best reading has other bytes");
    }
    sheet.put(b"\n");
}

// The lines of the valid slots: of all, or of those that are weak or strained beyond the usual.
pub fn put_slots(sheet: &mut Sheet, f: Frame, facts: &Facts, is_all: bool) {
    let runs = slots::runs(f.table).unwrap_or(slots::NO_RUNS).runs;
    for k in 0..f.valid.min(SLOTS) {
        let c = place_of(runs, k).run.combination;
        if is_all || is_named(f, facts, c.steps_per_slot(), k) {
            put_slot(sheet, facts, c, k);
        }
    }
}

// The strength of a slot.
fn strength_of(facts: &Facts, k: usize) -> usize {
    if k < SLOTS {
        facts.strength[k] as usize
    } else {
        0
    }
}

// The strength of the weakest and of the strongest valid slot.
pub fn put_strengths(sheet: &mut Sheet, f: Frame, facts: &Facts) {
    let n = f.valid;
    if n == 0 {
        sheet.put(b"strength: there is no valid slot\n");
        return;
    }
    let weakest = at_rank(facts, n, Kind::All, 0).unwrap_or(SLOTS);
    let strongest = at_rank(facts, n, Kind::All, n - 1).unwrap_or(SLOTS);
    fill_form(
        sheet,
        b"strength: @ to @ % of a clean slot's lead, least in valid slot @\n",
        &[
            strength_of(facts, weakest),
            strength_of(facts, strongest),
            weakest,
        ],
    );
}

// The lines of the frame's 48 slots.
pub fn put_places(sheet: &mut Sheet, facts: &Facts, sums: &Sums) {
    for (k, &outside) in facts.outside.iter().enumerate() {
        fill_form(
            sheet,
            b"  slot @: $ points outside the margins, ",
            &[k, outside as usize],
        );
        put_words(sheet, slot_quality(sums, k));
        sheet.put(b"\n");
    }
}
