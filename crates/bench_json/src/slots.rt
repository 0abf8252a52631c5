// The slots as lists of objects.
ghost use Rattle.std.specs.Prelude.{◌<◌};
ghost use Rattle.isdbs_combination.specs.Combinations.{frame_slots};

use bench_firm::place_of;
use bench_quality::{Sums, put_json, slot_quality};
use bench_verdict::facts::{Facts, Frame};
use bench_verdict::firm::is_firm;
use isdbs_core::combination::Combination;
use isdbs_core::frame::SLOTS;
use isdbs_core::slots;
use picture_bars::form::{fill_form, put_combination};
use picture_sheet::Sheet;

// The end of the object before object k of a list: a line for each.
fn put_separator(sheet: &mut Sheet, k: usize) {
    let separator: &[u8] = if k == 0 { b"\n" } else { b",\n" };
    sheet.put(separator);
}

// A name and a truth.
fn put_truth(sheet: &mut Sheet, name: &[u8], so: bool) {
    let truth: &[u8] = if so { b"true" } else { b"false" };
    sheet.put(name);
    sheet.put(truth);
}

// Valid slot k: whether it is firm, and whether its reading is the best, at the end.
fn put_slot(sheet: &mut Sheet, facts: &Facts, c: Combination, k: usize)
    requires { k < frame_slots }
{
    fill_form(sheet, b"{\"valid_slot\":@,\"combination\":\"", &[k]);
    put_combination(sheet, c);
    fill_form(
        sheet,
        b"\",\"strength\":@,\"strained\":@,\"steps\":@",
        &[
            facts.strength[k] as usize,
            facts.strained[k] as usize,
            c.steps_per_slot(),
        ],
    );
    put_truth(sheet, b",\"firm\":", is_firm(facts, k));
    put_truth(sheet, b",\"best\":", facts.apart[k] == 0);
    sheet.put(b"}");
}

// The valid slots.
pub(crate) fn put_slots(sheet: &mut Sheet, f: Frame, facts: &Facts) {
    let runs = slots::runs(f.table).unwrap_or(slots::NO_RUNS).runs;
    sheet.put(b"\"valid\":[");
    for k in 0..f.valid.min(SLOTS) {
        put_separator(sheet, k);
        put_slot(sheet, facts, place_of(runs, k).run.combination, k);
    }
    sheet.put(b"],\n");
}

// The frame's 48 slots.
pub(crate) fn put_places(sheet: &mut Sheet, facts: &Facts, sums: &Sums) {
    sheet.put(b"\"slots\":[");
    for (k, &outside) in facts.outside.iter().enumerate() {
        put_separator(sheet, k);
        fill_form(sheet, b"{\"slot\":@,\"outside\":@,", &[k, outside as usize]);
        put_json(sheet, slot_quality(sums, k));
        sheet.put(b"}");
    }
    sheet.put(b"]\n");
}
