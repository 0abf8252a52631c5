// The lines of the slots: how strong the best reading is there, and whether read gives the same bytes.
use bench_calls::strength::percent;
use bench_firm::place_of;
use bench_words::text::{combination, number, one_of, say, text};
use isdbs_core::frame::SLOTS;
use isdbs_core::slots;
use isdbs_core::slots::Run;
use isdbs_core::tmcc::Table;

// Valid slot k of the frame, which a run has.
fn slot_line(k: usize, r: Run, lead: u64, clean: u64, apart: u32) {
    let c = r.combination;
    say(b"  valid slot $, ", &[k]);
    combination(c);
    text(b": strength ");
    number(percent(lead, clean));
    one_of(b" %\n| %; read gives other bytes\n", (apart > 0) as usize);
}

// The valid slots of a table's frame.
pub fn by_slot(t: Table, leads: &[u64; SLOTS], clean: &[u64; SLOTS], apart: &[u32; SLOTS]) {
    let all = slots::runs(t).unwrap_or(slots::NO_RUNS);
    for k in 0..all.valid_slots.min(SLOTS) {
        slot_line(k, place_of(all.runs, k).run, leads[k], clean[k], apart[k]);
    }
}
