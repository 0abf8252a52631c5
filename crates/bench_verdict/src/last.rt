// What a reading is worth, and the last line that says it.
use crate::facts::{Facts, Frame};
use crate::firm::{Kind, how_many, put_slots};
use bench_quality::{Quality, is_aside, put_aside};
use picture_bars::form::fill_form;
use picture_sheet::Sheet;

// The points prove the bytes; the best reading and firm in every slot; some slots weak; not the best reading; the header does not fit; gain or turn off.
#[derive(Clone, Copy, PartialEq, Eq)]
pub enum Worth {
    Certain,
    Firm,
    Weak,
    Other,
    Turned,
    Aside,
}

// A turn that is not told, in eighths; and one for a frame without a header.
pub const NOT_TOLD: u8 = 8;

pub const NO_HEADER: u8 = 9;

// Whether a header fits, or there is none.
fn fits(turn: u8) -> bool {
    turn == 0 || turn == NO_HEADER
}

// Whether the gain or the turn of points is off.
fn is_off(quality: Option<Quality>) -> bool {
    match quality {
        Some(q) => is_aside(q),
        None => false,
    }
}

// What a reading is worth that is not certain.
fn worth_of_best(f: Frame, facts: &Facts, q: Option<Quality>) -> Worth {
    if how_many(facts, f.valid, Kind::Other) > 0 {
        return Worth::Other;
    }
    if how_many(facts, f.valid, Kind::Weak) > 0 {
        return Worth::Weak;
    }
    if is_off(q) { Worth::Aside } else { Worth::Firm }
}

// What a reading is worth, the turn of its header being told in eighths.
pub fn worth_of(f: Frame, facts: &Facts, q: Option<Quality>, turn: u8) -> Worth {
    if !fits(turn) {
        return Worth::Turned;
    }
    if f.outside == 0 {
        return Worth::Certain;
    }
    worth_of_best(f, facts, q)
}

// Whether a reading of this worth is good.
pub fn is_ok(worth: Worth) -> bool {
    matches!(worth, Worth::Certain | Worth::Firm)
}

// The turn of a header.
pub fn put_turn(sheet: &mut Sheet, turn: u8) {
    if turn >= NOT_TOLD {
        sheet.put(b"no header is told");
    } else {
        fill_form(sheet, b"turned by @ degrees", &[45 * (turn as usize)]);
    }
}

fn put_align(sheet: &mut Sheet, quality: Option<Quality>) {
    if let Some(q) = quality {
        put_aside(sheet, q);
        sheet.put(b": align first");
    }
}

fn put_weak(sheet: &mut Sheet, f: Frame, facts: &Facts, q: Option<Quality>) {
    put_slots(sheet, facts, f.valid, Kind::Weak, b" weak");
    if is_off(q) {
        sheet.put(b"; ");
        put_align(sheet, q);
    }
}

fn put_other(sheet: &mut Sheet, f: Frame, facts: &Facts) {
    sheet.put(b"not the best in ");
    put_slots(sheet, facts, f.valid, Kind::Other, b"");
}

// The last line, without its end.
pub fn put_last(sheet: &mut Sheet, f: Frame, facts: &Facts, q: Option<Quality>, turn: u8) {
    let worth = worth_of(f, facts, q, turn);
    if !is_ok(worth) {
        sheet.put(b"doubtful: ");
    }
    match worth {
        Worth::Certain => sheet.put(b"ok: certain"),
        Worth::Firm => sheet.put(b"ok: best, firm in every slot"),
        Worth::Weak => put_weak(sheet, f, facts, q),
        Worth::Other => put_other(sheet, f, facts),
        Worth::Turned => put_turn(sheet, turn),
        Worth::Aside => put_align(sheet, q),
    }
}
