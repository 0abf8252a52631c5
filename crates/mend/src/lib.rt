// Mending stored coded stretches (document 02, P13): hard X, Y bits with at most four wrong ones, between a known start and a known end.
#![tactic(auto)]

ghost use Rattle.std.specs.Prelude.{◌≡◌, ◌+◌, ◌*◌, ◌/◌, ◌%◌, ◌^◌, ◌≤◌, ◌<◌, length};
ghost use Rattle.refusal.specs.Rows.{first_row};
ghost use Rattle.trellis.specs.Lists.{upto, laid};
ghost use Rattle.trellis.specs.Stretch.{Bits};
ghost use Rattle.mend_distance.specs.Stretches.{unlike, changed, most_changed};
ghost use Rattle.mend_distance.specs.Distances.{least, word_at};
ghost use Rattle.mend.specs.Rows.{some_no_bit, lent_rows, most_bits, places};
ghost use Rattle.mend.specs.Tail.{Writes};
ghost use Rattle.mend.specs.Calls.{Mends, Called};
ghost use Rattle.mend.specs.Allowed.{Allowed};
ghost use Rattle.trellis.specs.Isdb;

use mend_distance::{keep_words, least_distance};
use refusal::Refusal;
use trellis::FRAME_WORDS;
use viterbi_core::clear;
use viterbi_encode::encode_bit;

// P13: "at most 4,096 steps", two bits each.
const MOST_STEPS: usize = 4_096;

const MOST_BITS: usize = 2 * MOST_STEPS;

// P13: "differs in at most four bits".
const MOST_CHANGED: u8 = 4;

// P13: "the position list always needing four places".
const PLACES: usize = 4;

fn some_no_bit(bits: &[u8]) -> bool
    ensures { result ≡ some_no_bit bits.now }
{
    bits.iter().any(|b| *b > 1)
}

// Rows 5 and 9.
fn answer_lent(bits: &[u8], decisions: usize, out: usize, list: usize) -> Result<(), Refusal>
    ensures { result ≡ first_row (lent_rows bits.now decisions out list) }
{
    if bits.len() % 2 != 0 {
        return Err(Refusal::Length);
    }
    if bits.len() > MOST_BITS {
        return Err(Refusal::Length);
    }
    if some_no_bit(bits) {
        return Err(Refusal::Length);
    }
    if out < bits.len() {
        return Err(Refusal::Space);
    }
    if list < PLACES {
        return Err(Refusal::Space);
    }
    if decisions < FRAME_WORDS {
        return Err(Refusal::Space);
    }
    Ok(())
}

// The predecessor of the state s that the decision word w keeps.
fn kept_predecessor(s: u8, w: u64) -> u8
    requires { s < Isdb.states }
    ensures { (result < Isdb.states) × (result ≡ 2 * (s % Isdb.half) + w / 2 ^ s % 2) }
{
    2 * (s % 32) + ((w >> s) % 2) as u8
}

// Writes the coded stretch within four bits, traced back from `end` by the decision words, to the front of `out`. The words stay in `decisions`.
fn write_stretch(bits: &[u8], start: u8, end: u8, decisions: &mut [u64], out: &mut [u8])
    requires { Bits bits.now × (length bits.now % 2 ≡ 0) × (length bits.now / 2 ≤ length decisions.old) × (length bits.now ≤ length out.old)
        × (least (start % Isdb.states) (end % Isdb.states) bits.now ≤ most_changed) }
    ensures words { decisions.new ≡ laid (upto (word_at (start % Isdb.states) bits.now) (length bits.now / 2)) decisions.old }
    ensures writes { Writes (start % Isdb.states) (end % Isdb.states) bits.now out.old out.new }
{
    keep_words(bits, start, decisions);
    let mut s = end % 64;
    for t in (0..bits.len() / 2).rev() {
        let from = kept_predecessor(s, decisions[t]);
        let sent = encode_bit(from, s / 32);
        out[2 * t + 1] = sent.y;
        out[2 * t] = sent.x;
        s = from;
    }
}

// The positions in which `mended` differs from `bits`, at the front of `list`. How many.
fn list_changes(mended: &[u8], bits: &[u8], list: &mut [u32]) -> usize
    requires { (length mended.now ≡ length bits.now) × (length bits.now ≤ most_bits) × (unlike mended.now bits.now ≤ most_changed) × (places ≤ length list.old) }
    ensures { (result ≡ length (changed 0 mended.now bits.now)) × (list.new ≡ laid (changed 0 mended.now bits.now) list.old) }
{
    let mut count: usize = 0;
    for (i, bit) in bits.iter().enumerate() {
        if mended[i] != *bit {
            list[count] = i as u32;
            count += 1;
        }
    }
    count
}

// Where a coded stretch lies within four bits: it is written, the words are cleared, and the changed positions are listed. How many.
fn mend_near(
    bits: &[u8],
    start: u8,
    end: u8,
    decisions: &mut [u64],
    out: &mut [u8],
    list: &mut [u32],
) -> usize
    requires { Allowed bits.now (length decisions.old) (length out.old) (length list.old) × (least (start % Isdb.states) (end % Isdb.states) bits.now ≤ most_changed) }
    ensures { Mends start end bits.now result decisions.old decisions.new out.old out.new list.old list.new }
{
    let n = bits.len();
    write_stretch(bits, start, end, decisions, out);
    clear(decisions, FRAME_WORDS);
    list_changes(&out[..n], bits, list)
}

// The coded stretch from `start` to `end`, both mod 64, that differs from `bits` in at most four bits, at the front of `out`, and the positions in which it differs at the front of
// `list`: X of step t at 2t, Y at 2t + 1. How many positions were changed. The first 4,224 words of `decisions` become 0.
pub fn mend(
    bits: &[u8],
    start: u8,
    end: u8,
    decisions: &mut [u64],
    out: &mut [u8],
    list: &mut [u32],
) -> Result<usize, Refusal>
    ensures { Called start end bits.now result decisions.old decisions.new out.old out.new list.old list.new }
{
    answer_lent(bits, decisions.len(), out.len(), list.len())?;
    if least_distance(bits, start, end) > MOST_CHANGED {
        return Err(Refusal::Unmendable);
    }
    Ok(mend_near(bits, start, end, decisions, out, list))
}
