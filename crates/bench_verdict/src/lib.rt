// The verdict in words: whether the points of a frame prove the bytes that were read, or those at hand; what a reading is worth; and its strain.
#![tactic(auto)]

pub mod facts;
pub mod firm;
pub mod last;

ghost use Rattle.std.specs.Prelude.{◌≤◌};
ghost use Rattle.isdbs_combination.specs.Combinations.{frame_slots};

use bench_words::text::{count, one_of, say, text};
use isdbs_core::frame::SLOTS;
use last::NO_HEADER;

fn wide(n: u32) -> usize {
    n as usize
}

// How many steps are strained in all. Without any the frame may still be bad.
pub fn in_all(steps: usize, strained: u32) {
    say(b"strained: $ of $ steps", &[wide(strained), steps]);
    one_of(
        b"\n|; that alone does not mean a good frame\n",
        (strained == 0) as usize,
    );
}

// More slots than these are counted and not named.
const NAMED: usize = 8;

// How many of the counts are not 0.
fn counted(counts: &[u32; SLOTS]) -> usize
    ensures { result ≤ frame_slots }
{
    counts.iter().filter(|&&n| n != 0).count()
}

// Names the n slots whose counts are not 0.
fn slot_names(counts: &[u32; SLOTS], n: usize) {
    let mut left = n;
    for (k, &amount) in counts.iter().enumerate() {
        if amount != 0 && left > 0 {
            if left < n {
                one_of(b", | and ", (left == 1) as usize);
            }
            count(k);
            left -= 1;
        }
    }
}

// In which slots the counts are not 0.
pub fn places(counts: &[u32; SLOTS], kind: &[u8]) {
    let n = counted(counts);
    if n == 0 {
        return;
    }
    text(b", in");
    if n > NAMED {
        say(b" $", &[n]);
        text(kind);
        text(b"s");
        return;
    }
    text(kind);
    one_of(b" |s ", (n > 1) as usize);
    slot_names(counts, n);
}

// How many things there are.
fn things(n: u32, name: &[u8]) {
    count(n as usize);
    text(name);
    one_of(b"|s", (n != 1) as usize);
}

// How the words of a reading begin that is not certain.
fn points_outside(sum: u32, outside: &[u32; SLOTS]) {
    text(b"not certain: ");
    things(sum, b" point");
    text(b" outside the margins");
    places(outside, b" slot");
}

// What stands behind a certain reading beside its bytes: its header, whose turn is in eighths, or nothing.
fn rest_of_certain(turn: u8) {
    if turn == NO_HEADER {
        text(b"; cut and phase are taken as given\n");
        return;
    }
    one_of(
        b"; but the header does not fit\n|, and the header fits\n",
        (turn == 0) as usize,
    );
}

// The words of a reading: the points outside the margins of its bytes, its strained steps, and its header's turn.
pub fn tell(
    size: usize,
    sum: u32,
    outside: &[u32; SLOTS],
    strained: u32,
    counts: &[u32; SLOTS],
    turn: u8,
) {
    if size == 0 {
        text(b"certain: the table carries no bytes\n");
        return;
    }
    if sum == 0 {
        text(
            b"certain: every part lies within the margins of these bytes: for these words no other bytes fit",
        );
        rest_of_certain(turn);
        return;
    }
    points_outside(sum, outside);
    text(b"; ");
    things(strained, b" strained step");
    places(counts, b" valid slot");
    text(b"; these bytes are a reading, not a proof\n");
}

// The last line of a run that was judged.
pub fn end(sum: u32) {
    if sum == 0 {
        text(b"ok\n");
        return;
    }
    text(b"doubtful: ");
    things(sum, b" point");
    text(b" outside the margins\n");
}

// The words of bytes at hand.
pub fn tell_at_hand(size: usize, sum: u32, outside: &[u32; SLOTS]) {
    if size == 0 || sum == 0 {
        tell(size, sum, outside, 0, outside, NO_HEADER);
        return;
    }
    points_outside(sum, outside);
    text(b"; this frame is no proof of these bytes\n");
}
