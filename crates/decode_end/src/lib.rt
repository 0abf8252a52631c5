// The end of a frame: known bits, and all held bits leave.
#![tactic(auto)]

ghost use Rattle.std.specs.Prelude.{◌≡◌, ◌+◌, ◌<◌, ◌≤◌, length};
ghost use Rattle.trellis.specs.Isdb.{frame_words};
ghost use Rattle.decode_end.specs.End.{Ended};
ghost use Rattle.trellis.specs.Lists.{upto};
ghost use Rattle.isdbs_points.specs.Layout.{word_bit};
ghost use Rattle.isdbs_frame.specs.Frame.{w1, sync_bits};

use isdbs_core::frame::{SYNC_BITS, W1};
use isdbs_points::word_bit;
use trellis::{FRAME_TRACEBACK, FRAME_WORDS, STATES};
use viterbi_core::{At, clear, finish, renormalise, run_steps};
use viterbi_steps::Kind;

// The 16 bits of W1.
fn known_bits() -> [u8; SYNC_BITS]
    ensures { result ≡ upto (word_bit w1) sync_bits }
{
    let mut known = [0u8; SYNC_BITS];
    for (i, bit) in known.iter_mut().enumerate() {
        *bit = word_bit(W1, i);
    }
    known
}

// The end of a frame: the maximum is subtracted, the 16 bits of W1 follow as known bits, all held bits leave, and the words become 0.
pub fn read_end(pm: &mut [f32; STATES], at: At, decisions: &mut [u64], bits: &mut [u8])
    requires { (at.held < frame_words) × (frame_words ≤ length decisions.old) × (at.held + at.count + sync_bits ≤ length bits.old) }
    ensures { Ended pm.old at decisions.old bits.old decisions.new bits.new }
{
    renormalise(pm);
    let known = known_bits();
    let now_at = run_steps(
        pm,
        at,
        FRAME_TRACEBACK,
        0,
        SYNC_BITS,
        Kind::Knowns,
        &[0.0f32; 0],
        &known,
        decisions,
        bits,
    );
    finish(pm, now_at, decisions, bits);
    clear(decisions, FRAME_WORDS);
}
