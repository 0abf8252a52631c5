// The core of the Viterbi decoder: the steps of a call with the releases that may follow, and tracing; and the depth that a traceback acts as. Every call of a
// decoder runs on this. The calls check what these functions ask.
// The chapters of specs/:
//   PartLaws     a slice whose tail was lent and written
//   Calls        what a step of a call leaves
//   TracedLaws   laws of the traced bits
//   StepLaws     one step, with and without a release
//   CountLaws    how many words are held and bits have left
//   HoldingLaws  the lent slices follow the decoder
//   RunLaws      a call over two lists as two calls
//   BlockLaws    blocks of steps with neither a subtraction nor a release
#![tactic(auto)]

ghost use Rattle.std.specs.Prelude.{◌≡◌, ◌++◌, cond, ◌+◌, ◌*◌, ◌<◌, ◌≤◌, ◌%◌, ◌^◌, ltb, length, take, drop, replicate};
ghost use Rattle.trellis.specs.Lists.{laid};
ghost use Rattle.trellis.specs.Step.{renormalised};
ghost use Rattle.trellis.specs.Run.{start_at, start_unknown, depth, traceback_limit, block, releases};
ghost use Rattle.viterbi_core.specs.Calls.{steps_of, lent_steps, due, best_state, traced, Carried, Ended};
ghost use Rattle.trellis.specs.Isdb;

use trellis::{BLOCK, INTERVAL, STATES};
pub use viterbi_release::{clear, move_down};
use viterbi_release::{release, trace};
pub use viterbi_step::renormalise;
use viterbi_steps::Kind;

// How far a call has come: the held words, and the bits put out.
#[derive(Clone, Copy)]
pub struct At {
    pub held: usize,
    pub count: usize,
}

// Whether the maximum is to be subtracted before step i of a call: 64 steps are done; a known bit has subtracted it.
fn is_due(kind: Kind, i: usize) -> bool
    ensures { result ≡ due kind i }
{
    match kind {
        Kind::Pairs => i % INTERVAL == 0,
        Kind::Fours => i % INTERVAL == 0,
        Kind::Knowns => false,
    }
}

// Subtracts the maximum where that is due before step i of the call.
fn settle_block(pm: &mut [f32; STATES], kind: Kind, i: usize)
    ensures { pm.new ≡ cond (due kind i) (renormalised Isdb.half pm.old) pm.old }
{
    if is_due(kind, i) {
        renormalise(pm);
    }
}

// The end of a block, before step i of the call: the maximum is subtracted, and bits are released, where either is due.
fn end_block(
    pm: &mut [f32; STATES],
    at: At,
    traceback: usize,
    kind: Kind,
    i: usize,
    decisions: &mut [u64],
    out: &mut [u8],
) -> At
    requires { (1 ≤ traceback) × (traceback ≤ traceback_limit) × (at.held ≤ block + traceback) × (block + traceback ≤ length decisions.old) × (at.count ≤ length out.old) × (at.held ≡ block + traceback → at.count + block ≤ length out.old) }
    ensures { Ended traceback kind i pm.old at decisions.old out.old result pm.new decisions.new out.new }
{
    let held = at.held;
    let count = at.count;
    settle_block(pm, kind, i);
    if held < BLOCK + traceback {
        return At { held, count };
    }
    release(pm, traceback, decisions, &mut out[count..]);
    At {
        held: traceback,
        count: count + BLOCK,
    }
}

// n steps of what is lent, the first of which is step i of the call, in blocks that end where the maximum is subtracted or bits are released: every call of ISDB's decoders runs on this.
pub fn run_steps(
    pm: &mut [f32; STATES],
    at: At,
    traceback: usize,
    i: usize,
    n: usize,
    kind: Kind,
    values: &[f32],
    known: &[u8],
    decisions: &mut [u64],
    out: &mut [u8],
) -> At
    requires { (1 ≤ traceback) × (traceback ≤ traceback_limit) × (at.held < block + traceback) × (block + traceback ≤ length decisions.old) × (at.count + block * releases traceback at.held n ≤ length out.old) × (i + n < 2 ^ 64) × (n ≤ lent_steps kind values.now known.now) }
    ensures { Carried traceback (steps_of kind values.now known.now) i n pm.old at decisions.old out.old result pm.new decisions.new out.new }
{
    let mut now_at = at;
    let mut k: usize = 0;
    while k < n {
        let held = now_at.held;
        let len = viterbi_steps::block_steps(i + k, n - k, BLOCK + traceback - held);
        viterbi_steps::run(pm, kind, values, known, k, len, &mut decisions[held..]);
        let grown = At {
            held: held + len,
            count: now_at.count,
        };
        k = k + len;
        now_at = end_block(pm, grown, traceback, kind, i + k, decisions, out);
    }
    now_at
}

// Traceback 0 acts as 1.
pub fn depth_of(traceback: usize) -> usize
    ensures { result ≡ depth traceback }
{
    if traceback == 0 { 1 } else { traceback }
}

// Whether `space` places are too few for the bits that n steps release.
pub fn few_places(traceback: usize, held: usize, n: usize, space: usize) -> bool
    requires { (1 ≤ traceback) × (traceback ≤ traceback_limit) × (held < block + traceback) }
    ensures { result ≡ ltb space (block * releases traceback held n) }
{
    let blocks = n / BLOCK + (n % BLOCK + held + (BLOCK - traceback)) / BLOCK;
    if blocks <= 1 {
        false
    } else {
        space / BLOCK < blocks - 1
    }
}

// The end of a call: puts out the bits of all held words, traced back from `state`, after the first `count` places of `out`, and zeroes the words. The
// new count.
pub fn finish_at(state: usize, at: At, decisions: &mut [u64], out: &mut [u8]) -> usize
    requires { (state < Isdb.states) × (at.held ≤ length decisions.old) × (at.count + at.held ≤ length out.old) }
    ensures { (result ≡ at.count + at.held)
        × (decisions.new ≡ laid (replicate at.held 0) decisions.old)
        × (out.new ≡ take at.count out.old ++ laid (traced (take at.held decisions.old) state) (drop at.count out.old)) }
{
    let held = at.held;
    let count = at.count;
    trace(decisions, held, state, held, &mut out[count..]);
    clear(decisions, held);
    count + held
}

// The flush inside a call: from the best state.
pub fn finish(pm: &[f32; STATES], at: At, decisions: &mut [u64], out: &mut [u8]) -> usize
    requires { (at.held ≤ length decisions.old) × (at.count + at.held ≤ length out.old) }
    ensures { (result ≡ at.count + at.held)
        × (decisions.new ≡ laid (replicate at.held 0) decisions.old)
        × (out.new ≡ take at.count out.old ++ laid (traced (take at.held decisions.old) (best_state pm.now)) (drop at.count out.old)) }
{
    finish_at(viterbi_step::best_state(pm), at, decisions, out)
}

// The path values of a known start (document 01: "0 at the given state (mod 64), -1,000,000 elsewhere").
pub fn start_at(state: u8) -> [f32; STATES]
    ensures { result ≡ start_at Isdb.states state }
{
    let mut pm = [-1.0e6f32; STATES];
    pm[(state % 64) as usize] = 0.0;
    pm
}

// The path values of an unknown start.
pub fn start_unknown() -> [f32; STATES]
    ensures { result ≡ start_unknown Isdb.states }
{
    [0.0f32; STATES]
}
