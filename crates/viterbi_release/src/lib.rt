// The release of decoded bits: the held decision words are traced back, those left move down, and freed words become 0.
#![tactic(auto)]

ghost use Rattle.std.specs.Prelude.{◌≡◌, ◌+◌, ◌-◌, ◌<◌, ◌≤◌, length, take, drop, replicate};
ghost use Rattle.trellis.specs.Lists.{laid};
ghost use Rattle.trellis.specs.Step.{kept, back};
ghost use Rattle.trellis.specs.Isdb.{best_state, traced};
ghost use Rattle.trellis.specs.Run.{block, traceback_limit};
ghost use Rattle.trellis.specs.Isdb;

use trellis::{BLOCK, HALF, STATES};

// The state before the one in which a step ends, as its decision word has it.
fn step_back(word: u64, s: usize) -> usize
    requires { s < Isdb.states }
    ensures { (result ≡ kept Isdb.half word s) × (result < Isdb.states) }
{
    2 * (s % HALF) + ((word >> s) % 2) as usize
}

// The state after `count` of n steps on the way back from `state`, the last one.
fn state_after(decisions: &[u64], n: usize, state: usize, count: usize) -> usize
    requires { (state < Isdb.states) × (n ≤ length decisions.now) × (count ≤ n) }
    ensures { (result < Isdb.states) × (result ≡ back Isdb.half (take n decisions.now) n state (n - count)) }
{
    let mut s = state;
    let mut t = n;
    while t > count {
        t -= 1;
        s = step_back(decisions[t], s);
    }
    s
}

// Traces the first n decision words back from `state`, and writes their bits to the front of `out`.
fn trace_all(decisions: &[u64], n: usize, state: usize, out: &mut [u8])
    requires { (state < Isdb.states) × (n ≤ length decisions.now) × (n ≤ length out.old) }
    ensures { out.new ≡ laid (traced (take n decisions.now) state) out.old }
{
    let mut s = state;
    let mut t = n;
    while t > 0 {
        t -= 1;
        out[t] = (s / HALF) as u8;
        s = step_back(decisions[t], s);
    }
}

// Traces the first n decision words back from `state`, and writes the oldest `count` of the n bits to the front of `out`.
pub fn trace(decisions: &[u64], n: usize, state: usize, count: usize, out: &mut [u8])
    requires { (state < Isdb.states) × (n ≤ length decisions.now) × (count ≤ n) × (count ≤ length out.old) }
    ensures { out.new ≡ laid (take count (traced (take n decisions.now) state)) out.old }
{
    let s = state_after(decisions, n, state, count);
    trace_all(decisions, count, s, out);
}

// Moves n words down by the words of a release.
pub fn move_down(decisions: &mut [u64], n: usize)
    requires { block + n ≤ length decisions.old }
    ensures { decisions.new ≡ laid (take n (drop block decisions.old)) decisions.old }
{
    for t in 0..n {
        decisions[t] = decisions[BLOCK + t];
    }
}

// Sets the first n words to 0.
pub fn clear(decisions: &mut [u64], n: usize)
    requires { n ≤ length decisions.old }
    ensures { decisions.new ≡ laid (replicate n 0) decisions.old }
{
    for t in 0..n {
        decisions[t] = 0;
    }
}

// The release of 4,096 bits to the front of `out`, as BLOCK + traceback words are held: those left move down, and freed words become 0.
pub fn release(pm: &[f32; STATES], traceback: usize, decisions: &mut [u64], out: &mut [u8])
    requires { (traceback ≤ traceback_limit) × (block + traceback ≤ length decisions.old) × (block ≤ length out.old) }
    ensures { (out.new ≡ laid (take block (traced (take (block + traceback) decisions.old) (best_state pm.now))) out.old)
        × (decisions.new ≡ laid (drop block (take (block + traceback) decisions.old)) (laid (replicate (block + traceback) 0) decisions.old)) }
{
    let s = viterbi_step::best_state(pm);
    trace(decisions, BLOCK + traceback, s, BLOCK, out);
    move_down(decisions, traceback);
    clear(&mut decisions[traceback..], BLOCK);
}
