// The soft values of a call's steps, 0 where a mother bit is not sent, and the end of a call.
#![tactic(auto)]

ghost use Rattle.std.specs.Prelude.{◌≡◌, ◌++◌, ℕ, ◌+◌, ◌*◌, ◌<◌, ◌≤◌, ◌/◌, ◌%◌, ◌^◌, length, take, drop, replicate};
ghost use Rattle.trellis.specs.Lists.{laid};
ghost use Rattle.trellis.specs.Step.{renormalised};
ghost use Rattle.isdbt_table.specs.Puncture.{spread};
ghost use Rattle.viterbi_core.specs.Calls.{best_state, traced};
ghost use Rattle.isdbt_steps.specs.Soft.{Placed, placed_steps, sent_as, sent_value, next_of};
ghost use Rattle.trellis.specs.Run.{block, traceback_limit, pair_steps};
ghost use Rattle.trellis.specs.Isdb;

use trellis::{BLOCK, STATES};
use viterbi_core::{At, clear, finish, renormalise};

// Which of a period's n sent values is that of the mother bit `place`; n where it is not sent.
fn sent_as(order: &[usize; 8], n: usize, place: usize) -> usize
    requires { (n ≤ 8) × (n ≤ length order.now) }
    ensures { result ≡ sent_as n order.now place }
{
    for i in 0..n {
        if order[i] == place {
            return i;
        }
    }
    n
}

// The sent value w of the period whose values begin at `base`; 0 where w is none of the n.
fn value_of(w: usize, n: usize, llrs: &[f32], base: usize) -> f32
    requires { base + n ≤ length llrs.now }
    ensures { result ≡ sent_value n llrs.now base w }
{
    if w < n { llrs[base + w] } else { 0.0 }
}

// The soft value of the mother bit k of a call, where each period has n sent values and 2 * period mother bits.
pub fn soft_at(order: &[usize; 8], n: usize, period: usize, llrs: &[f32], k: usize) -> f32
    requires { (n ≤ 8) × (n ≤ length order.now) × (1 ≤ period) × (period ≤ 7) × (n * (k / (2 * period)) + n ≤ length llrs.now) }
    ensures { result ≡ spread (take n order.now) llrs.now (n * (k / (2 * period))) (k % (2 * period)) }
{
    let width = 2 * period;
    value_of(sent_as(order, n, k % width), n, llrs, n * (k / width))
}

// Of each mother bit of a period, which of the n sent values is its own.
pub fn places_of(order: &[usize; 8], n: usize) -> [usize; 14]
    requires { (n ≤ 8) × (n ≤ length order.now) }
    ensures { Placed n order.now result }
{
    let mut places = [0usize; 14];
    for k in 0..14 {
        places[k] = sent_as(order, n, k);
    }
    places
}

// Where a step stands: the place of its first mother bit in its period, and where the sent values of that period begin.
#[derive(Clone, Copy)]
struct Standing {
    place: usize,
    base: usize,
}

// Where the next step stands; `width` places, two to a step, make a period, which has n sent values.
fn next_of(at: Standing, width: usize, n: usize) -> Standing
    requires { (at.place < width) × (width ≤ 14) × (at.base + n < 2 ^ 64) }
    ensures { result ≡ next_of at width n }
{
    if at.place + 2 == width {
        Standing {
            place: 0,
            base: at.base + n,
        }
    } else {
        Standing {
            place: at.place + 2,
            base: at.base,
        }
    }
}

// The number of values, which the type fixes.
fn values_of(pairs: &[f32; 128]) -> usize
    ensures { (result ≡ 128) × (length pairs.now ≡ 128) }
{
    let values: &[f32] = pairs;
    values.len()
}

// The soft values of `len` steps from step i on, to the front of `pairs`.
pub fn soft_block(
    places: &[usize; 14],
    n: usize,
    period: usize,
    llrs: &[f32],
    i: usize,
    len: usize,
    pairs: &mut [f32; 128],
)
    requires { (n ≤ 8) × (1 ≤ period) × (period ≤ 7) × (0 < len) × (len ≤ 64) × (2 * (i + len) < 2 ^ 64) × ((k : ℕ) → k < 2 * (i + len) → n * (k / (2 * period)) + n ≤ length llrs.now) }
    ensures { (length pairs.new ≡ 128) × ((k : ℕ) → k < len → placed_steps period n places.now llrs.now (i + k) ≡ pair_steps pairs.new k) }
{
    values_of(pairs);
    let width = 2 * period;
    let mut at = Standing {
        place: 2 * i % width,
        base: n * (2 * i / width),
    };
    for k in 0..len {
        let place = at.place;
        let base = at.base;
        pairs[2 * k] = value_of(places[place], n, llrs, base);
        pairs[2 * k + 1] = value_of(places[place + 1], n, llrs, base);
        at = next_of(at, width, n);
    }
}

// The end of a call: the maximum is subtracted, the held words are traced from the best state, and the decisions become 0. How many bits are out.
pub fn end_call(
    pm: &mut [f32; STATES],
    at: At,
    traceback: usize,
    decisions: &mut [u64],
    out: &mut [u8],
) -> usize
    requires { (traceback ≤ traceback_limit) × (at.held ≤ block + traceback) × (block + traceback ≤ length decisions.old) × (at.count + at.held ≤ length out.old) }
    ensures { (result ≡ at.count + at.held)
        × (decisions.new ≡ laid (replicate (block + traceback) 0) (laid (replicate at.held 0) decisions.old))
        × (out.new ≡ take at.count out.old ++ laid (traced (take at.held decisions.old) (best_state (renormalised Isdb.half pm.old))) (drop at.count out.old)) }
{
    renormalise(pm);
    let bits = finish(pm, at, decisions, out);
    clear(decisions, BLOCK + traceback);
    bits
}
