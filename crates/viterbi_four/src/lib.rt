// The step of four metrics: the metrics of the branches in rows, one for each input and low state bit, and both halves of the states in one loop.
#![tactic(auto)]

ghost use Rattle.std.specs.Prelude.{◌≡◌, ◌+◌, ◌*◌};
ghost use Rattle.trellis.specs.Step.{four};
ghost use Rattle.trellis.specs.Isdb.{nexts, word};
ghost use Rattle.viterbi_four.specs.Rows.{metric_row};

use trellis::{HALF, STATES};
use viterbi_branches::{BRANCH, metric_of};
use viterbi_choice::{beats, larger};

fn wide(x: u32) -> u64
    ensures { result ≡ x }
{
    x as u64
}

// The word of both halves.
pub fn join(low: u32, high: u32) -> u64
    ensures { result ≡ low + high * 4294967296 }
{
    wide(low) + wide(high) * 4294967296
}

// The path values after a step, and its decision word.
#[derive(Clone, Copy)]
pub struct Stepped {
    pub values: [f32; STATES],
    pub word: u64,
}

// The metrics of the branches on the input 0 from the even states. Each row names the constant for itself, so that the compiler folds it.
fn row00(m: [f32; 4]) -> [f32; HALF]
    ensures { result ≡ metric_row m 0 0 }
{
    let t = BRANCH;
    let mut r = [0.0f32; HALF];
    for j in 0..HALF {
        r[j] = metric_of(&t, 0, 0, j, m);
    }
    r
}

// On the input 0 from the odd states.
fn row01(m: [f32; 4]) -> [f32; HALF]
    ensures { result ≡ metric_row m 0 1 }
{
    let t = BRANCH;
    let mut r = [0.0f32; HALF];
    for j in 0..HALF {
        r[j] = metric_of(&t, 0, 1, j, m);
    }
    r
}

// On the input 1 from the even states.
fn row10(m: [f32; 4]) -> [f32; HALF]
    ensures { result ≡ metric_row m 1 0 }
{
    let t = BRANCH;
    let mut r = [0.0f32; HALF];
    for j in 0..HALF {
        r[j] = metric_of(&t, 1, 0, j, m);
    }
    r
}

// On the input 1 from the odd states.
fn row11(m: [f32; 4]) -> [f32; HALF]
    ensures { result ≡ metric_row m 1 1 }
{
    let t = BRANCH;
    let mut r = [0.0f32; HALF];
    for j in 0..HALF {
        r[j] = metric_of(&t, 1, 1, j, m);
    }
    r
}

// The add-compare-select of four metrics, that of the branches with the outputs (X, Y) at 2X + Y.
pub fn acs4(pm: [f32; STATES], m: [f32; 4]) -> Stepped
    ensures { (result.values ≡ nexts pm (four m)) × (result.word ≡ word pm (four m)) }
{
    let p = row00(m);
    let q = row01(m);
    let r = row10(m);
    let s = row11(m);
    let mut values = pm;
    let mut low: u32 = 0;
    let mut high: u32 = 0;
    for j in 0..HALF {
        let even = pm[2 * j] + p[j];
        let odd = pm[2 * j + 1] + q[j];
        values[j] = larger(even, odd);
        low = low | (beats(odd, even) << j);
        let even1 = pm[2 * j] + r[j];
        let odd1 = pm[2 * j + 1] + s[j];
        values[HALF + j] = larger(even1, odd1);
        high = high | (beats(odd1, even1) << j);
    }
    Stepped {
        values,
        word: join(low, high),
    }
}
