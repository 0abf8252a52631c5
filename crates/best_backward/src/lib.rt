// The backward pass: of each state the least cost to the end, and that of a content which differs from the reading within the rest of its slot.
#![tactic(auto)]

ghost use Rattle.std.specs.Prelude.{◌≡◌, ◌+◌, ◌-◌, ◌*◌, ◌/◌, ◌%◌, ◌<◌, ◌≤◌, length};
ghost use Rattle.viterbi_branches.specs.Branches.{BranchNumbers};
ghost use Rattle.best_grid.specs.Sides.{mirror, two, price_at};
ghost use Rattle.best_grid.specs.Backward.{low, turned, onward, least_at, other_of, backs, others, back_run, other_run};
ghost use Rattle.best_grid.specs.Leading.{seq};
ghost use Rattle.best_backward.specs.Prices.{Halved, BackRoom, price_of, turned_of, kept_at, turned_at, Four, Lower, Asked};
ghost use Rattle.best_forward.specs.Room.{listed};
ghost use Rattle.trellis.specs.Isdb;

use best_forward::{cost_of, number, states};
use best_grid::{FAR, LEVEL};
use trellis::{HALF, STATES};
use viterbi_branches::{BRANCH, Numbers};

// The state 2j + b.
#[derive(Clone, Copy)]
struct State {
    j: usize,
    b: usize,
}

// From a state on the input u, where the labels cost m, and `after` has the costs after the step.
fn ahead(after: &[u64; STATES], t: &Numbers, m: &[u64; 4], u: usize, s: State) -> u64
    requires { (u < 2) × (s.b < 2) × (s.j < Isdb.half) × BranchNumbers t.now × Halved after.now × Halved m.now }
    ensures { result ≡ onward after.now (listed m.now) u (2 * s.j + s.b) }
{
    let n = number(t, u, s.b, s.j) as usize;
    m[n] + after[HALF * u + s.j]
}

// The least cost from a state to the end, and that of a content which differs.
#[derive(Clone, Copy)]
struct Onward {
    least: u64,
    other: u64,
}

// Both of a state, from the tables after the step. The reading has the input u and costs `kept`, with the other uncoded bit `turned`.
fn back_state(
    after: &[u64; STATES],
    differing: &[u64; STATES],
    t: &Numbers,
    low: &[u64; 4],
    kept: &[u64; 4],
    turned: &[u64; 4],
    u: usize,
    s: State,
) -> Onward
    requires { (u < 2) × (s.b < 2) × (s.j < Isdb.half) × BranchNumbers t.now × Halved after.now × Halved differing.now × Halved low.now × Halved kept.now × Halved turned.now }
    ensures { (result.least ≡ least_at after.now (listed low.now) (2 * s.j + s.b))
        × (result.other ≡ other_of after.now differing.now (listed low.now) (listed kept.now) (listed turned.now) u (2 * s.j + s.b)) }
{
    let same = ahead(after, t, low, u, s);
    let other = ahead(after, t, low, 1 - u, s);
    let later = ahead(differing, t, kept, u, s);
    let aside = ahead(after, t, turned, u, s);
    Onward {
        least: same.min(other),
        other: later.min(aside.min(other)),
    }
}

// A step back of both tables, a butterfly a turn: the states 2j and 2j + 1.
fn back_step(
    b: &mut [u64; STATES],
    d: &mut [u64; STATES],
    t: &Numbers,
    low: &[u64; 4],
    kept: &[u64; 4],
    turned: &[u64; 4],
    u: usize,
)
    requires { (u < 2) × BranchNumbers t.now × Halved b.old × Halved d.old × Halved low.now × Halved kept.now × Halved turned.now }
    ensures { (b.new ≡ backs b.old (listed low.now))
        × (d.new ≡ others d.old b.old (listed kept.now) (listed turned.now) (listed low.now) u) }
{
    let after = *b;
    let differing = *d;
    let n = states(b);
    states(d);
    for j in 0..n / 2 {
        let first = State { j, b: 0 };
        let second = State { j, b: 1 };
        let even = back_state(&after, &differing, t, low, kept, turned, u, first);
        let odd = back_state(&after, &differing, t, low, kept, turned, u, second);
        b[2 * j] = even.least;
        d[2 * j] = even.other;
        b[2 * j + 1] = odd.least;
        d[2 * j + 1] = odd.other;
    }
}

// What the other uncoded bit of a step of metric x costs.
fn mirror_of(x: f32) -> u64
    ensures { result ≡ mirror x }
{
    2 * LEVEL - cost_of(x)
}

// The price of the uncoded bit z at the label l, of a step with this side.
fn price_of(x: f32, side: u8, l: usize, z: u8) -> u64
    requires { l < 4 }
    ensures { result ≡ price_of x side l z }
{
    if side < 16 {
        return cost_of(x);
    }
    if z == (side >> l) % 2 {
        cost_of(x)
    } else {
        mirror_of(x)
    }
}

// The price of the other one.
fn turned_of(x: f32, side: u8, l: usize, z: u8) -> u64
    requires { (l < 4) × (z ≤ 1) }
    ensures { result ≡ turned_of x side l z }
{
    if side < 16 {
        return FAR;
    }
    price_of(x, side, l, 1 - z)
}

// Both for the four labels of step k.
fn kept_prices(metrics: &[f32], k: usize, side: u8, z: u8) -> [u64; 4]
    requires { 4 * k + 4 ≤ length metrics.now }
    ensures { Four result (kept_at metrics.now k side z) }
{
    let a = price_of(metrics[4 * k], side, 0, z);
    let b = price_of(metrics[4 * k + 1], side, 1, z);
    let c = price_of(metrics[4 * k + 2], side, 2, z);
    let e = price_of(metrics[4 * k + 3], side, 3, z);
    [a, b, c, e]
}

fn turned_prices(metrics: &[f32], k: usize, side: u8, z: u8) -> [u64; 4]
    requires { (4 * k + 4 ≤ length metrics.now) × (z ≤ 1) }
    ensures { Four result (turned_at metrics.now k side z) }
{
    let a = turned_of(metrics[4 * k], side, 0, z);
    let b = turned_of(metrics[4 * k + 1], side, 1, z);
    let c = turned_of(metrics[4 * k + 2], side, 2, z);
    let e = turned_of(metrics[4 * k + 3], side, 3, z);
    [a, b, c, e]
}

// The cheaper of both.
fn low_prices(kept: &[u64; 4], turned: &[u64; 4]) -> [u64; 4]
    ensures { Lower kept.now turned.now result }
{
    let a = kept[0].min(turned[0]);
    let b = kept[1].min(turned[1]);
    let c = kept[2].min(turned[2]);
    let e = kept[3].min(turned[3]);
    [a, b, c, e]
}

// The tables before the step `at` from those after the `count` steps from there on.
pub fn back_steps(
    b: &mut [u64; STATES],
    d: &mut [u64; STATES],
    metrics: &[f32],
    sides: &[u8],
    bits: &[u8],
    uncoded: &[u8],
    at: usize,
    count: usize,
)
    requires { Asked metrics.now sides.now bits.now uncoded.now at count × BackRoom count b.old × Halved d.old }
    ensures { (b.new ≡ back_run b.old (low (two metrics.now sides.now) (price_at metrics.now sides.now)) at count)
        × (d.new ≡ other_run (two metrics.now sides.now) (price_at metrics.now sides.now) (seq bits.now) (seq uncoded.now) d.old b.old at count) × Halved d.new }
{
    let t = BRANCH;
    for left in (0..count).rev() {
        let k = at + left;
        let side = sides[k];
        let z = uncoded[k];
        let u = bits[k] as usize;
        let kept = kept_prices(metrics, k, side, z);
        let turned = turned_prices(metrics, k, side, z);
        let low = low_prices(&kept, &turned);
        back_step(b, d, &t, &low, &kept, &turned, u);
    }
}
