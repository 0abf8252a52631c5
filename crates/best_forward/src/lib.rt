// The whole-number pass over a frame's metrics: of each state the least cost of a path to it, and a decision word for each step, by which the best path is traced back.
#![tactic(auto)]

ghost use Rattle.std.specs.Prelude.{◌≡◌, ◌+◌, ◌-◌, ◌*◌, ◌/◌, ◌%◌, ◌<◌, ◌≤◌, leb, length};
ghost use Rattle.trellis.specs.Lists.{bit, upto, laid};
ghost use Rattle.trellis.specs.Run.{quadruple};
ghost use Rattle.viterbi_branches.specs.Branches.{BranchNumbers};
ghost use Rattle.best_grid.specs.Grid.{cost, cost_at};
ghost use Rattle.best_grid.specs.Patterns.{units_of};
ghost use Rattle.best_grid.specs.Costs.{through, nexts, word, table_at, word_at, cheapest};
ghost use Rattle.best_grid.specs.Best.{start_table, best_bits};
ghost use Rattle.best_grid.specs.Grid.{grid_at};
ghost use Rattle.path_greatest.specs.Paths.{Reading};
ghost use Rattle.path_greatest.specs.Fresh.{StartsIn};
ghost use Rattle.best_forward.specs.Room.{Roomy, RoomFor, Small, Holds, listed};
ghost use Rattle.trellis.specs.Isdb;

use best_grid::{LEVEL, RULED};
use path_greatest::Start;
use trellis::{HALF, STATES};
use viterbi_branches::{BRANCH, Numbers};
use viterbi_release::trace;

// The units of 2^-20 in the f32 of this pattern without its sign, cut to whole ones, 2^43 at most; none in the infinity. An f32 of the exponent's field e is its 24 digits
// over 2^(130 - e) units.
fn units(bits: u64) -> u64
    ensures { result ≡ units_of bits }
{
    let field = bits >> 23;
    if field < 107 {
        return 0;
    }
    if bits >= 0x7f80_0000 {
        return 0;
    }
    if bits > 0x4b00_0000 {
        return 8_796_093_022_208;
    }
    let digits = bits % 0x80_0000 + 0x80_0000;
    if field < 130 {
        digits >> (130 - field)
    } else {
        digits << (field - 130)
    }
}

// What a step of metric x costs.
pub fn cost_of(x: f32) -> u64
    ensures { result ≡ cost x }
{
    if x != x {
        return LEVEL;
    }
    let bits = u64::from(f32::to_bits(x));
    let u = units(bits % 0x8000_0000);
    if bits < 0x8000_0000 {
        LEVEL - u
    } else {
        LEVEL + u
    }
}

// The number of states, which the type of the table fixes.
pub fn states(d: &[u64; STATES]) -> usize
    ensures { (result ≡ Isdb.states) × (length d.now ≡ Isdb.states) }
{
    let numbers: &[u64] = d;
    numbers.len()
}

// Whether the odd way costs no more, as a bit.
fn beats(odd: u64, even: u64) -> u64
    ensures { result ≡ bit (leb odd even) }
{
    u64::from(odd <= even)
}

// The number 2X + Y of the branch from the state 2j + b on the input u. The sum of u and b tells it, so both halves of a step read the same entries.
pub fn number(t: &Numbers, u: usize, b: usize, j: usize) -> u8
    requires { (u < 2) × (b < 2) × (j < Isdb.half) × BranchNumbers t.now }
    ensures { (result < 4) × (result ≡ Isdb.labels u (2 * j + b)) }
{
    t[0][(u + b) % 2][j]
}

// The cost of the way to the state 32u + j by its predecessor 2j + b, where the four labels cost m.
fn way(d: &[u64; STATES], t: &Numbers, m: &[u64; 4], u: usize, b: usize, j: usize) -> u64
    requires { (u < 2) × (b < 2) × (j < Isdb.half) × BranchNumbers t.now × Roomy d.now × Small m.now }
    ensures { result ≡ through d.now (listed m.now) (Isdb.half * u + j) b }
{
    let n = number(t, u, b, j) as usize;
    d[2 * j + b] + m[n]
}

// The word of both halves.
fn join(low: u64, high: u64) -> u64
    requires { (low < 0x1_0000_0000) × (high < 0x1_0000_0000) }
    ensures { result ≡ low + high * 0x1_0000_0000 }
{
    low + high * 0x1_0000_0000
}

// A step of the table, a butterfly a turn: the states j and 32 + j, whose predecessors are 2j and 2j + 1. The decision word.
fn cost_step(d: &mut [u64; STATES], t: &Numbers, m: &[u64; 4]) -> u64
    requires { BranchNumbers t.now × Roomy d.old × Small m.now }
    ensures { (d.new ≡ nexts d.old (listed m.now)) × (result ≡ word d.old (listed m.now)) }
{
    let old = *d;
    let n = states(d);
    let mut low: u64 = 0;
    let mut high: u64 = 0;
    for j in 0..n / 2 {
        let even = way(&old, t, m, 0, 0, j);
        let odd = way(&old, t, m, 0, 1, j);
        let even_above = way(&old, t, m, 1, 0, j);
        let odd_above = way(&old, t, m, 1, 1, j);
        d[j] = even.min(odd);
        d[HALF + j] = even_above.min(odd_above);
        low = low | (beats(odd, even) << j);
        high = high | (beats(odd_above, even_above) << j);
    }
    join(low, high)
}

// The costs of step k of metrics in fours.
fn four_costs(metrics: &[f32], k: usize) -> [u64; 4]
    requires { 4 * k + 4 ≤ length metrics.now }
    ensures { Holds result (cost_at (quadruple metrics.now) k) }
{
    let a = cost_of(metrics[4 * k]);
    let b = cost_of(metrics[4 * k + 1]);
    let c = cost_of(metrics[4 * k + 2]);
    let e = cost_of(metrics[4 * k + 3]);
    [a, b, c, e]
}

// The steps of metrics in fours, from the table d: the table after them, and their decision words at the front of `decisions`.
pub fn pass(d: &mut [u64; STATES], metrics: &[f32], decisions: &mut [u64])
    requires { (length metrics.now / 4 ≤ length decisions.old) × RoomFor (length metrics.now / 4) d.old }
    ensures table { d.new ≡ table_at d.old (cost_at (quadruple metrics.now)) (length metrics.now / 4) }
    ensures words { decisions.new ≡ laid (upto (word_at d.old (cost_at (quadruple metrics.now))) (length metrics.now / 4)) decisions.old }
{
    let t = BRANCH;
    let n = metrics.len() / 4;
    for k in 0..n {
        let m = four_costs(metrics, k);
        let w = cost_step(d, &t, &m);
        decisions[k] = w;
    }
}

// The costs before the first step: 0 at the given state (mod 64), ruled out elsewhere; 0 everywhere where none is given.
pub fn start_table(start: Start) -> [u64; STATES]
    ensures { result ≡ start_table start }
{
    match start {
        Start::Given(s) => {
            let mut d = [RULED; STATES];
            let at = (s % 64) as usize;
            d[at] = 0;
            d
        }
        Start::Unknown => [0; STATES],
    }
}

// The highest state that costs least.
pub fn cheapest_state(d: &[u64; STATES]) -> usize
    ensures { (result < Isdb.states) × (result ≡ cheapest d.now (Isdb.states - 1)) }
{
    let mut best: usize = 0;
    for s in 1..STATES {
        if d[s] <= d[best] {
            best = s;
        }
    }
    best
}

// The best reading of metrics in fours, a step to a quadruple: of all paths of the whole stretch the first of greatest sum on the grid.
pub fn best_bits(metrics: &[f32], start: Start, decisions: &mut [u64], bits: &mut [u8])
    requires { (length metrics.now / 4 ≤ Isdb.longest_frame) × (length metrics.now / 4 ≤ length decisions.old) × (length metrics.now / 4 ≤ length bits.old) }
    ensures reads { bits.new ≡ laid (best_bits start (quadruple metrics.now) (length metrics.now / 4)) bits.old }
    ensures greatest { Reading Isdb.half Isdb.labels Isdb.rule (StartsIn Isdb.states start) (grid_at (quadruple metrics.now)) (length metrics.now / 4)
        (best_bits start (quadruple metrics.now) (length metrics.now / 4)) }
{
    let mut d = start_table(start);
    let n = metrics.len() / 4;
    pass(&mut d, metrics, decisions);
    let end = cheapest_state(&d);
    trace(decisions, n, end, n, bits);
}
