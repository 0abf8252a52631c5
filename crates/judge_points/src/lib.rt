// What a reading is worth: the points outside the margins of a load, counted slot by slot, and when no other load fits (theorems in specs/).
#![tactic(auto)]

ghost use Rattle.std.specs.Prelude.{◌≡◌, ℕ, ◌+◌, ◌<◌, ◌≤◌, length, get_or};
ghost use Rattle.std.specs.Float.{nan};
ghost use Rattle.trellis.specs.Lists.{upto, laid};
ghost use Rattle.isdbs_frame.specs.Frame.{main_symbols};
ghost use Rattle.isdbs_combination.specs.Combinations.{frame_slots};
ghost use Rattle.isdbs_points.specs.Points.{zero64};
ghost use Rattle.judge_points.specs.Given.{re_free, im_free, outside_given, given_at, Counted};

pub use isdbs_combination::{FRAME_SLOTS, SLOT_SYMBOLS};
use isdbs_core::slots::{Plan, Run};
use margins::{both, holds, is_bpsk};

// Which parts of a point are free.
#[derive(Clone, Copy)]
pub struct Free {
    pub re: bool,
    pub im: bool,
}

// Of point k, by the first run that ends past it; both past all runs.
fn free_at(list: [Run; 4], k: usize) -> Free
    requires { length list ≡ 4 }
    ensures { (result.re ≡ re_free list k) × (result.im ≡ im_free list k) }
{
    for run in &list {
        if k < run.symbol_end {
            return Free {
                re: false,
                im: is_bpsk(run.combination),
            };
        }
    }
    Free { re: true, im: true }
}

// Point k, whose clean parts are x and y, has a part outside its margin.
fn outside(list: [Run; 4], x: f64, y: f64, re: &[f64], im: &[f64], k: usize) -> bool
    requires { (length list ≡ 4) × (k < length re.now) × (k < length im.now) }
    ensures { result ≡ outside_given list x y (get_or re.now k nan) (get_or im.now k nan) k }
{
    let f = free_at(list, k);
    let a = holds(f.re, x, re[k]);
    let b = holds(f.im, y, im[k]);
    // By `both`: with `a && b` here the compiler tests all margins of every point, and judging takes half as long again.
    !both(a, b)
}

// Part i of a block; 0 past it.
fn part(xs: &[f64], i: usize) -> f64
    ensures { result ≡ get_or xs.now i zero64 }
{
    xs.get(i).copied().unwrap_or(0.0)
}

// No point of the first `slots` slots has been counted.
pub fn clear_counts(counts: &mut [u32], slots: usize)
    requires { slots ≤ length counts.old }
    ensures { counts.new ≡ laid (upto (λ _. 0) slots) counts.old }
{
    counts[..slots].fill(0);
}

// The n points from number `from` on, held to the margins of the clean parts xs and ys, which begin there: each that is outside counts in its slot. How many there are.
pub fn count_points(
    p: Plan,
    from: usize,
    n: usize,
    xs: &[f64],
    ys: &[f64],
    re: &[f64],
    im: &[f64],
    counts: &mut [u32],
) -> u32
    requires { (length p.runs ≡ 4) × (from + n ≤ main_symbols) × (main_symbols ≤ length re.now) × (main_symbols ≤ length im.now) × (frame_slots ≤ length counts.old) × ((j : ℕ) → j < frame_slots → get_or counts.old j 0 ≤ from) }
    ensures { Counted (given_at p.runs xs.now ys.now re.now im.now from) from n counts.old counts.new result }
{
    let list = p.runs;
    let mut sum: u32 = 0;
    for i in 0..n {
        let k = from + i;
        let one = outside(list, part(xs, i), part(ys, i), re, im, k) as u32;
        let j = k / SLOT_SYMBOLS;
        counts[j] += one;
        sum += one;
    }
    sum
}
