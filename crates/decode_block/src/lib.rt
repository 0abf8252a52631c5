// The four metrics of each step of a block, which is at most 64 whole periods of a run. The lent parts start at the run's first symbol.
#![tactic(auto)]

ghost use Rattle.std.specs.Prelude.{◌≡◌, cond, ℕ, ◌+◌, ◌*◌, ◌<◌, ◌≤◌, ltb, length, get_or, set};
ghost use Rattle.std.specs.Float.{nan, binary32};
ghost use Rattle.std.specs.Float.Ieee.{of_bits};
ghost use Rattle.trellis.specs.Lists.{upto, laid};
ghost use Rattle.trellis.specs.Run.{four_steps};
ghost use Rattle.isdbs_combination.specs.Combinations.{modulation_of};
ghost use Rattle.isdbs_combination.specs.declared.Combination.TheVariants.{Qpsk1_2, Qpsk2_3, Qpsk3_4, Qpsk5_6, Qpsk7_8};
ghost use Rattle.isdbs_combination.specs.declared.Modulation.TheVariants.{Bpsk, Qpsk, Tc8psk};
ghost use Rattle.isdbs_points.specs.Points.{psk8_of, subset};
ghost use Rattle.isdbs_points.specs.Layout.{order_of, steps_per_period};
ghost use Rattle.isdbs_metrics.specs.Steps.{LayoutOf};
ghost use Rattle.strain_marks.specs.Marks.{mark_of};
ghost use Rattle.decode_block.specs.Blocks.{plan_steps, plan_mark, four_in, BlockPlanned, BlockCovers, BlockMade, fours, pairs_at, period_soft, step_soft, spread_soft, subset_parts};

use decode_parts::{bpsk_softs, qpsk_parts};
use decode_soft::{magnitude_block, soft_block};
use isdbs_core::combination::{Combination, Modulation};
use isdbs_metrics::{PeriodLayout, correlation, symbol};
use isdbs_points::{Cplx, Mapping, psk8_point, subset_of};
use strain_marks::mark;

// Steps of a run and how they are read: the run's period, the mapping, the scale, the number of the first step, and how many.
#[derive(Clone, Copy)]
pub struct BlockPlan {
    pub layout: PeriodLayout,
    pub mapping: Mapping,
    pub scale: f32,
    pub from: usize,
    pub count: usize,
}

// The soft values of a period's mother bits at the rate 1/2: those sent at their places, 0 where the mother bit is erased.
fn period_1_2(softs: &[f32], pairs: &mut [f32])
    requires { (2 ≤ length softs.now) × (2 ≤ length pairs.old) }
    ensures { pairs.new ≡ laid (upto (period_soft Qpsk1_2 softs.now) 2) pairs.old }
{
    pairs[0] = softs[0];
    pairs[1] = softs[1];
}

// The soft values of a period's mother bits at the rate 2/3: those sent at their places, 0 where the mother bit is erased.
fn period_2_3(softs: &[f32], pairs: &mut [f32])
    requires { (6 ≤ length softs.now) × (8 ≤ length pairs.old) }
    ensures { pairs.new ≡ laid (upto (period_soft Qpsk2_3 softs.now) 8) pairs.old }
{
    pairs[0] = softs[0];
    pairs[1] = softs[1];
    pairs[2] = 0.0;
    pairs[3] = softs[2];
    pairs[4] = softs[3];
    pairs[5] = softs[4];
    pairs[6] = 0.0;
    pairs[7] = softs[5];
}

// The soft values of a period's mother bits at the rate 3/4: those sent at their places, 0 where the mother bit is erased.
fn period_3_4(softs: &[f32], pairs: &mut [f32])
    requires { (4 ≤ length softs.now) × (6 ≤ length pairs.old) }
    ensures { pairs.new ≡ laid (upto (period_soft Qpsk3_4 softs.now) 6) pairs.old }
{
    pairs[0] = softs[0];
    pairs[1] = softs[1];
    pairs[2] = 0.0;
    pairs[3] = softs[2];
    pairs[4] = softs[3];
    pairs[5] = 0.0;
}

// The soft values of a period's mother bits at the rate 5/6: those sent at their places, 0 where the mother bit is erased.
fn period_5_6(softs: &[f32], pairs: &mut [f32])
    requires { (6 ≤ length softs.now) × (10 ≤ length pairs.old) }
    ensures { pairs.new ≡ laid (upto (period_soft Qpsk5_6 softs.now) 10) pairs.old }
{
    pairs[0] = softs[0];
    pairs[1] = softs[1];
    pairs[2] = 0.0;
    pairs[3] = softs[2];
    pairs[4] = softs[3];
    pairs[5] = 0.0;
    pairs[6] = 0.0;
    pairs[7] = softs[4];
    pairs[8] = softs[5];
    pairs[9] = 0.0;
}

// The soft values of a period's mother bits at the rate 7/8: those sent at their places, 0 where the mother bit is erased.
fn period_7_8(softs: &[f32], pairs: &mut [f32])
    requires { (8 ≤ length softs.now) × (14 ≤ length pairs.old) }
    ensures { pairs.new ≡ laid (upto (period_soft Qpsk7_8 softs.now) 14) pairs.old }
{
    pairs[0] = softs[0];
    pairs[1] = softs[1];
    pairs[2] = 0.0;
    pairs[3] = softs[2];
    pairs[4] = 0.0;
    pairs[5] = softs[3];
    pairs[6] = 0.0;
    pairs[7] = softs[4];
    pairs[8] = softs[5];
    pairs[9] = 0.0;
    pairs[10] = 0.0;
    pairs[11] = softs[6];
    pairs[12] = softs[7];
    pairs[13] = 0.0;
}

// Those of a period of QPSK.
fn spread_period(c: Combination, softs: &[f32], pairs: &mut [f32])
    requires { (modulation_of c ≡ Qpsk) × (length (order_of c) ≤ length softs.now) × (2 * steps_per_period c ≤ length pairs.old) }
    ensures { pairs.new ≡ laid (upto (period_soft c softs.now) (2 * steps_per_period c)) pairs.old }
{
    match c {
        Combination::Qpsk1_2 => period_1_2(softs, pairs),
        Combination::Qpsk2_3 => period_2_3(softs, pairs),
        Combination::Qpsk3_4 => period_3_4(softs, pairs),
        Combination::Qpsk5_6 => period_5_6(softs, pairs),
        Combination::Qpsk7_8 => period_7_8(softs, pairs),
        Combination::Bpsk1_2 => {}
        Combination::Tc8psk2_3 => {}
    }
}

// The soft values of the steps of n periods, from those that were sent.
fn spread(softs: &[f32], layout: PeriodLayout, n: usize, pairs: &mut [f32])
    requires { LayoutOf layout × (modulation_of layout.combination ≡ Qpsk) × (layout.count ≤ 8) × (layout.period ≤ 7) × (n ≤ 64) × (512 ≤ length softs.now) × (896 ≤ length pairs.old) }
    ensures { pairs.new ≡ laid (upto (spread_soft layout.combination softs.now) (n * (2 * steps_per_period layout.combination))) pairs.old }
{
    let c = layout.combination;
    let mut from: usize = 0;
    let mut to: usize = 0;
    for t in 0..n {
        spread_period(c, &softs[from..], &mut pairs[to..]);
        from = from + layout.count;
        to = to + 2 * layout.period;
    }
}

// The soft values of a block of QPSK.
fn qpsk_softs(
    re: &[f64],
    im: &[f64],
    plan: BlockPlan,
    parts: &mut [f64],
    softs: &mut [f32],
    pairs: &mut [f32],
)
    requires { BlockPlanned plan × (modulation_of plan.layout.combination ≡ Qpsk) × BlockCovers plan (length re.now) × BlockCovers plan (length im.now) × (512 ≤ length parts.old) × (512 ≤ length softs.old) × (896 ≤ length pairs.old) }
    ensures { pairs.new ≡ laid (upto (step_soft plan.layout.combination re.now im.now plan.mapping plan.scale plan.from) (2 * plan.count)) pairs.old }
{
    let layout = plan.layout;
    let periods = plan.count / layout.period;
    let symbols = layout.count / 2;
    let from = plan.from / layout.period * symbols;
    qpsk_parts(re, im, plan.mapping, from, periods * symbols, parts);
    soft_block(parts, periods * layout.count, plan.scale, softs);
    spread(softs, layout, periods, pairs);
}

// The four metrics of n steps from their soft values, and their marks.
fn lay_pairs(pairs: &[f32], n: usize, block: &mut [f32], wide: &mut [u32])
    requires { (2 * n ≤ length pairs.now) × (4 * n ≤ length block.old) × (n ≤ length wide.old) }
    ensures { (block.new ≡ laid (upto (fours (pairs_at pairs.now)) (4 * n)) block.old)
        × (wide.new ≡ laid (upto (λ s. mark_of (pairs_at pairs.now s)) n) wide.old) }
{
    for s in 0..n {
        let lx = pairs[2 * s];
        let ly = pairs[2 * s + 1];
        let a = lx + ly;
        let b = lx - ly;
        let c = -lx + ly;
        let d = -lx - ly;
        block[4 * s] = a;
        block[4 * s + 1] = b;
        block[4 * s + 2] = c;
        block[4 * s + 3] = d;
        wide[s] = mark(a, b, c, d);
    }
}

// Marks as bytes.
fn narrow(wide: &[u32], n: usize, marks: &mut [u8])
    requires { (n ≤ length wide.now) × (n ≤ length marks.old) × ((i : ℕ) → i < n → get_or wide.now i 0 < 16) }
    ensures { marks.new ≡ laid (upto (λ i. get_or wide.now i 0) n) marks.old }
{
    for i in 0..n {
        marks[i] = wide[i] as u8;
    }
}

// Lays four parts at place s.
fn put_parts(a: f64, b: f64, c: f64, d: f64, s: usize, parts: &mut [f64])
    requires { 4 * s + 4 ≤ length parts.old }
    ensures { parts.new ≡ set (set (set (set parts.old (4 * s) a) (4 * s + 1) b) (4 * s + 2) c) (4 * s + 3) d }
{
    parts[4 * s] = a;
    parts[4 * s + 1] = b;
    parts[4 * s + 2] = c;
    parts[4 * s + 3] = d;
}

// The point of C2 = 0 whose (C1, C0) the label 2 X + Y stands for.
fn subset_point(c1_is_y: bool, label: u8) -> Cplx
    requires { label < 4 }
    ensures { result ≡ psk8_of (subset c1_is_y label) }
{
    psk8_point(subset_of(c1_is_y, label))
}

// What n symbols of TC8PSK from symbol k0 on give with the four points of C2 = 0.
fn subset_parts(re: &[f64], im: &[f64], m: Mapping, k0: usize, n: usize, parts: &mut [f64])
    requires { (k0 + n ≤ length re.now) × (k0 + n ≤ length im.now) × (4 * n ≤ length parts.old) }
    ensures { parts.new ≡ laid (upto (fours (λ s. subset_parts re.now im.now m (k0 + s))) (4 * n)) parts.old }
{
    let p = subset_point(m.tc8psk_c1_is_y, 0);
    let q = subset_point(m.tc8psk_c1_is_y, 1);
    let r = subset_point(m.tc8psk_c1_is_y, 2);
    let t = subset_point(m.tc8psk_c1_is_y, 3);
    for s in 0..n {
        let v = symbol(re, im, m.conjugate, k0 + s);
        let a = correlation(v, p);
        let b = correlation(v, q);
        let c = correlation(v, r);
        let d = correlation(v, t);
        put_parts(a, b, c, d, s, parts);
    }
}

// The marks of n steps of four metrics.
fn mark_block(block: &[f32], n: usize, wide: &mut [u32])
    requires { (4 * n ≤ length block.now) × (n ≤ length wide.old) }
    ensures { wide.new ≡ laid (upto (λ i. mark_of (four_in (four_steps block.now i))) n) wide.old }
{
    for i in 0..n {
        wide[i] = mark(
            block[4 * i],
            block[4 * i + 1],
            block[4 * i + 2],
            block[4 * i + 3],
        );
    }
}

// Makes the metrics of a block, and its marks. The soft values that were sent are laid in the block until the metrics are made.
fn lay_block(
    re: &[f64],
    im: &[f64],
    plan: BlockPlan,
    parts: &mut [f64],
    pairs: &mut [f32],
    wide: &mut [u32],
    block: &mut [f32],
)
    requires { BlockPlanned plan × BlockCovers plan (length re.now) × BlockCovers plan (length im.now) × (512 ≤ length parts.old) × (896 ≤ length pairs.old) × (448 ≤ length wide.old) × (1792 ≤ length block.old) }
    ensures made { BlockMade (plan_steps plan re.now im.now) plan.from plan.count block.new }
    ensures marked { wide.new ≡ laid (upto (λ i. plan_mark plan re.now im.now (plan.from + i)) plan.count) wide.old }
{
    let n = plan.count;
    let layout = plan.layout;
    let modulation = layout.modulation;
    match modulation {
        Modulation::Bpsk => {
            bpsk_softs(re, plan.scale, plan.from, n, pairs);
            lay_pairs(pairs, n, block, wide);
        }
        Modulation::Qpsk => {
            qpsk_softs(re, im, plan, parts, block, pairs);
            lay_pairs(pairs, n, block, wide);
        }
        Modulation::Tc8psk => {
            subset_parts(re, im, plan.mapping, plan.from, n, parts);
            magnitude_block(parts, 4 * n, plan.scale, block);
            mark_block(block, n, wide);
        }
    }
}

// Makes the metrics of a block, and keeps its marks.
pub fn make_block(
    re: &[f64],
    im: &[f64],
    plan: BlockPlan,
    parts: &mut [f64],
    pairs: &mut [f32],
    wide: &mut [u32],
    block: &mut [f32],
    marks: &mut [u8],
)
    requires { BlockPlanned plan × BlockCovers plan (length re.now) × BlockCovers plan (length im.now) × (512 ≤ length parts.old) × (896 ≤ length pairs.old) × (448 ≤ length wide.old) × (1792 ≤ length block.old) × (plan.count ≤ length marks.old) }
    ensures made { BlockMade (plan_steps plan re.now im.now) plan.from plan.count block.new }
    ensures marked { marks.new ≡ laid (upto (λ i. plan_mark plan re.now im.now (plan.from + i)) plan.count) marks.old }
{
    lay_block(re, im, plan, parts, pairs, wide, block);
    narrow(wide, plan.count, marks);
}
