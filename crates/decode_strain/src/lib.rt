// How many steps of each slot are strained: the marks of the steps against the labels of the bits that were read.
#![tactic(auto)]

ghost use Rattle.trellis.specs.Isdb;
ghost use Rattle.std.specs.Prelude.{ℕ, ◌<◌, ◌≤◌, ◌+◌, ◌*◌, ◌/◌, ◌%◌, ◌^◌, length, ◌≡◌};
ghost use Rattle.isdbs_combination.specs.Combinations.{slot_bits, frame_slots};
ghost use Rattle.isdbs_metrics.specs.Steps.{Bits};
ghost use Rattle.decode_strain.specs.Counted.{Labels, Counted};
ghost use Rattle.trellis.specs.Lists.{upto, laid};
ghost use Rattle.isdbs_plan.specs.RunsOf.{valid_total, frame_steps, Planned};
ghost use Rattle.strain_marks.specs.Counts.{summed};
ghost use Rattle.decode_strain.specs.Windows.{window_label, window_mark};
ghost use Rattle.trellis.specs.Code.{state_at};
ghost use Rattle.decode_strain.specs.Pieces.{RunCounted, frame_strain};

use decode_bytes::six_state;
use isdbs_core::slots::Plan;

// 2 X + Y of the input u at the state s, at 64 u + s: the code with the generators 171 and 133 octal (`labels`, crates/trellis/specs/Isdb.antt); viterbi_branches has the same by branches.
const LABELS: [u8; 128] = [
    0, 3, 1, 2, 0, 3, 1, 2, 3, 0, 2, 1, 3, 0, 2, 1, 3, 0, 2, 1, 3, 0, 2, 1, 0, 3, 1, 2, 0, 3, 1, 2,
    2, 1, 3, 0, 2, 1, 3, 0, 1, 2, 0, 3, 1, 2, 0, 3, 1, 2, 0, 3, 1, 2, 0, 3, 2, 1, 3, 0, 2, 1, 3, 0,
    3, 0, 2, 1, 3, 0, 2, 1, 0, 3, 1, 2, 0, 3, 1, 2, 0, 3, 1, 2, 0, 3, 1, 2, 3, 0, 2, 1, 3, 0, 2, 1,
    1, 2, 0, 3, 1, 2, 0, 3, 2, 1, 3, 0, 2, 1, 3, 0, 2, 1, 3, 0, 2, 1, 3, 0, 1, 2, 0, 3, 1, 2, 0, 3,
];

pub fn labels() -> [u8; 128]
    ensures { Labels result }
{
    LABELS
}

// The strained steps of a slot, and the encoder's state after it.
#[derive(Clone, Copy)]
pub struct Slot {
    pub count: u32,
    pub state: usize,
}

// n steps by their marks and decoded bits, the state carried from step to step.
fn count_steps(labels: &[u8; 128], n: usize, marks: &[u8], bits: &[u8], start: usize) -> Slot
    requires { Labels labels.now × (n ≤ slot_bits) × (n ≤ length marks.now) × (n ≤ length bits.now) × Bits bits.now n × (start < Isdb.states) }
    ensures { Counted marks.now bits.now start n result }
{
    let mut count: u32 = 0;
    let mut state = start;
    for i in 0..n {
        let k = 64 * (bits[i] as usize) + state;
        let label = labels[k];
        count = count + ((marks[i] >> label) % 2) as u32;
        state = k / 2;
    }
    Slot { count, state }
}

// Whether an odd number of five bits are 1.
fn odd(a: u8, b: u8, c: u8, d: u8, e: u8) -> u8
    requires { (a < 2) × (b < 2) × (c < 2) × (d < 2) × (e < 2) }
    ensures { result ≡ (a + b + c + d + e) % 2 }
{
    (a + b + c + d + e) % 2
}

// Bit y of a mark, y at most 1.
fn low_bit(mark: u8, y: u8) -> u8
    requires { y < 2 }
    ensures { (result ≡ mark / 2 ^ y % 2) × (result < 2) }
{
    if y == 0 { mark % 2 } else { mark / 2 % 2 }
}

// Bit 2 x + y of a mark.
fn pair_bit(mark: u8, x: u8, y: u8) -> u8
    requires { (x < 2) × (y < 2) }
    ensures { (result ≡ mark / 2 ^ (2 * x + y) % 2) × (result < 2) }
{
    if x == 0 {
        low_bit(mark, y)
    } else {
        low_bit(mark / 4, y)
    }
}

// What a mark says of the step whose register is the window of seven bits from bit i on, its own the last: X taps the input and the stages 1, 2, 3 and 6, Y the input and the stages 2, 3, 5 and 6.
fn window_mark(mark: u8, bits: &[u8], i: usize) -> u8
    requires { (i + 6 < length bits.now) × Bits bits.now (i + 7) }
    ensures { (result ≡ mark / 2 ^ window_label bits.now i % 2) × (result < 2) }
{
    let a = bits[i];
    let b = bits[i + 1];
    let d = bits[i + 3];
    let e = bits[i + 4];
    let f = bits[i + 5];
    let g = bits[i + 6];
    pair_bit(mark, odd(g, f, e, d, a), odd(g, e, d, b, a))
}

// The strained steps among n from step 6 on, so few that a byte holds their count: 16 at once.
fn count_windows(n: usize, marks: &[u8], bits: &[u8]) -> u8
    requires { (n ≤ 240) × (n + 6 ≤ length marks.now) × (n + 6 ≤ length bits.now) × Bits bits.now (n + 6) }
    ensures { result ≡ summed (window_mark marks.now bits.now) n }
{
    let mut count: u8 = 0;
    for i in 0..n {
        count = count + window_mark(marks[i + 6], bits, i);
    }
    count
}

// The steps of a piece of the n that are left.
fn piece(n: usize) -> usize
    ensures { (result ≤ n) × (result ≤ 240) × (0 < n → 0 < result) }
{
    n.min(240)
}

// The strained steps among n from step 6 on.
fn count_rest(n: usize, marks: &[u8], bits: &[u8]) -> u32
    requires { (n ≤ slot_bits) × (n + 6 ≤ length marks.now) × (n + 6 ≤ length bits.now) × Bits bits.now (n + 6) }
    ensures { result ≡ summed (window_mark marks.now bits.now) n }
{
    let mut count: u32 = 0;
    let mut k: usize = 0;
    while k < n {
        let len = piece(n - k);
        let few = count_windows(len, &marks[k..], &bits[k..]);
        count = count + few as u32;
        k = k + len;
    }
    count
}

// n steps by their marks and decoded bits: the first six by the state, which the others do not see.
pub fn count_slot(labels: &[u8; 128], n: usize, marks: &[u8], bits: &[u8], start: usize) -> Slot
    requires { Labels labels.now × (n ≤ slot_bits) × (n ≤ length marks.now) × (n ≤ length bits.now) × Bits bits.now n × (start < Isdb.states) }
    ensures { Counted marks.now bits.now start n result }
{
    if n < 6 {
        return count_steps(labels, n, marks, bits, start);
    }
    let first = count_steps(labels, 6, marks, bits, start);
    let rest = count_rest(n - 6, marks, bits);
    let from = n - 6;
    let state = six_state(&bits[from..]);
    Slot {
        count: first.count + rest,
        state: state as usize,
    }
}

// The strained steps of a run, and the encoder's state after it.
#[derive(Clone, Copy)]
pub struct RunCount {
    pub sum: u32,
    pub state: usize,
}

// The n valid slots of a run, each of w steps and in its own count. The slices start at the run's first step and slot.
fn count_run(
    labels: &[u8; 128],
    w: usize,
    n: usize,
    marks: &[u8],
    bits: &[u8],
    start: usize,
    counts: &mut [u32],
) -> RunCount
    requires { Labels labels.now × (w ≤ slot_bits) × (n ≤ frame_slots) × (w * n ≤ length marks.now) × (w * n ≤ length bits.now) × Bits bits.now (w * n) × (start < Isdb.states) × (n ≤ length counts.old) }
    ensures { RunCounted w marks.now bits.now start n result counts.old counts.new }
{
    let mut state = start;
    let mut sum: u32 = 0;
    for v in 0..n {
        let from = w * v;
        let slot = count_slot(labels, w, &marks[from..], &bits[from..], state);
        counts[v] = slot.count;
        sum = sum + slot.count;
        state = slot.state;
    }
    RunCount { sum, state }
}

// The strained steps of each valid slot of a frame, and their sum: by the marks and the decoded bits, which are encoded again from `start`.
pub fn count_strain(p: Plan, start: usize, marks: &[u8], bits: &[u8], counts: &mut [u32]) -> u32
    requires { (start < Isdb.states) × Planned p × (frame_steps p.table ≤ length marks.now) × (frame_steps p.table ≤ length bits.now) × Bits bits.now (frame_steps p.table) × (valid_total p.table ≤ length counts.old) }
    ensures { (counts.new ≡ laid (upto (frame_strain p.table marks.now start bits.now) (valid_total p.table)) counts.old) × (result ≡ summed (frame_strain p.table marks.now start bits.now) (valid_total p.table)) }
{
    let labels = labels();
    let mut state = start;
    let mut step: usize = 0;
    let mut done: usize = 0;
    let mut sum: u32 = 0;
    for r in &p.runs[..p.count] {
        let c = r.combination;
        let n = r.valid_slots;
        let w = c.steps_per_slot();
        let x = count_run(
            &labels,
            w,
            n,
            &marks[step..],
            &bits[step..],
            state,
            &mut counts[done..],
        );
        state = x.state;
        sum = sum + x.sum;
        step = step + w * n;
        done = done + n;
    }
    sum
}
