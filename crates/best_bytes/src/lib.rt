// Between the steps of a frame and its load: the step at which each valid slot begins, and the bytes from the decoded bits and the uncoded ones, one of each for each step. No row is checked here.
#![tactic(auto)]

ghost use Rattle.std.specs.Prelude.{◌≡◌, ◌+◌, ◌*◌, ◌<◌, ◌≤◌, ◌^◌, length, get_or};
ghost use Rattle.trellis.specs.Lists.{upto, laid};
ghost use Rattle.trellis.specs.Isdb;
ghost use Rattle.isdbs_plan.specs.RunsOf.{frame_steps, load_bytes, valid_total, Planned};
ghost use Rattle.isdbs_points.specs.Layout.{byte_of};
ghost use Rattle.best_loads.specs.Marks.{frame_marks};
ghost use Rattle.best_loads.specs.Held.{load_of};
ghost use Rattle.best_bytes.specs.Packed.{AllBits, held_with, pair_bit, PackSteps};

use isdbs_core::combination::{Combination, Modulation};
use isdbs_core::frame::SLOT_BYTES;
use isdbs_core::slots::Plan;

// ---- where the valid slots begin

// The marks of a run of n slots that begins at a step, to the front of `marks`.
fn run_marks(step: usize, steps: usize, n: usize, marks: &mut [u32])
    requires { (step + steps * n ≤ Isdb.longest_frame) × (steps ≤ 1624) × (n ≤ length marks.old) }
    ensures { marks.new ≡ laid (upto (λ k. step + steps * k) n) marks.old }
{
    let mut at = step;
    for k in 0..n {
        marks[k] = at as u32;
        at = at + steps;
    }
}

// The marks of all valid slots, and the end, to the front of `marks`.
pub fn slot_marks(p: Plan, marks: &mut [u32])
    requires { Planned p × (valid_total p.table < length marks.old) }
    ensures { marks.new ≡ laid (frame_marks p.table) marks.old }
{
    let count = p.count;
    let list = p.runs;
    let mut step: usize = 0;
    let mut done: usize = 0;
    for i in 0..count {
        let r = list[i];
        let c = r.combination;
        let steps = c.steps_per_slot();
        let n = r.valid_slots;
        run_marks(step, steps, n, &mut marks[done..]);
        step = step + steps * n;
        done = done + n;
    }
    marks[done] = step as u32;
}

// ---- the bytes

// The byte of 8 bits, high bit first.
fn byte_of(a: u8, b: u8, c: u8, d: u8, e: u8, f: u8, g: u8, h: u8) -> u8
    requires { (a < 2) × (b < 2) × (c < 2) × (d < 2) × (e < 2) × (f < 2) × (g < 2) × (h < 2) }
    ensures { result ≡ a * 128 + b * 64 + c * 32 + d * 16 + e * 8 + f * 4 + g * 2 + h }
{
    a * 128 + b * 64 + c * 32 + d * 16 + e * 8 + f * 4 + g * 2 + h
}

// The byte of the 8 bits from a place on.
fn plain_byte(bits: &[u8], at: usize) -> u8
    requires { (at + 8 ≤ length bits.now) × AllBits bits.now }
    ensures { result ≡ byte_of (λ i. get_or bits.now (at + i) 0) }
{
    byte_of(
        bits[at],
        bits[at + 1],
        bits[at + 2],
        bits[at + 3],
        bits[at + 4],
        bits[at + 5],
        bits[at + 6],
        bits[at + 7],
    )
}

// The byte of the 4 steps from a place on: the uncoded bit, then the decoded one, of each.
fn pair_byte(bits: &[u8], uncoded: &[u8], at: usize) -> u8
    requires { (at + 4 ≤ length bits.now) × (at + 4 ≤ length uncoded.now) × AllBits bits.now × AllBits uncoded.now }
    ensures { result ≡ byte_of (λ i. pair_bit bits.now uncoded.now at i) }
{
    byte_of(
        uncoded[at],
        bits[at],
        uncoded[at + 1],
        bits[at + 1],
        uncoded[at + 2],
        bits[at + 2],
        uncoded[at + 3],
        bits[at + 3],
    )
}

// The bytes of a run of BPSK or QPSK.
fn pack_plain(bits: &[u8], n: usize, bytes: &mut [u8])
    requires { (n < 2 ^ 16) × (8 * n ≤ length bits.now) × AllBits bits.now × (n ≤ length bytes.old) }
    ensures { bytes.new ≡ laid (upto (λ j. byte_of (λ i. get_or bits.now (8 * j + i) 0)) n) bytes.old }
{
    for j in 0..n {
        bytes[j] = plain_byte(bits, 8 * j);
    }
}

// The bytes of a run of TC8PSK.
fn pack_pairs(bits: &[u8], uncoded: &[u8], n: usize, bytes: &mut [u8])
    requires { (n < 2 ^ 16) × (4 * n ≤ length bits.now) × (4 * n ≤ length uncoded.now) × AllBits bits.now × AllBits uncoded.now × (n ≤ length bytes.old) }
    ensures { bytes.new ≡ laid (upto (λ j. byte_of (λ i. pair_bit bits.now uncoded.now (4 * j) i)) n) bytes.old }
{
    for j in 0..n {
        bytes[j] = pair_byte(bits, uncoded, 4 * j);
    }
}

// The bytes of a run: n of them.
fn pack_run(c: Combination, bits: &[u8], uncoded: &[u8], n: usize, bytes: &mut [u8])
    requires { (n < 2 ^ 16) × PackSteps c n (length bits.now) (length uncoded.now) × AllBits bits.now × AllBits uncoded.now × (n ≤ length bytes.old) }
    ensures { bytes.new ≡ laid (upto (λ j. byte_of (λ i. held_with c bits.now uncoded.now (8 * j + i))) n) bytes.old }
{
    let modulation = c.modulation();
    match modulation {
        Modulation::Bpsk => pack_plain(bits, n, bytes),
        Modulation::Qpsk => pack_plain(bits, n, bytes),
        Modulation::Tc8psk => pack_pairs(bits, uncoded, n, bytes),
    }
}

// The bytes of the frame, to the front of `bytes`.
pub fn write_load(p: Plan, bits: &[u8], uncoded: &[u8], bytes: &mut [u8])
    requires { Planned p × (frame_steps p.table ≤ length bits.now) × (frame_steps p.table ≤ length uncoded.now) × AllBits bits.now × AllBits uncoded.now × (load_bytes p.table ≤ length bytes.old) }
    ensures { bytes.new ≡ laid (load_of p.table bits.now uncoded.now) bytes.old }
{
    let count = p.count;
    let list = p.runs;
    let mut step: usize = 0;
    let mut done: usize = 0;
    for i in 0..count {
        let r = list[i];
        let c = r.combination;
        let n = SLOT_BYTES * r.valid_slots;
        let steps = c.steps_per_slot() * r.valid_slots;
        pack_run(c, &bits[step..], &uncoded[step..], n, &mut bytes[done..]);
        step = step + steps;
        done = done + n;
    }
}
