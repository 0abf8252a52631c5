// The points of a frame's runs in blocks: whole periods of a run, encoded into a small buffer. What is compared with a frame point by point need not hold it whole.
#![tactic(auto)]

ghost use Rattle.std.specs.Prelude.{◌≡◌, ℕ, ◌+◌, ◌*◌, ◌/◌, ◌<◌, ◌≤◌, ◌^◌, length, take};
ghost use Rattle.trellis.specs.Code.{state_at};
ghost use Rattle.encode_main.specs.Encoding.{inputs_of, Tiled};
ghost use Rattle.encode_blocks.specs.Blocks.{block_symbols, block_for, block_steps, start_place, place_after, Here, step_at, BlockMade};
ghost use Rattle.trellis.specs.Isdb;

use encode_run::encode_run;
use isdbs_core::combination::Combination;
use isdbs_core::slots::Plan;
use isdbs_points::Mapping;

// The most symbols of a block.
pub const BLOCK_SYMBOLS: usize = 2048;

// How a frame is sent: its plan, its mapping, and whether it is the first of a superframe. Who goes through a frame block by block is handed this.
#[derive(Clone, Copy)]
pub struct FrameForm {
    pub plan: Plan,
    pub mapping: Mapping,
    pub first: bool,
}

// A block of a combination: its most steps, the steps and symbols of a period, the bits of a step.
#[derive(Clone, Copy)]
pub struct Block {
    pub steps: usize,
    pub period: usize,
    pub symbols: usize,
    pub bits: usize,
}

fn block_of(c: Combination) -> Block
    ensures { result ≡ block_for c }
{
    match c {
        Combination::Bpsk1_2 => Block {
            steps: 1024,
            period: 1,
            symbols: 2,
            bits: 1,
        },
        Combination::Qpsk1_2 => Block {
            steps: 2048,
            period: 1,
            symbols: 1,
            bits: 1,
        },
        Combination::Qpsk2_3 => Block {
            steps: 2560,
            period: 4,
            symbols: 3,
            bits: 1,
        },
        Combination::Qpsk3_4 => Block {
            steps: 3072,
            period: 3,
            symbols: 2,
            bits: 1,
        },
        Combination::Qpsk5_6 => Block {
            steps: 3200,
            period: 5,
            symbols: 3,
            bits: 1,
        },
        Combination::Qpsk7_8 => Block {
            steps: 3584,
            period: 7,
            symbols: 4,
            bits: 1,
        },
        Combination::Tc8psk2_3 => Block {
            steps: 2048,
            period: 1,
            symbols: 1,
            bits: 2,
        },
    }
}

// A place among a frame's runs: the run, how many of its steps have been encoded, and the state, the bit of the load and the symbol there.
#[derive(Clone, Copy)]
pub struct Place {
    pub run: usize,
    pub step: usize,
    pub state: u8,
    pub bit: usize,
    pub symbol: usize,
}

// Where a frame starts that is encoded from this state.
pub fn start_place(state: u8) -> Place
    ensures { result ≡ start_place state }
{
    Place {
        run: 0,
        step: 0,
        state,
        bit: 0,
        symbol: 0,
    }
}

// How many of the steps left make the next block.
fn block_steps(left: usize, most: usize) -> usize
    ensures { result ≡ block_steps left most }
{
    if left < most { left } else { most }
}

// The place after n of the steps left.
fn place_after(at: Place, b: Block, n: usize, left: usize, state: u8) -> Place
    requires { (0 < b.period) × (b.bits * n ≤ 8192) × (n / b.period * b.symbols ≤ block_symbols) × (n ≤ 4096) × (at.run < 4) × (at.step < 2 ^ 32) × (at.bit < 2 ^ 32) × (at.symbol < 2 ^ 32) }
    ensures { result ≡ place_after at b n left state }
{
    let bit = at.bit + b.bits * n;
    let symbol = at.symbol + n / b.period * b.symbols;
    if n == left {
        Place {
            run: at.run + 1,
            step: 0,
            state,
            bit,
            symbol,
        }
    } else {
        Place {
            run: at.run,
            step: at.step + n,
            state,
            bit,
            symbol,
        }
    }
}

// The next block from a place among the runs: its points over the beginning of the lent parts, and the place after it.
pub fn next_block(
    p: Plan,
    bytes: &[u8],
    m: Mapping,
    at: Place,
    xs: &mut [f64],
    ys: &mut [f64],
) -> Place
    requires { (p.count ≤ 4) × (length (take p.count p.runs) ≡ p.count) × Tiled (take p.count p.runs) × Here p.runs p.count at × (at.run < p.count) × (block_symbols ≤ length xs.old) × (block_symbols ≤ length ys.old) }
    ensures place { Here p.runs p.count result × (at.symbol ≤ result.symbol) × (result.symbol ≤ at.symbol + block_symbols) × (at.run + at.symbol < result.run + result.symbol) }
    ensures block { (s : ℕ) → at.state ≡ state_at Isdb.half s (inputs_of (take p.count p.runs) bytes.now) (step_at p.runs p.count at)
        → BlockMade p.runs p.count m bytes.now s at result xs.old xs.new ys.old ys.new }
{
    let list = p.runs;
    let i = at.run;
    let r = list[i];
    let c = r.combination;
    let left = c.steps_per_slot() * r.valid_slots - at.step;
    let b = block_of(c);
    let n = block_steps(left, b.steps);
    let state = encode_run(bytes, c, at.bit, n, at.state, m, xs, ys);
    place_after(at, b, n, left, state)
}
