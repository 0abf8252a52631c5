// The paths into a state, by the signs or the numbers of the branches: the tables of both, and a path by either.
#![tactic(auto)]

ghost use Rattle.std.specs.Prelude.{◌≡◌, cond, ◌+◌, ◌*◌, ◌%◌, ◌<◌, get_or};
ghost use Rattle.std.specs.Float.Ieee.{lt, neg, of_bits};
ghost use Rattle.std.specs.Float.{nan, binary32};
ghost use Rattle.trellis.specs.Step.{pair};
ghost use Rattle.trellis.specs.Isdb.{cand};
ghost use Rattle.viterbi_branches.specs.Signs.{XSigns, YSigns};
ghost use Rattle.viterbi_branches.specs.Branches.{BranchNumbers};
ghost use Rattle.trellis.specs.Isdb;

mod branches;
mod signs;

pub use branches::{BRANCH, Numbers};
pub use signs::{SX, SY, Table};
use trellis::STATES;

// The term of a soft value x on a branch whose sign is s.
fn term(s: f32, x: f32) -> f32
    ensures { result ≡ cond (lt s (of_bits binary32 0)) (neg x) x }
{
    if s < 0.0 { -x } else { x }
}

// The path of a pair step into the state 32u + j from its predecessor 2j + b: lx's term, then ly's.
pub fn pair_path(
    old: &[f32; STATES],
    x: &Table,
    y: &Table,
    u: usize,
    b: usize,
    j: usize,
    lx: f32,
    ly: f32,
) -> f32
    requires { (u < 2) × (b < 2) × (j < Isdb.half) × XSigns x.now × YSigns y.now }
    ensures { result ≡ cand old.now (pair lx ly) (Isdb.half * u + j) b }
{
    old[2 * j + b] + term(x[u][b][j], lx) + term(y[u][b][j], ly)
}

// The number 2X + Y of the branch from the state 2j + b on the input u.
fn number(t: &Numbers, u: usize, b: usize, j: usize) -> u8
    requires { (u < 2) × (b < 2) × (j < Isdb.half) × BranchNumbers t.now }
    ensures { result ≡ Isdb.labels u (2 * j + b) }
{
    t[u][b][j]
}

// The number 2X + Y of the branch from the state s (mod 64) on the low bit of u, as the step of four metrics reads it.
pub fn branch_number(u: u8, s: u8) -> u8
    ensures { result ≡ Isdb.labels (u % 2) (s % Isdb.states) }
{
    let t = BRANCH;
    let input = (u % 2) as usize;
    let low = (s % 2) as usize;
    let j = (s % 64 / 2) as usize;
    number(&t, input, low, j)
}

// The metric of the branch with the number n.
fn metric(m: [f32; 4], n: u8) -> f32
    requires { n < 4 }
    ensures { result ≡ get_or m n nan }
{
    match n {
        0 => m[0],
        1 => m[1],
        2 => m[2],
        _ => m[3],
    }
}

// The metric of the branch from the state 2j + b on the input u.
pub fn metric_of(t: &Numbers, u: usize, b: usize, j: usize, m: [f32; 4]) -> f32
    requires { (u < 2) × (b < 2) × (j < Isdb.half) × BranchNumbers t.now }
    ensures { result ≡ get_or m (Isdb.labels u (2 * j + b)) nan }
{
    metric(m, number(t, u, b, j))
}
