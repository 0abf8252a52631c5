// The uncoded bits of a path: at each step the better one at the path's label.
#![tactic(auto)]

ghost use Rattle.std.specs.Prelude.{◌≡◌, ℕ, ◌<◌, ◌≤◌, length, get_or};
ghost use Rattle.trellis.specs.Lists.{upto, laid};
ghost use Rattle.trellis.specs.Isdb;
ghost use Rattle.best_grid.specs.Sides.{chosen_at, chosen};

use viterbi_branches::branch_number;

// The better uncoded bit at the label l of a step with this side; 0 where it has none.
fn choice(side: u8, l: u8) -> u8
    requires { l < 4 }
    ensures { result ≡ chosen_at side l }
{
    if side < 16 {
        return 0;
    }
    (side >> l) % 2
}

// The uncoded bits of n steps of the path from s on the bits, to the front of `uncoded`.
pub fn write_uncoded(sides: &[u8], bits: &[u8], s: u8, n: usize, uncoded: &mut [u8])
    requires { (s < Isdb.states) × (n ≤ length sides.now) × (n ≤ length bits.now) × (n ≤ length uncoded.old) × ((k : ℕ) → k < n → get_or bits.now k 0 < 2) }
    ensures { uncoded.new ≡ laid (upto (chosen sides.now bits.now s) n) uncoded.old }
{
    let mut state = s;
    for t in 0..n {
        let l = branch_number(bits[t], state);
        uncoded[t] = choice(sides[t], l);
        state = 32 * bits[t] + state / 2;
    }
}
