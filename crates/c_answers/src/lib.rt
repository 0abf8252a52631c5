// What the C calls have in common: a number for an answer, what a refused call leaves, and row 5 at its place. The definitions are in specs/.
#![tactic(auto)]

ghost use Rattle.std.specs.Prelude.{◌≡◌, cond};
ghost use Rattle.refusal.specs.Rows.{number_of, accepted, Length};

use refusal::{Refusal, number};

// The number where row 5 holds: that of the rows above it, else 5.
pub fn or_length(above: Result<(), Refusal>) -> u32
    ensures { result ≡ number_of (cond (accepted above) Length above) }
{
    let n = number(above);
    if n != 0 {
        return n;
    }
    number(Err(Refusal::Length))
}
