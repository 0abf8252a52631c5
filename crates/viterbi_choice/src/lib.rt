// The choices of add-compare-select: of two paths, of two path values, and of all states. Every trellis step of the library chooses by these.
#![tactic(auto)]

ghost use Rattle.std.specs.Prelude.{◌≡◌, cond, ◌-◌, ◌*◌, ◌<◌, ◌≤◌, length};
ghost use Rattle.std.specs.Float.Ieee.{lt};
ghost use Rattle.trellis.specs.Lists.{bit};
ghost use Rattle.trellis.specs.Step.{takes, best};
ghost use Rattle.trellis.specs.Isdb.{rule};

// The greater of two paths; of equals the odd one.
pub fn larger(even: f32, odd: f32) -> f32
    ensures { result ≡ cond (takes rule even odd) odd even }
{
    if even > odd { even } else { odd }
}

// Whether the odd path is taken, as a bit: the even one is not strictly greater.
pub fn beats(odd: f32, even: f32) -> u32
    ensures { result ≡ bit (takes rule even odd) }
{
    !(even > odd) as u32
}

// The greater of two path values; of equals the first.
pub fn greater(first: f32, second: f32) -> f32
    ensures { result ≡ cond (lt first second) second first }
{
    if second > first { second } else { first }
}

// The highest of the 2h states of the greatest path value.
pub fn best_state(pm: &[f32], h: usize) -> usize
    requires { (1 ≤ h) × (length pm.now ≡ 2 * h) }
    ensures { (result < 2 * h) × (result ≡ best rule pm.now (2 * h - 1)) }
{
    let mut best: usize = 0;
    for s in 1..pm.len() {
        if !(pm[best] > pm[s]) {
            best = s;
        }
    }
    best
}
