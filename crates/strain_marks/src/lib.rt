// The mark of a step: of each pair of coded bits, whether the step is strained where that pair was decoded.
// The chapters of specs/:
//   Counts      sums, and how many numbers pass a test
//   CountsLaws  laws of sums and counts
//   Marks       the mark of a step
//   MarksLaws   a mark says whether its step is strained
//   Slots       the valid slots of a frame and their steps
//   SlotsLaws   the valid slots lie end to end
//   Strain      which steps are strained, how many in each slot
//   StrainLaws  laws of the strain of a frame
#![tactic(auto)]

ghost use Rattle.std.specs.Prelude.{◌≡◌, true, cond, [], ◌∷◌, ◌<◌};
ghost use Rattle.std.specs.Float.{inf};
ghost use Rattle.std.specs.Float.Ieee.{lt};
ghost use Rattle.trellis.specs.Lists.{bit};
ghost use Rattle.strain_marks.specs.Marks.{mark_of, top_of};

// The greater of two, b where x is no number.
fn larger(b: f32, x: f32) -> f32
    ensures { result ≡ cond (lt b x) x b }
{
    if x > b { x } else { b }
}

// Below every other number.
fn lowest() -> f32
    ensures { result ≡ inf true }
{
    f32::from_bits(0xff80_0000)
}

// The greatest number among four metrics.
fn greatest(a: f32, b: f32, c: f32, d: f32) -> f32
    ensures { result ≡ top_of (a ∷ b ∷ c ∷ d ∷ []) 4 }
{
    larger(larger(larger(larger(lowest(), a), b), c), d)
}

// Whether x is below the greatest, as a bit.
fn below(x: f32, top: f32) -> u32
    ensures { (result ≡ bit (lt x top)) × (result < 2) }
{
    (x < top) as u32
}

// The mark of four metrics, as wide as a metric, so that marks are made by vectors.
pub fn mark(a: f32, b: f32, c: f32, d: f32) -> u32
    ensures { result ≡ mark_of (a ∷ b ∷ c ∷ d ∷ []) }
{
    let top = greatest(a, b, c, d);
    let at0 = below(a, top);
    let at1 = below(b, top);
    let at2 = below(c, top);
    let at3 = below(d, top);
    at0 + 2 * at1 + 4 * at2 + 8 * at3
}
