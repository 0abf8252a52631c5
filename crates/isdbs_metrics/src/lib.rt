// What the metrics of a run are made from: the code of its combination, and its points as they are read.
#![tactic(auto)]

ghost use Rattle.std.specs.Prelude.{◌≡◌, ◌<◌, length, get_or};
ghost use Rattle.std.specs.Float.{nan};
ghost use Rattle.isdbs_combination.specs.Combinations.{modulation_of};
ghost use Rattle.isdbs_points.specs.Points.{point, conjugated};
ghost use Rattle.isdbs_metrics.specs.Reading.{correlation};
ghost use Rattle.isdbs_metrics.specs.Steps.{LayoutOf};

use isdbs_core::combination::{Combination, Modulation};
use isdbs_points::{Cplx, mirror};

// A period of a combination's code: its steps, the mother bits that are sent, and where each mother bit stands among them; `count` where it is erased.
#[derive(Clone, Copy)]
pub struct PeriodLayout {
    pub combination: Combination,
    pub modulation: Modulation,
    pub period: usize,
    pub count: usize,
    pub places: [usize; 14],
}

// The period of a combination's code by its numbers.
fn layout(c: Combination, period: usize, count: usize, places: [usize; 14]) -> PeriodLayout
    ensures { result ≡ record { combination = c; modulation = modulation_of c; period = period; count = count; places = places } }
{
    PeriodLayout {
        combination: c,
        modulation: c.modulation(),
        period,
        count,
        places,
    }
}

// By the puncturing of BO.1408-1, Table 2 (`order_of` of the combination): `LayoutOf` in specs/Steps.antt says so.
pub fn layout_of(c: Combination) -> PeriodLayout
    ensures { (result.combination ≡ c) × LayoutOf result }
{
    match c {
        Combination::Bpsk1_2 => layout(c, 1, 2, [0, 1, 2, 2, 2, 2, 2, 2, 2, 2, 2, 2, 2, 2]),
        Combination::Qpsk1_2 => layout(c, 1, 2, [0, 1, 2, 2, 2, 2, 2, 2, 2, 2, 2, 2, 2, 2]),
        Combination::Qpsk2_3 => layout(c, 4, 6, [0, 1, 6, 2, 3, 4, 6, 5, 6, 6, 6, 6, 6, 6]),
        Combination::Qpsk3_4 => layout(c, 3, 4, [0, 1, 4, 2, 3, 4, 4, 4, 4, 4, 4, 4, 4, 4]),
        Combination::Qpsk5_6 => layout(c, 5, 6, [0, 1, 6, 2, 3, 6, 6, 4, 5, 6, 6, 6, 6, 6]),
        Combination::Qpsk7_8 => layout(c, 7, 8, [0, 1, 8, 2, 8, 3, 8, 4, 5, 8, 8, 6, 7, 8]),
        Combination::Tc8psk2_3 => layout(c, 1, 2, [0, 1, 2, 2, 2, 2, 2, 2, 2, 2, 2, 2, 2, 2]),
    }
}

// v.re × p.re + v.im × p.im, each operation rounded once.
pub fn correlation(v: Cplx, p: Cplx) -> f64
    ensures { result ≡ correlation v p }
{
    v.re * p.re + v.im * p.im
}

// The point of symbol k as it is read.
pub fn symbol(re: &[f64], im: &[f64], conjugate: bool, k: usize) -> Cplx
    requires { (k < length re.now) × (k < length im.now) }
    ensures { result ≡ point (get_or re.now k nan) (conjugated conjugate (get_or im.now k nan)) }
{
    Cplx {
        re: re[k],
        im: mirror(conjugate, im[k]),
    }
}
