// C2 of a step of TC8PSK: the points of C2 = 0 by the register, and on which side of 0 a symbol lies along one. No row is checked here.
#![tactic(auto)]

ghost use Rattle.std.specs.Prelude.{◌≡◌, ◌<◌, length, get_or};
ghost use Rattle.std.specs.Float.{nan};
ghost use Rattle.std.specs.Float.Ieee.{lt};
ghost use Rattle.trellis.specs.Lists.{bit};
ghost use Rattle.isdbs_points.specs.Points.{zero64, point, conjugated};
ghost use Rattle.isdbs_metrics.specs.Reading.{correlation};
ghost use Rattle.decode_c2.specs.Registers.{ByRegister};

use isdbs_metrics::{correlation, symbol};
use isdbs_points::{Cplx, PointTable, psk8_point, subset_of};
use viterbi_encode::encode_bit;

// The points of C2 = 0 by the register 64u + state of a step, under the mapping of C1: no outputs are worked out for a step.
pub fn register_points(c1_is_y: bool) -> PointTable<128>
    ensures { ByRegister c1_is_y result.re result.im }
{
    let mut re = [0.0; 128];
    let mut im = [0.0; 128];
    for k in 0..128 {
        let register = k as u8;
        let c = encode_bit(register % 64, register / 64);
        let p = psk8_point(subset_of(c1_is_y, 2 * c.x + c.y));
        re[k] = p.re;
        im[k] = p.im;
    }
    PointTable { re, im }
}

// C2 of symbol k: on which side of 0 it lies along the point of C2 = 0 at the register.
pub fn uncoded_bit(
    xs: &[f64; 128],
    ys: &[f64; 128],
    re: &[f64],
    im: &[f64],
    conjugate: bool,
    register: u8,
    k: usize,
) -> u8
    requires { (register < 128) × (k < length re.now) × (k < length im.now) }
    ensures { result ≡ bit (lt (correlation (point (get_or re.now k nan) (conjugated conjugate (get_or im.now k nan))) (point (get_or xs.now register nan) (get_or ys.now register nan))) zero64) }
{
    let v = symbol(re, im, conjugate, k);
    let at = register as usize;
    let p = Cplx {
        re: xs[at],
        im: ys[at],
    };
    (correlation(v, p) < 0.0) as u8
}
