// `soft`: the cast of an f64 to an f32, worked out from bits.
#![tactic(auto)]

ghost use Rattle.std.specs.Prelude.{◌≡◌, ◌^◌, ◌≤◌, ◌<◌};
ghost use Rattle.std.specs.Float.{binary32};
ghost use Rattle.std.specs.Float.Ieee.Nearest.{closest};
ghost use Rattle.ieee.specs.Conversion.{rounded};
ghost use Rattle.ieee_cast.specs.Narrowed.{Narrowed};

// The f32 nearest to x, ties to even, small values included.
pub fn soft(x: f64) -> f32
    ensures { result ≡ rounded binary32 x }
{
    if x != x {
        return 0.0f32 / 0.0f32;
    }
    let bits = f64::to_bits(x);
    let sign = bits >> 63;
    let magnitude = narrowed(bits % 0x8000_0000_0000_0000);
    f32::from_bits((sign * 0x8000_0000 + magnitude) as u32)
}

// The pattern of the f32 nearest to the f64 of this pattern, both without the sign. From 2^128 on it is the infinity's.
fn narrowed(bits: u64) -> u64
    requires { bits ≤ 0x7ff0_0000_0000_0000 }
    ensures { Narrowed bits result }
{
    if bits < 0x3810_0000_0000_0000 {
        return subnormal(bits);
    }
    if bits < 0x47f0_0000_0000_0000 {
        return round_shift(bits - 0x3800_0000_0000_0000, 29);
    }
    0x7f80_0000
}

// The same below 2^-126, where the f32 counts 2^-149; an f64 with the exponent's field e is its 53 digits over 2^(926 - e) of these.
fn subnormal(bits: u64) -> u64
    requires { bits < 0x3810_0000_0000_0000 }
    ensures { Narrowed bits result }
{
    let exponent = bits >> 52;
    if exponent < 873 {
        return 0;
    }
    round_shift(
        bits % 0x10_0000_0000_0000 + 0x10_0000_0000_0000,
        926 - exponent,
    )
}

// q / 2^d to the nearest whole number, a tie to the even one.
fn round_shift(q: u64, d: u64) -> u64
    requires q_bound { q < 0x8000_0000_0000_0000 }
    requires d_bound { d < 54 }
    ensures { result ≡ closest q (2 ^ d) }
{
    let unit = 1u64 << d;
    let kept = q >> d;
    let rest = q % unit;
    if 2 * rest + kept % 2 > unit {
        kept + 1
    } else {
        kept
    }
}
