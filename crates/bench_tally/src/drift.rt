// The drift from one header's mean to the next one's: an angle, and the frequency that turns by it in a frame's time at 28.86 MBd. Both are nearly right, to be shown.
use bench_frames::words::root;
use header_mean::Mean;

// Degrees, from -180 to 180, and Hz.
#[derive(Clone, Copy)]
pub struct Drift {
    pub degrees: f64,
    pub hertz: f64,
}

// The tangent of half the angle of a tangent.
fn half(t: f64) -> f64 {
    t / (1.0f64 + root(1.0f64 + t * t))
}

// The angle in degrees of a tangent from 0 to 1: an eighth of it by the first terms of its series.
fn angle(t: f64) -> f64 {
    let u = half(half(half(t)));
    let w = u * u;
    let series = u * (1.0f64 - w * (1.0f64 / 3.0f64 - w * (1.0f64 / 5.0f64 - w / 7.0f64)));
    series * 458.3662361046586f64
}

// The angle in degrees of a point with parts of 0 or more.
fn acute(x: f64, y: f64) -> f64 {
    if y <= x {
        return angle(y / x);
    }
    90.0f64 - angle(x / y)
}

// The angle of a point in degrees.
fn degrees_of(x: f64, y: f64) -> f64 {
    let a = acute(x.abs(), y.abs());
    let b = if x < 0.0f64 { 180.0f64 - a } else { a };
    if y < 0.0f64 { -b } else { b }
}

// The drift from one mean to the next.
pub fn between(a: Mean, b: Mean) -> Drift {
    let x = b.re * a.re + b.im * a.im;
    let y = b.im * a.re - b.re * a.im;
    let degrees = degrees_of(x, y);
    Drift {
        degrees,
        hertz: degrees / 360.0f64 * (28860000.0f64 / 39936.0f64),
    }
}
