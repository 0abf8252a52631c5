// From sums to numbers: decibels, degrees, roots, each by a table or by steps, without a logarithm.
ghost use Rattle.std.specs.Prelude.{◌≤◌, length};

// Ratios of 0 to 9 decibels.
const DECIBELS: [f64; 10] = [
    1.0f64,
    1.2589254117941673f64,
    1.5848931924611136f64,
    1.9952623149688795f64,
    2.51188643150958f64,
    3.1622776601683795f64,
    3.9810717055349722f64,
    5.011872336272722f64,
    6.309573444801933f64,
    7.943282347242816f64,
];
// Ratios of 0 to 9 tenths of a decibel.
const TENTHS: [f64; 10] = [
    1.0f64,
    1.023292992280754f64,
    1.0471285480508996f64,
    1.0715193052376064f64,
    1.096478196143185f64,
    1.1220184543019633f64,
    1.1481536214968828f64,
    1.1748975549395295f64,
    1.202264434617413f64,
    1.2302687708123816f64,
];
// Ratios of 0 to 90 decibels in tens.
const TENS: [f64; 10] = [
    1.0f64,
    10.0f64,
    100.0f64,
    1000.0f64,
    10000.0f64,
    100000.0f64,
    1000000.0f64,
    10000000.0f64,
    100000000.0f64,
    1000000000.0f64,
];
// The tangents of 0 to 45 degrees.
const TANGENTS: [f64; 46] = [
    0.0f64,
    0.017455064928217585f64,
    0.03492076949174773f64,
    0.05240777928304121f64,
    0.06992681194351041f64,
    0.08748866352592401f64,
    0.10510423526567647f64,
    0.1227845609029046f64,
    0.14054083470239145f64,
    0.15838444032453627f64,
    0.17632698070846498f64,
    0.19438030913771848f64,
    0.21255656167002213f64,
    0.23086819112556312f64,
    0.24932800284318068f64,
    0.2679491924311227f64,
    0.2867453857588079f64,
    0.3057306814586604f64,
    0.3249196962329063f64,
    0.34432761328966527f64,
    0.36397023426620234f64,
    0.3838640350354158f64,
    0.4040262258351568f64,
    0.42447481620960476f64,
    0.4452286853085362f64,
    0.4663076581549986f64,
    0.48773258856586144f64,
    0.5095254494944288f64,
    0.5317094316614788f64,
    0.554309051452769f64,
    0.5773502691896257f64,
    0.6008606190275604f64,
    0.6248693519093275f64,
    0.6494075931975106f64,
    0.6745085168424267f64,
    0.7002075382097097f64,
    0.7265425280053609f64,
    0.7535540501027942f64,
    0.7812856265067174f64,
    0.809784033195007f64,
    0.8390996311772799f64,
    0.8692867378162267f64,
    0.9004040442978399f64,
    0.9325150861376618f64,
    0.9656887748070739f64,
    1.0f64,
];

// Half a tenth of a decibel.
const HALF: f64 = 1.0115794542598986f64;

// How many of a table's ratios x reaches.
fn reached(x: f64, table: &[f64]) -> usize
    ensures { result ≤ length table.now }
{
    table.iter().filter(|&&ratio| x >= ratio).count()
}

// The place of the last ratio of a table that x reaches; 0 where it reaches none.
fn place(x: f64, table: &[f64; 10]) -> usize
    ensures { result ≤ 9 }
{
    reached(x, table).saturating_sub(1)
}

// The tenths of a decibel of a ratio from 1 up to 10.
fn tenths(x: f64) -> u32
    ensures { result ≤ 99 }
{
    let k = place(x, &DECIBELS);
    (10 * k + place(x / DECIBELS[k], &TENTHS)) as u32
}

// The tenths of a decibel of a ratio above -30 decibels, up to 900.
fn tenths_above(x: f64) -> u32
    ensures { result ≤ 900 }
{
    let k = place(x, &TENS);
    if k == 9 {
        return 900;
    }
    100 * (k as u32) + tenths(x / TENS[k])
}

// A ratio of powers in tenths of a decibel, to the nearest, with 300 more: from -30 to 60 decibels.
pub fn decibels(signal: f64, error: f64) -> u32
    ensures { result ≤ 900 }
{
    tenths_above(signal * 1000.0f64 * HALF / error)
}

// The same, cut down to a whole tenth.
pub fn decibels_down(signal: f64, error: f64) -> u32
    ensures { result ≤ 900 }
{
    tenths_above(signal * 1000.0f64 / error)
}

// The whole part of t, at most `most`; 0 where t is negative or no number.
pub fn at_most(t: f64, most: u32) -> u32
    ensures { result ≤ most }
{
    std::num::saturating_f64_to_u32(t).min(most)
}

// How many of the tangents of 1 to 44 degrees t reaches.
fn degrees(t: f64) -> usize
    ensures { result ≤ 44 }
{
    reached(t, &TANGENTS[1..45])
}

// The tenths of a degree, 0 to 450, of a tangent from 0 to 1: between two degrees in proportion.
fn eighth(t: f64) -> u32
    ensures { result ≤ 450 }
{
    let table = TANGENTS;
    let k = degrees(t);
    let low = table[k];
    let high = table[k + 1];
    10 * (k as u32) + at_most((t - low) / (high - low) * 10.0f64 + 0.5f64, 10)
}

// The tenths of a degree between the real axis and (x, y), both 0 or more.
fn quarter(x: f64, y: f64) -> u32
    ensures { result ≤ 900 }
{
    if y <= x {
        return eighth(y / x);
    }
    900 - eighth(x / y)
}

// The same of (x, y), of which y is 0 or more.
fn half(x: f64, y: f64) -> u32
    ensures { result ≤ 1800 }
{
    let a = quarter(x.abs(), y);
    if x < 0.0f64 {
        return 1_800 - a;
    }
    a
}

// The turn of (x, y) in tenths of a degree, with 1,800 more: from -180 to 180 degrees.
pub fn turn(x: f64, y: f64) -> u32
    ensures { result ≤ 3600 }
{
    let a = half(x, y.abs());
    if y < 0.0f64 {
        return 1_800 - a;
    }
    1_800 + a
}

// Newton's steps from above to the root of a number.
const STEPS: usize = 64;

// The root of a number, nearly.
pub fn root(x: f64) -> f64 {
    let mut r = x + 1.0f64;
    for _ in 0..STEPS {
        r = (r + x / r) / 2.0f64;
    }
    r
}
