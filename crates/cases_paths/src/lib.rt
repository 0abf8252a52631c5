// A search through all paths of at most eight steps, for the programs that hold a reading to it, and lists of pseudo-random metrics. A metric m is kept as m + 16, from 0 to 32, so a sum of n
// steps is kept plus 16 n. A code is given by its generators and by half the number of its states. All calls are total.
#![tactic(auto)]

ghost use Rattle.std.specs.Prelude.{◌+◌, ◌*◌, ◌≤◌, ◌<◌};

fn parity(x: u32) -> u32
    ensures { result < 2 }
{
    let a = x ^ (x >> 4);
    let b = a ^ (a >> 2);
    (b ^ (b >> 1)) % 2
}

fn wide_of(x: u8) -> u32
    ensures { result < 256 }
{
    x as u32
}

// x where the input u is 1, else 0.
fn entering(x: u32, u: u32) -> u32
    ensures { result ≤ x }
{
    if u == 1 { x } else { 0 }
}

// The coded pair 2X + Y of the input u at a state of 2 half.
fn label(g1: u8, g2: u8, half: u32, u: u32, state: u32) -> u32
    requires { half ≤ 32 }
    ensures { result < 4 }
{
    let register = entering(2 * half, u) + state % 64;
    2 * parity(register & wide_of(g1)) + parity(register & wide_of(g2))
}

// The same of ISDB's code.
pub fn isdb_label(u: u32, state: u32) -> u32
    ensures { result < 4 }
{
    label(0o171, 0o133, 32, u % 2, state)
}

// A path's sum, and its place in the order: the end state, then the predecessor's low bit at the last step, the step before it, and so on.
#[derive(Clone, Copy)]
struct Walked {
    sum: u32,
    place: u32,
}

fn walk(g1: u8, g2: u8, half: u32, metrics: &[u8; 32], n: usize, start: u32, inputs: u32) -> Walked
    requires { (half ≤ 32) × (n ≤ 8) }
{
    let mut state = start % 64;
    let mut bits = inputs;
    let mut sum: u32 = 0;
    let mut lows: u32 = 0;
    for k in 0..n {
        let u = bits % 2;
        bits = bits / 2;
        let l = label(g1, g2, half, u, state) as usize;
        let m = wide_of(metrics[4 * k + l]);
        sum = (sum + m) % 65536;
        lows = (lows % 256) / 2 + (state % 2) * 128;
        state = entering(half, u) + (state % 64) / 2;
    }
    let place = (state % 64) * 256 + lows % 256;
    Walked { sum, place }
}

// Of the paths looked at: the greatest sum, how many have it, and of these the first in the order of places.
#[derive(Clone, Copy)]
pub struct Survey {
    pub greatest: u32,
    pub count: u32,
    pub place: u32,
    pub inputs: u32,
}

// What is known of the paths looked at, and one more.
fn seen(s: Survey, w: Walked, inputs: u32) -> Survey {
    if w.sum > s.greatest || s.count == 0 {
        return Survey {
            greatest: w.sum,
            count: 1,
            place: w.place,
            inputs,
        };
    }
    if w.sum < s.greatest {
        return s;
    }
    let count = s.count % 65536 + 1;
    if w.place > s.place {
        return Survey {
            greatest: s.greatest,
            count,
            place: w.place,
            inputs,
        };
    }
    Survey {
        greatest: s.greatest,
        count,
        place: s.place,
        inputs: s.inputs,
    }
}

// What is known of the paths looked at, and all of n steps from one state.
fn seen_from(
    g1: u8,
    g2: u8,
    half: u32,
    metrics: &[u8; 32],
    n: usize,
    start: u32,
    before: Survey,
) -> Survey
    requires { (half ≤ 32) × (n ≤ 8) }
{
    let lists = 1u32 << n;
    let mut s = before;
    for inputs in 0..lists {
        let w = walk(g1, g2, half, metrics, n, start, inputs);
        let next = seen(s, w, inputs);
        s = next;
    }
    s
}

fn search(g1: u8, g2: u8, half: u32, metrics: &[u8; 32], n: usize, from: u32, to: u32) -> Survey
    requires { (half ≤ 32) × (n ≤ 8) }
{
    let mut s = Survey {
        greatest: 0,
        count: 0,
        place: 0,
        inputs: 0,
    };
    for start in from..to {
        let next = seen_from(g1, g2, half, metrics, n, start, s);
        s = next;
    }
    s
}

// All paths of n steps from the states `from` to `to`, the last not among them: of at most 8 steps, and with at most 64 states.
pub fn search_all(
    g1: u8,
    g2: u8,
    half: u32,
    metrics: &[u8; 32],
    n: usize,
    from: u32,
    to: u32,
) -> Survey {
    search(g1, g2, half % 33, metrics, n % 9, from, to)
}

// A number from 16 to 32, or 16 or 17 where few are wanted.
fn metric(x: u32, few: bool) -> u8 {
    let v = (x / 256) % 17;
    if few {
        16 + (v % 2) as u8
    } else {
        16 + v as u8
    }
}

// The next of a row of pseudo-random numbers below 65,536.
pub fn next(x: u32) -> u32
    ensures { result < 65536 }
{
    (x % 65536 * 25173 + 13849) % 65536
}

// Pseudo-random metrics. Few different ones make equal sums.
pub fn scattered(seed: u32, few: bool) -> [u8; 32] {
    let mut x = seed % 65536;
    let mut ms = [16u8; 32];
    for m in ms.iter_mut() {
        x = next(x);
        *m = metric(x, few);
    }
    ms
}

// The metrics as the decoder takes them.
pub fn floats(metrics: &[u8; 32]) -> [f32; 32] {
    let mut xs = [0.0f32; 32];
    for (x, m) in xs.iter_mut().zip(metrics.iter()) {
        *x = *m as f32 - 16.0;
    }
    xs
}

// Whether the first n places hold the inputs, and the others 9.
pub fn has_inputs(out: &[u8; 8], n: usize, inputs: u32) -> bool {
    let mut bits = inputs;
    for (k, place) in out.iter().enumerate() {
        let wanted = if k < n { (bits % 2) as u8 } else { 9 };
        if *place != wanted {
            return false;
        }
        bits = bits / 2;
    }
    true
}

// Here for cases_short, which calls it.
pub fn larger(a: u32, b: u32) -> u32 {
    a.max(b)
}
