// How near a stored stretch of X, Y bits comes to a coded one: of each state the least number of bits in which a coded stretch to it differs, counted up to 5, and the
// decision words by which that stretch is traced back.
#![tactic(auto)]

ghost use Rattle.std.specs.Prelude.{◌≡◌, ◌+◌, ◌*◌, ◌/◌, ◌%◌, ◌<◌, ◌≤◌, ltb, length};
ghost use Rattle.trellis.specs.Lists.{bit, upto, laid};
ghost use Rattle.trellis.specs.Stretch.{Bits};
ghost use Rattle.mend_distance.specs.Distances.{through, nexts, word, begun, Capped, least, word_at};
ghost use Rattle.trellis.specs.Isdb;

use trellis::{HALF, STATES};
use viterbi_encode::encode_bit;

// One more than the most bits that are mended (document 02, P13: "at most four bits").
const FAR: u8 = 5;

// The number of states, which the type of the table fixes.
fn states(d: &[u8; STATES]) -> usize
    ensures { (result ≡ Isdb.states) × (length d.now ≡ Isdb.states) }
{
    let numbers: &[u8] = d;
    numbers.len()
}

// Whether the odd way differs in fewer bits, as a bit.
fn beats(odd: u8, even: u8) -> u64
    ensures { result ≡ bit (ltb odd even) }
{
    u64::from(odd < even)
}

// The bits in which the way to the state k by its predecessor with the low bit b differs; the step's bits are x and y.
fn way(d: &[u8; STATES], k: usize, b: usize, x: u8, y: u8) -> u8
    requires { (k < Isdb.states) × (b < 2) × (x < 2) × (y < 2) × Capped d.now }
    ensures { result ≡ through d.now (2 * x + y) k b }
{
    let from = 2 * (k % HALF) + b;
    let sent = encode_bit(from as u8, (k / HALF) as u8);
    d[from] + (sent.x + x) % 2 + (sent.y + y) % 2
}

// A step of the table. The decision word.
fn distance_step(d: &mut [u8; STATES], x: u8, y: u8) -> u64
    requires { (x < 2) × (y < 2) × Capped d.old }
    ensures { (d.new ≡ nexts d.old (2 * x + y)) × (result ≡ word d.old (2 * x + y)) }
{
    let old = *d;
    let n = states(d);
    let mut w: u64 = 0;
    for k in 0..n {
        let even = way(&old, k, 0, x, y);
        let odd = way(&old, k, 1, x, y);
        d[k] = FAR.min(even.min(odd));
        w = w | (beats(odd, even) << k);
    }
    w
}

// Before the first step: 0 at the start state (mod 64), out of reach elsewhere.
fn start_table(start: u8) -> [u8; STATES]
    ensures { result ≡ begun (start % Isdb.states) }
{
    let mut d = [FAR; STATES];
    let at = (start % 64) as usize;
    d[at] = 0;
    d
}

// The least number of bits in which a coded stretch from `start` to `end`, both mod 64, differs from `bits`, counted up to 5.
pub fn least_distance(bits: &[u8], start: u8, end: u8) -> u8
    requires { Bits bits.now }
    ensures { result ≡ least (start % Isdb.states) (end % Isdb.states) bits.now }
{
    let mut d = start_table(start);
    let n = bits.len() / 2;
    for t in 0..n {
        distance_step(&mut d, bits[2 * t], bits[2 * t + 1]);
    }
    let at = (end % 64) as usize;
    d[at]
}

// The decision words of the stretch, at the front of `decisions`.
pub fn keep_words(bits: &[u8], start: u8, decisions: &mut [u64])
    requires { Bits bits.now × (length bits.now / 2 ≤ length decisions.old) }
    ensures { decisions.new ≡ laid (upto (word_at (start % Isdb.states) bits.now) (length bits.now / 2)) decisions.old }
{
    let mut d = start_table(start);
    let n = bits.len() / 2;
    for t in 0..n {
        let w = distance_step(&mut d, bits[2 * t], bits[2 * t + 1]);
        decisions[t] = w;
    }
}
