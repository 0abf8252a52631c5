// What received points and the encoded points beside them add to the seven numbers of their slots: how many they are, and sums of powers and of parts. Every number is an equation in f64
// operations, each rounded once.
#![tactic(auto)]

ghost use Rattle.std.specs.Prelude.{◌≡◌, ◌+◌, ◌≤◌, length};
ghost use Rattle.trellis.specs.Lists.{upto, laid};
ghost use Rattle.isdbs_frame.specs.Frame.{main_symbols};
ghost use Rattle.isdbs_points.specs.Points.{zero64};
ghost use Rattle.quality_sums.specs.Terms.{terms_of, imaginary, slot_numbers, quality_numbers};
ghost use Rattle.quality_sums.specs.Adding.{added, block_added};

use isdbs_combination::{FRAME_SLOTS, SLOT_SYMBOLS};

// The numbers of a slot, and of all slots of a frame.
pub const SLOT_NUMBERS: usize = 7;

pub const QUALITY_NUMBERS: usize = SLOT_NUMBERS * FRAME_SLOTS;

// An imaginary part, which counts as 0 of BPSK.
fn imaginary(bpsk: bool, y: f64) -> f64
    ensures { result ≡ imaginary bpsk y }
{
    if bpsk { 0.0 } else { y }
}

// What a received point z and its encoded point c add: 1, |c|^2, |z - c|^2, the parts of z conj(c), the parts of z - c.
#[tactic(auto, unfolding(crate::specs::Terms::terms_of))]
fn terms_of(zx: f64, zy: f64, cx: f64, cy: f64) -> [f64; SLOT_NUMBERS]
    ensures { result ≡ terms_of zx zy cx cy }
{
    let ex = zx - cx;
    let ey = zy - cy;
    [
        1.0,
        cx * cx + cy * cy,
        ex * ex + ey * ey,
        zx * cx + zy * cy,
        zy * cx - zx * cy,
        ex,
        ey,
    ]
}

// Adds the seven to the numbers from a place on.
fn add_terms(terms: [f64; SLOT_NUMBERS], at: usize, out: &mut [f64])
    requires { (length terms ≡ slot_numbers) × (at + slot_numbers ≤ length out.old) }
    ensures { out.new ≡ added terms at out.old slot_numbers }
{
    for (n, term) in terms.iter().enumerate() {
        out[at + n] += *term;
    }
}

// Adds what n received points from number `from` on and the first n points of a block add, each to the numbers of its slot.
pub fn add_block(
    bpsk: bool,
    re: &[f64],
    im: &[f64],
    from: usize,
    xs: &[f64],
    ys: &[f64],
    n: usize,
    out: &mut [f64],
)
    requires { (from + n ≤ main_symbols) × (main_symbols ≤ length re.now) × (main_symbols ≤ length im.now) × (n ≤ length xs.now) × (n ≤ length ys.now) × (quality_numbers ≤ length out.old) }
    ensures { out.new ≡ block_added bpsk re.now im.now from xs.now ys.now out.old n }
{
    for i in 0..n {
        let k = from + i;
        let zy = imaginary(bpsk, im[k]);
        let cy = imaginary(bpsk, ys[i]);
        let terms = terms_of(re[k], zy, xs[i], cy);
        add_terms(terms, SLOT_NUMBERS * (k / SLOT_SYMBOLS), out);
    }
}

// The numbers of all slots, begun at 0.
pub fn begin(out: &mut [f64])
    requires { quality_numbers ≤ length out.old }
    ensures { out.new ≡ laid (upto (λ i. zero64) quality_numbers) out.old }
{
    out[..QUALITY_NUMBERS].fill(0.0);
}
