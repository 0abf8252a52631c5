// A sheet of text that is filled from the front, and the places of a picture on it.
#![tactic(auto)]

ghost use Rattle.std.specs.Prelude.{◌≡◌, ◌*◌, ◌<◌, ◌≤◌, length};
ghost use Rattle.picture_sheet.specs.Sheet.{Put, PutNumber};
ghost use Rattle.picture_sheet.specs.Places.{bin_at, bin_of, height_of, unit_for};

// The bytes of a sheet.
pub const SHEET_BYTES: usize = 655_360;

// The place of a sheet on which something did not fit.
pub const OVER: usize = SHEET_BYTES + 1;

// A sheet, and the place after what was put on it: OVER where something did not fit.
#[derive(Clone, Copy)]
pub struct Sheet {
    pub bytes: [u8; SHEET_BYTES],
    pub at: usize,
}

impl Sheet {
    // Puts s at the sheet's place, whole or not at all.
    pub fn put(&mut self, s: &[u8])
        ensures { Put self.old.at s.now self.old.bytes self.new.bytes self.new.at }
    {
        if self.at > SHEET_BYTES || s.len() > SHEET_BYTES - self.at {
            self.at = OVER;
            return;
        }
        let end = self.at + s.len();
        self.bytes[self.at..end].copy_from_slice(s);
        self.at = end;
    }

    // Puts the decimal digits of n.
    pub fn number(&mut self, n: u64)
        ensures { PutNumber self.old.at n self.old.bytes self.new.bytes self.new.at }
    {
        let mut digits = [0u8; 20];
        let k = io::decimal(n, &mut digits);
        self.put(&digits[..k]);
    }

    // The bytes from a place up to another; none where there are none.
    pub fn between(&self, from: usize, to: usize) -> &[u8] {
        if from <= to && to <= SHEET_BYTES {
            return &self.bytes[from..to];
        }
        &self.bytes[..0]
    }
}

// The bins of a part of a point.
pub const BINS: usize = 192;

// A count for each square of two bins, in rows.
pub type Squares = [[u32; BINS]; BINS];

// Where t is above -1 and below 2^64, its whole part; it is 0 or 191 where that lies beyond.
fn bin_at(t: f64) -> usize
    ensures { (result ≡ bin_at t) × (result < 192) }
{
    if t > -1.0f64 {
        if t < 18446744073709551616.0f64 {
            let n = std::num::truncating_f64_to_u64(t);
            if n <= 191 {
                return n as usize;
            }
            return 191;
        }
        return 191;
    }
    0
}

// The bin of a part of a point, of 192 between -1.5 and 1.5; a part beyond is in the first or the last.
#[tactic(auto, unfolding(crate::specs::Places::bin_of))]
pub fn bin(x: f64) -> usize
    ensures { (result ≡ bin_of x) × (result < 192) }
{
    bin_at(x * 64.0f64 + 96.0f64)
}

// What a line of a bar scale of five stands for, where the greatest bar is `most`.
#[tactic(auto, unfolding(crate::specs::Places::unit_for))]
pub fn scale_unit(most: usize) -> usize
    ensures { ((0 < result) × (result ≤ 400)) × (result ≡ unit_for most) }
{
    match most {
        ..=5 => 1,
        6..=10 => 2,
        11..=25 => 5,
        26..=50 => 10,
        51..=100 => 20,
        101..=250 => 50,
        251..=500 => 100,
        501..=1000 => 200,
        _ => 400,
    }
}

// The height of a bar on the scale of the greatest bar, `most`, which is 320 high; a bar that is larger ends with the scale.
#[tactic(auto, unfolding(crate::specs::Places::height_of))]
pub fn height(n: usize, most: usize) -> usize
    ensures { (result ≤ 320) × (result ≡ height_of n (5 * unit_for most)) }
{
    let unit = scale_unit(most);
    if n > 5 * unit {
        return 320;
    }
    n * 320 / (5 * unit)
}
