// The puncturing of ISDB-T (ARIB STD-B31, section 3.8, Table 3-8): the table, and the order of sent bits that it makes. After conv.rs of
// isdbt-fec.
#![tactic(auto)]

ghost use Rattle.std.specs.Prelude.{◌≡◌, ◌+◌, ◌-◌, ◌*◌, ◌<◌, ◌≤◌};
ghost use Rattle.isdbt_table.specs.Table.{row_of, spec_of, compiled};

#[derive(Clone, Copy)]
pub enum CodeRate {
    R1_2,
    R2_3,
    R3_4,
    R5_6,
    R7_8,
}

// The puncturing of one code rate, a row of Table 3-8. Places past the ones in use hold 0, and 1 in `indices`.
#[derive(Clone, Copy)]
pub struct PunctureSpec {
    pub rate: CodeRate,
    // The input bits of a period.
    pub period: usize,
    // The "X:" and the "Y:" row, a number for each input bit of the period: 1 where the bit is sent.
    pub x: [u8; 7],
    pub y: [u8; 7],
    // The transmission-signal sequence: n bits, each by its letter, 0 for X and 1 for Y, and its index in the period, from 1.
    pub n: usize,
    pub letters: [u8; 8],
    pub indices: [usize; 8],
}

// Table 3-8 of ARIB STD-B31, section 3.8 (rows 1/2, 2/3, 3/4, 5/6, 7/8): `spec_of` in specs/Table.antt, row for row.
pub const TABLE_3_8: [PunctureSpec; 5] = [
    PunctureSpec {
        rate: CodeRate::R1_2,
        period: 1,
        x: [1, 0, 0, 0, 0, 0, 0],
        y: [1, 0, 0, 0, 0, 0, 0],
        n: 2,
        letters: [0, 1, 0, 0, 0, 0, 0, 0],
        indices: [1, 1, 1, 1, 1, 1, 1, 1],
    },
    PunctureSpec {
        rate: CodeRate::R2_3,
        period: 2,
        x: [1, 0, 0, 0, 0, 0, 0],
        y: [1, 1, 0, 0, 0, 0, 0],
        n: 3,
        letters: [0, 1, 1, 0, 0, 0, 0, 0],
        indices: [1, 1, 2, 1, 1, 1, 1, 1],
    },
    PunctureSpec {
        rate: CodeRate::R3_4,
        period: 3,
        x: [1, 0, 1, 0, 0, 0, 0],
        y: [1, 1, 0, 0, 0, 0, 0],
        n: 4,
        letters: [0, 1, 1, 0, 0, 0, 0, 0],
        indices: [1, 1, 2, 3, 1, 1, 1, 1],
    },
    PunctureSpec {
        rate: CodeRate::R5_6,
        period: 5,
        x: [1, 0, 1, 0, 1, 0, 0],
        y: [1, 1, 0, 1, 0, 0, 0],
        n: 6,
        letters: [0, 1, 1, 0, 1, 0, 0, 0],
        indices: [1, 1, 2, 3, 4, 5, 1, 1],
    },
    PunctureSpec {
        rate: CodeRate::R7_8,
        period: 7,
        x: [1, 0, 0, 0, 1, 0, 1],
        y: [1, 1, 1, 1, 0, 1, 0],
        n: 8,
        letters: [0, 1, 1, 1, 1, 0, 1, 0],
        indices: [1, 1, 2, 3, 4, 5, 6, 7],
    },
];

// The row of a rate in TABLE_3_8, in the order of Table 3-8.
fn table_3_8_row(rate: CodeRate) -> usize
    ensures { (result ≡ row_of rate) × (result < 5) }
{
    match rate {
        CodeRate::R1_2 => 0,
        CodeRate::R2_3 => 1,
        CodeRate::R3_4 => 2,
        CodeRate::R5_6 => 3,
        CodeRate::R7_8 => 4,
    }
}

// The Table 3-8 row for a rate.
pub fn puncture_spec(rate: CodeRate) -> PunctureSpec
    ensures { result ≡ spec_of rate }
{
    let table = TABLE_3_8;
    let row = table_3_8_row(rate);
    table[row]
}

// Compiled puncturing: for each of the n transmitted bits of a period, in transmission order, the index of the mother-code bit it carries,
// counting mother bits as X1, Y1, X2, Y2, ... (index 2(i-1) for Xi, 2(i-1)+1 for Yi). Places from n on hold 0.
#[derive(Clone, Copy)]
pub struct Puncturing {
    pub period: usize,
    pub n: usize,
    pub order: [usize; 8],
}

// The number of the mother-code bit of a letter and an index.
fn mother_bit(letter: u8, index: usize) -> usize
    requires { (letter < 2) × (1 ≤ index) × (index < 8) }
    ensures { result ≡ 2 * (index - 1) + letter }
{
    2 * (index - 1) + letter as usize
}

impl Puncturing {
    // From Table 3-8 for a rate.
    pub fn new(rate: CodeRate) -> Self
        ensures { result ≡ compiled rate }
    {
        let s = puncture_spec(rate);
        let letters = s.letters;
        let indices = s.indices;
        let mut order = [0usize; 8];
        for i in 0..8 {
            order[i] = mother_bit(letters[i], indices[i]);
        }
        Self {
            period: s.period,
            n: s.n,
            order,
        }
    }

    // The transmitted bits of a period.
    pub fn out_per_period(self) -> usize
        ensures { result ≡ self.n }
    {
        self.n
    }
}
