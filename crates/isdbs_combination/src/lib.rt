// Modulation-code combinations and their words (ITU-R BO.1408-1, Table 1), their slot units (MIC Ordinance No. 87 of 2011, annexed table 48, appended
// note 3) and their punctured codes (BO.1408-1, Table 2; annexed table 49, note 4).
#![tactic(auto)]

ghost use Rattle.std.specs.Prelude.{◌≡◌, ◌*◌};
ghost use Rattle.isdbs_combination.specs.Combinations.{combination_of, word_means, assigned_of, word_of, word_value, modulation_of, symbol_bits, rate_of, efficiency_of, rank_of, unit_of, slot_steps, slot_symbols, puncture_of, pairs_from, four_pairs, period_of};

// A modulation-code combination of the main signal.
#[derive(Clone, Copy)]
pub enum Combination {
    Bpsk1_2,
    Qpsk1_2,
    Qpsk2_3,
    Qpsk3_4,
    Qpsk5_6,
    Qpsk7_8,
    Tc8psk2_3,
}

// Every combination, from the most to the least efficient: the slot order of BO.1408-1, section 3.2.
pub const ALL: [Combination; 7] = [
    Combination::Tc8psk2_3,
    Combination::Qpsk7_8,
    Combination::Qpsk5_6,
    Combination::Qpsk3_4,
    Combination::Qpsk2_3,
    Combination::Qpsk1_2,
    Combination::Bpsk1_2,
];

// The modulation of a combination.
#[derive(Clone, Copy)]
pub enum Modulation {
    Bpsk,
    Qpsk,
    Tc8psk,
}

// The slots of a frame, N (BO.1408-1, Appendix 1, Table 3 item 1).
pub const FRAME_SLOTS: usize = 48;

// Information bits of a slot on air, its 203 bytes (Table 3 item 3).
pub const SLOT_BITS: usize = 1_624;

// The symbols of a slot, 8 x 203 / E_max (BO.1408-1, section 3.2): 48 slots make the 38,976 of a frame's main signal.
pub const SLOT_SYMBOLS: usize = 812;

// The word of unused entries (Table 1: 1111; BO.1408-1, section 6.1.2).
pub const DUMMY_WORD: u8 = 15;

// The 4-bit word of a table entry (BO.1408-1, Fig. 8 and Table 1): 1 to 7, 15, or reserved.
#[derive(Clone, Copy)]
pub enum CombinationWord {
    Assigned(Combination),
    Dummy,
    Reserved(u8),
}

// The punctured codes of QPSK (BO.1408-1, Table 2).
#[derive(Clone, Copy)]
pub enum Puncture {
    R2_3,
    R3_4,
    R5_6,
    R7_8,
}

// num / den.
#[derive(Clone, Copy)]
pub struct Ratio {
    pub num: usize,
    pub den: usize,
}

// Slots per unit, and how many of them are valid.
#[derive(Clone, Copy)]
pub struct SlotUnit {
    pub slots: usize,
    pub valid: usize,
}

// Two mother bits that one QPSK symbol sends. Mother bit X_i is numbered 2(i - 1), and Y_i 2(i - 1) + 1.
#[derive(Clone, Copy)]
pub struct BitPair {
    pub p1: usize,
    pub p0: usize,
}

// The pairs of a period: the first `count` of four.
#[derive(Clone, Copy)]
pub struct BitPairs {
    pub count: usize,
    pub pairs: [BitPair; 4],
}

impl CombinationWord {
    // By the low 4 bits (Table 1).
    pub fn from_word(w: u8) -> CombinationWord
        ensures { result ≡ word_means w }
    {
        let low = w % 16;
        match low {
            1 => CombinationWord::Assigned(Combination::Bpsk1_2),
            2 => CombinationWord::Assigned(Combination::Qpsk1_2),
            3 => CombinationWord::Assigned(Combination::Qpsk2_3),
            4 => CombinationWord::Assigned(Combination::Qpsk3_4),
            5 => CombinationWord::Assigned(Combination::Qpsk5_6),
            6 => CombinationWord::Assigned(Combination::Qpsk7_8),
            7 => CombinationWord::Assigned(Combination::Tc8psk2_3),
            15 => CombinationWord::Dummy,
            _ => CombinationWord::Reserved(low),
        }
    }

    pub fn word(self) -> u8
        ensures { result ≡ word_value self }
    {
        match self {
            CombinationWord::Assigned(c) => c.word(),
            CombinationWord::Dummy => DUMMY_WORD,
            CombinationWord::Reserved(w) => w,
        }
    }

    pub fn combination(self) -> Option<Combination>
        ensures { result ≡ assigned_of self }
    {
        match self {
            CombinationWord::Assigned(c) => Some(c),
            CombinationWord::Dummy => None,
            CombinationWord::Reserved(_) => None,
        }
    }
}

impl Combination {
    // The word of Table 1.
    pub fn word(self) -> u8
        ensures { result ≡ word_of self }
    {
        match self {
            Combination::Bpsk1_2 => 1,
            Combination::Qpsk1_2 => 2,
            Combination::Qpsk2_3 => 3,
            Combination::Qpsk3_4 => 4,
            Combination::Qpsk5_6 => 5,
            Combination::Qpsk7_8 => 6,
            Combination::Tc8psk2_3 => 7,
        }
    }

    // By the whole byte.
    pub fn from_word(w: u8) -> Option<Combination>
        ensures { result ≡ combination_of w }
    {
        match w {
            1 => Some(Combination::Bpsk1_2),
            2 => Some(Combination::Qpsk1_2),
            3 => Some(Combination::Qpsk2_3),
            4 => Some(Combination::Qpsk3_4),
            5 => Some(Combination::Qpsk5_6),
            6 => Some(Combination::Qpsk7_8),
            7 => Some(Combination::Tc8psk2_3),
            _ => None,
        }
    }

    // Position in ALL: 0 for the most efficient (section 3.2).
    pub fn rank(self) -> usize
        ensures { result ≡ rank_of self }
    {
        match self {
            Combination::Tc8psk2_3 => 0,
            Combination::Qpsk7_8 => 1,
            Combination::Qpsk5_6 => 2,
            Combination::Qpsk3_4 => 3,
            Combination::Qpsk2_3 => 4,
            Combination::Qpsk1_2 => 5,
            Combination::Bpsk1_2 => 6,
        }
    }

    pub fn modulation(self) -> Modulation
        ensures { result ≡ modulation_of self }
    {
        match self {
            Combination::Bpsk1_2 => Modulation::Bpsk,
            Combination::Qpsk1_2 => Modulation::Qpsk,
            Combination::Qpsk2_3 => Modulation::Qpsk,
            Combination::Qpsk3_4 => Modulation::Qpsk,
            Combination::Qpsk5_6 => Modulation::Qpsk,
            Combination::Qpsk7_8 => Modulation::Qpsk,
            Combination::Tc8psk2_3 => Modulation::Tc8psk,
        }
    }

    // Code rate (Table 1).
    pub fn rate(self) -> Ratio
        ensures { result ≡ rate_of self }
    {
        match self {
            Combination::Bpsk1_2 => Ratio { num: 1, den: 2 },
            Combination::Qpsk1_2 => Ratio { num: 1, den: 2 },
            Combination::Qpsk2_3 => Ratio { num: 2, den: 3 },
            Combination::Qpsk3_4 => Ratio { num: 3, den: 4 },
            Combination::Qpsk5_6 => Ratio { num: 5, den: 6 },
            Combination::Qpsk7_8 => Ratio { num: 7, den: 8 },
            Combination::Tc8psk2_3 => Ratio { num: 2, den: 3 },
        }
    }

    // Coded bits per symbol.
    pub fn bits_per_symbol(self) -> usize
        ensures { result ≡ symbol_bits (modulation_of self) }
    {
        match self.modulation() {
            Modulation::Bpsk => 1,
            Modulation::Qpsk => 2,
            Modulation::Tc8psk => 3,
        }
    }

    // Information bits per symbol (section 3.2, equation (1)). TC8PSK has one bit uncoded and one at rate 1/2.
    pub fn efficiency(self) -> Ratio
        ensures { result ≡ efficiency_of self }
    {
        match self {
            Combination::Bpsk1_2 => Ratio { num: 1, den: 2 },
            Combination::Qpsk1_2 => Ratio { num: 2, den: 2 },
            Combination::Qpsk2_3 => Ratio { num: 4, den: 3 },
            Combination::Qpsk3_4 => Ratio { num: 6, den: 4 },
            Combination::Qpsk5_6 => Ratio { num: 10, den: 6 },
            Combination::Qpsk7_8 => Ratio { num: 14, den: 8 },
            Combination::Tc8psk2_3 => Ratio { num: 2, den: 1 },
        }
    }

    // The slot unit (annexed table 48, appended note 3).
    pub fn slot_unit(self) -> SlotUnit
        ensures { result ≡ unit_of self }
    {
        match self {
            Combination::Bpsk1_2 => SlotUnit { slots: 4, valid: 1 },
            Combination::Qpsk1_2 => SlotUnit { slots: 2, valid: 1 },
            Combination::Qpsk2_3 => SlotUnit { slots: 3, valid: 2 },
            Combination::Qpsk3_4 => SlotUnit { slots: 4, valid: 3 },
            Combination::Qpsk5_6 => SlotUnit { slots: 6, valid: 5 },
            Combination::Qpsk7_8 => SlotUnit { slots: 8, valid: 7 },
            Combination::Tc8psk2_3 => SlotUnit { slots: 1, valid: 1 },
        }
    }

    // Symbols of a slot unit, 812 for each slot (section 3.2, equations (1) to (4)).
    pub fn symbols_per_unit(self) -> usize
        ensures { result ≡ (unit_of self).slots * slot_symbols }
    {
        let unit = self.slot_unit();
        unit.slots * SLOT_SYMBOLS
    }

    // Trellis steps of a valid slot: one for each bit, of TC8PSK for each second one.
    pub fn steps_per_slot(self) -> usize
        ensures { result ≡ slot_steps self }
    {
        match self {
            Combination::Bpsk1_2 => SLOT_BITS,
            Combination::Qpsk1_2 => SLOT_BITS,
            Combination::Qpsk2_3 => SLOT_BITS,
            Combination::Qpsk3_4 => SLOT_BITS,
            Combination::Qpsk5_6 => SLOT_BITS,
            Combination::Qpsk7_8 => SLOT_BITS,
            Combination::Tc8psk2_3 => SLOT_BITS / 2,
        }
    }

    // The punctured code (Table 2); none at rate 1/2 and for the coded bit of TC8PSK.
    pub fn puncturing(self) -> Option<Puncture>
        ensures { result ≡ puncture_of self }
    {
        match self {
            Combination::Bpsk1_2 => None,
            Combination::Qpsk1_2 => None,
            Combination::Qpsk2_3 => Some(Puncture::R2_3),
            Combination::Qpsk3_4 => Some(Puncture::R3_4),
            Combination::Qpsk5_6 => Some(Puncture::R5_6),
            Combination::Qpsk7_8 => Some(Puncture::R7_8),
            Combination::Tc8psk2_3 => None,
        }
    }
}

// Four pairs and a count, of mother bits in the order sent.
fn bit_pairs(count: usize, b: [usize; 8]) -> BitPairs
    ensures { result ≡ pairs_from count b }
{
    BitPairs {
        count,
        pairs: [
            BitPair { p1: b[0], p0: b[1] },
            BitPair { p1: b[2], p0: b[3] },
            BitPair { p1: b[4], p0: b[5] },
            BitPair { p1: b[6], p0: b[7] },
        ],
    }
}

impl Puncture {
    // The pairs of a period, in the order sent (Table 2; annexed table 49, note 4): the first bit of a pair is p1, the second p0.
    pub fn pairs(self) -> BitPairs
        ensures { result ≡ four_pairs self }
    {
        match self {
            Puncture::R2_3 => bit_pairs(3, [0, 1, 3, 4, 5, 7, 0, 0]),
            Puncture::R3_4 => bit_pairs(2, [0, 1, 3, 4, 0, 0, 0, 0]),
            Puncture::R5_6 => bit_pairs(3, [0, 1, 3, 4, 7, 8, 0, 0]),
            Puncture::R7_8 => bit_pairs(4, [0, 1, 3, 5, 7, 8, 11, 12]),
        }
    }

    // Input bits per period (Table 2).
    pub fn period(self) -> usize
        ensures { result ≡ period_of self }
    {
        match self {
            Puncture::R2_3 => 4,
            Puncture::R3_4 => 3,
            Puncture::R5_6 => 5,
            Puncture::R7_8 => 7,
        }
    }
}
