// Modulation-code combinations and their words, units and punctured codes.
pub use isdbs_combination::{
    ALL, BitPair, BitPairs, Combination, CombinationWord, DUMMY_WORD, Modulation, Puncture, Ratio,
    SlotUnit,
};
