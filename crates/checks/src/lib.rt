// Laws that hold the definitions to document 01 (specs/), and the public constants that no other proved code reads, held to their numbers.
#![tactic(auto)]

ghost use Rattle.std.specs.Prelude.{◌≡◌, [], ◌∷◌, ◌+◌, ◌-◌, ◌*◌};
ghost use Rattle.isdbs_combination.specs.declared.Combination.TheVariants.{Bpsk1_2, Qpsk1_2, Qpsk2_3, Qpsk3_4, Qpsk5_6, Qpsk7_8, Tc8psk2_3};
ghost use Rattle.checks.specs.Tails.{coded_tail};
ghost use Rattle.isdbs_frame.specs.Frame.{w1, w2, w3};

use isdbs_core::combination::{ALL, Combination};
use isdbs_core::frame::{
    BURST_PERIOD, BURST_SYMBOLS, BURSTS, CODED_TAIL_BITS, E_MAX, FRAME_SYMBOLS, FRAMES,
    HEADER_BYTES, HEADER_SYMBOLS, MAIN_SYMBOLS, PACKET_BYTES, SLOT_BYTES, SLOTS,
    SUPERFRAME_SYMBOLS, TMCC_BYTES_PER_FRAME, W1_CODED_TAIL, W1_TAIL_AT, W2_CODED_TAIL,
    W3_CODED_TAIL, W23_TAIL_AT,
};
use isdbs_core::tmcc::{CM, DUMMY, Entry};

// Slots, frames, entries of a table; bytes of a slot, of a packet, of a header and of its TMCC; bits per symbol at most.
pub fn counts() -> [usize; 8]
    ensures { result ≡ 48 ∷ 8 ∷ 4 ∷ 203 ∷ (1 + 203) ∷ (2 + 8 + 2) ∷ 8 ∷ 2 ∷ [] }
{
    [
        SLOTS,
        FRAMES,
        CM,
        SLOT_BYTES,
        PACKET_BYTES,
        HEADER_BYTES,
        TMCC_BYTES_PER_FRAME,
        E_MAX,
    ]
}

// Symbols: of the header, bursts, of a burst, main symbols between bursts, of the main signal, of a frame, of a superframe; a coded tail and where it starts.
pub fn symbols() -> [usize; 10]
    ensures { result ≡ 192 ∷ 192 ∷ 4 ∷ 203 ∷ (48 * 812) ∷ (192 + 48 * 812 + 192 * 4) ∷ (8 * (192 + 48 * 812 + 192 * 4)) ∷ 20 ∷ (2 * 16 - 20) ∷ (192 - 20) ∷ [] }
{
    [
        HEADER_SYMBOLS,
        BURSTS,
        BURST_SYMBOLS,
        BURST_PERIOD,
        MAIN_SYMBOLS,
        FRAME_SYMBOLS,
        SUPERFRAME_SYMBOLS,
        CODED_TAIL_BITS,
        W1_TAIL_AT,
        W23_TAIL_AT,
    ]
}

// The last 20 coded bits of W1, W2 and W3.
pub fn coded_tails() -> [u32; 3]
    ensures { result ≡ coded_tail w1 ∷ coded_tail w2 ∷ coded_tail w3 ∷ [] }
{
    [W1_CODED_TAIL, W2_CODED_TAIL, W3_CODED_TAIL]
}

// An entry of a table that takes no slots.
pub fn dummy() -> Entry
    ensures { (result.word ≡ 15) × (result.slots ≡ 0) }
{
    DUMMY
}

// Every combination, from the most to the least efficient.
pub fn all_combinations() -> [Combination; 7]
    ensures { result ≡ Tc8psk2_3 ∷ Qpsk7_8 ∷ Qpsk5_6 ∷ Qpsk3_4 ∷ Qpsk2_3 ∷ Qpsk1_2 ∷ Bpsk1_2 ∷ [] }
{
    ALL
}
