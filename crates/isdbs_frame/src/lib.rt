// Frame and superframe geometry, and the frame sync words: the numbers of ITU-R BO.1408-1, Appendix 1, Table 3, and the layout of MIC Ordinance
// No. 87 of 2011, annexed tables 45, 50 and 51, as the Rust cites them.
//
//     frame (39,936 symbols)
//       header, 192 BPSK symbols
//       192 x ( 203 main-signal symbols | 4 burst symbols )
#![tactic(auto)]

ghost use Rattle.std.specs.Prelude.{◌≡◌, ◌<◌};
ghost use Rattle.isdbs_frame.specs.Answers.{position_said};
ghost use Rattle.isdbs_frame.specs.Frame.{main_symbols, main, place_of, main_symbol_position, burst_symbol_position, high_first};

use isdbs_combination::FRAME_SLOTS;
use refusal::Refusal;
use trellis::LONGEST_FRAME;

// Slots per frame, N (Table 3 item 1).
pub const SLOTS: usize = FRAME_SLOTS;
// Frames per superframe, M (item 2).
pub const FRAMES: usize = 8;
// Bytes per slot on air, B (item 3: the MPEG sync byte is not sent).
pub const SLOT_BYTES: usize = 203;
// Bytes of the longest load: every slot of a frame valid.
pub const LOAD_BYTES: usize = SLOTS * SLOT_BYTES;
// Bytes per slot with the sync byte, a codeword of RS(204,188).
pub const PACKET_BYTES: usize = 204;
// Main-signal symbols per frame, I_D (item 4).
pub const MAIN_SYMBOLS: usize = 38_976;
// Symbols per frame, with header and bursts (item 5).
pub const FRAME_SYMBOLS: usize = 39_936;
// Symbols of the header at the start of each frame: 96 bits at rate 1/2 (annexed tables 45 and 50).
pub const HEADER_SYMBOLS: usize = 192;
// Main-signal symbols between two bursts (BO.1408-1, section 7).
pub const BURST_PERIOD: usize = 203;
// Symbols per burst (section 7).
pub const BURST_SYMBOLS: usize = 4;
// Bursts per frame: 38,976 / 203.
pub const BURSTS: usize = 192;
// Header bytes per frame: W1 (2), TMCC (8), W2 or W3 (2) (annexed table 45).
pub const HEADER_BYTES: usize = 12;
// TMCC bytes per frame (annexed table 45).
pub const TMCC_BYTES_PER_FRAME: usize = 8;
// Highest spectrum efficiency, bits per symbol (item 7).
pub const E_MAX: usize = 2;
// Symbols of a superframe (items 2 and 5).
pub const SUPERFRAME_SYMBOLS: usize = 319_488;

// The sync words (BO.1408-1, section 6.3): W1 starts every header, W2 ends that of the first frame of a superframe, W3 the others.
pub const W1: u16 = 0x1B95;

pub const W2: u16 = 0xA340;

pub const W3: u16 = 0x5CBF;

// The bits of a sync word (annexed table 45: two bytes).
pub const SYNC_BITS: usize = 16;

// The decoded bits of the longest frame: one for each step, then those of W1, which end every frame.
pub const FRAME_BITS: usize = LONGEST_FRAME + SYNC_BITS;

// The last 20 bits of W1, W2, W3 after the inner code (annexed table 45, note 1): the first six bits of a word flush the encoder, so these do not depend on its state (section 6.3).
pub const W1_CODED_TAIL: u32 = 0xECD28;

pub const W2_CODED_TAIL: u32 = 0x0B677;

pub const W3_CODED_TAIL: u32 = 0xF4988;
// Length of a coded tail in bits.
pub const CODED_TAIL_BITS: usize = 20;
// Header symbols where the tails of W1 and of W2 or W3 start: the last 20 of the 32 that carry W1, and of the header.
pub const W1_TAIL_AT: usize = 12;

pub const W23_TAIL_AT: usize = 172;

// Symbol index within a frame of a main-signal symbol.
pub fn main_place(k: usize) -> usize
    requires { k < main_symbols }
    ensures { result ≡ place_of (main k) }
{
    HEADER_SYMBOLS + (k / BURST_PERIOD) * (BURST_PERIOD + BURST_SYMBOLS) + k % BURST_PERIOD
}

// Symbol index within a frame of main-signal symbol k.
pub fn main_symbol_position(k: usize) -> Result<usize, Refusal>
    ensures { position_said result ≡ main_symbol_position k }
{
    if k < MAIN_SYMBOLS {
        Ok(main_place(k))
    } else {
        Err(Refusal::Position)
    }
}

// Symbol index within a frame of symbol j of burst b.
pub fn burst_symbol_position(b: usize, j: usize) -> Result<usize, Refusal>
    ensures { position_said result ≡ burst_symbol_position b j }
{
    if b < BURSTS {
        if j < BURST_SYMBOLS {
            return Ok(HEADER_SYMBOLS + b * (BURST_PERIOD + BURST_SYMBOLS) + BURST_PERIOD + j);
        }
    }
    Err(Refusal::Position)
}

// The low 20 bits of tail, high bit first, one in each byte.
pub fn tail_bits(tail: u32) -> [u8; 20]
    ensures { result ≡ high_first 20 tail }
{
    let mut out = [0u8; 20];
    for i in 0..20 {
        out[i] = ((tail >> (19 - i)) % 2) as u8;
    }
    out
}
