// Frame and superframe geometry, and the frame sync words.
pub use isdbs_frame::{
    BURST_PERIOD, BURST_SYMBOLS, BURSTS, CODED_TAIL_BITS, E_MAX, FRAME_BITS, FRAME_SYMBOLS, FRAMES,
    HEADER_BYTES, HEADER_SYMBOLS, LOAD_BYTES, MAIN_SYMBOLS, PACKET_BYTES, SLOT_BYTES, SLOTS,
    SUPERFRAME_SYMBOLS, SYNC_BITS, TMCC_BYTES_PER_FRAME, W1, W1_CODED_TAIL, W1_TAIL_AT, W2,
    W2_CODED_TAIL, W3, W3_CODED_TAIL, W23_TAIL_AT, burst_symbol_position, main_symbol_position,
    tail_bits,
};
