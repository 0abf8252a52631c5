// The lengths of the space that the commands lend.
use isdbs_core::frame::FRAME_BITS;
// The bytes of a full load.
pub use isdbs_core::frame::LOAD_BYTES;

// A byte more, so that a file that is longer is told from one that is full.
pub const LOAD_SPACE: usize = LOAD_BYTES + 1;

// The decoded bits of the longest frame and the 16 known ones that close it.
pub const BIT_SPACE: usize = FRAME_BITS;

// The bytes of a command's words, which 0 bytes separate: those of io's buffer.
pub const LINE_BYTES: usize = 4_096;
