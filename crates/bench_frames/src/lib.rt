// The bench program's commands on captures of any length: frames and cut. A capture is read in pieces.
#![tactic(auto)]

mod cutting;
pub mod searching;
pub mod words;

use bench_line::words::{part, parts, same};
use isdbs_frame::FRAME_SYMBOLS;
use words::misused;
pub use words::show_usage;

// The points that are held at once: a frame at each of 39,936 places.
pub const PIECE: usize = 2 * FRAME_SYMBOLS - 1;

// bench frames CAPTURE
pub fn frames(rt: &HostRuntime, line: &[u8]) {
    if parts(line, 0) != 2 {
        misused(b"frames takes CAPTURE", b"");
        return;
    }
    let mut re = [0.0f64; PIECE];
    let mut im = [0.0f64; PIECE];
    searching::frames(rt, part(line, 0, 1), &mut re, &mut im);
}

// Whether the words of cut are four, or five with the word align.
fn is_cut(line: &[u8]) -> bool {
    if parts(line, 0) == 4 {
        return true;
    }
    parts(line, 0) == 5 && same(part(line, 0, 4), b"align")
}

// bench cut CAPTURE PLACE FULL [align]
pub fn cut(rt: &HostRuntime, line: &[u8]) {
    if !is_cut(line) {
        misused(b"cut takes CAPTURE PLACE FULL [align]", b"");
        return;
    }
    let mut re = [0.0f64; FRAME_SYMBOLS];
    let mut im = [0.0f64; FRAME_SYMBOLS];
    let mut out_re = [0.0f64; FRAME_SYMBOLS];
    let mut out_im = [0.0f64; FRAME_SYMBOLS];
    cutting::cut(rt, line, &mut re, &mut im, &mut out_re, &mut out_im);
}
