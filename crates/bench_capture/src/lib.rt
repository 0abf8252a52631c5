// The bench program's command capture: every frame of a capture found, cut, turned right where that is asked, and read; a line for each.
#![tactic(auto)]

mod reading;
mod searching;

use bench_frames::PIECE;
use bench_frames::words::misused;
use bench_line::words::{part, parts, same};
use bench_setting::setting::{Setting, setting_of};
use bench_words::report;
use reading::How;

// Whether the words of capture are five, or six with the word align.
fn is_capture(line: &[u8]) -> bool {
    if parts(line, 0) == 5 {
        return true;
    }
    parts(line, 0) == 6 && same(part(line, 0, 5), b"align")
}

fn how_by(s: Setting, slots: usize, aligns: bool) -> How {
    let table = s.table;
    let mapping = s.mapping;
    How {
        table,
        mapping,
        slots,
        aligns,
    }
}

// Reads the capture, on space of its own.
fn read_in_space(rt: &HostRuntime, line: &[u8], how: How) {
    let mut re = [0.0f64; PIECE];
    let mut im = [0.0f64; PIECE];
    searching::capture(
        rt,
        part(line, 0, 3),
        part(line, 0, 4),
        how,
        &mut re,
        &mut im,
    );
}

// bench capture TABLE MAPPING CAPTURE REPORT [align]
pub fn capture(rt: &HostRuntime, line: &[u8]) {
    if !is_capture(line) {
        misused(b"capture takes TABLE MAPPING CAPTURE REPORT [align]", b"");
        return;
    }
    // the kinds are told by the headers
    let Some(s) = setting_of(part(line, 0, 1), part(line, 0, 2), b"first") else {
        return;
    };
    let t = s.table;
    if let Some(v) = report::table(t) {
        read_in_space(rt, line, how_by(s, v, parts(line, 0) == 6));
    }
}
