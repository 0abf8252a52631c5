// The bench program's commands on full frames of 39,936 points: lay and part.
#![tactic(auto)]

mod laying;
mod points;
mod taking;

use bench_line::words::parts;
use bench_setting::usage::misused;
use isdbs_frame::{BURST_SYMBOLS, BURSTS};

// The burst points of a full frame.
const BURST_POINTS: usize = BURSTS * BURST_SYMBOLS;

// bench lay HEADER MAIN BURST FULL
pub fn lay(rt: &HostRuntime, line: &[u8]) {
    if parts(line, 0) != 5 {
        misused(b"lay takes HEADER MAIN BURST FULL", b"");
        return;
    }
    laying::lay(rt, line);
}

// bench part FULL HEADER MAIN BURST
pub fn take_apart(rt: &HostRuntime, line: &[u8]) {
    if parts(line, 0) != 5 {
        misused(b"part takes FULL HEADER MAIN BURST", b"");
        return;
    }
    taking::take_apart(rt, line);
}
