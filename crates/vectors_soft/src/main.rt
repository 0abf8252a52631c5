// `soft` on 5,324 patterns around every boundary of rounding, held to what Rust's `as f32` made of them: data/soft.hex, a line of a pattern
// and its answer each, in hexadecimal, written by compare/soft_vectors.rs. Lines that differ are shown, then how many agree and differ.
#![tactic(auto)]

ghost use Rattle.std.specs.Prelude.{◌≤◌, ◌<◌};

use cases_lib::{agreeing, double_of, float_bits, number, show_agreeing};
use std::fs::File;
use std::os::fd::AsRawFd;

const LINES: usize = 5324;

// The f64 of a pattern, a NaN's too.
fn float_of(bits: u64) -> f64 {
    if bits % 0x8000_0000_0000_0000 <= 0x7ff0_0000_0000_0000 {
        double_of(bits)
    } else {
        0.0f64 / 0.0f64
    }
}

// Whether `soft` gives the line's answer.
fn agrees(line: &[u8]) -> bool {
    let x = float_of(number(line, 0, 16));
    (float_bits(isdbs_phy::soft(x)) as u64) == number(line, 17, 25)
}

fn main(rt: HostRuntime) {
    let path = "soft.hex";
    let file = match File::open(&rt, path) {
        Ok(file) => file,
        Err(e) => {
            let _ = eprintln!(rt; "{path}: {e}");
            return;
        }
    };
    let agree = agreeing(file.as_raw_fd(), LINES, &mut [0u8; 26], agrees);
    show_agreeing(agree, LINES);
}
