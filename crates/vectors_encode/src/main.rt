// `encode_frame_with_state` on 389 frames, held to what the given Rust makes of them: every combination alone and mixed, all mappings and start states, loads
// that are full, short and surplus. data/encode.hex is written by compare/vectors.sh; compare/README.md has its fields. Lines that differ are shown, then how
// many agree and differ; last, the row of a part unit from a state that is none.
#![tactic(auto)]

ghost use Rattle.std.specs.Prelude.{◌≤◌, ◌<◌};

use cases_frames::{mapping_of, table_of};
use cases_lib::{agreeing, double_bits, draw, front, number, row, show_agreeing, show_one, step};
use isdb_fec::conv::ConvEncoder;
use isdbs_core::frame::MAIN_SYMBOLS;
use isdbs_phy::demod::encode_frame_with_state;
use refusal::Refusal;
use std::fs::File;
use std::os::fd::AsRawFd;

const LINES: usize = 389;

// The lists' digest of the points.
fn digest(re: &[f64; MAIN_SYMBOLS], im: &[f64; MAIN_SYMBOLS]) -> u64 {
    let mut h: u64 = 0x9e37_79b9_7f4a_7c15;
    for (x, y) in re.iter().zip(im.iter()) {
        h = step(h ^ double_bits(*x));
        h = step(h ^ double_bits(*y));
    }
    h
}

// Whether the frame has the line's digest, end state and sample.
fn matches(line: &[u8], end: u8, re: &[f64; MAIN_SYMBOLS], im: &[f64; MAIN_SYMBOLS]) -> bool {
    let k = (number(line, 65, 69) % MAIN_SYMBOLS as u64) as usize;
    (digest(re, im) == number(line, 45, 61))
        & (end as u64 == number(line, 62, 64))
        & (double_bits(re[k]) == number(line, 70, 86))
        & (double_bits(im[k]) == number(line, 87, 103))
}

// The frame of the line's load.
fn encode(
    line: &[u8],
    re: &mut [f64; MAIN_SYMBOLS],
    im: &mut [f64; MAIN_SYMBOLS],
) -> Result<ConvEncoder, Refusal> {
    let mut bytes = [0u8; 10240];
    let count = (number(line, 23, 27) % 10241) as usize;
    draw(&mut bytes, count, number(line, 28, 44));
    let t = table_of(number(line, 0, 16));
    let m = mapping_of(number(line, 17, 19));
    let enc = ConvEncoder {
        state: (number(line, 20, 22) % 256) as u8,
    };
    encode_frame_with_state(front(&bytes, count), t, enc, m, re, im)
}

// Whether the line's frame is made as the Rust makes it.
fn agrees(line: &[u8]) -> bool {
    let mut re = [0.0f64; MAIN_SYMBOLS];
    let mut im = [0.0f64; MAIN_SYMBOLS];
    match encode(line, &mut re, &mut im) {
        Ok(end) => matches(line, end.state, &re, &im),
        Err(_) => false,
    }
}

// The row of QPSK 2/3 in 5 slots from state 64: row 10 stands above row 4.
fn part_unit() -> usize {
    let mut re = [0.0f64; MAIN_SYMBOLS];
    let mut im = [0.0f64; MAIN_SYMBOLS];
    let enc = ConvEncoder { state: 64 };
    match encode_frame_with_state(b"", table_of(0x0503), enc, mapping_of(4), &mut re, &mut im) {
        Ok(_) => 0,
        Err(a) => row(Err(a)),
    }
}

fn main(rt: HostRuntime) {
    let path = "encode.hex";
    let file = match File::open(&rt, path) {
        Ok(file) => file,
        Err(e) => {
            let _ = eprintln!(rt; "{path}: {e}");
            return;
        }
    };
    let agree = agreeing(file.as_raw_fd(), LINES, &mut [0u8; 104], agrees);
    show_agreeing(agree, LINES);
    show_one(b"part unit from state 64: refused #\n", part_unit());
}
