// A frame read in the plain way, with a known start and all scales at 8.
use bench_calls::reading::read_of;
use bench_files::files;
use bench_files::files::Got;
use bench_line::space::LOAD_SPACE;
use bench_setting::choice::Reading;
use bench_setting::setting::Setting;
use isdbs_core::frame::{MAIN_SYMBOLS, SLOTS};
use isdbs_phy::demod::FrameDecoded;
use refusal::Refusal;

// Reads a file's points.
pub fn points_of(
    rt: &HostRuntime,
    name: &[u8],
    re: &mut [f64; MAIN_SYMBOLS],
    im: &mut [f64; MAIN_SYMBOLS],
) -> Got {
    match files::open(rt, name) {
        Some(file) => files::read_points(rt, file, name, re, im),
        None => files::nothing(),
    }
}

// The reading of a setting with a known start and all scales at 8.
pub fn plain_reading(s: Setting) -> Reading {
    let table = s.table;
    let mapping = s.mapping;
    Reading {
        table,
        mapping,
        first: s.first,
        known_start: true,
        scales: [8.0f32; 7],
    }
}

// Decodes the first n points.
pub fn decode(
    s: Setting,
    n: usize,
    re: &[f64; MAIN_SYMBOLS],
    im: &[f64; MAIN_SYMBOLS],
    bytes: &mut [u8; LOAD_SPACE],
) -> Result<FrameDecoded, Refusal> {
    let mut counts = [0u32; SLOTS];
    read_of(plain_reading(s), n, re, im, bytes, &mut counts)
}
