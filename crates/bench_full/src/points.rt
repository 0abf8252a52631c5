// What both commands say of files of points.
use bench_files::files;
use bench_files::files::Got;
use bench_words::report;
use bench_words::text::{file, say, text};
use refusal::Refusal;
use std::fs::File;

// How many points a file has, and the bytes of one more.
fn tell(kind: &[u8], name: &[u8], got: Got) {
    file(kind, name, got.count, b" points");
    if got.over > 0 {
        say(b" and $ bytes over", &[got.over]);
    }
    text(b"\n");
}

// Reads an open file's points, and reports how many there are.
pub(crate) fn read(
    rt: &HostRuntime,
    kind: &[u8],
    opened: File,
    name: &[u8],
    re: &mut [f64],
    im: &mut [f64],
) -> Got {
    let got = files::read_points(rt, opened, name, re, im);
    if !got.well {
        return got;
    }
    tell(kind, name, got);
    got
}

// The last line of a call that was turned back for want of points.
pub(crate) fn refuse(row: Refusal, why: &[u8]) {
    match row {
        Refusal::Symbols => {
            report::refused(row);
            text(why);
            text(b"\n");
        }
        _ => report::refuse(row),
    }
}
