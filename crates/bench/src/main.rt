// The technicians' bench program: makes ISDB-S frames for a tuner under test, and reads captures. With no argument it shows itself on
// built-in data. The work is in bench_lib, and what it promises in the library below that.
#![tactic(auto)]

use bench_lib::LINE_BYTES;
use std::env::{Env, FillError};

// Puts argument i into the line, and answers where it ends; the line's end where the argument is too long.
fn put_argument(rt: &HostRuntime, line: &mut [u8; LINE_BYTES], at: usize, i: usize) -> usize {
    let mut word = io::buffer();
    match rt.arg(i, &mut word) {
        Ok(n) => bench_lib::put(line, at, &word[..n]),
        Err(_) => LINE_BYTES,
    }
}

// Whether there is an argument i.
fn has_argument(rt: &HostRuntime, i: usize) -> bool {
    let mut word = io::buffer();
    match rt.arg(i, &mut word) {
        Err(FillError::NotPresent) => false,
        _ => true,
    }
}

// The arguments, separated by 0 bytes, and where the last one ends.
fn join(rt: &HostRuntime, line: &mut [u8; LINE_BYTES]) -> usize {
    let mut at: usize = 0;
    for i in 1..usize::MAX {
        if !has_argument(rt, i) {
            return at;
        }
        if i > 1 {
            at = bench_lib::after_separator(at);
        }
        at = put_argument(rt, line, at, i);
    }
    at
}

fn main(rt: HostRuntime) {
    if !has_argument(&rt, 1) {
        bench_lib::demonstrate();
        return;
    }
    let mut line = io::buffer();
    let n = join(&rt, &mut line);
    bench_lib::run_first(&rt, &line, n);
}
