// Outputs: written whole beside their place under a name that ends in .part, and then given their own name; or not at all.
use crate::files::{failed, front_of, put};
use crate::{claims, system};
use bench_blocks::{blocks, forms};
use bench_line::space::LINE_BYTES;
use bench_line::words::same;
use bench_words::text::say_named;
use std::fs::File;
use std::os::fd::AsRawFd;

// Whether an output's name is free of the endings that files beside it have while it is written; else says so.
pub fn is_plain(name: &[u8]) -> bool {
    if !name.ends_with(b".part") && !name.ends_with(b".run") {
        return true;
    }
    say_named(
        b"failed: the output $ has the ending of a file that is being written\n",
        name,
    );
    false
}

// Whether two outputs have two names; else says so.
pub fn are_two(a: &[u8], b: &[u8]) -> bool {
    if !same(a, b) {
        return true;
    }
    say_named(b"failed: two outputs have the name $\n", a);
    false
}

// The file that is written before it takes the output's name.
fn part_name(name: &[u8], part: &mut [u8; LINE_BYTES]) -> usize {
    let at = put(part, 0, name);
    put(part, at, b".part")
}

// Claims an output and makes the file that is written first, or says why it cannot.
fn make_part(rt: &HostRuntime, name: &[u8], part: &[u8]) -> Option<File> {
    if !claims::claim(rt, name) {
        return None;
    }
    match system::create(rt, part) {
        Ok(file) => Some(file),
        Err(error) => {
            failed(b"failed: cannot make $: ", part, error);
            claims::release(rt, name);
            None
        }
    }
}

// Removes what stands beside an output while it is written.
fn clear(rt: &HostRuntime, name: &[u8], part: &[u8]) {
    system::remove(rt, part);
    claims::release(rt, name);
}

// Why not all of a file is on the disk, from why it was not written: 0 where it is.
fn unsynced(file: &File, error: i32) -> i32 {
    if error == 0 {
        return system::sync(file);
    }
    error
}

// Closes a file that was written first, and answers whether all of it is there; else removes it and says why.
fn close_part(rt: &HostRuntime, file: File, error: i32, part: &[u8], name: &[u8]) -> bool {
    let fault = unsynced(&file, error);
    drop(file);
    if fault != 0 {
        failed(b"failed: cannot write $: ", name, fault);
        clear(rt, name, part);
    }
    fault == 0
}

// Gives the file that was written first the output's name; else removes it and says why.
pub fn keep(rt: &HostRuntime, name: &[u8]) -> bool {
    let mut space = io::buffer();
    let n = part_name(name, &mut space);
    let part = front_of(&space, n);
    let error = system::rename(rt, part, name);
    if error == 0 {
        claims::release(rt, name);
        return true;
    }
    failed(b"failed: cannot write $: ", name, error);
    clear(rt, name, part);
    false
}

// Removes the file that was written first.
pub fn discard(rt: &HostRuntime, name: &[u8]) {
    let mut space = io::buffer();
    let n = part_name(name, &mut space);
    clear(rt, name, front_of(&space, n));
}

// Writes bytes beside the output's place, and answers whether all are there: `keep` or `discard` follows.
pub fn stage_bytes(rt: &HostRuntime, name: &[u8], bytes: &[u8]) -> bool {
    let mut space = io::buffer();
    let n = part_name(name, &mut space);
    let part = front_of(&space, n);
    let Some(file) = make_part(rt, name, part) else {
        return false;
    };
    let error = system::write(&file, bytes);
    close_part(rt, file, error, part, name)
}

// Writes a file of bytes, and answers whether it is there.
pub fn write_bytes(rt: &HostRuntime, name: &[u8], bytes: &[u8]) -> bool {
    stage_bytes(rt, name, bytes) && keep(rt, name)
}

// Whether points are written in the form that a name says; else says so.
fn is_written_form(name: &[u8]) -> bool {
    if !name.ends_with(b".ci16") && !forms::is_sigmf(name) {
        return true;
    }
    say_named(
        b"failed: the output $ has the ending of a form that is only read: points are written as f64, or as f32 under a name that ends in .cf32\n",
        name,
    );
    false
}

// Writes an open file's points: 0 where all are written, else why not.
fn pour(file: &File, name: &[u8], re: &[f64], im: &[f64]) -> i32 {
    let mut buffer = io::large_buffer();
    if blocks::pour(file.as_raw_fd(), forms::by_name(name), re, im, &mut buffer) {
        return 0;
    }
    system::why_not_written(file)
}

// Writes points beside the output's place, and answers whether all are there: `keep` or `discard` follows.
pub fn stage_points(rt: &HostRuntime, name: &[u8], re: &[f64], im: &[f64]) -> bool {
    if !is_written_form(name) {
        return false;
    }
    let mut space = io::buffer();
    let n = part_name(name, &mut space);
    let part = front_of(&space, n);
    let Some(file) = make_part(rt, name, part) else {
        return false;
    };
    let error = pour(&file, name, re, im);
    close_part(rt, file, error, part, name)
}

// Writes a file of points, and answers whether it is there.
pub fn write_points(rt: &HostRuntime, name: &[u8], re: &[f64], im: &[f64]) -> bool {
    stage_points(rt, name, re, im) && keep(rt, name)
}
