// Files that are read, and outputs that may be written.
pub use crate::staging::{
    are_two, discard, is_plain, keep, stage_bytes, stage_points, write_bytes, write_points,
};
use crate::system::{
    EACCES, EEXIST, EFBIG, EILSEQ, EISDIR, ENAMETOOLONG, ENOENT, ENOSPC, ENOTDIR, EPERM, EROFS,
};
use crate::{hints, meta, system};
use bench_blocks::forms::Form;
use bench_blocks::{blocks, forms};
use bench_line::space::{LINE_BYTES, LOAD_BYTES, LOAD_SPACE};
use bench_line::words::{front, same};
use bench_words::text::{number, say_named, text};
use std::fs;
use std::fs::File;
use std::io::{Error, Result as Outcome};
use std::os::fd::AsRawFd;
use std::os::unix::fs::MetadataExt;
use std::path::PathBuf;
use std::str::from_utf8;

// Why the system failed, in words.
fn reason(error: i32) {
    match error {
        ENOENT => text(b"there is no such file or folder"),
        EACCES | EPERM => text(b"permission is denied"),
        EEXIST => text(
            b"it is there already; no run of this program is writing it: one was broken off, or it is another file: remove it, and run again",
        ),
        ENOTDIR => text(b"a part of its path is no folder"),
        EISDIR => text(b"it is a folder"),
        ENOSPC => text(b"the disk is full"),
        EFBIG => text(b"it would be larger than a file may be"),
        EROFS => text(b"the disk cannot be written"),
        ENAMETOOLONG => text(b"its name is too long"),
        EILSEQ => text(b"its name is not UTF-8"),
        _ => {
            text(b"the system's error ");
            number(unsigned(error));
        }
    }
}

// n, or 0 where it is negative.
pub(crate) fn unsigned(n: i32) -> u64 {
    u64::try_from(n).unwrap_or(0)
}

// The last line of a run that a file stopped, with how it begins.
pub(crate) fn failed(form: &[u8], name: &[u8], error: i32) {
    say_named(form, name);
    reason(error);
    text(b"\n");
}

// Puts src into dst from `at` on, as far as it goes, and answers where it ends.
pub fn put(dst: &mut [u8; LINE_BYTES], at: usize, src: &[u8]) -> usize {
    if at >= LINE_BYTES {
        return at;
    }
    let n = src.len().min(LINE_BYTES - at);
    dst[at..at + n].copy_from_slice(&src[..n]);
    at + n
}

// Puts a number's digits into dst from `at` on, and answers where they end.
pub(crate) fn put_number(dst: &mut [u8; LINE_BYTES], at: usize, number: u64) -> usize {
    let mut digits = [0u8; 20];
    let n = io::decimal(number, &mut digits);
    put(dst, at, &digits[..n])
}

// The first n bytes.
pub(crate) fn front_of<'a>(s: &'a [u8; LINE_BYTES], n: usize) -> &'a [u8] {
    front(s, n)
}

// The path of the system's link to an open file.
fn link(file: u64, path: &mut [u8; LINE_BYTES]) -> usize {
    let at = put(path, 0, b"/proc/self/fd/");
    put_number(path, at, file)
}

// Reads where an open file lies.
fn read_place(rt: &HostRuntime, file: &File) -> Outcome<PathBuf> {
    let mut path = io::buffer();
    let n = link(unsigned(file.as_raw_fd()), &mut path);
    match from_utf8(front_of(&path, n)) {
        Ok(from) => fs::read_link(rt, from),
        Err(_) => Err(Error::from_raw_os_error(EILSEQ)),
    }
}

// Whether two open files are one, by their numbers on the disk; none where these are not known.
fn compare_numbers(a: &File, b: &File) -> Option<bool> {
    let ma = a.metadata().ok()?;
    let mb = b.metadata().ok()?;
    Some(ma.dev() == mb.dev() && ma.ino() == mb.ino())
}

// The same where the place of one could not be read: by the numbers, where the system told it, but it is no text or no memory was left for it.
fn compare_unread(error: Error, a: &File, b: &File) -> Option<bool> {
    match error.raw_os_error() {
        Some(_) => None,
        None => compare_numbers(a, b),
    }
}

// Whether two open files are one; none where that cannot be told.
fn are_same(rt: &HostRuntime, a: &File, b: &File) -> Option<bool> {
    match (read_place(rt, a), read_place(rt, b)) {
        (Ok(pa), Ok(pb)) => Some(same(pa.as_str().as_bytes(), pb.as_str().as_bytes())),
        (Err(e), _) => compare_unread(e, a, b),
        (_, Err(e)) => compare_unread(e, a, b),
    }
}

// Whether the output is known to be another file than the input; else says that it is not.
fn is_apart(are_same: Option<bool>, name: &[u8]) -> bool {
    match are_same {
        Some(false) => true,
        Some(true) => {
            say_named(b"refused: the output $ is the input\n", name);
            false
        }
        None => {
            say_named(
                b"refused: the output $ is there already, and without /proc it cannot be told from the input\n",
                name,
            );
            false
        }
    }
}

// Whether a file could not be opened because there is none; else says why it cannot be written.
fn is_missing(name: &[u8], error: i32) -> bool {
    if error == ENOENT {
        return true;
    }
    failed(b"failed: cannot write $: ", name, error);
    false
}

// Whether a file may be written at this name: there is none yet, or it is a plain file and not the input.
pub fn may_write(rt: &HostRuntime, name: &[u8], input: &File) -> bool {
    let file = match system::open_update(rt, name) {
        Ok(file) => file,
        Err(error) => return is_missing(name, error),
    };
    let are_same = are_same(rt, &file, input);
    let is_plain = system::sync(&file) == 0;
    if !is_apart(are_same, name) {
        return false;
    }
    if !is_plain {
        say_named(b"failed: the output $ is not a plain file\n", name);
    }
    is_plain
}

// Opens a file for reading, or says why it cannot.
pub fn open(rt: &HostRuntime, name: &[u8]) -> Option<File> {
    match system::open_read(rt, name) {
        Ok(file) => Some(file),
        Err(error) => {
            failed(b"failed: cannot read $: ", name, error);
            None
        }
    }
}

// Opens the input, where the output may be written; else says why not.
pub fn open_for(rt: &HostRuntime, input: &[u8], output: &[u8]) -> Option<File> {
    let file = open(rt, input)?;
    if may_write(rt, output, &file) {
        return Some(file);
    }
    None
}

// Whether the input has ended: one more read gives nothing, and does not fail.
pub(crate) fn has_ended(file: &File, name: &[u8]) -> bool {
    let error = match system::read_one(file) {
        Ok(0) => return true,
        Ok(_) => 0,
        Err(error) => error,
    };
    failed(b"failed: cannot read $: ", name, error);
    false
}

// What was read: whether it was read well, how many bytes or points, and how many bytes of one more point.
#[derive(Clone, Copy)]
pub struct Got {
    pub well: bool,
    pub count: usize,
    pub over: usize,
}

// Of a file that could not be opened.
pub fn nothing() -> Got {
    Got {
        well: false,
        count: 0,
        over: 0,
    }
}

// Reads an open file's bytes, as many as the buffer holds, and closes it.
fn read_bytes(file: File, name: &[u8], bytes: &mut [u8; LOAD_SPACE]) -> Got {
    let n = io::read_full(file.as_raw_fd(), bytes);
    let well = n > LOAD_BYTES || has_ended(&file, name);
    Got {
        well,
        count: n,
        over: 0,
    }
}

// Reads a file's bytes.
pub fn bytes_of(rt: &HostRuntime, name: &[u8], bytes: &mut [u8; LOAD_SPACE]) -> Got {
    match open(rt, name) {
        Some(file) => read_bytes(file, name, bytes),
        None => nothing(),
    }
}

// Reads the input's bytes, where the output may be written.
pub fn bytes_for(
    rt: &HostRuntime,
    input: &[u8],
    output: &[u8],
    bytes: &mut [u8; LOAD_SPACE],
) -> Got {
    match open_for(rt, input, output) {
        Some(file) => read_bytes(file, input, bytes),
        None => nothing(),
    }
}

// The form of an input's points; says why where it has none that is read.
fn form_of(rt: &HostRuntime, name: &[u8]) -> Option<Form> {
    if forms::is_sigmf(name) {
        return meta::form_beside(rt, name);
    }
    if name.ends_with(b".sigmf") {
        say_named(
            b"refused: $ is a SigMF archive: unpack it, and give its .sigmf-data\n",
            name,
        );
        return None;
    }
    Some(forms::by_name(name))
}

// Whether the input has ended, after n points and some bytes, of which something may be said.
fn is_short(file: &File, name: &[u8], form: Form, n: usize, over: usize) -> bool {
    let well = has_ended(file, name);
    if well {
        hints::short(file, name, form, n, over);
    }
    well
}

// Reads an open file's next points in a form, as many as the slices hold.
fn read_as(file: &File, name: &[u8], form: Form, re: &mut [f64], im: &mut [f64]) -> Got {
    let all = re.len();
    let mut buffer = io::large_buffer();
    let got = blocks::fill(file.as_raw_fd(), form, re, im, &mut buffer);
    let well = got.count == all || is_short(file, name, form, got.count, got.over);
    Got {
        well,
        count: got.count,
        over: got.over,
    }
}

// Reads an open file's next points, as many as the slices hold, and leaves it open.
pub fn read_next(
    rt: &HostRuntime,
    file: &File,
    name: &[u8],
    re: &mut [f64],
    im: &mut [f64],
) -> Got {
    match form_of(rt, name) {
        Some(form) => read_as(file, name, form, re, im),
        None => nothing(),
    }
}

// Reads an open file's points, as many as the slices hold; says where there are more.
fn read_first(rt: &HostRuntime, file: &File, name: &[u8], re: &mut [f64], im: &mut [f64]) -> Got {
    let Some(form) = form_of(rt, name) else {
        return nothing();
    };
    let all = re.len();
    let got = read_as(file, name, form, re, im);
    if got.count == all {
        hints::more(file, name, form, all);
    }
    got
}

// Reads an open file's points, as many as the slices hold, and closes it.
pub fn read_points(
    rt: &HostRuntime,
    file: File,
    name: &[u8],
    re: &mut [f64],
    im: &mut [f64],
) -> Got {
    read_first(rt, &file, name, re, im)
}
