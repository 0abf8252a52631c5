// What the system is asked of files: names are bytes, and an error is the system's number for it.
use std::fs;
use std::fs::{File, OpenOptions};
use std::io::{Error, ErrorKind, Read, Result as Outcome, Seek, SeekFrom, Write};
use std::str::from_utf8;

// The system's numbers of the errors that have words.
pub const EPERM: i32 = 1;

pub const ENOENT: i32 = 2;

pub const EIO: i32 = 5;

pub const ENOMEM: i32 = 12;

pub const EACCES: i32 = 13;

pub const EEXIST: i32 = 17;

pub const ENOTDIR: i32 = 20;

pub const EISDIR: i32 = 21;

pub const EINVAL: i32 = 22;

pub const EFBIG: i32 = 27;

pub const ENOSPC: i32 = 28;

pub const EROFS: i32 = 30;

pub const ENAMETOOLONG: i32 = 36;

pub const EILSEQ: i32 = 84;

// The system's number of an error; of one that the library itself found, the number that the system has for the same.
fn number_of(e: Error) -> i32 {
    if let Some(n) = e.raw_os_error() {
        return n;
    }
    match e.kind() {
        ErrorKind::InvalidInput => EINVAL,
        ErrorKind::OutOfMemory => ENOMEM,
        _ => EIO,
    }
}

// 0 where a call was done, else why it was not.
fn done(outcome: Outcome<()>) -> i32 {
    match outcome {
        Ok(()) => 0,
        Err(e) => number_of(e),
    }
}

// The file that was opened, or why none was.
fn opened(outcome: Outcome<File>) -> Result<File, i32> {
    outcome.map_err(number_of)
}

// A name as text: the library takes no other.
pub(crate) fn text_of<'a>(name: &'a [u8]) -> Result<&'a str, i32> {
    from_utf8(name).map_err(|_| EILSEQ)
}

// Opens a file for reading.
pub fn open_read(rt: &HostRuntime, name: &[u8]) -> Result<File, i32> {
    let path = text_of(name)?;
    opened(OpenOptions::new().read(true).open(rt, path))
}

// Opens a file that is there for reading and writing, and leaves its bytes as they are.
pub fn open_update(rt: &HostRuntime, name: &[u8]) -> Result<File, i32> {
    let path = text_of(name)?;
    opened(OpenOptions::new().read(true).write(true).open(rt, path))
}

// Opens a file for writing: makes it where it is missing, and else empties it.
pub fn open_overwrite(rt: &HostRuntime, name: &[u8]) -> Result<File, i32> {
    let path = text_of(name)?;
    opened(File::create(rt, path))
}

// Makes a file, where there is none of its name.
pub(crate) fn create(rt: &HostRuntime, name: &[u8]) -> Result<File, i32> {
    let path = text_of(name)?;
    opened(
        OpenOptions::new()
            .write(true)
            .create_new(true)
            .open(rt, path),
    )
}

// Removes a file, where there is one.
pub(crate) fn remove(rt: &HostRuntime, name: &[u8]) {
    if let Ok(path) = text_of(name) {
        let _ = fs::remove_file(rt, path);
    }
}

// Gives a file another name: 0, or why it has not got it.
pub(crate) fn rename(rt: &HostRuntime, from: &[u8], to: &[u8]) -> i32 {
    let Ok(old) = text_of(from) else {
        return EILSEQ;
    };
    let Ok(new) = text_of(to) else {
        return EILSEQ;
    };
    done(fs::rename(rt, old, new))
}

// Whether there is something of a name.
pub(crate) fn is_there(rt: &HostRuntime, name: &[u8]) -> bool {
    match text_of(name) {
        Ok(path) => fs::metadata(rt, path).is_ok(),
        Err(_) => false,
    }
}

// Sees to it that what was written is on the disk: 0, or why it is not.
pub fn sync(file: &File) -> i32 {
    done(file.sync_all())
}

// Writes bytes to an open file: 0 where all are written, else why not.
pub(crate) fn write(file: &File, bytes: &[u8]) -> i32 {
    let mut to = file;
    done(to.write_all(bytes))
}

// Why a write failed, as one more of a byte tells: the file is not kept.
pub fn why_not_written(file: &File) -> i32 {
    let mut to = file;
    match to.write(&[0]) {
        Ok(_) => EIO,
        Err(e) => number_of(e),
    }
}

// Reads a byte of an open file: how many it got, or why none.
pub(crate) fn read_one(file: &File) -> Result<usize, i32> {
    let mut from = file;
    let mut one = [0u8; 1];
    from.read(&mut one).map_err(number_of)
}

// Whether an open file has one more byte, which is then read.
pub fn has_more(file: &File) -> bool {
    matches!(read_one(file), Ok(1..))
}

fn seek(file: &File, to: SeekFrom) -> Option<usize> {
    let mut f = file;
    match f.seek(to) {
        Ok(n) => Some(n as usize),
        Err(_) => None,
    }
}

// Where an open file is read next; none of a pipe.
pub fn place(file: &File) -> Option<usize> {
    seek(file, SeekFrom::Current(0))
}

// Moves an open file to its end, and answers how many bytes it has; none of a pipe.
pub fn to_end(file: &File) -> Option<usize> {
    seek(file, SeekFrom::End(0))
}

// Moves an open file to its first byte, and answers whether it stands there.
pub fn to_start(file: &File) -> bool {
    seek(file, SeekFrom::Start(0)) == Some(0)
}
