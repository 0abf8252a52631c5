// The meta of a SigMF capture: JSON text in the file beside it, of which the form of its points is read.
use crate::{files, system};
use bench_blocks::forms::Form;
use bench_line::space::LINE_BYTES;
use bench_line::words::{front, part, same};
use bench_words::text::{say_named, text};
use std::fs::File;
use std::os::fd::AsRawFd;

// The most bytes of a meta, and one.
const META: usize = 65_536;

// What stands at place i; 0 where there is nothing.
fn byte_at(s: &[u8], i: usize) -> u8 {
    s.get(i).copied().unwrap_or(0)
}

// The bytes from a place on.
fn from<'a>(s: &'a [u8], at: usize) -> &'a [u8] {
    s.get(at..).unwrap_or(b"")
}

fn is_space(b: u8) -> bool {
    b == b' ' || b == b'\n' || b == b'\t' || b == b'\r'
}

// s past its spaces.
fn past_spaces<'a>(s: &'a [u8]) -> &'a [u8] {
    from(s, s.iter().take_while(|b| is_space(**b)).count())
}

// What follows a colon, with spaces before and after it; nothing where there is no colon.
fn past_colon<'a>(s: &'a [u8]) -> &'a [u8] {
    let colon = past_spaces(s);
    if byte_at(colon, 0) != b':' {
        return &s[0..0];
    }
    past_spaces(from(colon, 1))
}

// Whether a key, in its quotation marks, and a colon stand at place i.
fn is_key(s: &[u8], i: usize, key: &[u8]) -> bool {
    let rest = from(s, i);
    rest.starts_with(key) && !past_colon(from(rest, key.len())).is_empty()
}

// The place of a key, or the end.
fn place_of(s: &[u8], key: &[u8]) -> usize {
    (0..s.len())
        .position(|i| is_key(s, i, key))
        .unwrap_or(s.len())
}

// What follows a key and its colon; nothing where there is no such key.
fn value_of<'a>(s: &'a [u8], key: &[u8]) -> &'a [u8] {
    let rest = from(s, place_of(s, key));
    past_colon(from(rest, key.len()))
}

// Whether a value is missing or the number that one digit is.
fn is_missing_or(value: &[u8], digit: u8) -> bool {
    if value.is_empty() {
        return true;
    }
    byte_at(value, 0) == digit && !is_more(byte_at(value, 1))
}

// Whether a number goes on with this byte.
fn is_more(b: u8) -> bool {
    b != b',' && b != b'}' && !is_space(b)
}

// The form of a datatype; says which it is where it is none of the three.
fn form_of(datatype: &[u8], name: &[u8]) -> Option<Form> {
    if same(datatype, b"cf64_le") {
        return Some(Form::F64);
    }
    if same(datatype, b"cf32_le") {
        return Some(Form::F32);
    }
    if same(datatype, b"ci16_le") {
        return Some(Form::I16);
    }
    say_named(b"refused: $ says core:datatype ", name);
    say_named(b"$; cf64_le, cf32_le and ci16_le are read\n", datatype);
    None
}

// The text after a datatype's first quotation mark; why a meta is not taken, where it is not.
fn datatype_in<'a>(s: &'a [u8]) -> Result<&'a [u8], &'static [u8]> {
    if s.len() >= META {
        return Err(b" is longer than 65,535 bytes\n");
    }
    if !is_missing_or(value_of(s, b"\"core:num_channels\""), b'1') {
        return Err(b" says core:num_channels, and one channel is read\n");
    }
    if !is_missing_or(value_of(s, b"\"core:header_bytes\""), b'0') {
        return Err(b" says core:header_bytes, and points alone are read\n");
    }
    let value = value_of(s, b"\"core:datatype\"");
    if byte_at(value, 0) != b'"' {
        return Err(b" has no core:datatype\n");
    }
    Ok(part(from(value, 1), b'"', 0))
}

// The form that a meta's text says; says why where it is not taken.
fn form_in(s: &[u8], name: &[u8]) -> Option<Form> {
    match datatype_in(s) {
        Ok(datatype) => form_of(datatype, name),
        Err(fault) => {
            say_named(b"refused: $", name);
            text(fault);
            None
        }
    }
}

// Opens the meta of a capture; says why where it cannot.
fn open(rt: &HostRuntime, name: &[u8], capture: &[u8]) -> Option<File> {
    let error = match system::open_read(rt, name) {
        Ok(file) => return Some(file),
        Err(error) => error,
    };
    if error != system::ENOENT {
        files::failed(b"failed: cannot read $: ", name, error);
        return None;
    }
    say_named(b"refused: there is no $, which says the form of ", name);
    say_named(b"$\n", capture);
    None
}

// Reads a meta.
fn read(rt: &HostRuntime, name: &[u8], capture: &[u8], space: &mut [u8; META]) -> Option<Form> {
    let file = open(rt, name, capture)?;
    let n = io::read_full(file.as_raw_fd(), space);
    let well = n >= META || files::has_ended(&file, name);
    if !well {
        return None;
    }
    form_in(front(space, n), name)
}

// The name of the meta beside a capture whose name ends in data.
fn name_of(capture: &[u8], name: &mut [u8; LINE_BYTES]) -> usize {
    if capture.len() < 4 {
        return 0;
    }
    let at = files::put(name, 0, front(capture, capture.len() - 4));
    files::put(name, at, b"meta")
}

// The form that the meta beside a capture says; says why where there is none.
pub(crate) fn form_beside(rt: &HostRuntime, capture: &[u8]) -> Option<Form> {
    let mut space = io::buffer();
    let n = name_of(capture, &mut space);
    let mut meta = io::large_buffer();
    read(rt, files::front_of(&space, n), capture, &mut meta)
}
