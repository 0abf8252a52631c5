// What is said of a file that has more points than are read, or half the bytes of a frame.
use crate::system;
use bench_blocks::forms;
use bench_blocks::forms::{Form, Whole};
use bench_words::text::{say, say_named, text};
use isdbs_frame::{FRAME_SYMBOLS, MAIN_SYMBOLS};
use std::fs::File;

// What n points in a form show by their number, where they are half the bytes of a frame, or a quarter of them: how much of it, and what form they are
// probably of.
fn share_of(form: Form, n: usize) -> Option<(&'static [u8], &'static [u8])> {
    let is_half = n == MAIN_SYMBOLS / 2 || n == FRAME_SYMBOLS / 2;
    let is_quarter = n == MAIN_SYMBOLS / 4 || n == FRAME_SYMBOLS / 4;
    match form {
        Form::F64 if is_half => Some((b"half", b"cf32_le, which a name that ends in .cf32 says\n")),
        Form::F32 if is_half => Some((b"half", b"ci16_le, which a name that ends in .ci16 says\n")),
        Form::F64 if is_quarter => Some((
            b"a quarter of",
            b"ci16_le, which a name that ends in .ci16 says\n",
        )),
        _ => None,
    }
}

// Says so where a file has exactly half the bytes of a frame, or a quarter of them in f64: it is probably of another form.
fn tell(name: &[u8], form: Form, n: usize) {
    if let Some((share, other)) = share_of(form, n) {
        say_named(b"  $ has exactly ", name);
        text(share);
        text(b" the bytes of a frame in the form that it is taken for: its points are probably ");
        text(other);
    }
}

// Where an open file is read next; 0 where that is not known.
fn place(file: &File) -> usize {
    system::place(file).unwrap_or(0)
}

// Of a file that ended after n points and some bytes, if these are all of it.
pub(crate) fn short(file: &File, name: &[u8], form: Form, n: usize, over: usize) {
    let all = forms::split(form, place(file));
    if over == 0 && all.count == n && all.over == 0 {
        tell(name, form, n);
    }
}

// How many points are read of those that a file has.
fn first_of(name: &[u8], n: usize) {
    say_named(b"  $", name);
    say(b" has more than is read: the first $ points", &[n]);
}

// How many there are, and the bytes of one more.
fn of_all(all: Whole) {
    if all.over > 0 {
        say(b" of $ and $ bytes over\n", &[all.count, all.over]);
    } else {
        say(b" of $\n", &[all.count]);
    }
}

// Says where an open file of which n points were read has more; its place may move.
pub(crate) fn more(file: &File, name: &[u8], form: Form, n: usize) {
    let end = system::to_end(file).unwrap_or(0);
    let all = forms::split(form, end);
    if all.count > n || all.count == n && all.over > 0 {
        first_of(name, n);
        of_all(all);
        return;
    }
    if system::has_more(file) {
        first_of(name, n);
        text(b"\n");
    }
}
