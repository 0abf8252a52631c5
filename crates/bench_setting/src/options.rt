// The words after BYTES: each at most once, in any order. Some take the word after them.
use bench_line::words::{front, part, parts};

// The place of the first of them on a line.
const FIRST: usize = 6;
// A line has no word at this place.
const LAST: usize = 4_096;

// Whether a word is one of a list's.
fn is_in(list: &[u8], word: &[u8]) -> bool {
    (0..parts(list, b' ')).any(|i| part(list, b' ', i) == word)
}

// Whether an option takes the word after it.
fn takes_word(word: &[u8]) -> bool {
    is_in(b"scale scales chart report json best", word)
}

// Whether word i is an option of this name; the word after an option that takes one is none.
fn is_option(line: &[u8], i: usize, is_taken: bool, name: &[u8]) -> bool {
    if i < FIRST || is_taken {
        return false;
    }
    part(line, 0, i) == name
}

// Whether word i takes the one after it.
fn takes_next(line: &[u8], i: usize, is_taken: bool) -> bool {
    if i < FIRST || is_taken {
        return false;
    }
    takes_word(part(line, 0, i))
}

// The place of an option on a line.
fn place_of(line: &[u8], name: &[u8]) -> Option<usize> {
    let n = parts(line, 0);
    let mut is_taken = false;
    for i in 0..n {
        if is_option(line, i, is_taken, name) {
            return Some(i);
        }
        is_taken = takes_next(line, i, is_taken);
    }
    None
}

// The word after word i.
fn word_after<'a>(line: &'a [u8], i: usize) -> &'a [u8] {
    if i < LAST {
        return part(line, 0, i + 1);
    }
    front(line, 0)
}

// Whether option i is one of a list's, stands there for the first time, and has the word that it takes.
fn is_good(line: &[u8], i: usize, list: &[u8]) -> bool {
    let word = part(line, 0, i);
    if !is_in(list, word) {
        return false;
    }
    if place_of(line, word) != Some(i) {
        return false;
    }
    word_after(line, i).len() > 0 || !takes_word(word)
}

// Whether word i is an option that is not good.
fn is_bad(line: &[u8], i: usize, is_taken: bool, list: &[u8]) -> bool {
    if i < FIRST || is_taken {
        return false;
    }
    !is_good(line, i, list)
}

// The place of the first word that is not understood.
pub(crate) fn first_bad(line: &[u8], list: &[u8]) -> Option<usize> {
    let n = parts(line, 0);
    let mut is_taken = false;
    for i in 0..n {
        if is_bad(line, i, is_taken, list) {
            return Some(i);
        }
        is_taken = takes_next(line, i, is_taken);
    }
    None
}

// Whether an option is there.
pub fn has(line: &[u8], name: &[u8]) -> bool {
    place_of(line, name).is_some()
}

// The word after an option, or none.
pub fn named<'a>(line: &'a [u8], name: &[u8]) -> &'a [u8] {
    match place_of(line, name) {
        Some(i) => word_after(line, i),
        None => front(line, 0),
    }
}
