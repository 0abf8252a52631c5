// What is said of a header.
use crate::counting::Told;
use bench_words::text::{say, text};

// The turn in eighths, in degrees.
pub fn say_turn(turn: u8) {
    text(match turn {
        0 => b"not turned",
        1 => b"turned by 45 degrees",
        2 => b"turned by 90 degrees",
        3 => b"turned by 135 degrees",
        4 => b"turned by 180 degrees",
        5 => b"turned by 225 degrees",
        6 => b"turned by 270 degrees",
        7 => b"turned by 315 degrees",
        _ => b"no header",
    });
}

// Which frame of a superframe it is.
fn say_first(first: bool) {
    text(if first {
        b"first frame of a superframe"
    } else {
        b"another frame of a superframe"
    });
}

// The end of the line: kind and turn, or that there is no header.
fn say_rest(h: Told) {
    text(b": ");
    if h.turn > 7 {
        text(b"no header is told");
        return;
    }
    say_first(h.first);
    if !h.fits {
        text(b", ");
        say_turn(h.turn);
    }
}

// The number of the last word of a header: W2 in the first frame of a superframe, W3 in another.
fn last_word(first: bool) -> usize {
    if first { 2 } else { 3 }
}

// The line of a header: how many of its known symbols agree, its kind, and its turn where it is turned.
pub fn say_header(h: Told) {
    say(
        b"header: W1 $ of 20, W$ $ of 20",
        &[h.w1, last_word(h.first), h.last],
    );
    say_rest(h);
    text(b"\n");
}

// Says where the KIND that was given is not the header's. Nothing is said where no header is told.
pub fn say_kind(h: Told, given_first: bool) {
    if h.turn > 7 {
        return;
    }
    if h.first & !given_first {
        text(b"KIND was given as other; the header says first, and the frame is read as first\n");
    }
    if given_first & !h.first {
        text(b"KIND was given as first; the header says other, and the frame is read as other\n");
    }
}

// Why a reading of the frame is doubtful, with no line's end: how it is turned, or that there is no header. Nothing is said where the header fits.
pub fn say_why(h: Told) {
    if !h.fits {
        say_turn(h.turn);
    }
}
