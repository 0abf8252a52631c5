// Files of points, read and written a block at a time: every call asks for exactly the bytes that it needs, so nothing is kept between calls.
use crate::forms::{Form, Whole};
use crate::points::BLOCK;
use crate::{forms, points};
use bench_line::words::front;

// Reads n bytes, or as many as there are, to the front of a block.
fn read_front(file: i32, n: usize, buffer: &mut [u8]) -> usize {
    if n > buffer.len() {
        return 0;
    }
    io::read_full(file, &mut buffer[0..n])
}

// Reads points until the slices, which a block can hold, are full or the file ends.
fn read_block(
    file: i32,
    form: Form,
    re: &mut [f64],
    im: &mut [f64],
    buffer: &mut [u8; BLOCK],
) -> Whole {
    let bytes = read_front(file, forms::bytes(form, re.len()), buffer);
    let got = forms::split(form, bytes);
    for (i, (x, y)) in re.iter_mut().zip(im).take(got.count).enumerate() {
        let p = points::point_of(form, buffer, i);
        *x = p.re;
        *y = p.im;
    }
    got
}

// Reads points until the slices are full or the file ends: how many were read, and how many bytes of one more.
pub fn fill(
    file: i32,
    form: Form,
    re: &mut [f64],
    im: &mut [f64],
    buffer: &mut [u8; BLOCK],
) -> Whole {
    let most = forms::points(form);
    let mut count: usize = 0;
    for (xs, ys) in re.chunks_mut(most).zip(im.chunks_mut(most)) {
        let n = xs.len();
        let got = read_block(file, form, xs, ys, buffer);
        count = count.saturating_add(got.count);
        if got.count < n {
            return Whole {
                count,
                over: got.over,
            };
        }
    }
    Whole { count, over: 0 }
}

// Writes points that a block can hold, and answers whether all are written.
fn write_block(file: i32, form: Form, re: &[f64], im: &[f64], buffer: &mut [u8; BLOCK]) -> bool {
    for (i, (x, y)) in re.iter().zip(im).enumerate() {
        points::put_point(form, buffer, i, *x, *y);
    }
    io::write_all(file, front(buffer, forms::bytes(form, re.len())))
}

// Writes points, and answers whether all are written.
pub fn pour(file: i32, form: Form, re: &[f64], im: &[f64], buffer: &mut [u8; BLOCK]) -> bool {
    let most = forms::points(form);
    for (xs, ys) in re.chunks(most).zip(im.chunks(most)) {
        if !write_block(file, form, xs, ys, buffer) {
            return false;
        }
    }
    true
}
