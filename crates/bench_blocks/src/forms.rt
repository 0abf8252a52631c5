// The forms that points have in files, by the file's name.
ghost use Rattle.std.specs.Prelude.{◌<◌, ◌≤◌};

use crate::points::BLOCK;
use bench_line::words::is_narrow;

// f64 parts, f32 parts, or 16-bit integers in units of 1/32,768.
#[derive(Clone, Copy)]
pub enum Form {
    F64,
    F32,
    I16,
}

// A number of whole points, and the bytes of one more.
#[derive(Clone, Copy)]
pub struct Whole {
    pub count: usize,
    pub over: usize,
}

// The bytes of n points, at most a block's.
pub fn bytes(form: Form, n: usize) -> usize {
    if n > points(form) {
        return 0;
    }
    match form {
        Form::F32 => 8 * n,
        Form::I16 => 4 * n,
        Form::F64 => 16 * n,
    }
}

// The points of a block.
pub fn points(form: Form) -> usize
    ensures { (0 < result) × (result ≤ 65536) }
{
    match form {
        Form::F32 => BLOCK / 8,
        Form::I16 => BLOCK / 4,
        Form::F64 => BLOCK / 16,
    }
}

// How many points so many bytes are.
pub fn split(form: Form, bytes: usize) -> Whole {
    let size = match form {
        Form::F32 => 8,
        Form::I16 => 4,
        Form::F64 => 16,
    };
    Whole {
        count: bytes / size,
        over: bytes % size,
    }
}

// Whether the name is that of a SigMF capture, whose form is in its meta.
pub fn is_sigmf(name: &[u8]) -> bool {
    name.ends_with(b".sigmf-data")
}

// The form that a name says: 16-bit integers and f32 parts by its ending, else f64 parts.
pub fn by_name(name: &[u8]) -> Form {
    if is_narrow(name) {
        return Form::F32;
    }
    if name.ends_with(b".ci16") {
        return Form::I16;
    }
    Form::F64
}
