// The bench program's files, of bytes and of points.
#![tactic(auto)]

mod claims;
pub mod files;
mod hints;
mod meta;
mod staging;
pub mod system;

pub use bench_blocks::points::f64_bits;
