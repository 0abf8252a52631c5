// How many bytes of two slices agree.
pub use bench_split::agreeing;
