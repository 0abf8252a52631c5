// Calls for C, on numbers and slices (a slice is a pointer and a length). Each answers document 01's number, 0 for accepted; refused, it leaves
// every lent number and slice as it was. include/isdb.h declares them, and those of the other crates of C calls.
#![tactic(auto)]

pub mod frame;
pub mod full;
pub mod window;
