// Points in files: their forms, a point as bytes, and points read and written a block at a time.
#![tactic(auto)]

pub mod blocks;
pub mod forms;
pub mod points;
