// ISDB-S frames: where symbols, slots and runs lie. After isdbs-core of the Rust.
#![tactic(auto)]

pub mod combination;
pub mod frame;
pub mod slots;
pub mod tmcc;
