// What the header of a full frame says at the bench: how many of its 40 known signs agree, which frame of a superframe it is, and how it is turned.
#![tactic(auto)]

mod counting;
mod words;

pub use counting::{Told, agreed, minus, plus, told_at};
pub use words::{say_header, say_kind, say_turn, say_why};
