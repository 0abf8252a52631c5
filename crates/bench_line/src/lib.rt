// A command's line: its words and what they mean, the space that commands lend, and how many bytes of two slices agree.
#![tactic(auto)]

pub mod agreement;
pub mod space;
pub mod words;
