// The report of a reading: a page for the screen, and the text that is kept.
#![tactic(auto)]

pub mod names;
pub mod page;
pub mod slots;
