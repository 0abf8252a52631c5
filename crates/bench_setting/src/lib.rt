// What the words of a command say, and how the program is used where they are not understood.
#![tactic(auto)]

pub mod choice;
mod options;
pub mod setting;
pub mod usage;
