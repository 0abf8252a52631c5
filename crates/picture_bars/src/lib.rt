// The parts of a picture that are text and bars: forms whose marks numbers replace, and a bar for each slot.
#![tactic(auto)]

pub mod bars;
pub mod form;
