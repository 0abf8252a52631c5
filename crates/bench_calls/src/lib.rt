// The calls on the points of a frame, each on space of its own: what read gives, the best reading, the clean leads. And the strength that leads are.
#![tactic(auto)]

pub mod reading;
pub mod strength;
