// The report of the command capture: a line for each frame, the tally of the frames, and the last lines.
#![tactic(auto)]

mod drift;
pub mod ending;
mod line;
pub mod tally;
