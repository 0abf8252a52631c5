// The words of the bench program's reports.
#![tactic(auto)]

pub mod report;
pub mod text;
