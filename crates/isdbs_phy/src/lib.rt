// Bytes to signal points, and signal points to bytes.
#![tactic(auto)]

pub mod demod;

pub use ieee_cast::soft;
pub use isdbs_points::Cplx;
