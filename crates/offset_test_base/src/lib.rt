//! Code that the test crates share.
#![tactic(auto)]

pub mod devices;
mod living;
pub mod mixed;
pub mod random;
pub mod tiny;
