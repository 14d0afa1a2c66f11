//! The answer to one frame, on the whole record and on its parts, and its output line.
#![tactic(auto)]

pub mod answered;
pub mod held;
pub mod reply;
