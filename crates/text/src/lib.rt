//! The schedule text: its lines, the frames that they spell, and the lines of the output.
#![tactic(auto)]

pub mod frame;
pub mod hex;
pub mod lines;
pub mod output;
