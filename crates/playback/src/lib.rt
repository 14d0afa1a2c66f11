//! The replay of a schedule text: from the lent text to the whole output, in a lent buffer.
#![tactic(auto)]

pub mod run;
pub mod trace;
