//! The record as numbers in a fixed order, and its line of text.
#![tactic(auto)]

pub mod fields;
pub mod line;
pub mod place;
