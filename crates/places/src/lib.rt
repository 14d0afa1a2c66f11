//! Where a thread stands, and how its call begins.
#![tactic(auto)]

pub mod begin;
pub mod place;
