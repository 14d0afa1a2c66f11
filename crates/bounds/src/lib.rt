//! The bounds of the rules and their table of refusals, and what the bounds decide of a making, a named thread, a step and an advance.
#![tactic(auto)]

pub mod flavour;
pub mod limits;
pub mod refusal;
