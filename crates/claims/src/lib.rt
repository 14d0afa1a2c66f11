//! The claims law over any schedule on an array: laws only, the promise of an empty function.
#![tactic(auto)]

ghost use Rattle.claims.specs.Statement.{ClaimLaw};

/// Who gets whose message, what each call has claimed, and when Full, Empty, `len`, `is_empty` and `is_full` were true.
pub fn claim_law()
    ensures { ClaimLaw }
{}
