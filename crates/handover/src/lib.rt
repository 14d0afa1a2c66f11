//! Who meets whom on a rendezvous: laws only, the promise of an empty function.
#![tactic(auto)]

ghost use Rattle.handover.specs.Statement.{HandoverLaw, NoneFails};

/// By which call a waiter is picked, how the two meet, and how a wait ends otherwise.
pub fn handover_law()
    ensures { HandoverLaw }
{}

/// A rendezvous has no exchange that may fail for no reason: fail is refused, whatever was called before.
pub fn none_fails()
    ensures { NoneFails }
{}
