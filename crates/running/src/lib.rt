// A book as its callers run it: over slots of their own, with statements issued at once.
#![tactic(auto)]

pub mod issuing;
pub mod slots;
