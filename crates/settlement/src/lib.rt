// Settles the accounts of an hour under an edition, and bills what was settled.
// Nothing is allocated: the accounts lie in slots that the caller lends, and figures by account in arrays of 64 places.
#![tactic(auto)]

pub mod billing;
mod hour;
pub mod settling;
pub mod tables;
