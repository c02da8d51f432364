// The charge for a failure to provide an Ancillary Service, part by part in the order of the Protocols' section.
#![tactic(auto)]

pub mod amount;
pub mod rate;
pub mod shortfall;
