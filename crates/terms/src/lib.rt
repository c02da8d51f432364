// The market's words: services, classes of resources, intervals of the hour, and why a call or a feed is turned down.
#![tactic(auto)]

pub mod class;
pub mod fault;
pub mod interval;
pub mod refusal;
pub mod service;
