// The text form of a feed: a line is read as a group, and a group is packed as the words that the feed reads as the same
// call. Nothing is allocated.
#![tactic(auto)]

pub mod field;
pub mod figure;
pub mod group;
pub mod line;
pub mod pack;
pub mod wrong;
