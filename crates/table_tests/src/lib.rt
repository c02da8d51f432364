// Tests of the table over two kinds of row, and a ledger over a table of each: its facts are kept by what the table's calls promise.
// The slots are the caller's throughout.
#![tactic(auto)]

pub mod calls;
pub mod ledger;
pub mod meter;
mod roll;
pub mod station;
#[cfg(test)]
mod tests;
