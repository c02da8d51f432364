#![tactic(auto)]

// Tests of packing, in a crate of their own so that packing is proved once.
#[cfg(test)]
mod tests;
