// A total apportioned over rows by their weights, to the last unit.
//
// The shares are floors of running sums: with L the sum of the weights and S(i) the sum of the first i, row i is given
// floor(T × S(i) / L) - floor(T × S(i-1) / L). So they add up to T, with no remainder to hand out afterwards. Nothing is
// allocated: the caller lends one place for each row.
//
//     let mut shares = [0; 2];
//     apportion(100, &loads, &mut shares)?;
#![tactic(auto)]

pub mod shares;
pub mod unfit;
pub mod weighted;
pub mod weights;

pub use shares::apportion;
pub use unfit::Unfit;
pub use weighted::Weighted;
pub use weights::whole;
