// The values of an Operating Hour: units, quantities, figures, prices, QSEs and resources.
// A value carries its limits in its type; beside it stands the same as bare figures, and a check that makes the one
// of the other or refuses. Nothing is allocated.
#![tactic(auto)]

pub mod figures;
pub mod number;
pub mod numbers;
pub mod prices;
pub mod qse;
pub mod quantities;
pub mod resource;
pub mod units;
