// Editions of the section: what counts as telemetered, and what is charged.
// An edition is told no QSE number, no resource number and no load; a question changes nothing.
#![tactic(auto)]

pub mod before_nprr1149;
pub mod edition;
pub mod nprr1149;
pub mod nprr1196;
pub mod telemetry;
