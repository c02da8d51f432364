// Tables of numbered rows, in rising order of number, over slots that the caller lends.
// The caller owns the memory: a table allocates nothing, and leaves slots past its limit alone.
//
//     let mut slots = [empty; 256];
//     let mut table = Table::new(&mut slots, 100);
//     table.put(row)?;
//     let row = table.get(7);
#![tactic(auto)]

pub mod numbered;
pub mod revision;
pub mod slots;
pub mod table;

pub use numbered::Numbered;
pub use revision::Revision;
pub use table::{Absent, Full, Misplaced, Table};
