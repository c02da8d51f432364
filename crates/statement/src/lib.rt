// The text of a book's last statement, and of a fault, written at the start of the caller's output.
// Nothing is allocated. Where the output is too short, it is left as it was. Parts are pushed and not printed by `write!`,
// since no clause of std says that a `write!` succeeds; each function that writes asks for room for its own part.
//
//     let mut out = [0; 12_300];
//     let end = text(&book, &mut out)?;
//     stdout.write_all(&out[0..end])
#![tactic(auto)]

pub mod fault_line;
mod figures;
pub mod length;
mod lines;
mod output;
pub mod statement;
mod totals;
