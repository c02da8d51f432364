// The book of one Operating Hour: rows and prices are set, drafts are taken under an edition, statements issued.
// The caller lends the slots in which accounts and resources lie; nothing is allocated. Every call does its own
// checking, and says which answer of the definitions it gives and which book it leaves.
//
//     let mut book = Book::opened(7, &mut qses, &mut resources);
//     book.enrol(10, 1)?;
//     let draft = book.draft(&Nprr1149)?;
//     match book.issue(draft) {
//         Ok(()) => book.read(10, 'D'),
//         Err((refusal, draft)) => ..
//     }
#![tactic(auto)]

pub mod book;
pub mod draft;
pub mod drafts;
pub mod qses;
pub mod reading;
pub mod resources;
pub mod settings;
