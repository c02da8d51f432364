// Feeds an hour book: 32-bit words, in groups of a head and its data, each made as a call of the book.
// The caller lends the words; nothing is allocated. A fault ends the feed and says which word was at fault and why;
// the groups before it stay in force.
//
//     let count = words_of(&bytes, &mut words);
//     let groups = feed(&mut book, &words[..count])?;
#![tactic(auto)]

pub mod feed;
mod groups;
pub mod head;
pub mod words;
