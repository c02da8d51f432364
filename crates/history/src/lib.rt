// What the calls of an hour book mean, and the law over every history of calls.
// There is no book here: its state, its calls and their answers are definitions, and the law is proved over them, so
// that a book whose calls are proved equal to them has the law.
#![tactic(auto)]

pub mod account;
pub mod law;
