// Whether a call of the book is admitted: the tests that need no look at its tables, in their order.
// Each answers the refusal that the definitions give for the first test that fails, or what was made on the way.
// Each call that sets or strikes tests that no draft is open: one test for all would be no plainer, since the order of a
// call's tests is one contract.
#![tactic(auto)]

pub mod drafts;
pub mod letters;
pub mod qses;
pub mod resources;
pub mod settings;
