// One word of the table, and what happens when two heads meet: `word` takes a 32-bit number apart,
// `head` has what stands at the top of a node, and `meeting` the table of the nine meetings of kinds.
//
// Its contracts cite `specs/`, whose definitions a client's contracts cite too. No function has a
// `requires`.
#![tactic(auto)]

pub mod head;
pub mod kind;
pub mod limits;
pub mod meeting;
pub mod numbers;
pub mod word;
