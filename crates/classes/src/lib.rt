// The classes that pairs of nodes make: each node its own class, a row of pairs joined, and the joins
// counted.
//
// While pairs are joined the class row is a forest. Every link falls in the naming order, so a root is
// the name of its class, following links ends, and no rank is kept; paths are halved on the way. Two
// functions that are joined wait in the work row until their children meet. Nothing calls itself.
//
// Kept: forest and waiting pairs are numbers in two rows that are lent, since there is no heap. The rows
// are no fields of one struct with `State` as its invariant: after a clash a step promises less of them
// than `State` says, and each clause speaks of what a row was and what it is.
//
// Time: each meeting follows two paths, and halving makes those short over the whole list: m meetings
// among n nodes follow at most about m log n links, and nearly m in what is sent. Two functions go down
// once for each join, so there are at most as many meetings as given pairs and argument words.
#![tactic(auto)]

mod flatten;
mod forest;
pub mod joining;
mod meet;
mod own;
mod settle;

pub use joining::join;
pub use own::{apart, count_joins};
