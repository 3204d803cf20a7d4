// A table of words as a term graph. A table is read through these leaves alone: whether a word, or the
// word at an address, is a node, whether it is a function, what stands at it, and which nodes are its
// children.
//
// Those that go into a block ask for a table that can be read, as a checked one can.
//
// Kept: they ask for it in a clause, and the table is a slice and no type of its own. `degree`, `child` and
// `head` are named in docs/CONTRACTS.md as they are. A struct with a model cannot be `Copy` where it
// borrows, so that each leaf would read through two references; one with a ghost field can, and each
// clause of table, cycles and classes would say `table.entry.words.now` for `table.now`.
#![tactic(auto)]

pub mod node;

pub use node::{child, degree, head, is_function, is_node, is_node_word};
