// The search for cycles: whether some class of a table reaches itself through children. The search
// for loops in a table is the same search, with each node its own class.
//
// It goes depth first and does not call itself: the marks and the path lie in the lent work row. What
// is no function has no edges: it is neither marked nor put on the path. A vertex is put on the path
// once at most, and an edge is passed over or followed once at most, so the time is linear in the number
// of words.
//
// Kept: marks and path are numbers in a row that is lent, since there is no heap; and table and class row
// stay two slices, for the reason at the head of crate table.
#![tactic(auto)]

mod path;
mod reads;
mod search;

pub use search::reaches_itself;
