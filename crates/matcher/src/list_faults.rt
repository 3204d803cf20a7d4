// The answers 8 and 9: a list of an odd or too large number of entries, and a side that is no node.
ghost use Rattle.std.specs.Prelude.{◌≡◌, ◌+◌, ◌*◌, ◌<◌, length};
ghost use Rattle.graphs.specs.Partition.{pairs_of};
ghost use Rattle.answering.specs.Answers.{Found};
ghost use Rattle.table.specs.Faults.{pair_at, bad_sides};
ghost use Rattle.matcher.specs.Steps.PassedAll.{BadList};

use table::node;
use words::limits::MOST_ENTRIES;
use words::numbers::Address;

// Answer 8, LIST: "odd number of entries, or over 512".
pub(crate) fn is_bad_list(list: &[u16]) -> bool
    ensures { BadList result list.now }
{
    list.len() % 2 == 1 || MOST_ENTRIES < list.len()
}

// Whether a side of the pair at place k, from 0, is not the address of a node.
fn is_bad_pair(table: &[u32], list: &[u16], k: usize) -> bool
    requires { 2 * k + 1 < length list.now }
    ensures { result ≡ bad_sides table.now (pair_at (pairs_of list.now) k) }
{
    !node::is_node(table, Address(list[2 * k])) || !node::is_node(table, Address(list[2 * k + 1]))
}

// Answer 9, ADDRESS: the lowest place, from 0, of a pair with a side that is not the address of a node.
pub(crate) fn first_bad_pair(table: &[u32], list: &[u16]) -> Option<usize>
    ensures { Found (λ k. bad_sides table.now (pair_at (pairs_of list.now) k)) (length (pairs_of list.now)) result }
{
    (0..list.len() / 2).find(|k| is_bad_pair(table, list, *k))
}
