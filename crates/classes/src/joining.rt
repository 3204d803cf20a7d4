// A row of pairs joined, one after the other.
ghost use Rattle.std.specs.Prelude.{◌≤◌, length};
ghost use Rattle.graphs.specs.Graph.{Node};
ghost use Rattle.graphs.specs.Partition.{pairs_of, Sides};
ghost use Rattle.table.specs.Readable.{PassedCheck};
ghost use Rattle.table.specs.Table.{graph_of};
ghost use Rattle.classes.specs.Joining.{CanJoin, JoinOf};
ghost use Rattle.classes.specs.Steps.Lists.{JoinsPair, EachJoined};
ghost use Rattle.classes.specs.Steps.Meeting.{State};

use crate::meet::Clash;
use crate::{flatten, meet, settle};
use words::numbers::{Address, PairNumber};

// Joins the two nodes of a pair, and all that must follow.
fn join_pair(
    table: &[u32],
    class: &mut [u16],
    work: &mut [u16],
    left: Address,
    right: Address,
) -> Result<(), Clash>
    requires { PassedCheck table.now × State table.now class.old work.old 0 × Node (graph_of table.now) left.0 × Node (graph_of table.now) right.0 }
    ensures { JoinsPair table.now class.old work.old left.0 right.0 class.new work.new result }
{
    let waiting = meet::meet(table, class, work, 0, left, right)?;
    settle::settle(table, class, work, waiting)
}

// Joins the pairs of a list in their order, up to the first clash. An error is the number of the pair
// that clashes.
fn join_each(
    table: &[u32],
    list: &[u16],
    class: &mut [u16],
    work: &mut [u16],
) -> Result<(), PairNumber>
    requires { PassedCheck table.now × State table.now class.old work.old 0 × Sides (graph_of table.now) (pairs_of list.now) × (length list.now ≤ 131070) }
    ensures { EachJoined table.now list.now class.old work.old class.new work.new result }
{
    for i in 0..list.len() / 2 {
        let left = Address(list[2 * i]);
        let right = Address(list[2 * i + 1]);
        if join_pair(table, class, work, left, right).is_err() {
            return Err(PairNumber((i + 1) as u16));
        }
    }
    Ok(())
}

// Joins the pairs of a list to the classes of the pairs joined earlier, whose class table the class row
// begins with. It then begins with the class table of all of them. An error is the number of the first
// pair that clashes with those before it; the entries in use are 0 then.
//
// Of the work row the first 2n entries are used, n being the number of words. What they held does not
// count, and on return they are 0.
pub fn join(
    table: &[u32],
    list: &[u16],
    class: &mut [u16],
    work: &mut [u16],
) -> Result<(), PairNumber>
    requires { CanJoin table.now list.now class.old (length work.old) }
    ensures { JoinOf table.now list.now class.old work.old result class.new work.new }
{
    let n = table.len();
    let joined = join_each(table, list, class, work);
    work[..2 * n].fill(0);
    match joined {
        Ok(()) => flatten::flatten(table, class),
        Err(_) => class[..n].fill(0),
    }
    joined
}
