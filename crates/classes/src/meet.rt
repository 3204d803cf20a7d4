// Two nodes meet: their roots are joined, or clash.
ghost use Rattle.std.specs.Prelude.{◌≡◌, ◌+◌, ◌*◌, ◌<◌, ◌≤◌, length, set};
ghost use Rattle.words.specs.Limits.{most_words};
ghost use Rattle.graphs.specs.Graph.{Node};
ghost use Rattle.graphs.specs.Partition.{key as key_in};
ghost use Rattle.table.specs.Readable.{Readable, PassedCheck};
ghost use Rattle.table.specs.Table.{graph_of};
ghost use Rattle.classes.specs.Steps.Meeting.{State, Meets, Ordered, Roots};

use crate::forest;
use words::head::Head;
use words::meeting;
use words::meeting::Outcome;
use words::numbers::Address;

// No terms make all pairs equal that were to be joined so far.
#[derive(Clone, Copy, PartialEq, Eq)]
pub struct Clash;

// The place of a node in the naming order: non-variables before variables, and then by address.
fn key(table: &[u32], x: Address) -> usize
    requires { Readable table.now × (x.0 < length table.now) }
    ensures { result ≡ key_in (graph_of table.now) x.0 }
{
    match table::head(table, x) {
        Head::Variable(_) => table.len() + x.0 as usize,
        Head::Constant(_) | Head::Function(_, _) => x.0 as usize,
    }
}

// Lets two functions wait for their children to meet.
fn push(work: &mut [u16], waiting: usize, f: Address, g: Address)
    requires { (2 * waiting + 1 < length work.old) × (waiting ≤ most_words) }
    ensures { work.new ≡ set (set work.old (2 * waiting) f.0) (2 * waiting + 1) g.0 }
{
    work[2 * waiting] = f.0;
    work[2 * waiting + 1] = g.0;
}

// Two roots meet, the first of which comes earlier in the naming order. Their heads say whether they
// are joined, and whether their children meet later. Returns how many pairs of functions wait then.
fn meet_ordered(
    table: &[u32],
    class: &mut [u16],
    work: &mut [u16],
    waiting: usize,
    name: Address,
    later: Address,
) -> Result<usize, Clash>
    requires { PassedCheck table.now × State table.now class.old work.old waiting × Ordered table.now class.old name.0 later.0 }
    ensures { Meets table.now class.old work.old waiting name.0 later.0 class.new work.new result }
{
    match meeting::meet(table::head(table, name), table::head(table, later)) {
        Outcome::Joined => {
            class[later.0 as usize] = name.0;
            Ok(waiting)
        }
        Outcome::JoinedGoDown => {
            class[later.0 as usize] = name.0;
            push(work, waiting, name, later);
            Ok(waiting + 1)
        }
        Outcome::Clash => Err(Clash),
    }
}

// Two different roots meet: the earlier in the naming order is to be the name. Whichever it is, there is
// one call, so that the compiler inlines it.
fn meet_roots(
    table: &[u32],
    class: &mut [u16],
    work: &mut [u16],
    waiting: usize,
    a: Address,
    b: Address,
) -> Result<usize, Clash>
    requires { PassedCheck table.now × State table.now class.old work.old waiting × Roots table.now class.old a.0 b.0 }
    ensures { Meets table.now class.old work.old waiting a.0 b.0 class.new work.new result }
{
    let (name, later) = if key(table, a) < key(table, b) {
        (a, b)
    } else {
        (b, a)
    };
    meet_ordered(table, class, work, waiting, name, later)
}

// Two nodes meet. Returns how many pairs of functions wait then.
pub fn meet(
    table: &[u32],
    class: &mut [u16],
    work: &mut [u16],
    waiting: usize,
    left: Address,
    right: Address,
) -> Result<usize, Clash>
    requires { PassedCheck table.now × State table.now class.old work.old waiting × Node (graph_of table.now) left.0 × Node (graph_of table.now) right.0 }
    ensures { Meets table.now class.old work.old waiting left.0 right.0 class.new work.new result }
{
    let a = forest::root(table, class, left);
    let b = forest::root(table, class, right);
    if a == b {
        return Ok(waiting);
    }
    meet_roots(table, class, work, waiting, a, b)
}
