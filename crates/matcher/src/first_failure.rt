// The answers 0, 10 and 11, for a job that passes all checks: the first pair with which the list so far
// has a clash or a cycle.
//
// Pairs are joined up to the first clash, and what is joined is searched for a cycle once. If there is
// one, the first pair that closes one is found by halving: more pairs never undo a cycle, no pairs have
// none, and each half is joined afresh. That takes at most nine searches for 256 pairs.
//
// Kept: table, list, class and work stay four parameters, as C lends them. `Standing` speaks of all four,
// before a step and after it, so as a struct's invariant it would take the same words.
ghost use Rattle.std.specs.Prelude.{◌≤◌, length, take};
ghost use Rattle.graphs.specs.Partition.{pairs_of, Cycle};
ghost use Rattle.table.specs.Table.{graph_of};
ghost use Rattle.matcher.specs.Match.{job_of, Passes};
ghost use Rattle.matcher.specs.Steps.FirstFailure.{Standing, JoinsFirst, UntilClash, Clashless, TellsCycle, CycleAt, FirstFailed, Verdict};

use crate::answer::{Counts, Refusal};
use words::numbers::PairNumber;

// Joins the first `count` pairs of the list, from each node its own class.
fn join_first(
    table: &[u32],
    list: &[u16],
    count: usize,
    class: &mut [u16],
    work: &mut [u16],
) -> Result<(), PairNumber>
    requires { Standing table.now list.now class.old work.old × (count ≤ length (pairs_of list.now)) }
    ensures { JoinsFirst table.now list.now class.old work.old count result class.new work.new }
{
    classes::apart(table, class);
    classes::join(table, &list[..2 * count], class, work)
}

// Joins the pairs before the first clash. An error is the number of the pair that clashes.
fn join_until_clash(
    table: &[u32],
    list: &[u16],
    class: &mut [u16],
    work: &mut [u16],
) -> Result<(), PairNumber>
    requires { Standing table.now list.now class.old work.old }
    ensures { UntilClash table.now list.now class.old work.old result class.new work.new }
{
    let joined = join_first(table, list, list.len() / 2, class, work);
    if let Err(at) = joined {
        let before = at.0 as usize - 1;
        join_first(table, list, before, class, work).unwrap();
    }
    joined
}

// Whether the first `count` pairs of the list, which have no clash, have a cycle.
fn has_cycle(table: &[u32], list: &[u16], count: usize, class: &mut [u16], work: &mut [u16]) -> bool
    requires { Standing table.now list.now class.old work.old × Clashless table.now list.now count }
    ensures { TellsCycle table.now list.now class.old work.old count result class.new work.new }
{
    join_first(table, list, count, class, work).unwrap();
    cycles::reaches_itself(table, class, work)
}

// The number of the first pair that closes a cycle, where the first `many` pairs have one and no clash.
fn first_cycle(
    table: &[u32],
    list: &[u16],
    many: usize,
    class: &mut [u16],
    work: &mut [u16],
) -> PairNumber
    requires { Standing table.now list.now class.old work.old × Clashless table.now list.now many × Cycle (graph_of table.now) (take many (pairs_of list.now)) }
    ensures { CycleAt table.now list.now class.old work.old many result.0 class.new work.new }
{
    let mut none = 0;
    let mut some = many;
    while none + 1 < some {
        let middle = (none + some) / 2;
        if has_cycle(table, list, middle, class, work) {
            some = middle;
        } else {
            none = middle;
        }
    }
    PairNumber(some as u16)
}

// The first pair with which the list so far has a clash or a cycle. Pairs behind it are not joined.
fn first_failure(
    table: &[u32],
    list: &[u16],
    class: &mut [u16],
    work: &mut [u16],
) -> Result<(), Refusal>
    requires { Standing table.now list.now class.old work.old }
    ensures { FirstFailed table.now list.now class.old work.old result class.new work.new }
{
    let joined = join_until_clash(table, list, class, work);
    if cycles::reaches_itself(table, class, work) {
        let many = match joined {
            Ok(()) => list.len() / 2,
            Err(at) => at.0 as usize - 1,
        };
        return Err(Refusal::Cycle(first_cycle(table, list, many, class, work)));
    }
    joined.map_err(Refusal::Clash)
}

// The answer for a job that passes all checks.
pub(crate) fn unify(
    table: &[u32],
    list: &[u16],
    class: &mut [u16],
    work: &mut [u16],
) -> Result<Counts, Refusal>
    requires { Standing table.now list.now class.old work.old × Passes (job_of table.now list.now class.old work.old) }
    ensures { Verdict table.now list.now class.old work.old result class.new work.new }
{
    match first_failure(table, list, class, work) {
        Ok(()) => Ok(Counts {
            joins: classes::count_joins(table, class),
        }),
        Err(failure) => {
            class[..table.len()].fill(0);
            Err(failure)
        }
    }
}
