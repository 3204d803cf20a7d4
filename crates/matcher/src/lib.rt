// The matcher: a list of pairs against a table. Which of the answers 0 to 11 it gets, at which place, and
// by which classes and joins.
//
// The table check comes first, then the list's entries, then its pairs; the numbers of the answers come
// in that order too.
//
// Time: the checks and each search are linear in the words. Joining m pairs of a table of n words takes
// at most m plus the argument words meetings, each of them a few links long (crate `classes`). A list
// that is accepted is joined once and searched once, a refused one at most nine times more.
#![tactic(auto)]

pub mod answer;
mod first_failure;
mod list_faults;

ghost use Rattle.matcher.specs.Steps.FirstFailure.{TablePassed, Verdict};
ghost use Rattle.matcher.specs.Match.{MatchOf};

use answer::{Counts, Refusal};
use words::numbers::PairNumber;

// The answer for a table that passed its check.
fn match_checked(
    table: &[u32],
    list: &[u16],
    class: &mut [u16],
    work: &mut [u16],
) -> Result<Counts, Refusal>
    requires { TablePassed table.now list.now class.old work.old }
    ensures { Verdict table.now list.now class.old work.old result class.new work.new }
{
    if list_faults::is_bad_list(list) {
        return Err(Refusal::List);
    }
    if let Some(bad) = list_faults::first_bad_pair(table, list) {
        return Err(Refusal::Side(PairNumber((bad + 1) as u16)));
    }
    first_failure::unify(table, list, class, work)
}

// The answer to a list of pairs, for any table, list, lengths and old contents.
//
// Answers 1 and 2 change nothing. If the list is accepted, the first n entries of class are the class
// table, n being the number of words; any other answer leaves them at 0. Either way the first 4n entries
// of work are 0, and the entries above stay as they were.
pub fn match_list(
    table: &[u32],
    list: &[u16],
    class: &mut [u16],
    work: &mut [u16],
) -> Result<Counts, Refusal>
    ensures { MatchOf table.now list.now class.old work.old result class.new work.new }
{
    checker::check(table, class, work)?;
    match_checked(table, list, class, work)
}
