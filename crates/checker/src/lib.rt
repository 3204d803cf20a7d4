// The table check: which of the answers 0 to 7 a table gets, and at which place.
//
// Each fault has a module of its own, those from 3 to 5 in the crate shape, and a scan of the words
// finds it at its lowest place; those from 3 to 6 are looked for only where one walk (sound) does not
// show that there is none. The stages come in the order of the numbers: what a later one goes by, an
// earlier one has shown.
//
// Kept: table, class and work stay three parameters, as C lends them, and (table, work, at) of the walks are
// two of them and a place that goes up. What a step needs of their lengths (`SizeAndRoom`, or that work has
// 4n entries) it asks in a clause: a struct over rows that are lent to be written would need a clause more
// in each step, that the rows in it are still those that were lent.
#![tactic(auto)]

mod faults;
mod loops;
mod name_fault;
mod shape_fault;
mod sound;

ghost use Rattle.checker.specs.Check.{CheckOf};

use answering::fault::TableFault;
use words::limits::MOST_WORDS;

// The answer of the table check by itself, for any table, lengths and old contents.
//
// Answers 1 and 2 change nothing. Any other leaves the first n entries of class and the first 4n of
// work at 0, n being the number of words, and the entries above as they were.
pub fn check(table: &[u32], class: &mut [u16], work: &mut [u16]) -> Result<(), TableFault>
    ensures { CheckOf table.now class.old work.old result class.new work.new }
{
    let n = table.len();
    if n == 0 {
        return Err(TableFault::Size);
    }
    if MOST_WORDS < n {
        return Err(TableFault::Size);
    }
    if class.len() < n {
        return Err(TableFault::Room);
    }
    if work.len() < 4 * n {
        return Err(TableFault::Room);
    }
    let answer = faults::faults(table, class, work);
    class[..n].fill(0);
    work[..4 * n].fill(0);
    answer
}
