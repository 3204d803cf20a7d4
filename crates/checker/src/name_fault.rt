// Answer 6, NAME: "a variable's label stood earlier", for every label but 0. A variable of label 0 has
// no name: it is neither put into a chain nor looked for, so any number of them takes no more time
// than others.
//
// The variables with names that were met are kept in chains in the work row, for a table of n words:
// the first 3n entries begin the chains, each with its newest address, and entry 3n + a has the
// address that comes after a. Address 0, which is no variable, ends a chain. Links fall, so a walk
// ends.
//
// The chain of a label goes by the high bits of the label times an odd number. Such a product is one
// to one on 16 bits, and labels that agree in their low bits are spread too. A chain has at most
// 65,536 / 3n + 1 labels before one repeats, and no table takes more than about 11,000 comparisons of
// labels.
//
// Kept: the chains are numbers in a row that is lent, since there is no heap. That they are chains up to
// an address is asked in a clause and is no invariant of a struct, since the address goes up with each step.
ghost use Rattle.std.specs.Prelude.{◌≡◌, ◌+◌, ◌*◌, ◌<◌, ◌≤◌, length};
ghost use Rattle.words.specs.Limits.{most_words};
ghost use Rattle.words.specs.declared.kind.Kind.{Kind};
ghost use Rattle.table.specs.Faults.{Repeats};
ghost use Rattle.table.specs.Readable.{Readable};
ghost use Rattle.table.specs.Table.{word_at, kind_at, content_at};
ghost use Rattle.checker.specs.Steps.Names.{Either, start_of, NamedVariable, Chained, ChainedOn, NameJudged, FirstRepeated};

use words::kind::Kind;
use words::numbers::{Label, UNNAMED};
use words::word;

// A chain begins at one of 3n entries.
const STARTS_A_WORD: usize = 3;

// A label has 16 bits.
const LABELS: usize = 65536;

// Odd, so that no two labels are spread to one number.
const SPREAD: usize = 40503;

fn label_at(table: &[u32], at: usize) -> Label
    requires { at < length table.now }
    ensures { result.0 ≡ content_at table.now at }
{
    word::label(table[at])
}

// Where the chain of a label begins.
fn start(label: Label, starts: usize) -> usize
    requires { (0 < starts) × (starts ≤ 12288) }
    ensures { (result ≡ start_of label.0 starts) × (result < starts) }
{
    let spread = label.0 as usize * SPREAD % LABELS;
    spread * starts / LABELS
}

// Whether the name of the variable at an address stood earlier.
fn stood_earlier(table: &[u32], work: &[u16], at: usize) -> bool
    requires { Chained table.now work.now at × (at < length table.now) × NamedVariable table.now at }
    ensures { Either result (Repeats table.now at) (Repeats table.now at → ⊥) }
{
    let starts = STARTS_A_WORD * table.len();
    let label = label_at(table, at);
    let mut earlier = work[start(label, starts)] as usize;
    while earlier != 0 {
        if label_at(table, earlier) == label {
            return true;
        }
        earlier = work[starts + earlier] as usize;
    }
    false
}

// Puts the variable at an address in front of the chain of its label.
fn put_in_front(table: &[u32], work: &mut [u16], at: usize)
    requires { Chained table.now work.old at × (at < length table.now) × NamedVariable table.now at }
    ensures { ChainedOn table.now work.old work.new (at + 1) }
{
    let starts = STARTS_A_WORD * table.len();
    let first = start(label_at(table, at), starts);
    work[starts + at] = work[first];
    work[first] = at as u16;
}

// Whether the variable at an address repeats a name. One that has a name and does not joins the chains.
pub(crate) fn repeats_variable(table: &[u32], work: &mut [u16], at: usize) -> bool
    requires { Chained table.now work.old at × (at < length table.now) × (kind_at table.now at ≡ Kind.Variable) }
    ensures { NameJudged table.now work.old work.new at result }
{
    if label_at(table, at) == UNNAMED {
        return false;
    }
    if stood_earlier(table, work, at) {
        return true;
    }
    put_in_front(table, work, at);
    false
}

// Whether the word at an address repeats a name. A variable that has one and does not joins the chains.
fn repeats_name(table: &[u32], work: &mut [u16], at: usize) -> bool
    requires { Chained table.now work.old at × (at < length table.now) }
    ensures { NameJudged table.now work.old work.new at result }
{
    word::kind(table[at]) == Kind::Variable && repeats_variable(table, work, at)
}

// Every chain becomes empty. A link is written before it is read, so only the beginnings are cleared.
pub(crate) fn begin_chains(table: &[u32], work: &mut [u16])
    requires { (length table.now ≤ most_words) × (4 * length table.now ≤ length work.old) × (word_at table.now 0 ≡ 0) }
    ensures { ChainedOn table.now work.old work.new 1 }
{
    work[..STARTS_A_WORD * table.len()].fill(0);
}

// The lowest address of a variable whose name stood earlier. The first 4n entries of the work row are
// written over, and nothing is said of them.
pub(crate) fn first_repeated_name(table: &[u32], work: &mut [u16]) -> Option<usize>
    requires { Readable table.now × (4 * length table.now ≤ length work.old) }
    ensures { FirstRepeated table.now work.old work.new result }
{
    begin_chains(table, work);
    for at in 1..table.len() {
        if repeats_name(table, work, at) {
            return Some(at);
        }
    }
    None
}
