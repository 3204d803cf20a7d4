// Answer 4, LAYOUT: the row of items breaks. "From address 1 on, the table is a row of items: a
// variable, a constant, or a block."
ghost use Rattle.std.specs.Prelude.{◌≡◌, drop};
ghost use Rattle.table.specs.Layout.{item, can_stand, more as more_of, after as after_word, at_end, break_from};
ghost use Rattle.shape.specs.Steps.Wanted.{wanted_of};

use words::kind::Kind;
use words::{kind, word};

// What may stand next: an item; a count, after a function; the arguments that a count leaves to come.
#[derive(Clone, Copy)]
enum Wanted {
    Item,
    Count,
    Arguments(u16),
}

// Whether a word of this kind can stand where `wanted` may.
fn can_stand(wanted: Wanted, kind: Kind) -> bool
    ensures { result ≡ can_stand (wanted_of wanted) kind }
{
    match wanted {
        Wanted::Item => kind::is_node(kind),
        Wanted::Count => kind == Kind::Count,
        Wanted::Arguments(_) => kind::is_argument(kind),
    }
}

// What may stand next, by the number of arguments still to come.
fn more(arguments: u16) -> Wanted
    ensures { wanted_of result ≡ more_of arguments }
{
    if arguments == 0 {
        Wanted::Item
    } else {
        Wanted::Arguments(arguments)
    }
}

// What may stand after a word that stands.
fn after(wanted: Wanted, word: u32) -> Wanted
    ensures { wanted_of result ≡ after_word (wanted_of wanted) word }
{
    match wanted {
        Wanted::Item if word::kind(word) == Kind::Function => Wanted::Count,
        Wanted::Item => Wanted::Item,
        Wanted::Count => more(word::content(word)),
        Wanted::Arguments(left) => more(left.saturating_sub(1)),
    }
}

// The end of the table, at address `at`: it can stand where an item may. An arm for each, as `at_end` has, so that an edit can
// make one of them wrong.
fn end(wanted: Wanted, at: usize) -> Option<usize>
    ensures { result ≡ at_end (wanted_of wanted) at }
{
    match wanted {
        Wanted::Item => None,
        Wanted::Count => Some(at),
        Wanted::Arguments(_) => Some(at),
    }
}

// Where the row of items breaks, if it does: at the first word that cannot stand there, and at the
// table's length if a block runs past the end.
pub fn layout_break(table: &[u32]) -> Option<usize>
    ensures { result ≡ break_from item 1 (drop 1 table.now) }
{
    let mut wanted = Wanted::Item;
    for at in 1..table.len() {
        let word = table[at];
        if !can_stand(wanted, word::kind(word)) {
            return Some(at);
        }
        wanted = after(wanted, word);
    }
    end(wanted, table.len())
}
