// Whether none of the answers from 3 to 6 is due, by one walk along the items. Most tables are sound,
// and one walk is all that they take.
ghost use Rattle.std.specs.Prelude.{◌≡◌, ◌*◌, ◌<◌, ◌≤◌, length};
ghost use Rattle.words.specs.Limits.{most_words};
ghost use Rattle.table.specs.Layout.{item, count};
ghost use Rattle.checker.specs.Steps.Names.{Chained};
ghost use Rattle.checker.specs.Steps.Sound.{sound_count, AsArgument, AsArguments, NextItem, SoundTable};

use crate::name_fault;
use shape::{pointer_fault, word_fault};
use words::kind::Kind;
use words::word;

fn is_sound_count(word: u32) -> bool
    ensures { result ≡ sound_count word }
{
    word::kind(word) == Kind::Count && !word_fault::is_bad_kind(Kind::Count, word::content(word))
}

// Whether the word at an address is a variable that repeats no name, a constant, or a pointer to an
// address that it may name.
fn is_sound_argument(table: &[u32], work: &mut [u16], at: usize) -> bool
    requires { Chained table.now work.old at × (0 < at) × (at < length table.now) }
    ensures { AsArgument table.now work.old work.new at result }
{
    let word = table[at];
    match word::kind(word) {
        Kind::Variable => !name_fault::repeats_variable(table, work, at),
        Kind::Constant => true,
        Kind::Pointer => !pointer_fault::is_bad_target(table, word::address(word)),
        _ => false,
    }
}

// Whether all words from an address to below another are sound arguments.
fn are_sound_arguments(table: &[u32], work: &mut [u16], from: usize, to: usize) -> bool
    requires { Chained table.now work.old from × (0 < from) × (from ≤ to) × (to ≤ length table.now) }
    ensures { AsArguments table.now work.old work.new from to result }
{
    for at in from..to {
        if !is_sound_argument(table, work, at) {
            return false;
        }
    }
    true
}

// The address after the block whose count is to stand at an address, or none where the walk cannot go
// on.
fn after_block(table: &[u32], work: &mut [u16], at: usize) -> Option<usize>
    requires { Chained table.now work.old at × (0 < at) × (at ≤ length table.now) }
    ensures { NextItem table.now work.old work.new count at result }
{
    let word = *table.get(at)?;
    if !is_sound_count(word) {
        return None;
    }
    let end = at + 1 + word::content(word) as usize;
    if table.len() < end {
        return None;
    }
    if !are_sound_arguments(table, work, at + 1, end) {
        return None;
    }
    Some(end)
}

// The address after the item that is to stand at an address, or none where the walk cannot go on.
fn after_item(table: &[u32], work: &mut [u16], at: usize) -> Option<usize>
    requires { Chained table.now work.old at × (0 < at) × (at < length table.now) }
    ensures { NextItem table.now work.old work.new item at result }
{
    match word::kind(table[at]) {
        Kind::Variable => {
            if name_fault::repeats_variable(table, work, at) {
                None
            } else {
                Some(at + 1)
            }
        }
        Kind::Constant => Some(at + 1),
        Kind::Function => after_block(table, work, at + 1),
        _ => None,
    }
}

// Whether none of the rows from 3 to 6 applies. Nothing is said of a table that fails, nor of the
// first 4n entries of the work row, which are written over.
pub(crate) fn is_sound(table: &[u32], work: &mut [u16]) -> bool
    requires { (0 < length table.now) × (length table.now ≤ most_words) × (4 * length table.now ≤ length work.old) }
    ensures { SoundTable table.now work.old work.new result }
{
    if table[0] != 0 {
        return false;
    }
    name_fault::begin_chains(table, work);
    let mut at = 1;
    while at < table.len() {
        let Some(next) = after_item(table, work, at) else {
            return false;
        };
        at = next;
    }
    true
}
