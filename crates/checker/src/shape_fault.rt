// The answers 3, 4 and 5: words, layout and pointers.
ghost use Rattle.std.specs.Prelude.{◌≤◌, length};
ghost use Rattle.words.specs.Limits.{most_words};
ghost use Rattle.table.specs.Faults.{shape_rows};
ghost use Rattle.checker.specs.Steps.Stage.{ByRows};

use answering::fault::TableFault;
use shape::{layout_fault, pointer_fault, word_fault};
use words::numbers::Address;

// The answer by the rows 3, 4 and 5, found by a pass over the table for each.
pub(crate) fn row_by_row(table: &[u32]) -> Result<(), TableFault>
    requires { length table.now ≤ most_words }
    ensures { ByRows shape_rows table.now result }
{
    if let Some(at) = word_fault::first_bad_word(table) {
        return Err(TableFault::Word(Address(at as u16)));
    }
    if let Some(at) = layout_fault::layout_break(table) {
        return Err(TableFault::Layout(Address(at as u16)));
    }
    if let Some(at) = pointer_fault::first_bad_pointer(table) {
        return Err(TableFault::Pointer(Address(at as u16)));
    }
    Ok(())
}
