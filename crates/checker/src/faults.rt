// The answers from 3 on, for a table of an allowed size with room for it.
ghost use Rattle.table.specs.Faults.{table_rows};
ghost use Rattle.checker.specs.Steps.Stage.{SizeAndRoom, Stage};

use crate::{loops, name_fault, shape_fault, sound};
use answering::fault::TableFault;
use words::numbers::Address;

// The answer by the rows from 3 to 7, gone through row after row.
fn through_all_rows(table: &[u32], class: &mut [u16], work: &mut [u16]) -> Result<(), TableFault>
    requires { SizeAndRoom table.now class.old work.old }
    ensures { Stage table_rows table.now class.old work.old result class.new work.new }
{
    shape_fault::row_by_row(table)?;
    if let Some(at) = name_fault::first_repeated_name(table, work) {
        return Err(TableFault::Name(Address(at as u16)));
    }
    loops::loops_alone(table, class, work)
}

// The answer by the rows from 3 to 7. Only a table that one walk does not show to be sound is gone
// through row by row, for the number and the place. Entries above n and 4n stay; those below are
// written over.
pub(crate) fn faults(table: &[u32], class: &mut [u16], work: &mut [u16]) -> Result<(), TableFault>
    requires { SizeAndRoom table.now class.old work.old }
    ensures { Stage table_rows table.now class.old work.old result class.new work.new }
{
    if sound::is_sound(table, work) {
        return loops::loops_alone(table, class, work);
    }
    through_all_rows(table, class, work)
}
