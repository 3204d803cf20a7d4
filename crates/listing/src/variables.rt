// The lines of a table's variables.
ghost use Rattle.std.specs.Prelude.{◌+◌, ◌≤◌, ◌<◌, length};
ghost use Rattle.lines.specs.Lines.{variable_line, line_room};
ghost use Rattle.listing.specs.Listing.{line_at, variable_lines};
ghost use Rattle.listing.specs.Steps.Putting.{job_room, PutAt, Tellable};

use crate::parts::JOB_ROOM;
use lines::LINE_ROOM;
use words::kind::Kind;
use words::numbers::{Address, Label};
use words::word;

// Puts a variable's line into the bytes from place `at` on, and returns the place after it.
// The line is copied there: of a row that is lent from a place on, the goals give no name to the bytes behind the line.
fn put_variable(x: Address, label: Label, name: Address, row: &mut [u8], at: usize) -> usize
    requires { at + line_room ≤ length row.old }
    ensures { PutAt (variable_line x.0 label.0 name.0) at row.old result row.new × (result ≤ at + line_room) }
{
    let mut line = [0u8; LINE_ROOM];
    let size = lines::variable_line(x, label, name, &mut line);
    let next = at + size;
    row[at..next].copy_from_slice(&line[..size]);
    next
}

// Kept: what may be told of a table (`Tellable`) is asked in a clause: it speaks of two rows that are lent apart.
//
// The same for address x, where nothing is put if no variable stands there.
fn put_line(table: &[u32], class: &[u16], x: usize, row: &mut [u8], at: usize) -> usize
    requires { Tellable table.now class.now × (x < length table.now) × (at + line_room ≤ length row.old) }
    ensures { PutAt (line_at table.now class.now x) at row.old result row.new × (result ≤ at + line_room) }
{
    let word = table[x];
    if let Kind::Variable = word::kind(word) {
        return put_variable(
            Address(x as u16),
            word::label(word),
            Address(class[x]),
            row,
            at,
        );
    }
    at
}

// The same for all addresses, in order.
pub(crate) fn put_variables(
    table: &[u32],
    class: &[u16],
    row: &mut [u8; JOB_ROOM],
    start: usize,
) -> usize
    requires { Tellable table.now class.now × (start ≤ line_room) }
    ensures { PutAt (variable_lines table.now class.now) start row.old result row.new × (result ≤ job_room) }
{
    let mut at = start;
    for x in 0..table.len() {
        at = put_line(table, class, x, row, at);
    }
    at
}
