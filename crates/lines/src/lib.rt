// What the programs share: their input, and the lines that they print, as bytes.
//
// Each function of a line puts it over the front of a lent row, in which the longest line has room, and returns its length.
// The bytes after it stay. No function asks anything of its caller.
//
// Kept: the length, and not the line itself, is returned. `line_in` says that the bytes behind a line stay, and of a row that is
// lent as an array no clause gets a proof that speaks of it while a result borrows from it.
#![tactic(auto)]

mod fields;
mod input;

ghost use Rattle.std.specs.Prelude.{◌≤◌};
ghost use Rattle.lines.specs.Lines.{job_line, variable_line, file_line, header_line, line_room, LineIn, Counts};

use answering::answer::Answer;
pub use input::read_to_fill;
use words::numbers::{Address, Label};

// No line is longer: four numbers of five digits, with a byte after each.
pub const LINE_ROOM: usize = 24;

// `job answer place joins`, the words themselves: what stands above the jobs.
pub fn header_line(line: &mut [u8; LINE_ROOM]) -> usize
    ensures counts { Counts result line.new }
    ensures line_in { LineIn header_line line.old result line.new }
    ensures upper_bound { result ≤ line_room }
{
    line[..23].copy_from_slice(b"job answer place joins\n");
    23
}

// A job's number and its answer, place and joins.
pub fn job_line(job: u16, answer: u16, place: u16, joins: u16, line: &mut [u8; LINE_ROOM]) -> usize
    ensures counts { Counts result line.new }
    ensures line_in { LineIn (job_line job answer place joins) line.old result line.new }
    ensures upper_bound { result ≤ line_room }
{
    let second = fields::put_field(line, 0, job, b' ');
    let third = fields::put_field(line, second, answer, b' ');
    let last = fields::put_field(line, third, place, b' ');
    fields::put_field(line, last, joins, b'\n')
}

// `v`, then a variable's address, label and class name.
pub fn variable_line(at: Address, label: Label, name: Address, line: &mut [u8; LINE_ROOM]) -> usize
    ensures counts { Counts result line.new }
    ensures line_in { LineIn (variable_line at.0 label.0 name.0) line.old result line.new }
    ensures upper_bound { result ≤ line_room }
{
    line[..2].copy_from_slice(b"v ");
    let second = fields::put_field(line, 2, at.0, b' ');
    let last = fields::put_field(line, second, label.0, b' ');
    fields::put_field(line, last, name.0, b'\n')
}

// `file`, then the number and the place of the answer by which a file is refused.
pub fn file_line<A: Answer>(answer: A, line: &mut [u8; LINE_ROOM]) -> usize
    ensures counts { Counts result line.new }
    ensures line_in { LineIn (file_line (A.number_of answer) (A.place_of answer)) line.old result line.new }
    ensures upper_bound { result ≤ line_room }
{
    let number = answer.number();
    let place = answer.place();
    line[..5].copy_from_slice(b"file ");
    let last = fields::put_field(line, 5, number, b' ');
    fields::put_field(line, last, place, b'\n')
}
