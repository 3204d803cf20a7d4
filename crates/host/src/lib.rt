// The work behind the entries for C: a job out of a job file, matched on rows of its size, with the answer written into the
// room; a file's sizes; and the numbers of an answer as one. Crate station is the entries themselves.
#![tactic(auto)]

mod choice;
mod found;
mod job;
mod packed;
mod report;
mod sizes;

ghost use Rattle.host.specs.Host.{HostOf};

pub use packed::as_one;
pub use sizes::read_sizes;
use words::limits::MOST_ENTRIES;

// The row for a list has room for one pair more than a list may hold, so that a longer list is refused too.
const LIST_ROOM: usize = MOST_ENTRIES + 2;

// The answer for the job of a number, from 1, in a job file, and the report of it in the room.
//
// Kept: the answer is its number, here and in the steps behind it. A `Result` would be one enum over the refusals of three
// crates, made to be turned into its number by the one caller, and `HostOf` says what the number is.
pub fn match_job(file: &[u8], job: u32, room: &mut [u8]) -> u16
    ensures { HostOf file.now job room.old result room.new }
{
    // It stands before all tests for the compiler's sake: docs/DECISIONS.md, 'Rows by the size of a job'.
    let mut list = [0u16; LIST_ROOM];
    match choice::choose(file, job as usize, room) {
        Ok(job) => found::match_found(job, &mut list, room),
        Err(refusal) => refusal.number(),
    }
}
