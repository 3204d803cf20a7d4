// The five entries that a host program calls, in C's plain numbers and lent rows: a job out of a job file, a match and a table
// check on lent buffers, and the writer and the reader of job files. The work is done by the crates before it, so that this one
// is proved in seconds. Crate station_c exports them to C under the same names, with the same clauses.
//
// Kept: an entry returns a number, whose meaning the C header says.
//
// No entry asks anything of its caller. A definition (`HostOf` and `SizesOf` of crate host, and those of specs/) says for each
// what it returns and what it leaves in the rows that it is lent, and a theorem of proofs/Theorems.antt that it says so of one
// result only.
#![tactic(auto)]

ghost use Rattle.host.specs.Host.{HostOf};
ghost use Rattle.host.specs.Sizes.{SizesOf};
ghost use Rattle.station.specs.Entries.{LentOf, CheckedOf, WrittenOf};

use answering::answer::Answer;

// The answer for the job of a number, from 1, in a job file.
//
// 12, 13 and 14 are the file's, 15 is for a number that no job has, 1 is for its table's size, and 2 for room under 6 + 2n
// bytes: these six write nothing. Any other answer leaves in the room answer, place, joins and the n class entries, 2 bytes
// each, and the bytes after them as they were.
pub fn station_match(file: &[u8], job: u32, room: &mut [u8]) -> u16
    ensures { HostOf file.now job room.old result room.new }
{
    host::match_job(file, job, room)
}

// Answer + 65,536 x place + 4,294,967,296 x joins of a match on lent buffers.
pub fn station_lent(table: &[u32], list: &[u16], class: &mut [u16], work: &mut [u16]) -> u64
    ensures { LentOf table.now list.now class.old work.old result class.new work.new }
{
    let answer = matcher::match_list(table, list, class, work);
    host::as_one(answer, matcher::answer::joins(answer))
}

// The same of the table check by itself. Its joins is 0.
pub fn station_check(table: &[u32], class: &mut [u16], work: &mut [u16]) -> u64
    ensures { CheckedOf table.now class.old work.old result class.new work.new }
{
    host::as_one(checker::check(table, class, work), 0)
}

// The writer's number.
pub fn station_write(sizes: &[u16], bodies: &[u8], room: &mut [u8]) -> u16
    ensures { WrittenOf sizes.now bodies.now room.old result room.new }
{
    jobfile::write(sizes, bodies, room).number()
}

// Answer + 65,536 x place + 4,294,967,296 x J of a job file, and its 2J sizes.
//
// 12, 13 and 14 are the file's, and 2 is for room for fewer than 2J sizes: these four write nothing, and their J is 0. On 0 the
// first 2J entries are n, p, n, p, .., and the entries after them as they were.
pub fn station_read(file: &[u8], sizes: &mut [u16]) -> u64
    ensures { SizesOf file.now sizes.old result sizes.new }
{
    host::read_sizes(file, sizes)
}
