// The static library that a host program links: the five entries of crate station, exported to C under their own names.
//
// Kept: a function here for each function there, since what is exported to C is `extern "C"`, and Rattle's own crates call the
// other.
//
// Each is its entry's call, with its entry's clause: what an entry returns and leaves is said there and in the definitions that
// the clauses name.
#![tactic(auto)]

ghost use Rattle.host.specs.Host.{HostOf};
ghost use Rattle.host.specs.Sizes.{SizesOf};
ghost use Rattle.station.specs.Entries.{LentOf, CheckedOf, WrittenOf};

// The answer for the job of a number, from 1, in a job file.
//
// 12, 13 and 14 are the file's, 15 is for a number that no job has, 1 is for its table's size, and 2 for room under 6 + 2n
// bytes: these six write nothing. Any other answer leaves in the room answer, place, joins and the n class entries, 2 bytes
// each, and the bytes after them as they were.
#[unsafe(no_mangle)]
pub extern "C" fn station_match(file: &[u8], job: u32, room: &mut [u8]) -> u16
    ensures { HostOf file.now job room.old result room.new }
{
    station::station_match(file, job, room)
}

// Answer + 65,536 x place + 4,294,967,296 x joins of a match on lent buffers.
#[unsafe(no_mangle)]
pub extern "C" fn station_lent(
    table: &[u32],
    list: &[u16],
    class: &mut [u16],
    work: &mut [u16],
) -> u64
    ensures { LentOf table.now list.now class.old work.old result class.new work.new }
{
    station::station_lent(table, list, class, work)
}

// The same of the table check by itself. Its joins is 0.
#[unsafe(no_mangle)]
pub extern "C" fn station_check(table: &[u32], class: &mut [u16], work: &mut [u16]) -> u64
    ensures { CheckedOf table.now class.old work.old result class.new work.new }
{
    station::station_check(table, class, work)
}

// The writer's number.
#[unsafe(no_mangle)]
pub extern "C" fn station_write(sizes: &[u16], bodies: &[u8], room: &mut [u8]) -> u16
    ensures { WrittenOf sizes.now bodies.now room.old result room.new }
{
    station::station_write(sizes, bodies, room)
}

// Answer + 65,536 x place + 4,294,967,296 x J of a job file, and its 2J sizes.
//
// 12, 13 and 14 are the file's, and 2 is for room for fewer than 2J sizes: these four write nothing, and their J is 0. On 0 the
// first 2J entries are n, p, n, p, .., and the entries after them as they were.
#[unsafe(no_mangle)]
pub extern "C" fn station_read(file: &[u8], sizes: &mut [u16]) -> u64
    ensures { SizesOf file.now sizes.old result sizes.new }
{
    station::station_read(file, sizes)
}
