// A job's table and list, copied out of its body: "All numbers are little-endian, 16 bits except table words."
//
// Either copy stops where the body ends or the room does.
ghost use Rattle.std.specs.Prelude.{◌≡◌};
ghost use Rattle.jobfile.specs.Steps.Taking.{taken};
ghost use Rattle.jobfile.specs.File.{body_in};
ghost use Rattle.jobfile.specs.Jobs.{entry_of, JobThere, RowsForJob, JobTaken};

use crate::contents;
use rows::LittleEndian;

// Copies the numbers at the front of bytes over the front of into: as many as there are, and as have room. The entries after
// them stay.
fn take<T: LittleEndian>(bytes: &[u8], into: &mut [T])
    ensures { into.new ≡ taken T.of_number T.WIDTH bytes.now into.old }
{
    let count = into.len().min(bytes.len() / T::WIDTH);
    for i in 0..count {
        into[i] = rows::read(bytes, T::WIDTH * i);
    }
}

// The body of the job of a number, from 1.
fn body(file: &[u8], job: usize) -> &[u8]
    requires { JobThere file.now job }
    ensures { result.now ≡ body_in file.now (entry_of job) }
{
    let start = contents::number(file, 2 + 6 * (job - 1));
    let end = start + contents::body_size(file, job - 1);
    &file[start..end]
}

// Copies the words of the job of a number, from 1, into table, and its addresses into list, as many as have room.
//
// Kept: a file and a number, and not a `FoundJob`, for which a caller would need p too. docs/CONTRACTS.md names this function.
pub fn take_job(file: &[u8], job: usize, table: &mut [u32], list: &mut [u16])
    requires { RowsForJob file.now job table.old list.old }
    ensures { JobTaken file.now job list.old table.new list.new }
{
    let body = body(file, job);
    let start = 4 * table.len();
    take(body, table);
    take(&body[start..], list);
}
