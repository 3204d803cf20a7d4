// A job that the host call found, in rows of the size that it has. Rows are new at each call, so nothing of the last one is
// there, and a new row is cleared: rows for the largest table would cost a small job more than its match.
ghost use Rattle.std.specs.Prelude.{◌≡◌, ◌*◌, ◌≤◌, length};
ghost use Rattle.words.specs.Limits.{most_words};
ghost use Rattle.host.specs.Host.{HostOf};
ghost use Rattle.host.specs.Steps.Choice.{Matchable};
ghost use Rattle.host.specs.Steps.Rows.{RowsFit};

use crate::{LIST_ROOM, job};
use jobfile::FoundJob;
use words::limits::MOST_WORDS;

// Kept: arrays of three lengths and no `Vec`, since there is no heap. `Matchable` is asked in a clause, since it
// speaks of the job and of the room.
//
// Words of a small and of a middle table, and the entries of a work row for them and for the largest.
const SMALL: usize = 64;

const SMALL_WORK: usize = 4 * SMALL;

const MIDDLE: usize = 512;

const MIDDLE_WORK: usize = 4 * MIDDLE;

const LARGE_WORK: usize = 4 * MOST_WORDS;

// Matches a job in the fronts of rows that have room for it.
fn match_in(
    job: FoundJob<'_>,
    table: &mut [u32],
    list: &mut [u16],
    class: &mut [u16],
    work: &mut [u16],
    room: &mut [u8],
) -> u16
    requires { Matchable job.words (length room.old) × RowsFit job.words (length table.old) (length list.old) (length class.old) (length work.old) }
    ensures { HostOf job.entry.file.now job.entry.number room.old result room.new }
{
    let n = job.words;
    let entries = (2 * job.pairs).min(list.len());
    job::match_lent(
        job,
        &mut table[..n],
        &mut list[..entries],
        &mut class[..n],
        &mut work[..4 * n],
        room,
    )
}

// The same in new rows for a table of up to WORDS words. WORK is four times WORDS, which has to be said, since the
// length of a row cannot be computed from a parameter.
fn match_in_rows<const WORDS: usize, const WORK: usize>(
    job: FoundJob<'_>,
    list: &mut [u16; LIST_ROOM],
    room: &mut [u8],
) -> u16
    requires { Matchable job.words (length room.old) × (job.words ≤ WORDS) × (WORDS ≤ most_words) × (WORK ≡ 4 * WORDS) }
    ensures { HostOf job.entry.file.now job.entry.number room.old result room.new }
{
    let mut table = [0u32; WORDS];
    let mut class = [0u16; WORDS];
    let mut work = [0u16; WORK];
    match_in(job, &mut table, list, &mut class, &mut work, room)
}

// Matches a job, by the size of its table.
pub(crate) fn match_found(job: FoundJob<'_>, list: &mut [u16; LIST_ROOM], room: &mut [u8]) -> u16
    requires { Matchable job.words (length room.old) }
    ensures { HostOf job.entry.file.now job.entry.number room.old result room.new }
{
    if job.words <= SMALL {
        return match_in_rows::<SMALL, SMALL_WORK>(job, list, room);
    }
    if job.words <= MIDDLE {
        return match_in_rows::<MIDDLE, MIDDLE_WORK>(job, list, room);
    }
    match_in_rows::<MOST_WORDS, LARGE_WORK>(job, list, room)
}
