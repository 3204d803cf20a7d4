// A job of a file on lent rows: its words and addresses are copied out of the file, matched, and the answer is written into
// the room.
ghost use Rattle.host.specs.Host.{HostOf};
ghost use Rattle.host.specs.Steps.Rows.{RowsOfJob};

use crate::report;
use jobfile::FoundJob;

// Kept: this and `match_job` of crate listing are two functions, since they tell the answer in two ways, and no crate below
// both knows jobfile and matcher.
//
// Matches the job on rows of just the lengths that it has.
pub(crate) fn match_lent(
    job: FoundJob<'_>,
    table: &mut [u32],
    list: &mut [u16],
    class: &mut [u16],
    work: &mut [u16],
    room: &mut [u8],
) -> u16
    requires { RowsOfJob job.file.now job.number table.old list.old class.old work.old room.old }
    ensures { HostOf job.entry.file.now job.entry.number room.old result room.new }
{
    jobfile::take_job(job.file, job.number, table, list);
    let answer = matcher::match_list(table, list, class, work);
    report::report(answer, class, room)
}
