// The lines of one job: its table and list are taken out of the file and matched, and the answer is told.
ghost use Rattle.std.specs.Prelude.{◌≤◌, OnOk};
ghost use Rattle.lines.specs.Lines.{line_room, LineIn, TextIn};
ghost use Rattle.listing.specs.Listing.{JobListed};
ghost use Rattle.listing.specs.Parts.{job_at};
ghost use Rattle.listing.specs.Steps.Putting.{job_room, Tellable, answer_line, answer_lines, RowsForListing};

use crate::parts::JOB_ROOM;
use crate::variables;
use answering::answer::Answer;
use jobfile::FoundJob;
use matcher::answer;
use matcher::answer::{Counts, Refusal};
use words::limits::{MOST_BYTES, MOST_WORDS};

// Puts the line of a job over the front of row, and returns its length.
fn put_job(job: u16, answer: Result<Counts, Refusal>, row: &mut [u8; JOB_ROOM]) -> usize
    ensures { LineIn (answer_line job answer) row.old result row.new × (result ≤ line_room) }
{
    lines::job_line(
        job,
        answer.number(),
        answer.place(),
        answer::joins(answer),
        row.first_chunk_mut().unwrap(),
    )
}

// The same, and after an accepted job the lines of its variables.
fn put_answer(
    job: u16,
    answer: Result<Counts, Refusal>,
    table: &[u32],
    class: &[u16],
    row: &mut [u8; JOB_ROOM],
) -> usize
    requires { OnOk answer (Tellable table.now class.now) }
    ensures { LineIn (answer_lines job answer table.now class.now) row.old result row.new × (result ≤ job_room) }
{
    let size = put_job(job, answer, row);
    match answer {
        Ok(_) => variables::put_variables(table, class, row, size),
        Err(_) => size,
    }
}

// Matches a job in rows of just the right lengths, and tells it.
fn match_job(
    job: FoundJob<'_>,
    table: &mut [u32],
    list: &mut [u16],
    class: &mut [u16],
    work: &mut [u16],
    row: &mut [u8; JOB_ROOM],
) -> usize
    requires { RowsForListing job.file.now job.number table.old list.old class.old work.old }
    ensures { TextIn (JobListed job.entry.number (job_at job.entry.file.now job.entry.number)) row.old result row.new × (result ≤ job_room) }
{
    jobfile::take_job(job.file, job.number, table, list);
    let answer = matcher::match_list(table, list, class, work);
    put_answer(job.number as u16, answer, table, class, row)
}

// Kept: arrays and no `Vec`, since there is no heap.
//
// The lines of a job. The rows are new for each job, so nothing of the last one is there, and have room for all words and all
// addresses that a file can hold.
pub(crate) fn put_job_lines(job: FoundJob<'_>, row: &mut [u8; JOB_ROOM]) -> usize
    ensures { TextIn (JobListed job.entry.number (job_at job.entry.file.now job.entry.number)) row.old result row.new × (result ≤ job_room) }
{
    let mut table = [0u32; MOST_BYTES / 4];
    let mut list = [0u16; MOST_BYTES / 2];
    let mut class = [0u16; MOST_WORDS];
    let mut work = [0u16; 4 * MOST_WORDS];
    let entries = 2 * job.pairs;
    match_job(
        job,
        &mut table[..job.words],
        &mut list[..entries],
        &mut class,
        &mut work,
        row,
    )
}
