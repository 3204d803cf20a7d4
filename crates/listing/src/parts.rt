// The parts of a listing, each put over the front of a lent row; a function returns how many bytes it put there, and the bytes
// after them stay. None asks anything of its caller.
//
// Kept: the length is returned and not the bytes, for the reason at the head of crate lines.
ghost use Rattle.lines.specs.Lines.{TextIn, Counts};
ghost use Rattle.listing.specs.Parts.{FirstLine, JobsTold, JobPart};

use crate::job;
use lines::LINE_ROOM;
use words::limits::MOST_WORDS;

// A job has a line for itself and at most one for each word.
pub(crate) const JOB_ROOM: usize = LINE_ROOM * (1 + MOST_WORDS);

// The line of a refused file, or the header.
pub(crate) fn first_line(file: &[u8], line: &mut [u8; LINE_ROOM]) -> usize
    ensures counts { Counts result line.new }
    ensures text_in { TextIn (FirstLine file.now) line.old result line.new }
{
    match jobfile::judge(file) {
        Ok(()) => lines::header_line(line),
        Err(fault) => lines::file_line(fault, line),
    }
}

// How many jobs there are to tell: none of a refused file.
pub(crate) fn jobs(file: &[u8]) -> usize
    ensures { JobsTold file.now result }
{
    jobfile::read(file).sizes.count / 2
}

// The line of the job of a number, from 1, and after an accepted one a line for each variable of its table; nothing where there
// is no such job.
pub(crate) fn job_lines(file: &[u8], number: usize, lines: &mut [u8; JOB_ROOM]) -> usize
    ensures counts { Counts result lines.new }
    ensures text_in { TextIn (JobPart file.now number) lines.old result lines.new }
{
    match jobfile::find(file, number) {
        Ok(job) => job::put_job_lines(job, lines),
        Err(_) => 0,
    }
}
