// What the contents of a file say. Document 01, 'The job file': "Count J, then J entries of three numbers: offset of the
// body, n, number of pairs p." Entries are counted from 0 here.
ghost use Rattle.std.specs.Prelude.{◌≡◌, ◌+◌, ◌*◌, ◌≤◌, ◌<◌, length};
ghost use Rattle.rows.specs.LittleEndian.{number_at};
ghost use Rattle.jobfile.specs.File.{body_size, words_in, pairs_in};
ghost use Rattle.jobfile.specs.Reader.{Judged};
ghost use Rattle.jobfile.specs.Steps.Reading.{Opened, BodiesJudged};

use crate::answers::{EntryNumber, FileFault};
use words::limits::{MOST_BYTES, MOST_JOBS};

// The number of 16 bits at a place, wide enough to compute with. That it is below 65,536 is said too, so that no caller has
// to show it.
pub(crate) fn number(file: &[u8], at: usize) -> usize
    requires { at + 2 ≤ length file.now }
    ensures { (result ≡ number_at 2 at file.now) × (result < 65536) }
{
    rows::read::<u16>(file, at) as usize
}

// How many bytes the body of entry k has.
pub(crate) fn body_size(file: &[u8], k: usize) -> usize
    requires { 2 + 6 * k + 6 ≤ length file.now }
    ensures { (result ≡ body_size (words_in file.now k) (pairs_in file.now k)) × (result < 524288) }
{
    let n = number(file, 2 + 6 * k + 2);
    let p = number(file, 2 + 6 * k + 4);
    4 * n + 4 * p
}

// The answer by the row 14, for a file that neither 12 nor 13 refuses.
fn judge_bodies(file: &[u8], jobs: usize) -> Result<(), FileFault>
    requires { Opened file.now jobs }
    ensures { BodiesJudged file.now result }
{
    let mut start = 2 + 6 * jobs;
    for k in 0..jobs {
        if number(file, 2 + 6 * k) != start {
            return Err(FileFault::Body(EntryNumber((k + 1) as u16)));
        }
        let end = start + body_size(file, k);
        if file.len() < end {
            return Err(FileFault::Body(EntryNumber((k + 1) as u16)));
        }
        start = end;
    }
    if start < file.len() {
        return Err(FileFault::Body(EntryNumber((jobs + 1) as u16)));
    }
    Ok(())
}

// The answer for a file: the first of 12, 13 and 14 that applies, or that it is good.
pub fn judge(file: &[u8]) -> Result<(), FileFault>
    ensures { Judged file.now result }
{
    if file.len() < 2 || MOST_BYTES < file.len() {
        return Err(FileFault::File);
    }
    let jobs = number(file, 0);
    if jobs == 0 || MOST_JOBS < jobs || file.len() < 2 + 6 * jobs {
        return Err(FileFault::Contents);
    }
    judge_bodies(file, jobs)
}
