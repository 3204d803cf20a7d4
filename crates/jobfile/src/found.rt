// A job of a job file, found by its number: "Jobs are numbered from 1".
ghost use Rattle.std.specs.Prelude.{◌≡◌};
ghost use Rattle.jobfile.specs.Found.{FoundBy, refusal_number, refusal_place};
ghost use Rattle.jobfile.specs.declared.found.NoJob.TheVariants.{File};

use crate::answers::FileFault;
use crate::contents;
use crate::job::FoundJob;
use answering::answer::Answer;

// Why there is no job of a number: the file is refused, or has none of that number.
#[derive(Clone, Copy, PartialEq, Eq)]
pub enum NoJob {
    File(FileFault),
    Number,
}

impl From<FileFault> for NoJob {
    ghost from_gives = { λ fault none. none ≡ File fault };

    fn from(fault: FileFault) -> NoJob {
        NoJob::File(fault)
    }
}

impl Answer for NoJob {
    ghost number_of = { refusal_number };

    ghost place_of = { refusal_place };

    fn number(self) -> u16 {
        match self {
            NoJob::File(fault) => fault.number(),
            NoJob::Number => 15,
        }
    }

    fn place(self) -> u16 {
        match self {
            NoJob::File(fault) => fault.place(),
            NoJob::Number => 0,
        }
    }
}

// The job of a number, from 1.
pub fn find(file: &[u8], number: usize) -> Result<FoundJob<'_>, NoJob>
    ensures { FoundBy file.now number result }
{
    contents::judge(file)?;
    let jobs = contents::number(file, 0);
    if number == 0 || jobs < number {
        return Err(NoJob::Number);
    }
    let entry = 2 + 6 * (number - 1);
    let words = contents::number(file, entry + 2);
    let pairs = contents::number(file, entry + 4);
    Ok(FoundJob {
        file,
        number,
        words,
        pairs,
    })
}
