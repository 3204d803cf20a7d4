// Which job the host call is about, or by which of 12, 13, 14, 15, 1 and 2 it is refused.
ghost use Rattle.std.specs.Prelude.{◌≡◌};
ghost use Rattle.host.specs.Steps.Choice.{refusal_number, Choice};
ghost use Rattle.host.specs.declared.choice.Refusal.TheVariants.{Job};

use answering::answer::Answer;
use jobfile::{FoundJob, NoJob};
use words::limits::MOST_WORDS;

// There is no such job, or its table is of a size that is not allowed, or there is no room for its report.
#[derive(Clone, Copy, PartialEq, Eq)]
pub(crate) enum Refusal {
    Job(NoJob),
    Size,
    Room,
}

impl From<NoJob> for Refusal {
    ghost from_gives = { λ none refusal. refusal ≡ Job none };

    fn from(none: NoJob) -> Refusal {
        Refusal::Job(none)
    }
}

impl Refusal {
    // Its number. The host call returns no place.
    pub(crate) fn number(self) -> u16
        ensures { result ≡ refusal_number self }
    {
        match self {
            Refusal::Job(none) => none.number(),
            Refusal::Size => 1,
            Refusal::Room => 2,
        }
    }
}

// The job of a number, in a file, for a room.
pub(crate) fn choose<'a>(
    file: &'a [u8],
    number: usize,
    room: &[u8],
) -> Result<FoundJob<'a>, Refusal>
    ensures { Choice file.now number room.now result }
{
    let job = jobfile::find(file, number)?;
    if job.words == 0 {
        return Err(Refusal::Size);
    }
    if MOST_WORDS < job.words {
        return Err(Refusal::Size);
    }
    if room.len() < 6 + 2 * job.words {
        return Err(Refusal::Room);
    }
    Ok(job)
}
