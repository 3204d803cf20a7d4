// The sizes of a job file, for a host that did not write it.
ghost use Rattle.std.specs.Prelude.{◌≡◌};
ghost use Rattle.host.specs.Sizes.{SizesOf};
ghost use Rattle.host.specs.Steps.Copied.{refusal_number, refusal_place, SizesCopied};
ghost use Rattle.host.specs.declared.sizes.Refusal.TheVariants.{File};

use crate::packed;
use answering::answer::Answer;
use jobfile::answers::FileFault;

// The file is refused, or there is no room for its sizes. Kept: beside jobfile's `NoJob`, which is of this shape, since the two
// say different things and have different numbers.
#[derive(Clone, Copy, PartialEq, Eq)]
enum Refusal {
    File(FileFault),
    Room,
}

impl From<FileFault> for Refusal {
    ghost from_gives = { λ fault refusal. refusal ≡ File fault };

    fn from(fault: FileFault) -> Refusal {
        Refusal::File(fault)
    }
}

impl Answer for Refusal {
    ghost number_of = { refusal_number };

    ghost place_of = { refusal_place };

    fn number(self) -> u16 {
        match self {
            Refusal::File(fault) => fault.number(),
            Refusal::Room => 2,
        }
    }

    fn place(self) -> u16 {
        match self {
            Refusal::File(fault) => fault.place(),
            Refusal::Room => 0,
        }
    }
}

// Copies the file's 2J sizes over the front of the row, and gives J.
fn copy_sizes(file: &[u8], sizes: &mut [u16]) -> Result<u16, Refusal>
    ensures { SizesCopied file.now sizes.old result sizes.new }
{
    jobfile::judge(file)?;
    let jobs: u16 = rows::read(file, 0);
    let count = 2 * jobs as usize;
    if sizes.len() < count {
        return Err(Refusal::Room);
    }
    jobfile::put_sizes(file, count, sizes);
    Ok(jobs)
}

// Answer + 65,536 x place + 4,294,967,296 x J, and on 0 the file's 2J sizes over the front of the row.
pub fn read_sizes(file: &[u8], sizes: &mut [u16]) -> u64
    ensures { SizesOf file.now sizes.old result sizes.new }
{
    let copied = copy_sizes(file, sizes);
    packed::as_one(copied, copied.unwrap_or(0))
}
