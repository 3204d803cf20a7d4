// Why a file, or what a file is to be written of, is refused.
ghost use Rattle.jobfile.specs.Reader.{fault_number as file_number, fault_place as file_place};
ghost use Rattle.jobfile.specs.Writer.{fault_number as write_number, fault_place as write_place};

use answering::answer::Answer;

// The number of an entry of the contents, from 1; J + 1 for what follows the last body.
#[derive(Clone, Copy, PartialEq, Eq)]
pub struct EntryNumber(pub u16);

// The reader's: one case for each of 12, 13 and 14.
#[derive(Clone, Copy, PartialEq, Eq)]
pub enum FileFault {
    File,
    Contents,
    Body(EntryNumber),
}

// The writer's: one case for each of 13, 14, 12 and 2. Their place is 0.
#[derive(Clone, Copy, PartialEq, Eq)]
pub enum WriteFault {
    Contents,
    Body,
    File,
    Room,
}

impl Answer for FileFault {
    ghost number_of = { file_number };

    ghost place_of = { file_place };

    fn number(self) -> u16 {
        match self {
            FileFault::File => 12,
            FileFault::Contents => 13,
            FileFault::Body(_) => 14,
        }
    }

    fn place(self) -> u16 {
        match self {
            FileFault::File | FileFault::Contents => 0,
            FileFault::Body(entry) => entry.0,
        }
    }
}

impl Answer for WriteFault {
    ghost number_of = { write_number };

    ghost place_of = { write_place };

    fn number(self) -> u16 {
        match self {
            WriteFault::Contents => 13,
            WriteFault::Body => 14,
            WriteFault::File => 12,
            WriteFault::Room => 2,
        }
    }

    fn place(self) -> u16 {
        0
    }
}
