// What is wrong with a table: the answers 1 to 7 of the table check, and of a match.
ghost use Rattle.answering.specs.TableFaults.{number_of, place_of};

use crate::answer::Answer;
use words::numbers::Address;

// One case for each number from 1 to 7; those whose place is an address carry it.
#[derive(Clone, Copy, PartialEq, Eq)]
pub enum TableFault {
    Size,
    Room,
    Word(Address),
    Layout(Address),
    Pointer(Address),
    Name(Address),
    Loop,
}

impl Answer for TableFault {
    ghost number_of = { number_of };

    ghost place_of = { place_of };

    fn number(self) -> u16 {
        match self {
            TableFault::Size => 1,
            TableFault::Room => 2,
            TableFault::Word(_) => 3,
            TableFault::Layout(_) => 4,
            TableFault::Pointer(_) => 5,
            TableFault::Name(_) => 6,
            TableFault::Loop => 7,
        }
    }

    fn place(self) -> u16 {
        match self {
            TableFault::Size | TableFault::Room | TableFault::Loop => 0,
            TableFault::Word(a)
            | TableFault::Layout(a)
            | TableFault::Pointer(a)
            | TableFault::Name(a) => a.0,
        }
    }
}
