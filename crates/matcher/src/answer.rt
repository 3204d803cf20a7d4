// The answers of a match, and their numbers: "Each match returns answer, place and joins."
ghost use Rattle.std.specs.Prelude.{◌≡◌};
ghost use Rattle.matcher.specs.Match.{refusal_number, refusal_place, joins_of};
ghost use Rattle.matcher.specs.declared.answer.Refusal.TheVariants.{Table};

use answering::answer::Answer;
use answering::fault::TableFault;
use words::numbers::PairNumber;

// What is counted of an accepted list.
#[derive(Clone, Copy, PartialEq, Eq)]
pub struct Counts {
    pub joins: u16,
}

// A list is refused for what is wrong with the table, for its own length, or at the pair of a number.
#[derive(Clone, Copy, PartialEq, Eq)]
pub enum Refusal {
    Table(TableFault),
    List,
    Side(PairNumber),
    Clash(PairNumber),
    Cycle(PairNumber),
}

impl From<TableFault> for Refusal {
    ghost from_gives = { λ fault refusal. refusal ≡ Table fault };

    fn from(fault: TableFault) -> Refusal {
        Refusal::Table(fault)
    }
}

impl Answer for Refusal {
    ghost number_of = { refusal_number };

    ghost place_of = { refusal_place };

    fn number(self) -> u16 {
        match self {
            Refusal::Table(wrong) => wrong.number(),
            Refusal::List => 8,
            Refusal::Side(_) => 9,
            Refusal::Clash(_) => 10,
            Refusal::Cycle(_) => 11,
        }
    }

    fn place(self) -> u16 {
        match self {
            Refusal::Table(wrong) => wrong.place(),
            Refusal::List => 0,
            Refusal::Side(k) | Refusal::Clash(k) | Refusal::Cycle(k) => k.0,
        }
    }
}

// The joins: "Joins is 0 on refusal."
pub fn joins(answer: Result<Counts, Refusal>) -> u16
    ensures { result ≡ joins_of answer }
{
    match answer {
        Ok(counts) => counts.joins,
        Err(_) => 0,
    }
}
