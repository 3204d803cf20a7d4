// An answer's three numbers as one.
ghost use Rattle.std.specs.Prelude.{◌≡◌};
ghost use Rattle.host.specs.AsOne.{as_one};

use answering::answer::Answer;

// Answer + 65,536 x place + 4,294,967,296 x a third number: a match's joins, or a file's J.
//
// Kept: packed by hand into one number, as the C header says; no form of the library is that.
pub(crate) fn packed(answer: u16, place: u16, third: u16) -> u64
    ensures { result ≡ as_one answer place third }
{
    u64::from(answer) + 65536 * u64::from(place) + 4294967296 * u64::from(third)
}

// The same of any answer that has a number and a place.
pub fn as_one<A: Answer>(answer: A, third: u16) -> u64
    ensures { result ≡ as_one (A.number_of answer) (A.place_of answer) third }
{
    packed(answer.number(), answer.place(), third)
}
