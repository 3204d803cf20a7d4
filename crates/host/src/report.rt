// The answer of a match, written into the room: "answer, place, joins (2 bytes each) and the n class entries".
ghost use Rattle.std.specs.Prelude.{◌≡◌, ◌++◌, ◌+◌, ◌*◌, ◌≤◌, length};
ghost use Rattle.rows.specs.LittleEndian.{bytes_of};
ghost use Rattle.rows.specs.Placed.{placed};
ghost use Rattle.matcher.specs.Match.{number_of, place_of, joins_of};
ghost use Rattle.jobfile.specs.Numbers.{bytes_of_row};
ghost use Rattle.host.specs.Host.{report_of};

use answering::answer::Answer;
use matcher::answer;
use matcher::answer::{Counts, Refusal};

// Puts three numbers into the first 6 bytes. The bytes after them stay.
fn put_numbers(room: &mut [u8], answer: u16, place: u16, joins: u16)
    requires { 6 ≤ length room.old }
    ensures { room.new ≡ placed 0 (bytes_of 2 answer ++ bytes_of 2 place ++ bytes_of 2 joins) room.old }
{
    rows::write16(room, 0, answer);
    rows::write16(room, 2, place);
    rows::write16(room, 4, joins);
}

// Puts the class entries into the bytes from the seventh on. The bytes before and after them stay.
fn put_classes(class: &[u16], room: &mut [u8])
    requires { 6 + 2 * length class.now ≤ length room.old }
    ensures { room.new ≡ placed 6 (bytes_of_row 2 class.now) room.old }
{
    for (i, name) in class.iter().enumerate() {
        rows::write16(room, 6 + 2 * i, *name);
    }
}

// Puts an answer and the class entries in front, and gives the answer's number. The bytes after them stay.
pub(crate) fn report(answer: Result<Counts, Refusal>, class: &[u16], room: &mut [u8]) -> u16
    requires { 6 + 2 * length class.now ≤ length room.old }
    ensures { (result ≡ number_of answer) × (room.new ≡ placed 0 (report_of (number_of answer) (place_of answer) (joins_of answer) class.now) room.old) }
{
    let number = answer.number();
    put_numbers(room, number, answer.place(), answer::joins(answer));
    put_classes(class, room);
    number
}
