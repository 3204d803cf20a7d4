// Answer 3, WORD: "word 0 is not 0; a later tag is not in the table; a high bit is set; a count is 0
// or over 255".
ghost use Rattle.std.specs.Prelude.{◌≡◌, ◌<◌, length};
ghost use Rattle.answering.specs.Answers.{Found};
ghost use Rattle.table.specs.Faults.{bad_kind, bad_word};

use words::kind::Kind;
use words::limits::MOST_ARGUMENTS;
use words::word;

// Whether a word that is not the first is bad, by its kind and its content.
pub fn is_bad_kind(kind: Kind, content: u16) -> bool
    ensures { result ≡ bad_kind kind content }
{
    match kind {
        Kind::NoWord => true,
        Kind::Count => content == 0 || MOST_ARGUMENTS < content,
        _ => false,
    }
}

// Whether the word at an address is bad. Word 0 is the number 0.
fn is_bad_word(table: &[u32], at: usize) -> bool
    requires { at < length table.now }
    ensures { result ≡ bad_word table.now at }
{
    let word = table[at];
    if at == 0 {
        return word != 0;
    }
    is_bad_kind(word::kind(word), word::content(word))
}

// The lowest address of a bad word.
pub fn first_bad_word(table: &[u32]) -> Option<usize>
    ensures { Found (bad_word table.now) (length table.now) result }
{
    (0..table.len()).find(|&at| is_bad_word(table, at))
}
