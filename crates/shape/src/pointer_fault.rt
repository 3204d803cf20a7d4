// Answer 5, POINTER: "it names 0, an address of n or more, a pointer or a count".
ghost use Rattle.std.specs.Prelude.{◌≡◌, ◌<◌, length};
ghost use Rattle.answering.specs.Answers.{Found};
ghost use Rattle.table.specs.Faults.{bad_target, bad_pointer};

use words::kind::Kind;
use words::numbers::Address;
use words::word;

// Whether no pointer may name this address.
pub fn is_bad_target(table: &[u32], target: Address) -> bool
    ensures { result ≡ bad_target table.now target.0 }
{
    let at = target.0 as usize;
    at == 0 || table.len() <= at || matches!(word::kind(table[at]), Kind::Pointer | Kind::Count)
}

// Whether the word at an address is a bad pointer.
fn is_bad_pointer(table: &[u32], at: usize) -> bool
    requires { at < length table.now }
    ensures { result ≡ bad_pointer table.now at }
{
    let word = table[at];
    word::kind(word) == Kind::Pointer && is_bad_target(table, word::address(word))
}

// The lowest address of a bad pointer.
pub fn first_bad_pointer(table: &[u32]) -> Option<usize>
    ensures { Found (bad_pointer table.now) (length table.now) result }
{
    (0..table.len()).find(|&at| is_bad_pointer(table, at))
}
