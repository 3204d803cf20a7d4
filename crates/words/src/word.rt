// One word, taken apart. These functions take any 32-bit number, even one that is not a word.
ghost use Rattle.std.specs.Prelude.{◌≡◌};
ghost use Rattle.words.specs.Word.{content_of, tag_of, kind_of};

use crate::kind::Kind;
use crate::numbers::{Address, Label};

// A word is tag x 65,536 + content.
const TAG_UNIT: u32 = 65536;

// The five bits of the tag.
pub fn tag(word: u32) -> u16
    ensures { result ≡ tag_of word }
{
    (word / TAG_UNIT % 32) as u16
}

// The 16 bits of the content.
pub fn content(word: u32) -> u16
    ensures { result ≡ content_of word }
{
    (word % TAG_UNIT) as u16
}

// The content as a label, which it is in a variable, a constant and a function word.
//
// Kept: this and `address` are two functions, since the kind of the word says which of the two its
// content is; one function over both types would let it be either.
pub fn label(word: u32) -> Label
    ensures { result.0 ≡ content_of word }
{
    Label(content(word))
}

// The content as an address, which it is in a pointer word.
pub fn address(word: u32) -> Address
    ensures { result.0 ≡ content_of word }
{
    Address(content(word))
}

// Kept: not as `From`, since it stands beside the other parts of a word, which are numbers and cannot be
// read by type.
//
// The kind of a word. One division tests tag and high bits together: a high bit that is set makes
// the quotient 32 or more, which is no tag.
pub fn kind(word: u32) -> Kind
    ensures { result ≡ kind_of word }
{
    match word / TAG_UNIT {
        16 => Kind::Variable,
        18 => Kind::Constant,
        19 => Kind::Function,
        20 => Kind::Pointer,
        24 => Kind::Count,
        _ => Kind::NoWord,
    }
}
