// The kinds of word, by their tags, and the sets of kinds that are asked for.
ghost use Rattle.std.specs.Prelude.{◌≡◌};
ghost use Rattle.words.specs.Word.{argument_kinds, is_one_of, node_kinds};

#[derive(Clone, Copy, PartialEq, Eq)]
pub enum Kind {
    Variable,
    Constant,
    Function,
    Pointer,
    // An argument count.
    Count,
    // No word: the tag is not in the table of tags, or a high bit is set. It is a kind because any
    // 32-bit number can stand in a table that is not checked yet.
    //
    // Kept: an Option of a kind would put `Some` around each of the five where kinds are asked for, and
    // `kind_of`, on which the definitions of a table rest, has it as a kind.
    NoWord,
}

// Whether a word of this kind is a node, which is also what an item begins with.
pub fn is_node(kind: Kind) -> bool
    ensures { result ≡ is_one_of node_kinds kind }
{
    matches!(kind, Kind::Variable | Kind::Constant | Kind::Function)
}

// Whether a word of this kind can be an argument.
//
// Kept: this and `is_node` differ in a set alone, and each is the line that names its set.
pub fn is_argument(kind: Kind) -> bool
    ensures { result ≡ is_one_of argument_kinds kind }
{
    matches!(kind, Kind::Variable | Kind::Constant | Kind::Pointer)
}
