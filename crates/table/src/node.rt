// What a node of the table is, by its address.
ghost use Rattle.std.specs.Prelude.{◌≡◌, ◌+◌, ◌<◌, length};
ghost use Rattle.words.specs.Word.{kind_of, same_kind};
ghost use Rattle.words.specs.declared.kind.Kind.{Kind};
ghost use Rattle.table.specs.Heads.{top};
ghost use Rattle.table.specs.Table.{kind_at, node_kind, named, degree as degree_at, child_of};
ghost use Rattle.table.specs.Readable.{Readable};

use words::head::Head;
use words::kind::Kind;
use words::numbers::Address;
use words::{kind, word};

// Whether a word is a node.
pub fn is_node_word(word: u32) -> bool
    ensures { result ≡ node_kind (kind_of word) }
{
    kind::is_node(word::kind(word))
}

// Whether the word at an address is a node. No address past the end is.
pub fn is_node(table: &[u32], x: Address) -> bool
    ensures { result ≡ node_kind (kind_at table.now x.0) }
{
    let at = x.0 as usize;
    at < table.len() && is_node_word(table[at])
}

// Whether the word at an address is a function. Only a function has children.
pub fn is_function(table: &[u32], x: Address) -> bool
    requires { x.0 < length table.now }
    ensures { result ≡ same_kind (kind_at table.now x.0) Kind.Function }
{
    word::kind(table[x.0 as usize]) == Kind::Function
}

// How many children the node at an address has.
pub fn degree(table: &[u32], x: Address) -> u16
    requires { Readable table.now × (x.0 < length table.now) }
    ensures { result ≡ degree_at table.now x.0 }
{
    let at = x.0 as usize;
    if word::kind(table[at]) == Kind::Function {
        word::content(table[at + 1])
    } else {
        0
    }
}

// The node that an argument word names: itself, or the one that a pointer names.
fn named_at(table: &[u32], at: u16) -> Address
    requires { at < length table.now }
    ensures { result.0 ≡ named table.now at }
{
    let word = table[at as usize];
    if word::kind(word) == Kind::Pointer {
        word::address(word)
    } else {
        Address(at)
    }
}

// The child at place i, from 0, of the function at an address.
pub fn child(table: &[u32], x: Address, i: u16) -> Address
    requires { Readable table.now × (i < degree_at table.now x.0) }
    ensures { result.0 ≡ child_of table.now x.0 i }
{
    let first = x.0 + 2;
    named_at(table, first + i)
}

// What stands at the address of a node, at its top.
pub fn head(table: &[u32], x: Address) -> Head
    requires { Readable table.now × (x.0 < length table.now) }
    ensures { result ≡ top table.now x.0 }
{
    let at = x.0 as usize;
    let word = table[at];
    match word::kind(word) {
        Kind::Function => Head::Function(word::label(word), word::content(table[at + 1])),
        Kind::Constant => Head::Constant(word::label(word)),
        _ => Head::Variable(word::label(word)),
    }
}
