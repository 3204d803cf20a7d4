// What stands at the top of a node, and its symbol.
ghost use Rattle.std.specs.Prelude.{◌≡◌};
ghost use Rattle.words.specs.Head.{label_of, label_and_count};

use crate::numbers::Label;

// A node's kind with its data: the label and, of a function, the argument count. A checked table
// has counts from 1 to 255; the functions here take any.
#[derive(Clone, Copy, PartialEq, Eq)]
pub enum Head {
    Variable(Label),
    Constant(Label),
    Function(Label, u16),
}

// A label with its argument count.
#[derive(Clone, Copy, PartialEq, Eq)]
pub struct Symbol {
    pub label: Label,
    pub count: u16,
}

// The label of a head. Variable labels are a name space of their own.
pub fn label_of(head: Head) -> Label
    ensures { result ≡ label_of head }
{
    match head {
        Head::Variable(label) => label,
        Head::Constant(label) => label,
        Head::Function(label, _) => label,
    }
}

// The label of a head with its argument count, which is 0 for all but functions. For a constant and
// for a function this is the symbol; a variable has no symbol.
pub fn label_and_count(head: Head) -> Symbol
    ensures { result ≡ label_and_count head }
{
    match head {
        Head::Variable(label) => Symbol { label, count: 0 },
        Head::Constant(label) => Symbol { label, count: 0 },
        Head::Function(label, count) => Symbol { label, count },
    }
}
