// Addresses, labels and pair numbers. They are never compared with one another, though all three are
// small numbers, so each is a struct of its own.

// A place in the table, from 0.
#[derive(Clone, Copy, PartialEq, Eq)]
pub struct Address(pub u16);

// What tells symbols of the same argument count apart, and names a variable. Variables are told apart
// by their addresses.
#[derive(Clone, Copy, PartialEq, Eq)]
pub struct Label(pub u16);

// The label of every variable that has no name.
pub const UNNAMED: Label = Label(0);

// A place in the list of pairs, from 1.
#[derive(Clone, Copy, PartialEq, Eq)]
pub struct PairNumber(pub u16);
