// Numbers in rows of bytes: numbers of 16 and 32 bits are read from them, and numbers of 16 bits are written into them, the low
// byte first.
//
// Each contract is an equation on the whole row, so it says what changes and what stays. The definitions that they cite,
// specs/LittleEndian.antt and specs/Placed.antt, and the laws on them, proofs/Laws.antt, are for callers too: among them what the
// library's `fill` and `copy_from_slice` leave of a row.
#![tactic(auto)]

mod little_endian;

pub use little_endian::{LittleEndian, read, write16};
