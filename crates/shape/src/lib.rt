// The shape of a table: rows 3, 4 and 5 of document 01's table of numbers, each by itself. One scan of
// the words for each finds the first place at which the row applies; the table check says which row
// answers. It also uses the tests of single words that these scans make.
#![tactic(auto)]

pub mod layout_fault;
pub mod pointer_fault;
pub mod word_fault;
