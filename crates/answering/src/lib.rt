// What an answer is: a number from document 01's table of numbers, and a place.
//
// How the number is picked from rows, and what an answer leaves in lent rows, stands in specs/, for every crate that answers. Two
// answers share code: what has a number and a place (answer), and what is wrong with a table (fault).
#![tactic(auto)]

pub mod answer;
pub mod fault;
