// The job file of document 01: read, written, and taken apart into a job's table and list.
//
// No function here asks anything of its caller, but for put_sizes and take_job, which ask for a file that passed and for rows
// of the right lengths. A definition of specs/ says for each what it answers and what it leaves in the rows that it is lent, and
// a theorem of proofs/Theorems.antt that it says so of one result only.
#![tactic(auto)]

pub mod answers;
mod contents;
mod found;
mod job;
mod reader;
pub mod sizes;
mod taken;
mod writer;

pub use contents::judge;
pub use found::{NoJob, find};
pub use job::FoundJob;
pub use reader::{FileRead, bodies, put_sizes, read};
pub use taken::take_job;
pub use writer::write;
