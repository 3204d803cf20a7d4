// Document 01's limits; specs/Limits.antt has the sentence of each.
pub const MOST_WORDS: usize = 4096;

pub const MOST_ARGUMENTS: u16 = 255;

pub const MOST_ENTRIES: usize = 512;

pub const MOST_BYTES: usize = 32768;

pub const MOST_JOBS: usize = 64;

pub const MOST_SIZES: usize = 128;
