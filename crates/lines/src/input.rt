// What a program reads.
ghost use Rattle.std.specs.Prelude.{◌≤◌, length, take};
ghost use Rattle.std.specs.Io.KnownBytes.{Consumes};

use std::io::Read;

// Kept: `read` says how many bytes came, so the count is no index that goes up by one.
//
// Reads into the row until it is full, the input ends or a read fails, and returns how many bytes were read: they stand in front.
pub fn read_to_fill<R: Read>(input: &mut R, row: &mut [u8]) -> usize
    ensures within { result ≤ length row.new }
    ensures bytes { Consumes (R.remaining input.old) (R.remaining input.new) (take result row.new) }
{
    let mut size = 0;
    while size < row.len() {
        match input.read(&mut row[size..]) {
            Ok(0) | Err(_) => return size,
            Ok(count) => size += count,
        }
    }
    size
}
