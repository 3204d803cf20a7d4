// The writer. Document 01, 'The job file': "The writer takes the sizes (n, p, n, p, ..), the bodies' bytes end to end, and
// room."
ghost use Rattle.std.specs.Prelude.{◌≡◌, ◌++◌, ◌+◌, ◌≤◌, ◌<◌, length, drop};
ghost use Rattle.rows.specs.LittleEndian.{bytes_of};
ghost use Rattle.rows.specs.Placed.{placed};
ghost use Rattle.words.specs.Limits.{most_sizes};
ghost use Rattle.jobfile.specs.File.{bodies_size};
ghost use Rattle.jobfile.specs.Writer.{WriteOf};
ghost use Rattle.jobfile.specs.Steps.Writing.{Fitted, front_of};

use crate::answers::WriteFault;
use words::limits::{MOST_BYTES, MOST_SIZES};

// How many bytes the bodies of these sizes have.
fn bodies_size(sizes: &[u16]) -> usize
    requires { length sizes.now ≤ most_sizes }
    ensures { result ≡ bodies_size sizes.now }
{
    sizes.iter().map(|size| 4 * *size as usize).sum()
}

// Puts an entry of the contents into the 6 bytes from place `at` on. The other bytes stay.
fn put_entry(file: &mut [u8], at: usize, start: u16, n: u16, p: u16)
    requires { at + 6 ≤ length file.old }
    ensures { file.new ≡ placed at (bytes_of 2 start ++ bytes_of 2 n ++ bytes_of 2 p) file.old }
{
    rows::write16(file, at, start);
    rows::write16(file, at + 2, n);
    rows::write16(file, at + 4, p);
}

// Puts the count and the entries in front. The bytes after them stay.
fn put_contents(sizes: &[u16], file: &mut [u8])
    requires { Fitted sizes.now file.old }
    ensures { file.new ≡ front_of sizes.now ++ drop (length (front_of sizes.now)) file.old }
{
    let jobs = sizes.len() / 2;
    rows::write16(file, 0, jobs as u16);
    let mut start = 2 + 6 * jobs;
    for k in 0..jobs {
        let n = sizes[2 * k];
        let p = sizes[2 * k + 1];
        put_entry(file, 2 + 6 * k, start as u16, n, p);
        start += 4 * n as usize + 4 * p as usize;
    }
}

// Copies all of from over the front of into. The bytes after it stay.
//
// Kept: a loop and not the library's `copy_from_slice`, by which the static library would ask memmove of the C library. A host
// has to have memset alone (docs/HOST.md).
fn copy(from: &[u8], into: &mut [u8])
    requires { length from.now ≤ length into.old }
    ensures { into.new ≡ from.now ++ drop (length from.now) into.old }
{
    for (i, byte) in from.iter().enumerate() {
        into[i] = *byte;
    }
}

// Writes the file of these sizes and bodies into room, or answers by the first number that applies of 13, 14, 12 and 2. A
// refusal writes nothing. Bytes after the file stay.
pub fn write(sizes: &[u16], bodies: &[u8], room: &mut [u8]) -> Result<(), WriteFault>
    ensures { WriteOf sizes.now bodies.now room.old result room.new }
{
    if sizes.len() % 2 != 0 || sizes.len() == 0 || MOST_SIZES < sizes.len() {
        return Err(WriteFault::Contents);
    }
    if bodies.len() != bodies_size(sizes) {
        return Err(WriteFault::Body);
    }
    let start = 2 + 6 * (sizes.len() / 2);
    let end = start + bodies.len();
    if MOST_BYTES < end {
        return Err(WriteFault::File);
    }
    if room.len() < end {
        return Err(WriteFault::Room);
    }
    put_contents(sizes, room);
    copy(bodies, &mut room[start..]);
    Ok(())
}
