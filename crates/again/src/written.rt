// A file read and written again, or the line of its refusal.
ghost use Rattle.std.specs.Prelude.{◌≤◌, length};
ghost use Rattle.words.specs.Limits.{most_bytes};
ghost use Rattle.lines.specs.Lines.{TextIn, Counts};
ghost use Rattle.again.specs.Again.{AgainOf};
ghost use Rattle.again.specs.Steps.Rewriting.{Rewritten};

use jobfile::answers::FileFault;
use words::limits::MOST_BYTES;

// Reads a file and writes what it yields into room. A good file is in front of room then; a refusal writes nothing.
fn rewrite(file: &[u8], room: &mut [u8]) -> Result<(), FileFault>
    requires { most_bytes ≤ length room.old }
    ensures { Rewritten file.now room.old result room.new }
{
    let read = jobfile::read(file);
    read.answer?;
    let _ = jobfile::write(read.sizes.as_slice(), jobfile::bodies(file), room);
    Ok(())
}

// Kept: the length is returned and not the bytes, for the reason at the head of crate lines.
//
// Puts what is written for a file over the front of room, and returns how many bytes that is. The bytes after them stay.
pub(crate) fn again(file: &[u8], room: &mut [u8; MOST_BYTES]) -> usize
    ensures counts { Counts result room.new }
    ensures text_in { TextIn (AgainOf file.now) room.old result room.new }
{
    match rewrite(file, room) {
        Ok(()) => file.len(),
        Err(fault) => lines::file_line(fault, room.first_chunk_mut().unwrap()),
    }
}
