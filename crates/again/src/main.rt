// Reads one job file from standard input, reads and writes it again by the functions of `jobfile`, and writes the bytes to
// standard output. A refused file gives one line: `file`, answer, place.
//
// What it writes is made by `written::again`. What stands here reads and writes.
#![tactic(auto)]

mod written;

use std::io;
use std::process::ExitCode;
use words::limits::MOST_BYTES;

// Writes what is written for a file, all of it.
fn write_again(rt: &HostRuntime, file: &[u8]) -> io::Result<()> {
    let mut room = [0u8; MOST_BYTES];
    let size = written::again(file, &mut room);
    rt.write_all(&room[..size])
}

// A file has at most 32,768 bytes; one byte more is read, so that a longer one is refused and not cut short.
fn main(rt: HostRuntime) -> ExitCode {
    let mut file = [0u8; MOST_BYTES + 1];
    let size = lines::read_to_fill(&mut rt.stdin(), &mut file);
    match write_again(&rt, &file[..size]) {
        Ok(()) => ExitCode::SUCCESS,
        Err(_) => {
            let _ = rt.eprint("again: the file was not written to its end\n");
            ExitCode::FAILURE
        }
    }
}
