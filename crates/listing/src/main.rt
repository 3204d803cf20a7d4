// The listing program: reads one job file from standard input and writes its listing, part by part, to standard output.
//
// What it writes is made by the functions of `parts`: put one after the other, the parts are the listing of the file
// (`parts_make_listing`, proofs/Theorems.antt). What stands here reads and writes.
#![tactic(auto)]

mod job;
mod parts;
mod variables;

use lines::LINE_ROOM;
use parts::JOB_ROOM;
use std::io;
use std::process::ExitCode;
use words::limits::MOST_BYTES;

// Kept: this, `write_job` and again's `write_again` make a row, fill it and write its front; one function over the row's length
// and a closure would ask in a clause what each closure may do with a row, which is longer than the three.
//
// Writes the first line.
fn write_first_line(rt: &HostRuntime, file: &[u8]) -> io::Result<()> {
    let mut line = [0u8; LINE_ROOM];
    let size = parts::first_line(file, &mut line);
    rt.write_all(&line[..size])
}

// Writes the lines of the job of a number.
fn write_job(rt: &HostRuntime, file: &[u8], job: usize) -> io::Result<()> {
    let mut lines = [0u8; JOB_ROOM];
    let size = parts::job_lines(file, job, &mut lines);
    rt.write_all(&lines[..size])
}

// Writes the whole listing, part after part. It stops at the first part that was not written to its end.
fn write_listing(rt: &HostRuntime, file: &[u8]) -> io::Result<()> {
    write_first_line(rt, file)?;
    for job in 1..=parts::jobs(file) {
        write_job(rt, file, job)?;
    }
    Ok(())
}

// Kept: beside again's `main`, since each program has one, and its own message.
//
// A file has at most 32,768 bytes; one byte more is read, so that a longer one is refused and not cut short.
fn main(rt: HostRuntime) -> ExitCode {
    let mut file = [0u8; MOST_BYTES + 1];
    let size = lines::read_to_fill(&mut rt.stdin(), &mut file);
    match write_listing(&rt, &file[..size]) {
        Ok(()) => ExitCode::SUCCESS,
        Err(_) => {
            let _ = rt.eprint("station-listing: the listing was not written to its end\n");
            ExitCode::FAILURE
        }
    }
}
