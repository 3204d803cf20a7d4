// A job that is there: what a look for one gives.
ghost use Rattle.jobfile.specs.Jobs.{JobWith, job_with_is_one};

// The file is good and has a job of that number, of n words and p pairs.
#[derive(Clone, Copy)]
pub struct FoundJob<'a> {
    pub file: &'a [u8],
    pub number: usize,
    pub words: usize,
    pub pairs: usize,
    ghost is_there: { JobWith file.now number words pairs } by { job_with_is_one file.now number words pairs },
}
