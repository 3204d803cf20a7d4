// The reader. Document 01, 'The job file': "A good file answers 0, place 0, and yields what the writer takes: the row of
// sizes .., and the bodies as the part of the file after the contents; a refusal yields an empty row and part."
ghost use Rattle.std.specs.Prelude.{◌≡◌, ◌++◌, ◌*◌, ◌≤◌, ◌<◌, length, get_or, drop};
ghost use Rattle.jobfile.specs.File.{contents_end, count_in, sizes_in, GoodFile};
ghost use Rattle.jobfile.specs.Reader.{Holds, ReadOf, BodiesOf};

use crate::answers::FileFault;
use crate::contents;
use crate::sizes::Sizes;
use words::limits::MOST_SIZES;

// What the reader yields beside the part of the file that the bodies are.
//
// Kept: the sizes beside the answer, since document 01 says what a refusal yields too, "an empty row", and `ReadOf`, by which `read`
// is known, says it.
#[derive(Clone, Copy)]
pub struct FileRead {
    pub answer: Result<(), FileFault>,
    pub sizes: Sizes,
}

// Size i of a file: n of entry i / 2, or its p.
fn size_at(file: &[u8], i: usize) -> u16
    requires { (contents_end (count_in file.now) ≤ length file.now) × (i < 2 * count_in file.now) }
    ensures { result ≡ get_or (sizes_in file.now) i 0 }
{
    rows::read(file, 2 + 6 * (i / 2) + 2 + 2 * (i % 2))
}

// Puts the `count` sizes of a file over the front of row. The entries after them stay.
pub fn put_sizes(file: &[u8], count: usize, row: &mut [u16])
    requires { (contents_end (count_in file.now) ≤ length file.now) × (count ≡ 2 * count_in file.now) × (count ≤ length row.old) }
    ensures { row.new ≡ sizes_in file.now ++ drop count row.old }
{
    for i in 0..count {
        row[i] = size_at(file, i);
    }
}

// The row of sizes of a good file.
fn sizes_of(file: &[u8]) -> Sizes
    requires { GoodFile file.now }
    ensures { Holds result (sizes_in file.now) }
{
    let mut row = [0u16; MOST_SIZES];
    let count = 2 * contents::number(file, 0);
    put_sizes(file, count, &mut row);
    Sizes { row, count }
}

// Reads a file: the answer, and the row of sizes, which is empty if the file is refused.
pub fn read(file: &[u8]) -> FileRead
    ensures { ReadOf file.now result.answer result.sizes }
{
    match contents::judge(file) {
        Ok(()) => FileRead {
            answer: Ok(()),
            sizes: sizes_of(file),
        },
        Err(fault) => FileRead {
            answer: Err(fault),
            sizes: Sizes {
                row: [0; MOST_SIZES],
                count: 0,
            },
        },
    }
}

// The bodies of a file, end to end: the part after the contents, which is empty if the file is refused.
pub fn bodies(file: &[u8]) -> &[u8]
    ensures { BodiesOf file.now result.now }
{
    match contents::judge(file) {
        Ok(()) => {
            let start = 2 + 6 * contents::number(file, 0);
            &file[start..]
        }
        Err(_) => &[],
    }
}
