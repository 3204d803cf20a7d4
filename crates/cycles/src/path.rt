// The path of the search, and the marks along it.
ghost use Rattle.std.specs.Prelude.{◌≡◌, ◌+◌, ◌-◌, ◌<◌, ◌≤◌, length, get_or, set};
ghost use Rattle.words.specs.Limits.{most_words};
ghost use Rattle.table.specs.Table.{degree};
ghost use Rattle.table.specs.Readable.{Readable};
ghost use Rattle.cycles.specs.Digraph.{digraph_of, Searchable};
ghost use Rattle.cycles.specs.Steps.Marks.{Open, Sure, Passed, finished_mark, mark};

use crate::reads;

// Kept: a mark is a number and no enum, since it lies in an entry of 16 bits that is lent. (work, n, depth)
// are the row, how many marks it begins with, and how many of the path stand behind them; the row is
// written and the other two are not.
//
// The mark of a finished vertex. No vertex on the path has it: there a mark is 1 + the edges passed
// over, and a vertex has 255 edges at most.
const FINISHED: u16 = 257;

// Marks x as begun, and puts it on the path at a depth, behind n marks.
pub fn push(work: &mut [u16], n: usize, depth: usize, x: usize)
    requires { (n + depth < length work.old) × (x < n) × (n ≤ most_words) }
    ensures { work.new ≡ set (set work.old x 1) (n + depth) x }
{
    work[x] = 1;
    work[n + depth] = x as u16;
}

// Goes down the edge at place j of x, the end of the path, to y. The edges before it are passed over.
pub fn follow(work: &mut [u16], n: usize, depth: usize, x: usize, j: usize, y: usize)
    requires { (n + depth < length work.old) × (x < n) × (j < 256) × (y < n) × (n ≤ most_words) }
    ensures { work.new ≡ set (set (set work.old x (j + 1)) y 1) (n + depth) y }
{
    work[x] = (j + 1) as u16;
    push(work, n, depth, y);
}

// The end of a path that is not empty, behind n marks.
pub fn end(work: &[u16], n: usize, depth: usize) -> usize
    requires { (0 < depth) × (depth ≤ n) × (n + n ≤ length work.now) × (n ≤ most_words) }
    ensures { result ≡ get_or work.now (n + (depth - 1)) 0 }
{
    work[n + (depth - 1)] as usize
}

// Marks x as finished.
pub fn finish(work: &mut [u16], x: usize)
    requires { x < length work.old }
    ensures { work.new ≡ set work.old x finished_mark }
{
    work[x] = FINISHED;
}

// Whether there is something to look for from y: it can have edges, and is not finished.
fn is_open(table: &[u32], work: &[u16], y: usize) -> bool
    requires { Readable table.now × (y < length table.now) × (length table.now ≤ length work.now) }
    ensures { Open (degree table.now y) (mark work.now y) result }
{
    reads::has_edges(table, y) && work[y] != FINISHED
}

// The first edge of x, from the i-th on, that leads to an open vertex. It writes nothing, so an edge
// that is passed over costs no turn of the search.
pub fn pass_over(table: &[u32], class: &[u16], work: &[u16], x: usize, i: usize) -> Option<usize>
    requires { Searchable table.now class.now × Sure (digraph_of table.now class.now) work.now × (x < length table.now) × (i ≤ degree table.now x) }
    ensures { Passed (digraph_of table.now class.now) work.now x i result }
{
    let count = reads::edge_count(table, x);
    (i..count).find(|&j| is_open(table, work, reads::next(table, class, x, j)))
}
