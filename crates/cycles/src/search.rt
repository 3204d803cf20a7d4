// The search from one root, from every name, and the whole.
//
// Kept: that a search goes on (`Search`) is asked in a clause: it speaks of a row that is lent to be written.
ghost use Rattle.std.specs.Prelude.{◌≡◌, ◌*◌, ◌<◌, ◌≤◌, length};
ghost use Rattle.cycles.specs.Digraph.{digraph_of, Searchable, Searched};
ghost use Rattle.cycles.specs.Steps.Marks.{Search, FromRoot, Visited, Told, mark};

use crate::{path, reads};

// Whether a cycle is found from a new vertex. If not, every walk from it ends.
//
// The search has the end of its path in hand: x, and the place i of the edge from which to go on. The
// mark of each vertex before x is 1 + the place of the edge that was followed from it. It is where to go
// on once the search comes back: by then that edge is known to be safe, and is not looked at again.
fn from_root(table: &[u32], class: &[u16], work: &mut [u16], root: usize) -> bool
    requires { Searchable table.now class.now × Search (digraph_of table.now class.now) work.old 0 × (root < length table.now) × (mark work.old root ≡ 0) }
    ensures { FromRoot (digraph_of table.now class.now) work.old work.new root result }
{
    path::push(work, table.len(), 0, root);
    let mut depth = 1;
    let mut x = root;
    let mut i = 0;
    while 0 < depth {
        if let Some(j) = path::pass_over(table, class, work, x, i) {
            let y = reads::next(table, class, x, j);
            if work[y] != 0 {
                return true;
            }
            path::follow(work, table.len(), depth, x, j, y);
            depth += 1;
            x = y;
            i = 0;
        } else {
            path::finish(work, x);
            depth -= 1;
            if 0 < depth {
                x = path::end(work, table.len(), depth);
                i = work[x] as usize;
            }
        }
    }
    false
}

// The search from x, if x is a function, is new and is the name of its class. Edges lead to names
// alone, so no cycle passes through any other vertex.
fn visit(table: &[u32], class: &[u16], work: &mut [u16], x: usize) -> bool
    requires { Searchable table.now class.now × Search (digraph_of table.now class.now) work.old 0 × (x < length table.now) }
    ensures { Visited (digraph_of table.now class.now) class.now work.old work.new x result }
{
    if !reads::has_edges(table, x) {
        return false;
    }
    if work[x] != 0 {
        return false;
    }
    if class[x] as usize != x {
        return false;
    }
    from_root(table, class, work, x)
}

// The search from every name, with all marks at 0.
fn from_each(table: &[u32], class: &[u16], work: &mut [u16]) -> bool
    requires { Searchable table.now class.now × Search (digraph_of table.now class.now) work.old 0 }
    ensures { Told (digraph_of table.now class.now) work.old work.new result }
{
    for x in 0..table.len() {
        if visit(table, class, work, x) {
            return true;
        }
    }
    false
}

// Whether some class of the table reaches itself through children. An entry of class is the name of
// its node's class; with every node its own class, a cycle is a loop of the table.
//
// The first 2n entries of work are used, n being the number of words. What they held does not count,
// and on return they are 0. The entries after them stay.
pub fn reaches_itself(table: &[u32], class: &[u16], work: &mut [u16]) -> bool
    requires { Searchable table.now class.now × (2 * length table.now ≤ length work.old) }
    ensures { Searched table.now class.now work.old result work.new }
{
    work[..table.len()].fill(0); // old marks never count; the path is written before it is read
    let found = from_each(table, class, work);
    work[..2 * table.len()].fill(0); // and none are left
    found
}
