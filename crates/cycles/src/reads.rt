// The rows and the digraph, in numbers of one width.
ghost use Rattle.std.specs.Prelude.{◌≡◌, ◌<◌, length};
ghost use Rattle.words.specs.Word.{same_kind};
ghost use Rattle.words.specs.declared.kind.Kind.{Kind};
ghost use Rattle.graphs.specs.Partition.{entry};
ghost use Rattle.table.specs.Table.{kind_at, degree, child_of};
ghost use Rattle.table.specs.Readable.{Readable};
ghost use Rattle.cycles.specs.Digraph.{Searchable};

use table::node;
use words::numbers::Address;

// Whether x is a function: no edge leads from anything else.
pub fn has_edges(table: &[u32], x: usize) -> bool
    requires { Readable table.now × (x < length table.now) }
    ensures { result ≡ same_kind (kind_at table.now x) Kind.Function }
{
    node::is_function(table, Address(x as u16))
}

// How many edges lead from x.
pub fn edge_count(table: &[u32], x: usize) -> usize
    requires { Readable table.now × (x < length table.now) }
    ensures { result ≡ degree table.now x }
{
    node::degree(table, Address(x as u16)) as usize
}

// Where the i-th edge from x leads: to the name of the class of x's child at place i.
pub fn next(table: &[u32], class: &[u16], x: usize, i: usize) -> usize
    requires { Searchable table.now class.now × (i < degree table.now x) }
    ensures { result ≡ entry class.now (child_of table.now x i) }
{
    let child = node::child(table, Address(x as u16), i as u16);
    class[child.0 as usize] as usize
}
