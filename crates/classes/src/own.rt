// Each node its own class, and the joins counted.
ghost use Rattle.std.specs.Prelude.{◌≡◌, ◌++◌, ◌≤◌, length, drop};
ghost use Rattle.words.specs.Limits.{most_words};
ghost use Rattle.graphs.specs.Partition.{joins, apart as apart_in};
ghost use Rattle.table.specs.Table.{graph_of};
ghost use Rattle.classes.specs.Counting.{NamesNodes};

// Each node becomes its own class; the other entries in use become 0. The walk is over the words
// themselves and not by 16-bit addresses, which lets the compiler take several words at a time.
pub fn apart(table: &[u32], class: &mut [u16])
    requires { (length table.now ≤ length class.old) × (length table.now ≤ most_words) }
    ensures { class.new ≡ apart_in (graph_of table.now) ++ drop (length table.now) class.old }
{
    for (x, word) in table.iter().enumerate() {
        class[x] = if table::is_node_word(*word) {
            x as u16
        } else {
            0
        };
    }
}

// The number of nodes less the number of classes: how many nodes have another name than their own. The
// row tells it without the words, since an entry is 0 just where no node is.
pub fn count_joins(table: &[u32], class: &[u16]) -> u16
    requires { (length table.now ≤ length class.now) × (length table.now ≤ most_words) × NamesNodes (graph_of table.now) class.now }
    ensures { result ≡ joins (graph_of table.now) class.now }
{
    // Kept: by `filter` and `count` the compiler takes one entry at a time. A match on lent buffers was then 1.24
    // of plain C in the mean, and by this loop 1.05 in the same runs; the goal is 1.0, and
    // docs/BENCH.md has 0.95.
    let mut joined = 0;
    for x in 0..table.len() {
        if class[x] != 0 && class[x] != x as u16 {
            joined += 1;
        }
    }
    joined
}
