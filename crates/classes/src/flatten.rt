// The forest made flat: each entry becomes the root, which is the name of the class.
ghost use Rattle.std.specs.Prelude.{◌<◌, ◌≤◌, length};
ghost use Rattle.words.specs.Limits.{most_words};
ghost use Rattle.classes.specs.Steps.Forest.{Forest, Led, Flattened};

use crate::forest;
use words::numbers::Address;

// Makes the entry of x its root. Most entries are roots already, and then nothing is written.
fn lead_to_root(table: &[u32], class: &mut [u16], x: Address)
    requires { Forest table.now class.old × (x.0 < length table.now) }
    ensures { Led table.now class.old x.0 class.new }
{
    let above = forest::up(class, x);
    let higher = forest::up(class, above);
    if higher != above {
        let name = forest::root(table, class, x);
        class[x.0 as usize] = name.0;
    }
}

// Leads each entry to its root. What is no node has entry 0, as word 0 has, so it keeps 0.
pub fn flatten(table: &[u32], class: &mut [u16])
    requires { Forest table.now class.old × (length table.now ≤ most_words) }
    ensures { Flattened table.now class.old class.new }
{
    for x in 0..table.len() {
        lead_to_root(table, class, Address(x as u16));
    }
}
