// The class row as a forest: the root of a node.
ghost use Rattle.std.specs.Prelude.{◌≡◌, ◌<◌, length, get_or};
ghost use Rattle.classes.specs.Steps.Forest.{Forest, Rooted};

use words::numbers::Address;

// The entry of the class row at an address.
pub fn up(class: &[u16], x: Address) -> Address
    requires { x.0 < length class.now }
    ensures { result.0 ≡ get_or class.now x.0 0 }
{
    Address(class[x.0 as usize])
}

// The root of x. On the way every other node is linked to the one two links up, which halves the path.
// The table gives the naming order, in which links fall: that is why the walk ends.
pub fn root(table: &[u32], class: &mut [u16], x: Address) -> Address
    requires { Forest table.now class.old × (x.0 < length table.now) }
    ensures { Rooted table.now class.old x.0 result.0 class.new }
{
    let mut at = x;
    let mut above = up(class, at);
    while above != at {
        let higher = up(class, above);
        class[at.0 as usize] = higher.0;
        at = higher;
        above = up(class, at);
    }
    at
}
