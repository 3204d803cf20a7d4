// Waiting pairs of functions go down to their children, until none waits.
ghost use Rattle.std.specs.Prelude.{◌-◌, ◌<◌};
ghost use Rattle.table.specs.Readable.{PassedCheck};
ghost use Rattle.classes.specs.Steps.Meeting.{OneSymbol, waiting_left, waiting_right, State, GoesDown, Settles};

use crate::meet;
use crate::meet::Clash;
use words::numbers::Address;

// The children of two functions with one symbol meet, place by place.
fn go_down(
    table: &[u32],
    class: &mut [u16],
    work: &mut [u16],
    waiting: usize,
    f: Address,
    g: Address,
) -> Result<usize, Clash>
    requires { PassedCheck table.now × State table.now class.old work.old waiting × OneSymbol table.now f.0 g.0 }
    ensures { GoesDown table.now class.old work.old waiting f.0 g.0 class.new work.new result }
{
    let mut waits = waiting;
    for i in 0..table::degree(table, f) {
        let left = table::child(table, f, i);
        let right = table::child(table, g, i);
        waits = meet::meet(table, class, work, waits, left, right)?;
    }
    Ok(waits)
}

// The last waiting pair goes down.
fn settle_last(
    table: &[u32],
    class: &mut [u16],
    work: &mut [u16],
    waiting: usize,
) -> Result<usize, Clash>
    requires { PassedCheck table.now × State table.now class.old work.old waiting × (0 < waiting) }
    ensures { GoesDown table.now class.old work.old (waiting - 1) (waiting_left work.old (waiting - 1)) (waiting_right work.old (waiting - 1)) class.new work.new result }
{
    let last = waiting - 1;
    let f = Address(work[2 * last]);
    let g = Address(work[2 * last + 1]);
    go_down(table, class, work, last, f, g)
}

// Lets the waiting pairs go down, the last first, until none waits.
pub fn settle(
    table: &[u32],
    class: &mut [u16],
    work: &mut [u16],
    waiting: usize,
) -> Result<(), Clash>
    requires { PassedCheck table.now × State table.now class.old work.old waiting }
    ensures { Settles table.now class.old work.old waiting class.new work.new result }
{
    let mut waits = waiting;
    while 0 < waits {
        waits = settle_last(table, class, work, waits)?;
    }
    Ok(())
}
