// Answer 7, LOOP: "some node reaches itself". A loop is a cycle where each node is its own class.
ghost use Rattle.std.specs.Prelude.{◌≡◌, [], ◌∷◌, ◌++◌, ◌≤◌, length, drop};
ghost use Rattle.words.specs.Limits.{most_words};
ghost use Rattle.table.specs.Faults.{LOOP};
ghost use Rattle.table.specs.Readable.{Readable};
ghost use Rattle.checker.specs.Steps.Stage.{counting, SizeAndRoom, Stage};

use answering::fault::TableFault;

// Each of the first n addresses becomes its own class.
fn own_classes(class: &mut [u16], n: usize)
    requires { (n ≤ length class.old) × (n ≤ most_words) }
    ensures { class.new ≡ counting 0 n ++ drop n class.old }
{
    for x in 0..n {
        class[x] = x as u16;
    }
}

// The answer by row 7, for a table that can be read.
pub(crate) fn loops_alone(
    table: &[u32],
    class: &mut [u16],
    work: &mut [u16],
) -> Result<(), TableFault>
    requires { SizeAndRoom table.now class.old work.old × Readable table.now }
    ensures { Stage (LOOP ∷ []) table.now class.old work.old result class.new work.new }
{
    own_classes(class, table.len());
    if cycles::reaches_itself(table, class, work) {
        return Err(TableFault::Loop);
    }
    Ok(())
}
