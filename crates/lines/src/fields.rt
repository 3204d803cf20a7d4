// Numbers as text, put into a row of bytes one after another.
ghost use Rattle.std.specs.Prelude.{◌≡◌, ◌+◌, ◌≤◌, length};
ghost use Rattle.rows.specs.Placed.{placed};
ghost use Rattle.lines.specs.Lines.{field};

// Puts the digits of x into the bytes from place `at` on, and one byte more after them: a space, or the end of the line. Returns
// the place after it. The other bytes stay.
pub(crate) fn put_field(row: &mut [u8], at: usize, x: u16, after: u8) -> usize
    requires { at + 6 ≤ length row.old }
    ensures { (result ≡ at + length (field x after)) × (result ≤ at + 6) × (row.new ≡ placed at (field x after) row.old) }
{
    let mut buffer = itoa::Buffer::new();
    let digits = buffer.format(x).as_bytes();
    let next = at + digits.len();
    row[at..next].copy_from_slice(digits);
    row[next] = after;
    next + 1
}
