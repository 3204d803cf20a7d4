// Numbers in a row of bytes. Document 01, 'The job file': "All numbers are little-endian, 16 bits except table words."
ghost use Rattle.std.specs.Prelude.{◌≡◌, ℕ, ◌+◌, ◌≤◌, ◌<◌, length};
ghost use Rattle.std.proofs.Common.{lit<};
ghost use Rattle.rows.specs.LittleEndian.{from_bytes, number_at, bytes_of};
ghost use Rattle.rows.specs.Placed.{placed};

// A number that stands in a row of bytes, the low byte first.
pub trait LittleEndian: Copy {
    // How many bytes it has.
    const WIDTH: usize;

    ghost WIDTH: { ℕ };

    // The value of this type that a number is.
    ghost of_number: { ℕ → Self };

    // Returns the number that all of its bytes make.
    fn from_bytes(bytes: &[u8]) -> Self
        requires { length bytes.now ≡ WIDTH }
        ensures { result ≡ of_number (from_bytes bytes.now) };

    ghost some_bytes: { 0 < WIDTH };
}

// An address, a label, a size or a count.
impl LittleEndian for u16 {
    const WIDTH: usize = 2;

    ghost WIDTH = { 2 };

    ghost of_number = { λ x. x };

    fn from_bytes(bytes: &[u8]) -> u16 {
        u16::from_le_bytes([bytes[0], bytes[1]])
    }

    ghost some_bytes = { lit< tt };
}

// A table word.
impl LittleEndian for u32 {
    const WIDTH: usize = 4;

    ghost WIDTH = { 4 };

    ghost of_number = { λ x. x };

    fn from_bytes(bytes: &[u8]) -> u32 {
        u32::from_le_bytes([bytes[0], bytes[1], bytes[2], bytes[3]])
    }

    ghost some_bytes = { lit< tt };
}

// Returns the number of a type that stands in the bytes from place `at` on.
pub fn read<T: LittleEndian>(bytes: &[u8], at: usize) -> T
    requires { at + T.WIDTH ≤ length bytes.now }
    ensures { result ≡ T.of_number (number_at T.WIDTH at bytes.now) }
{
    T::from_bytes(&bytes[at..at + T::WIDTH])
}

// Puts x into the 2 bytes from place `at` on. The other bytes stay.
pub fn write16(bytes: &mut [u8], at: usize, x: u16)
    requires { at + 2 ≤ length bytes.old }
    ensures { bytes.new ≡ placed at (bytes_of 2 x) bytes.old }
{
    let [low, high] = x.to_le_bytes();
    bytes[at] = low;
    bytes[at + 1] = high;
}
