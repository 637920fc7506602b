// Eight bytes of a buffer as one number, the first byte the lowest: so that eight are worked on at once.
ghost use Rattle.std.specs.Prelude.{◌≡◌, ◌+◌, ◌*◌, ◌≤◌, length};
ghost use Rattle.basics.specs.Numbers.{low_first, number_at};
ghost use Rattle.lent.specs.Written.{written};
ghost use Rattle.lent.specs.Numbers.{bytes_of};

// The number that the eight bytes from index at on hold. Each is named, since a test of the length would stay in `first_chunk().unwrap()`.
pub fn number_at(bytes: &[u8], at: usize) -> u64
    requires { at + 8 ≤ length bytes.now }
    ensures { result ≡ number_at at 8 bytes.now }
{
    u64::from_le_bytes([
        bytes[at],
        bytes[at + 1],
        bytes[at + 2],
        bytes[at + 3],
        bytes[at + 4],
        bytes[at + 5],
        bytes[at + 6],
        bytes[at + 7],
    ])
}

// Writes a number's eight bytes from index at on.
pub fn write_number(buffer: &mut [u8], at: usize, number: u64)
    requires { at + 8 ≤ length buffer.old }
    ensures { buffer.new ≡ written buffer.old at (low_first 8 number) }
{
    crate::write_at(buffer, at, &number.to_le_bytes());
}

// Writes the bytes of some numbers into buffer from its front on.
pub fn write_numbers(buffer: &mut [u8], numbers: &[u64])
    requires { 8 * length numbers.now ≤ length buffer.old }
    ensures { buffer.new ≡ written buffer.old 0 (bytes_of numbers.now) }
{
    for (i, number) in numbers.iter().enumerate() {
        write_number(buffer, 8 * i, *number);
    }
}
