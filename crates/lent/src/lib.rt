// Writing into lent bytes, the one way in which the crates above change a buffer; and whether two parts hold the same bytes.
#![tactic(auto)]

pub mod numbers;

ghost use Rattle.std.specs.Prelude.{◌≡◌, ◌+◌, ◌≤◌, length};
ghost use Rattle.basics.specs.Lists.{same, zeros};
ghost use Rattle.lent.specs.Written.{written};

// Writes all of source into buffer from index at, and touches nothing else.
pub fn write_at(buffer: &mut [u8], at: usize, source: &[u8])
    requires { at + length source.now ≤ length buffer.old }
    ensures { buffer.new ≡ written buffer.old at source.now }
{
    buffer[at..at + source.len()].copy_from_slice(source);
}

// Whether two parts hold the same bytes. That is `==`, whose contract says so in the library's words; here it is said in those of specs/, once for all callers.
pub fn are_same(a: &[u8], b: &[u8]) -> bool
    ensures { result ≡ same a.now b.now }
{
    a == b
}

// Whether all of some bytes are 0: they are gathered, sixteen lanes at once, and not asked one by one.
pub fn are_zeros(bytes: &[u8]) -> bool
    ensures { result ≡ same bytes.now (zeros (length bytes.now)) }
{
    bytes.iter().fold(0, |all, byte| all | *byte) == 0
}
