// How many results were compared, and how many of them differ.
ghost use Rattle.std.specs.Prelude.{◌≡◌, ◌<◌, ◌≤◌, false};

use std::io::Write;
use std::{fmt, io};

#[derive(Clone, Copy, Default)]
pub struct Count {
    pub compared: u64,
    pub different: u64,
}

impl fmt::Display for Count {
    fn fmt<W: fmt::Write>(&self, f: &mut fmt::Formatter<W>) -> fmt::Result {
        write!(
            f,
            "{} compared, {} different",
            self.compared, self.different
        )
    }
}

impl Count {
    // With one result more. The count of differences never falls, and a result that differs is in it.
    pub fn with(self, same: bool) -> Count
        ensures { (self.different ≤ result.different) × (same ≡ false → 0 < result.different) }
    {
        Count {
            compared: self.compared.saturating_add(1),
            different: self.different.saturating_add(u64::from(!same)),
        }
    }

    // A number that was found, beside the one that is published, in so many digits: at most 16, which a number of 64 bits has.
    pub fn with_number<W: Write>(
        self,
        out: &mut W,
        name: &str,
        found: u64,
        published: u64,
        digits: usize,
    ) -> io::Result<Count> {
        let width = digits.min(16);
        writeln!(
            out,
            "{name} is {found:0width$x}, published {published:0width$x}"
        )?;
        Ok(self.with(found == published))
    }

    // Bytes that were found, and those that are published.
    pub fn with_bytes<W: Write>(
        self,
        out: &mut W,
        name: &str,
        found: &[u8],
        published: &[u8],
    ) -> io::Result<Count> {
        let same = found == published;
        writeln!(out, "{name} {}as published", if same { "" } else { "NOT " })?;
        Ok(self.with(same))
    }
}
