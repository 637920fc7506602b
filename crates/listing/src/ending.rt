// How a listing ends, and the words for it.
ghost use Rattle.std.specs.Prelude.{◌≡◌};
ghost use Rattle.listing.specs.Ending.{after_line, after_close};

use std::error::Error;
use std::ops::ControlFlow;
use std::{fmt, io};

// Why a listing is not complete. Of a complete one every frame has its line.
#[derive(Clone, Copy, Debug, PartialEq, Eq)]
pub enum Incomplete {
    // The capture could not be read to its end.
    NotRead,
    // A line could not be printed.
    NotPrinted,
}

impl fmt::Display for Incomplete {
    fn fmt<W: fmt::Write>(&self, f: &mut fmt::Formatter<W>) -> fmt::Result {
        f.write_str(match self {
            Incomplete::NotRead => {
                "the capture could not be read to its end, so the listing is not complete"
            }
            Incomplete::NotPrinted => {
                "the listing could not be written to its end, so it is not complete"
            }
        })
    }
}

impl Error for Incomplete {}

pub type Ending = Result<(), Incomplete>;

// What comes after the line of a frame: no frame follows one that is cut short, and none is read where a line could not be printed.
pub fn after_line(printed: io::Result<()>, is_whole: bool) -> ControlFlow<Ending>
    ensures { result ≡ after_line printed is_whole }
{
    match printed {
        Ok(()) if is_whole => ControlFlow::Continue(()),
        Ok(()) => ControlFlow::Break(Ok(())),
        Err(_) => ControlFlow::Break(Err(Incomplete::NotPrinted)),
    }
}

// The ending once standard output is closed: some disks say only then that they are full.
pub fn after_close(ending: Ending, closed: io::Result<()>) -> Ending
    ensures { result ≡ after_close ending closed }
{
    ending?;
    closed.map_err(|_| Incomplete::NotPrinted)
}
