// The two frame counts, TXFN and RXFN (source 000, 2.6.3.3). They stay apart: only our own is stepped.
#![tactic(auto)]

ghost use Rattle.std.specs.Prelude.{◌≡◌};
ghost use Rattle.basics.specs.Counts.{next_txfn, missed_frames};

// TXFN: our count of our own frames, of every type.
#[derive(Clone, Copy, Debug, PartialEq, Eq)]
pub struct Txfn(pub u16);

// RXFN: the far end's count of its own frames, which an acknowledgement names.
#[derive(Clone, Copy, Debug, PartialEq, Eq)]
pub struct Rxfn(pub u16);

impl Txfn {
    // 65,535 is followed by 0.
    pub fn next(self) -> Txfn
        ensures { result.0 ≡ next_txfn self.0 }
    {
        Txfn(self.0.wrapping_add(1))
    }

    // How many frames are missing where this one arrived: (TXFN − expected) modulo 65,536.
    pub fn missed(self, expected: Txfn) -> u16
        ensures { result ≡ missed_frames self.0 expected.0 }
    {
        self.0.wrapping_sub(expected.0)
    }
}
