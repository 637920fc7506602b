// Long division by the generator, with a register of 16 places for each of eight words: a row has a byte of each, word k's at byte k.
ghost use Rattle.std.specs.Prelude.{◌≡◌, ℕ, List};
ghost use Rattle.std.specs.Iterator.{Drains, IsFinite};
ghost use mathlib.Core.List.{tail};
ghost use Rattle.basics.specs.Lists.{zeros};
ghost use Rattle.field.specs.EachByte.{times_each};
ghost use Rattle.division.specs.Register.{step, feed};
ghost use Rattle.reed_solomon.specs.Code.{generator};

use field::times_each;

// The product of the 16 factors x - 2^(11 j), j from 120 to 135, the highest power first.
const GENERATOR: [u8; 17] = [
    1, 165, 105, 27, 159, 104, 152, 101, 74, 101, 152, 104, 159, 27, 105, 165, 1,
];

pub fn generator() -> [u8; 17]
    ensures { result ≡ generator }
{
    GENERATOR
}

// What registers of zeros hold after some rows. It is compiled into its callers: left to the compiler it takes two instructions more for each row.
#[inline(always)]
pub fn fed<I: Iterator<Item = u64> + Drop>(rows: I) -> [u64; 16]
    requires can { I.can_next rows }
    requires ends { IsFinite (I.remaining rows) }
    ensures { (numbers : List ℕ) × Drains I.next_gives rows numbers × (result ≡ feed times_each (tail generator) (zeros 16) numbers) }
{
    let mut registers = [0; 16];
    for row in rows {
        // With no `next`, "the borrow checker does not cover this function yet".
        let next = shift(registers, row);
        registers = next;
    }
    registers
}

// A row goes into the eight registers. The products are written out, so that the compiler knows each coefficient and shares the doublings.
pub fn shift(registers: [u64; 16], row: u64) -> [u64; 16]
    ensures { result ≡ step times_each (tail generator) registers row }
{
    let leaving = registers[0] ^ row;
    [
        times_each(leaving, GENERATOR[1]) ^ registers[1],
        times_each(leaving, GENERATOR[2]) ^ registers[2],
        times_each(leaving, GENERATOR[3]) ^ registers[3],
        times_each(leaving, GENERATOR[4]) ^ registers[4],
        times_each(leaving, GENERATOR[5]) ^ registers[5],
        times_each(leaving, GENERATOR[6]) ^ registers[6],
        times_each(leaving, GENERATOR[7]) ^ registers[7],
        times_each(leaving, GENERATOR[8]) ^ registers[8],
        times_each(leaving, GENERATOR[9]) ^ registers[9],
        times_each(leaving, GENERATOR[10]) ^ registers[10],
        times_each(leaving, GENERATOR[11]) ^ registers[11],
        times_each(leaving, GENERATOR[12]) ^ registers[12],
        times_each(leaving, GENERATOR[13]) ^ registers[13],
        times_each(leaving, GENERATOR[14]) ^ registers[14],
        times_each(leaving, GENERATOR[15]) ^ registers[15],
        times_each(leaving, GENERATOR[16]),
    ]
}
