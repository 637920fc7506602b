// Bytes of the field that stand side by side in one number, and their products by one byte, all at once.
ghost use Rattle.std.specs.Prelude.{◌≡◌, ℕ, ◌<◌, ◌*◌, ◌^◌};
ghost use Rattle.std.specs.Int.Bits.{bit_xor};
ghost use Rattle.field.specs.Field.{double, times};
ghost use Rattle.field.specs.EachByte.{each_byte};

// A number of `count` bytes, each of them an element of the field.
pub trait Lanes: Copy {
    ghost count: { ℕ };

    ghost number: { Self → ℕ };

    fn zeros() -> Self
        ensures { number result ≡ 0 };

    // Each byte, doubled.
    fn doubled(self) -> Self
        requires { number self < 256 ^ count }
        ensures { number result ≡ each_byte double count (number self) };

    // The sum with another where a bit is 1, and the number itself where it is 0.
    fn plus_if(self, bit: u8, other: Self) -> Self
        requires { (bit < 2) × (number other < 256 ^ count) }
        ensures { number result ≡ bit_xor (number self) (bit * number other) };
}

impl Lanes for u8 {
    ghost count = { 1 };

    ghost number = { λ x. x };

    fn zeros() -> u8 {
        0
    }

    fn doubled(self) -> u8 {
        if self < 128 {
            self * 2
        } else {
            ((self - 128) * 2) ^ 0x87
        }
    }

    fn plus_if(self, bit: u8, other: u8) -> u8 {
        self ^ (bit * other)
    }
}

impl Lanes for u64 {
    ghost count = { 8 };

    ghost number = { λ x. x };

    fn zeros() -> u64 {
        0
    }

    // The bits that leave at the top stand alone, and each of them takes the polynomial off its own byte.
    fn doubled(self) -> u64 {
        let tops = (self / 128) & 0x0101010101010101;
        ((self & 0x7F7F7F7F7F7F7F7F) * 2) ^ (tops * 0x87)
    }

    fn plus_if(self, bit: u8, other: u64) -> u64 {
        self ^ (bit as u64 * other)
    }
}

// Each byte, times the byte a.
pub fn multiplied<L: Lanes>(bytes: L, a: u8) -> L
    requires { L.number bytes < 256 ^ L.count }
    ensures { L.number result ≡ each_byte (times a) L.count (L.number bytes) }
{
    let mut bits = a;
    let mut doubled = bytes;
    let mut sum = L::zeros();
    for _ in 0..u8::BITS {
        sum = sum.plus_if(bits % 2, doubled);
        bits = bits / 2;
        doubled = doubled.doubled();
    }
    sum
}
