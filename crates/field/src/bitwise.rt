// What products in words are made of: one bit of each byte of a word, spread over the byte or times a constant below 256, so that no byte carries into the next.
ghost use Rattle.std.specs.Prelude.{◌<◌};
ghost use Rattle.field.specs.Words.{Products};
ghost use Rattle.field.specs.InnerWords.{Taken, Squared};

use crate::Sixteen;

// Where bit i of a byte of b is 1, that byte of a is added.
pub(crate) fn take(sum: u64, a: u64, b: u64, i: u64) -> u64
    requires { i < 8 }
    ensures { Taken sum a b i result }
{
    sum ^ ((((b >> i) & 0x0101010101010101) * 255) & a)
}

// Each byte squared, which is linear over its bits: bit i gives α^(2 * i).
fn square(w: u64) -> u64
    ensures { Squared w result }
{
    let low = (w & 0x0101010101010101)
        ^ (((w >> 1) & 0x0101010101010101) * 4)
        ^ (((w >> 2) & 0x0101010101010101) * 16)
        ^ (((w >> 3) & 0x0101010101010101) * 64);
    let high = (((w >> 4) & 0x0101010101010101) * 0x1D)
        ^ (((w >> 5) & 0x0101010101010101) * 0x74)
        ^ (((w >> 6) & 0x0101010101010101) * 0xCD)
        ^ (((w >> 7) & 0x0101010101010101) * 0x13);
    low ^ high
}

// The sixteen squares.
pub(crate) fn squares(x: Sixteen) -> Sixteen
    ensures { Products x x result }
{
    Sixteen {
        low: square(x.low),
        high: square(x.high),
    }
}
