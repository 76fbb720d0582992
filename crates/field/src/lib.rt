// GF(256): the bytes as a field, document 01, section 3. The sum of two elements is `^`. Products are formed without a table, by repeated doubling, eight in a word.
#![tactic(auto)]

ghost use Rattle.std.specs.Prelude.{◌≡◌, ◌<◌};
ghost use Rattle.field.specs.Field.{product, Inverse};
ghost use Rattle.field.specs.Tables.{Powers};
ghost use Rattle.field.specs.Words.{Doubled, Products, Inverses};

mod bitwise;
mod tables;

// Sixteen elements, the first eight in `low`, the lowest byte first.
#[derive(Clone, Copy)]
pub struct Sixteen {
    pub low: u64,
    pub high: u64,
}

// The table of powers.
pub fn powers() -> [u8; 256]
    ensures { Powers result }
{
    tables::POWERS
}

// Each of the eight bytes doubled: shifted, and the polynomial taken away where the highest bit was 1.
pub fn doubles(w: u64) -> u64
    ensures { Doubled w result }
{
    let m = w & 0x8080808080808080;
    ((w ^ m) << 1) ^ ((m - (m >> 7)) & 0x1D1D1D1D1D1D1D1D)
}

// The sixteen products. Both words go in step, which the compiler turns into vector code.
pub fn products(a: Sixteen, b: Sixteen) -> Sixteen
    ensures { Products a b result }
{
    let mut low: u64 = 0;
    let mut high: u64 = 0;
    let mut x = a.low;
    let mut y = a.high;
    for i in 0..8 {
        low = bitwise::take(low, x, b.low, i);
        high = bitwise::take(high, y, b.high, i);
        x = doubles(x);
        y = doubles(y);
    }
    Sixteen { low, high }
}

// One over each of sixteen elements; 0 for 0. That is the power 254, since the power 255 is 1.
pub fn inverses(a: Sixteen) -> Sixteen
    ensures { Inverses a result }
{
    let x2 = bitwise::squares(a);
    let x3 = products(x2, a);
    let x12 = bitwise::squares(bitwise::squares(x3));
    let x14 = products(x12, x2);
    let x15 = products(x12, x3);
    let x60 = bitwise::squares(bitwise::squares(x15));
    let x240 = bitwise::squares(bitwise::squares(x60));
    products(x240, x14)
}

// A byte as the first of sixteen elements, the others 0.
fn first(b: u8) -> Sixteen
    ensures { (result.low ≡ b) × (b < 256) }
{
    Sixteen {
        low: words::wide(b),
        high: 0,
    }
}

// The product of two elements.
pub fn mul(a: u8, b: u8) -> u8
    ensures { result ≡ product a b }
{
    let x = first(a);
    let y = first(b);
    let r = products(x, y);
    words::byte(r.low, 0)
}

// One over a; 0 for 0.
pub fn inverse(a: u8) -> u8
    ensures { Inverse a result }
{
    let w = first(a);
    let r = inverses(w);
    words::byte(r.low, 0)
}
