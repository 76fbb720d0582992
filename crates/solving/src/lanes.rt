// Sixteen bytes in two words, as the field forms its products of them (document 02, R-5): one byte at each entry, sums, single entries, and all of them one down.
ghost use Rattle.std.specs.Prelude.{◌≡◌, cond, ℕ, suc, ◌<◌, eqb};
ghost use Rattle.ground.specs.Bits.{sum};
ghost use Rattle.field.specs.Words.{entry};
ghost use Rattle.errata.specs.InnerValues.{list_of};

use field::Sixteen;

// The same byte at each entry.
pub(crate) fn spread(c: u8) -> Sixteen
    ensures { (k : ℕ) → k < 16 → entry result k ≡ c }
{
    let w = words::wide(c) * 0x0101010101010101;
    Sixteen { low: w, high: w }
}

// 1 at entry j, and 0 at every other.
pub(crate) fn unit(j: usize) -> Sixteen
    requires { j < 16 }
    ensures { (k : ℕ) → k < 16 → entry result k ≡ cond (eqb j k) 1 0 }
{
    if j < 8 {
        return Sixteen {
            low: 1 << (8 * j),
            high: 0,
        };
    }
    Sixteen {
        low: 0,
        high: 1 << (8 * (j - 8)),
    }
}

// The sums, entry by entry.
pub(crate) fn add(a: Sixteen, b: Sixteen) -> Sixteen
    ensures { (k : ℕ) → entry result k ≡ sum (entry a k) (entry b k) }
{
    Sixteen {
        low: a.low ^ b.low,
        high: a.high ^ b.high,
    }
}

// At each entry the one behind it; at the last 0.
pub(crate) fn down(x: Sixteen) -> Sixteen
    ensures { (k : ℕ) → k < 15 → entry result k ≡ entry x (suc k) }
{
    Sixteen {
        low: (x.low >> 8) ^ (x.high << 56),
        high: x.high >> 8,
    }
}

// Entry k.
pub(crate) fn at(x: Sixteen, k: usize) -> u8
    requires { k < 16 }
    ensures { result ≡ entry x k }
{
    if k < 8 {
        return words::byte(x.low, k as u64);
    }
    words::byte(x.high, (k - 8) as u64)
}

// All sixteen as an array.
pub(crate) fn bytes(x: Sixteen) -> [u8; 16]
    ensures { result ≡ list_of x }
{
    let mut out = [0u8; 16];
    for (k, b) in out.iter_mut().enumerate() {
        *b = at(x, k);
    }
    out
}
