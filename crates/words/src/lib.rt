// Bytes as numbers of a wider type, the bytes of a word, numbers in a range, the lesser of two, and quotients rounded up. A wider number asks of a caller no more
// than the byte: that it is below 256 is known of the result.
#![tactic(auto)]

ghost use Rattle.std.specs.Prelude.{◌≡◌, ◌<◌, min};
ghost use Rattle.ground.specs.Lists.{ceil};
ghost use Rattle.ground.specs.Ranges.{between};
ghost use Rattle.words.specs.Words.{byte_at};

// A byte as a word of 64 bits.
pub fn wide(b: u8) -> u64
    ensures { (result ≡ b) × (result < 256) }
{
    u64::from(b)
}

// A byte as a word of 32 bits.
pub fn wide32(b: u8) -> u32
    ensures { (result ≡ b) × (result < 256) }
{
    u32::from(b)
}

// A byte as an index.
pub fn index(b: u8) -> usize
    ensures { (result ≡ b) × (result < 256) }
{
    usize::from(b)
}

// Byte k of a word, the lowest one counted 0; it has eight, and 0 stands for any behind them.
pub fn byte(w: u64, k: u64) -> u8
    ensures { result ≡ byte_at w k }
{
    if 8 <= k {
        return 0;
    }
    ((w >> (k * 8)) % 256) as u8
}

// Whether a number lies between two, both of them allowed.
pub fn within(low: u64, high: u64, n: u64) -> bool
    ensures { result ≡ between low high n }
{
    (low <= n) & (n <= high)
}

// The lesser of two numbers.
pub fn lesser(a: usize, b: usize) -> usize
    ensures { result ≡ min a b }
{
    a.min(b)
}

// a over b, rounded up; 0 where b is 0.
pub fn over(a: usize, b: usize) -> usize
    ensures { result ≡ ceil a b }
{
    if b == 0 {
        return 0;
    }
    a.div_ceil(b)
}
