// The roots that are found, in the order of their exponents: the first sixteen are kept.
ghost use Rattle.std.specs.Prelude.{◌≡◌, true, ℕ, ◌<◌, length};
ghost use Rattle.words.specs.Words.{byte_at};
ghost use Rattle.roots.specs.InnerWords.{Noted, Looked};

// Keeps the exponent e where x equals y, unless it is 255 or more or sixteen are kept already.
pub(crate) fn note(at: &mut [u8; 16], n: usize, x: u8, y: u8, e: usize) -> usize
    requires { length at.old ≡ 16 }
    ensures { Noted x y e n at.old result at.new }
{
    if x != y {
        return n;
    }
    if 255 <= e {
        return n;
    }
    if 16 <= n {
        return n;
    }
    at[n] = e as u8;
    n + 1
}

// True only where no byte of the word is y: it makes a byte of 0 in x, whose highest bit the addition leaves 0. No byte carries into the next.
fn has_none(w: u64, y: u8) -> bool
    ensures { result ≡ true → (k : ℕ) → k < 8 → byte_at w k ≡ y → ⊥ }
{
    let x = w ^ (words::wide(y) * 0x0101010101010101);
    let s = (x & 0x7F7F7F7F7F7F7F7F) + 0x7F7F7F7F7F7F7F7F;
    ((s | x) & 0x8080808080808080) == 0x8080808080808080
}

// Keeps those of the exponents e + 1 to e + 8 at which the byte of the word equals y.
pub(crate) fn look(at: &mut [u8; 16], n: usize, w: u64, y: u8, e: usize) -> usize
    requires { (length at.old ≡ 16) × (e < 256) }
    ensures { Looked w y e n at.old result at.new }
{
    if has_none(w, y) {
        return n;
    }
    look_each(at, n, w, y, e)
}

// The same, byte by byte.
fn look_each(at: &mut [u8; 16], n: usize, w: u64, y: u8, e: usize) -> usize
    requires { (length at.old ≡ 16) × (e < 256) }
    ensures { Looked w y e n at.old result at.new }
{
    let mut m = n;
    for k in 0..8 {
        m = note(at, m, words::byte(w, k as u64), y, e + 1 + k);
    }
    m
}
