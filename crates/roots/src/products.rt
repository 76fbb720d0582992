// Eight values of a polynomial in a word, and the polynomial moved on by eight exponents, by a table of the products of half bytes, which is made by doubling.
ghost use Rattle.std.specs.Prelude.{◌≡◌, ℕ, ◌+◌, ◌*◌, ◌<◌, ◌≤◌, length, get_or};
ghost use Rattle.field.specs.Field.{product, power};
ghost use Rattle.words.specs.Words.{byte_at};
ghost use Rattle.roots.specs.InnerWords.{Added, Multiples, Words, Short, Moved};

use crate::table;

// Puts the n words from `at` on once more behind them, with w added to each.
fn put_block(t: &mut [u64; 256], at: usize, n: usize, w: u64)
    requires { (length t.old ≡ 256) × (at + 2 * n ≤ 256) }
    ensures { Added n n at w t.old t.new }
{
    for j in 0..n {
        t[at + n + j] = t[at + j] ^ w;
    }
}

// Puts the sixteen multiples of the bytes of w from `at` on: those of n to 2 * n - 1 are those below n, with n times w added.
fn put_multiples(t: &mut [u64; 256], at: usize, w: u64)
    requires { (length t.old ≡ 256) × (at + 16 ≤ 256) }
    ensures { Multiples 16 at w t.old t.new }
{
    t[at] = 0;
    put_block(t, at, 1, w);
    let twice = field::doubles(w);
    put_block(t, at, 2, twice);
    let fourfold = field::doubles(twice);
    put_block(t, at, 4, fourfold);
    let eightfold = field::doubles(fourfold);
    put_block(t, at, 8, eightfold);
}

// The table, for the first `top` coefficients behind the constant.
pub(crate) fn table(top: usize) -> [u64; 256]
    requires { top ≤ 8 }
    ensures { Words top result }
{
    let points = table::POINTS;
    let mut t = [0u64; 256];
    for i in 0..top {
        put_multiples(&mut t, 32 * i, points[i]);
        let high = field::doubles(t[32 * i + 8]);
        put_multiples(&mut t, 32 * i + 16, high);
    }
    t
}

// The products of x, a byte, and α^((i + 1) * (k + 1)), k from 0 to 7.
fn word(words: &[u64; 256], i: usize, x: u64) -> u64
    requires { (i < 8) × (x < 256) × Words (i + 1) words.now }
    ensures { (k : ℕ) → k < 8 → byte_at result k ≡ product x (power ((i + 1) * (k + 1))) }
{
    let low = (x % 16) as usize;
    let high = (x / 16) as usize;
    words[32 * i + low] ^ words[32 * i + 16 + high]
}

// The coefficients, each in a word of its own: bytes are packed together when compiled, and taken apart again at each step.
pub(crate) fn wide(v: [u8; 9]) -> [u64; 9]
    ensures { result ≡ v }
{
    let mut t = [0u64; 9];
    for i in 0..9 {
        t[i] = words::wide(v[i]);
    }
    t
}

// The values of t at α^1 to α^8, less its constant; each coefficient t_i is multiplied by α^(8 * i). None behind `top` is other than 0.
pub(crate) fn move_on(t: &mut [u64; 9], top: usize, words: &[u64; 256]) -> u64
    requires { (top ≤ 8) × Short top t.old × Words top words.now × ((m : ℕ) → get_or t.old m 0 < 256) }
    ensures { Moved t.old result t.new }
{
    let mut sum: u64 = 0;
    for i in 0..top {
        let w = word(words, i, t[i + 1]);
        sum = sum ^ w;
        t[i + 1] = (w >> 56) % 256;
    }
    sum
}
