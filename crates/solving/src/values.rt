// The values at up to sixteen given places that give the syndromes (document 01, section 3). A place is told by its exponent a: byte 254 - a of a row has the locator α^a. The
// places are shifted out of the syndromes one after the other; what each leaves is gathered for all places at once, and divided by the gaps between their locators at the end.
ghost use Rattle.std.specs.Prelude.{◌≡◌, ◌↔◌, IsTrue, ℕ, ◌+◌, ◌≤◌, ◌<◌, get_or};
ghost use Rattle.field.specs.Field.{power};
ghost use Rattle.field.specs.Tables.{Powers};
ghost use Rattle.words.specs.Words.{byte_at};
ghost use Rattle.errata.specs.InnerErrata.{Placed, Solving};
ghost use Rattle.errata.specs.InnerValues.{list_of, Located, Empty, Divided};

use crate::lanes;
use field::Sixteen;

// The locators of eight places from place `from` on, the first at the lowest byte.
fn locate(at: [u8; 16], from: usize, powers: &[u8; 256]) -> u64
    requires { (from + 8 ≤ 16) × Powers powers.now }
    ensures { (k : ℕ) → k < 8 → byte_at result k ≡ power (get_or at (from + k) 0) }
{
    let mut w: u64 = 0;
    for m in (0..8).rev() {
        w = (w << 8) ^ words::wide(powers[words::index(at[from + m])]);
    }
    w
}

// The locators of all sixteen.
fn locators(at: [u8; 16]) -> Sixteen
    ensures { Located at result }
{
    let powers = field::powers();
    Sixteen {
        low: locate(at, 0, &powers),
        high: locate(at, 8, &powers),
    }
}

// Whether nothing is left at the entries that have n others behind them: what is left there, after n places, is made of syndromes alone.
fn is_empty(left: Sixteen, n: usize) -> bool
    requires { n ≤ 16 }
    ensures { IsTrue result ↔ Empty left n }
{
    for j in n..16 {
        if lanes::at(left, j - n) != 0 {
            return false;
        }
    }
    true
}

// What was gathered over the gaps. A single place has no gap, and a division would cost as much as all the rest.
fn divide(gathered: Sixteen, gaps: Sixteen, n: usize) -> Sixteen
    ensures { Divided gathered gaps n result }
{
    if n < 2 {
        return gathered;
    }
    field::products(gathered, field::inverses(gaps))
}

// The values at the first n places that give all sixteen syndromes; None where those that give the first n do not give the others.
pub(crate) fn solve(s: Sixteen, at: [u8; 16], n: usize) -> Option<[u8; 16]>
    requires { Placed n at }
    ensures { Solving (list_of s) at n result }
{
    let x = locators(at);
    let mut left = s;
    let mut gathered = lanes::spread(0);
    let mut gaps = lanes::spread(1);
    for j in 0..n {
        let y = lanes::spread(lanes::at(x, j));
        let gap = lanes::add(x, y);
        gathered = lanes::add(
            field::products(gap, gathered),
            lanes::spread(lanes::at(left, 0)),
        );
        gaps = field::products(lanes::add(gap, lanes::unit(j)), gaps);
        left = lanes::add(lanes::down(left), field::products(y, left));
    }
    if !is_empty(left, n) {
        return None;
    }
    Some(lanes::bytes(divide(gathered, gaps, n)))
}
