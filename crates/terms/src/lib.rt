// The sixteen syndromes of a row, from the sixteen bytes that it leaves when the generator divides it (document 01, section 3). Each byte counts in syndrome j by a power of
// α; the products are formed bit by bit, highest first, of all bytes and for all syndromes at once.
#![tactic(auto)]

ghost use Rattle.std.specs.Prelude.{◌≡◌, ℕ, ◌<◌};
ghost use Rattle.field.specs.Words.{entry, InWords};
ghost use Rattle.terms.specs.Terms.{Syndromes};
ghost use Rattle.terms.specs.InnerPoints.{Points, turned};

use field::Sixteen;

mod points;

// The values at the powers α^0 to α^15 of the polynomial with these coefficients, the highest power first.
pub fn syndromes(rest: [u8; 16]) -> Sixteen
    ensures { Syndromes rest result }
{
    let points = table();
    let mut s = Sixteen { low: 0, high: 0 };
    for i in (0..8).rev() {
        s = turn(s, rest, i, &points);
    }
    s
}

// The table.
fn table() -> [u64; 32]
    ensures { Points result }
{
    points::POINTS
}

// One turn of Horner's rule: all are doubled, and the powers added of each byte in which bit i is 1.
fn turn(s: Sixteen, rest: [u8; 16], i: u64, points: &[u64; 32]) -> Sixteen
    requires { (i < 8) × Points points.now }
    ensures { InWords result × ((j : ℕ) → j < 16 → entry result j ≡ turned rest i (entry s j) j) }
{
    let mut low = field::doubles(s.low);
    let mut high = field::doubles(s.high);
    for m in 0..16 {
        let all = ((words::wide(rest[m]) >> i) % 2) * 0xFFFFFFFFFFFFFFFF;
        low = low ^ (all & points[2 * m]);
        high = high ^ (all & points[2 * m + 1]);
    }
    Sixteen { low, high }
}
