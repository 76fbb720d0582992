// A vector of nine bytes, not zero, that the eight runs of the sixteen syndromes annihilate: the coefficients, the constant first, of a polynomial that is zero at the
// locator of each wrong byte where at most eight are wrong (document 01, section 3). Nothing is divided, and no run is formed anew: the runs of a vector go along with it.
ghost use Rattle.std.specs.Prelude.{◌≡◌, ◌<◌, ◌*◌, ◌/◌, ◌%◌, ◌^◌};
ghost use Rattle.std.specs.Int.Bits.{bit_xor};
ghost use Rattle.errata.specs.InnerNull.{Blended, AddedUp, Annihilated, nine};
ghost use Rattle.errata.specs.InnerValues.{list_of};

use field::Sixteen;

// Nine entries, eight of them in `low`, and the sixteen runs of them.
#[derive(Clone, Copy)]
struct Vector {
    low: u64,
    high: u64,
    first: u64,
    last: u64,
}

// One turn of Horner's rule in each of eight bytes: w doubled, and a and b each by a bit.
fn add_up(w: u64, a: u64, b: u64, c: u64, d: u64) -> u64
    requires { (c < 2) × (d < 2) }
    ensures { AddedUp w a b c d result }
{
    field::doubles(w) ^ ((c * 0xFFFFFFFFFFFFFFFF) & a) ^ ((d * 0xFFFFFFFFFFFFFFFF) & b)
}

// p · v + d · q, and its runs. The four words go in step, which the compiler turns into vector code.
fn mix(v: Vector, q: Vector, p: u8, d: u8) -> Vector
    ensures { Blended p d v.low q.low result.low × Blended p d v.high q.high result.high × Blended p d v.first q.first result.first × Blended p d v.last q.last result.last }
{
    let x = words::wide(p);
    let y = words::wide(d);
    let mut low: u64 = 0;
    let mut high: u64 = 0;
    let mut first: u64 = 0;
    let mut last: u64 = 0;
    for i in (0..8u64).rev() {
        let c = (x >> i) % 2;
        let e = (y >> i) % 2;
        low = add_up(low, v.low, q.low, c, e);
        high = add_up(high, v.high, q.high, c, e);
        first = add_up(first, v.first, q.first, c, e);
        last = add_up(last, v.last, q.last, c, e);
    }
    Vector {
        low: low,
        high: high,
        first: first,
        last: last,
    }
}

// x · v, less the ninth power: its entries one up, its runs one down.
fn shift(v: Vector) -> Vector
    ensures { (result.low ≡ v.low * 2 ^ 8 % 2 ^ 64) × (result.high ≡ v.low / 2 ^ 56) × (result.first ≡ bit_xor (v.first / 2 ^ 8) (v.last * 2 ^ 56 % 2 ^ 64)) × (result.last ≡ v.last / 2 ^ 8) }
{
    Vector {
        low: v.low << 8,
        high: v.low >> 56,
        first: (v.first >> 8) ^ (v.last << 56),
        last: v.last >> 8,
    }
}

// The nine entries.
fn entries(v: Vector) -> [u8; 9]
    ensures { result ≡ nine v.low v.high }
{
    let mut out = [0u8; 9];
    for k in 0..8 {
        out[k] = words::byte(v.low, k as u64);
    }
    out[8] = words::byte(v.high, 0);
    out
}

// The vector. Each is reduced, run by run, by the one that is kept for the run; where none is kept and the run does not annihilate it, it is kept there itself, and the next
// begins as x times it. Where the pivot is 0 none is kept. The runs are gone through to and fro, so by `while`.
pub(crate) fn null_vector(s: Sixteen) -> [u8; 9]
    ensures { Annihilated (list_of s) result }
{
    let mut v = Vector {
        low: 1,
        high: 0,
        first: s.low,
        last: s.high,
    };
    let mut kept = [v; 8];
    let mut pivots = [0u8; 8];
    let mut i: usize = 0;
    let mut l: usize = 0;
    while i < 8 {
        let d = words::byte(v.first, i as u64);
        let p = pivots[i];
        if d == 0 {
            i += 1;
        } else if p == 0 {
            kept[i] = v;
            pivots[i] = d;
            v = shift(v);
            i = i.saturating_sub(1);
            l += 1;
        } else {
            v = mix(v, kept[i], p, d);
            i += 1;
        }
    }
    entries(v)
}
