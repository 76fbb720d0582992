// What is to be added at given places of a row, whose bytes are lost, so that it becomes a coded row (document 01, section 3; document 02, R-8).
ghost use Rattle.std.specs.Prelude.{◌≡◌, ◌≤◌};
ghost use Rattle.code.specs.Search.{remainder};
ghost use Rattle.errata.specs.Restoring.{falling_to, filling_of};
ghost use Rattle.errata.specs.InnerRestoring.{Front, Filled};

use crate::values;
use errata::Errata;

// What is to be added at the first n of the places `at` to a row, whatever bytes stand there; it may be 0. None where no coded row has the other bytes, or the places are
// more than sixteen or not in decreasing order from 254 on. At sixteen places something always fits.
pub fn fill(row: [u8; 255], at: [u8; 16], n: usize) -> Option<Errata>
    ensures { result ≡ filling_of (remainder 239 row) at n }
{
    fill_rest(rest_of(row), at, n)
}

// What a row leaves when the generator divides it. Crate repair takes sixteen bytes of many rows' so (`rest_in`, which says why).
fn rest_of(row: [u8; 255]) -> [u8; 16]
    ensures { result ≡ remainder 239 row }
{
    let mut rest = [0u8; 16];
    rest.copy_from_slice(&encoding::remainders(&row)[..16]);
    rest
}

// The same as `fill` for every row that leaves `rest`.
fn fill_rest(rest: [u8; 16], at: [u8; 16], n: usize) -> Option<Errata>
    ensures { result ≡ filling_of rest at n }
{
    if !falling(at, n) {
        return None;
    }
    if rest == [0; 16] {
        return Some(filled(at, rest, n));
    }
    let values = values::solve(terms::syndromes(rest), at, n)?;
    Some(filled(at, values, n))
}

// Whether the first n are at most sixteen places in decreasing order.
fn falling(at: [u8; 16], n: usize) -> bool
    ensures { result ≡ falling_to at n }
{
    if 16 < n {
        return false;
    }
    let mut last: u8 = 255;
    for a in &at[..n] {
        if last <= *a {
            return false;
        }
        last = *a;
    }
    true
}

// The values at the first n places.
fn filled(at: [u8; 16], values: [u8; 16], n: usize) -> Errata
    requires { n ≤ 16 }
    ensures { Filled at values n result }
{
    Errata {
        n,
        at: front(at, n),
        values: front(values, n),
    }
}

// The first n entries, and zeros behind them.
fn front(l: [u8; 16], n: usize) -> [u8; 16]
    requires { n ≤ 16 }
    ensures { Front n l result }
{
    let mut out = [0u8; 16];
    out[..n].copy_from_slice(&l[..n]);
    out
}
