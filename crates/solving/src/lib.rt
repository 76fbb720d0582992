// What is to be added to a row so that it becomes the coded row within eight bytes, by what the row leaves when the generator divides it (document 01, section 3,
// and demand 2), or one that has all bytes but those at given places. A place is told by its exponent a: byte 254 - a of a row has the locator α^a.
#![tactic(auto)]

ghost use Rattle.std.specs.Prelude.{◌≡◌, ◌<◌};
ghost use Rattle.errata.specs.Errata.{errata_of};
ghost use Rattle.errata.specs.InnerErrata.{nothing_added, Ordered, Put, Kept};

use errata::Errata;

mod kernel;
mod lanes;
mod losses;
mod values;

pub use losses::fill;

// What is to be added to any row that leaves `rest`; None where it has no coded row within reach. To one that leaves nothing, which is coded, nothing is.
pub fn find(rest: [u8; 16]) -> Option<Errata>
    ensures { result ≡ errata_of rest }
{
    if rest == [0; 16] {
        return Some(nothing());
    }
    let s = terms::syndromes(rest);
    let places = roots::find(kernel::null_vector(s));
    let at = places.at;
    let values = values::solve(s, at, places.n)?;
    Some(keep(at, values, places.n))
}

// Nothing to add.
fn nothing() -> Errata
    ensures { result ≡ nothing_added }
{
    Errata {
        n: 0,
        at: [0u8; 16],
        values: [0u8; 16],
    }
}

// Those of the n places at which there is something to add.
fn keep(at: [u8; 16], values: [u8; 16], n: usize) -> Errata
    requires { Ordered n at }
    ensures { Kept at values n result }
{
    let mut out = nothing();
    for k in 0..n {
        out = put(out, at[k], values[k]);
    }
    out
}

// One place more, unless nothing is to be added there.
fn put(e: Errata, a: u8, c: u8) -> Errata
    requires { e.n < 16 }
    ensures { Put e a c result }
{
    if c == 0 {
        return e;
    }
    let i = e.n;
    let mut out = e;
    out.at[i] = a;
    out.values[i] = c;
    out.n = i + 1;
    out
}
