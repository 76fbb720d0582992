// The roots of a polynomial of nine coefficients, the constant first, among the powers of α (document 01, section 3). Eight exponents are tried at once: a word
// holds the values at eight powers that follow each other, and the coefficients then move on by eight exponents.
#![tactic(auto)]

ghost use Rattle.std.specs.Prelude.{◌≡◌, ◌≤◌};
ghost use Rattle.roots.specs.Roots.{roots_of};
ghost use Rattle.roots.specs.InnerWords.{Short};
ghost use Rattle.code.specs.Value.{eval};
ghost use Rattle.field.specs.Field.{power};

mod products;
mod search;
mod table;

// The exponents of the first n roots, in increasing order; zeros behind them. An array and a count, since the library has no heap.
#[derive(Clone, Copy)]
pub struct Roots {
    pub n: usize,
    pub at: [u8; 16],
}

// The exponents below 255 whose powers of α are roots of v; the first sixteen, where there are more.
pub fn find(v: [u8; 9]) -> Roots
    ensures { result ≡ roots_of v }
{
    let top = last(v);
    let table = products::table(top);
    let mut at = [0u8; 16];
    let mut n = search::note(&mut at, 0, at_one(v), 0, 0);
    let first = v[0];
    let mut t = products::wide(v);
    for b in 0..32 {
        let w = products::move_on(&mut t, top, &table);
        n = search::look(&mut at, n, w, first, 8 * b);
    }
    Roots { n, at }
}

// The place of the last coefficient that is not 0, or 0.
fn last(v: [u8; 9]) -> usize
    ensures { (result ≤ 8) × Short result v }
{
    for top in (1..9).rev() {
        if v[top] != 0 {
            return top;
        }
    }
    0
}

// The value at 1.
fn at_one(v: [u8; 9]) -> u8
    ensures { result ≡ eval v (power 0) }
{
    v.iter().fold(0, |sum, c| sum ^ *c)
}
