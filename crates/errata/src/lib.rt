// What is to be added to a row so that it becomes a coded row: the one within eight bytes (document 01, section 3, and demand 2), or one that has all bytes but those at given
// places (document 02, R-8). The crate has the definitions (specs/), the laws by which crate solving finds it (proofs/), and the adding. A place is told by its exponent a: byte
// 254 - a of a row has the locator α^a.
#![tactic(auto)]

ghost use Rattle.std.specs.Prelude.{◌≡◌};
ghost use Rattle.errata.specs.InnerErrata.{entries, mended_by};

// The n places at which to add something, and what; zeros behind them. `solving::find` tells the places in increasing order, with values that are never 0; `solving::fill`
// those that it was given, with values that may be. Places and values stand apart, since the field works on sixteen of either at once;
// arrays and a count, since the library has no heap.
#[derive(Clone, Copy)]
pub struct Errata {
    pub n: usize,
    pub at: [u8; 16],
    pub values: [u8; 16],
}

impl Errata {
    // The row with the values added at the places. A place above 254, which a row does not have, counts as 254, and of more than sixteen the first sixteen count.
    pub fn added_to(&self, mut row: [u8; 255]) -> [u8; 255]
        ensures { result ≡ mended_by row (entries self.now.at) (entries self.now.values) self.now.n }
    {
        for k in 0..self.n.min(16) {
            let i = 254usize.saturating_sub(words::index(self.at[k]));
            row[i] ^= self.values[k];
        }
        row
    }
}
