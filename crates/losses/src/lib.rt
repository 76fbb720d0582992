// A row of a place in column order, as it came: document 02, R-8. Its bytes stand in many slots, M bytes apart in what was sent; those of empty slots are lost.
#![tactic(auto)]

ghost use Rattle.std.specs.Prelude.{◌≡◌};
ghost use Rattle.losses.specs.Losses.{tabled, came_of};

use places::Place;

mod runs;

// The row's bytes, 0 for each that is lost; how many are lost; and the first sixteen of these, each told by its exponent, 254 less its column. An
// array and a count, since the library has no heap.
#[derive(Clone, Copy)]
pub struct Came {
    pub row: [u8; 255],
    pub lost: usize,
    pub at: [u8; 16],
}

// What came of row `q` of a place, the rows of all tables counted through. Slots beyond the place's count are lost, and slots whose length is wrong. Of a place that does not lie in
// the store, or has no rows in a table or no bytes in a slot, nothing came, and nothing is told as lost.
pub fn gather(p: Place, store: &[u8], q: u32) -> Came
    ensures { result ≡ came_of p store.now q }
{
    let mut row = [0u8; 255];
    let mut at = [0u8; 16];
    if !is_tabled(p, store.len()) {
        return Came { row, lost: 0, at };
    }
    let first = runs::first_byte(q, p.rows);
    let lost = runs::take_row(p, store, first, &mut row, &mut at);
    Came { row, lost, at }
}

// Whether a place lies in a store of `size` bytes, and has rows in a table and bytes in a slot.
pub fn is_tabled(p: Place, size: usize) -> bool
    ensures { result ≡ tabled p size }
{
    if size < places::end_of(p) {
        return false;
    }
    p.rows != 0 && p.slot != 0
}
