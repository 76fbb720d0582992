// The file that one place holds: document 01, section 5, Hand out, behind the refusals 9 and 10. Every refusal is ruled out before a byte is written; the store is
// only read. A place in column order is handed out by crate restoring.
#![tactic(auto)]

ghost use Rattle.std.specs.Prelude.{◌≡◌, length};
ghost use Rattle.handing.specs.Hand.{usable_in, hand_place_of};

use places::Place;
use refusals::Refusal;

mod hand;
mod tables;

// Writes the file of `n` bytes that a place holds to the start of the output, whose other bytes stay. Refused: 9 where no record has such a place over this
// store, 15, 21, 22, 23, 24, 26, and in column order 15, 23, 22, 31, 32, 24, 26; then nothing is written.
pub fn hand_place(p: Place, store: &[u8], n: usize, out: &mut [u8]) -> Result<(), Refusal>
    ensures { (result ≡ (hand_place_of p store.now n out.old).answer)
        × (out.new ≡ (hand_place_of p store.now n out.old).output) }
{
    if p.order == 1 {
        return restoring::hand_columns(p, store, n, out);
    }
    if !is_usable(p, store.len()) {
        return Err(Refusal::Record);
    }
    hand::hand_usable(p, store, n, out)
}

// Whether a place lies in a store of `size` bytes in row order, and has rows in a table where it has protection.
fn is_usable(p: Place, size: usize) -> bool
    ensures { result ≡ usable_in p size }
{
    if size < places::end_of(p) {
        return false;
    }
    if p.order != 0 {
        return false;
    }
    p.protection == 0 || p.rows != 0
}
