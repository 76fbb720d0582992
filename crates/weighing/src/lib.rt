// Whether the file that a place in column order holds can be handed out: document 02, R-8, behind the refusals 9 and 10, and but for the output's room. Nothing is
// written; lengths are judged first, then row by row what is lost, what fits no coded row, and the padding.
#![tactic(auto)]

ghost use Rattle.std.specs.Prelude.{◌≡◌};
ghost use Rattle.columns.specs.Columns.{weighed_of};

use places::Place;
use refusals::Refusal;

mod judge;
mod lengths;

// What Hand out of `n` bytes answers for a place in column order if the output has room. Refused: 9 where no record has such a place over this store, 15, 23, 22, 31, 32, 24.
pub fn weigh(p: Place, store: &[u8], n: usize) -> Result<(), Refusal>
    ensures { result ≡ weighed_of p store.now n }
{
    if !losses::is_tabled(p, store.len()) {
        return Err(Refusal::Record);
    }
    standing::survey(p, store).ok_or(Refusal::Slot)?;
    if !lengths::length_serves(p, n) {
        return Err(Refusal::Size);
    }
    if !lengths::lengths_fit(p, store, n) {
        return Err(Refusal::Shape);
    }
    judge::judge(p, store, n)
}
