// The file that a place in column order holds: document 02, R-8, behind the refusals 9 and 10. Every refusal is ruled out before a byte is written; the store is only read.
#![tactic(auto)]

ghost use Rattle.std.specs.Prelude.{◌≡◌};
ghost use Rattle.columns.specs.Columns.{hand_columns_of};

use places::Place;
use refusals::Refusal;

mod lost;
mod write;

// Writes the file of `n` bytes that a place in column order holds to the start of the output, whose other bytes stay; bytes of empty slots are restored. Refused: 9
// where no record has such a place over this store, 15, 23, 22, 31, 32, 24, 26; then nothing is written.
pub fn hand_columns(p: Place, store: &[u8], n: usize, out: &mut [u8]) -> Result<(), Refusal>
    ensures { (result ≡ (hand_columns_of p store.now n out.old).answer)
        × (out.new ≡ (hand_columns_of p store.now n out.old).output) }
{
    weighing::weigh(p, store, n)?;
    if out.len() < n {
        return Err(Refusal::Output);
    }
    write::write_file(p, store, n, out);
    Ok(())
}
