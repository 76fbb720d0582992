// One row repaired, by value and out of a slice, and how much was mended in it: document 01, section 3, and demand 2; document 02, R-7. The rows of a payload are
// mended by crate repair, which this stands on.
#![tactic(auto)]

ghost use Rattle.std.specs.Prelude.{◌≡◌};
ghost use Rattle.single.specs.Single.{mend_of, repair_row_of};

use refusals::Refusal;

// The corrected row, and the number of bytes at which it differs from the row that came, 0 to 8.
#[derive(Clone, Copy)]
pub struct Corrected {
    pub row: [u8; 255],
    pub count: u32,
}

// The coded row that differs from this row in at most eight bytes; refused where there is none.
pub fn repair(row: [u8; 255]) -> Result<Corrected, Refusal>
    ensures { result ≡ mend_of row }
{
    let mut fixed = row;
    let count = repair::mend(&mut fixed)?;
    Ok(Corrected { row: fixed, count })
}

// The same, of a row that lies in a slice; another length than 255 is refused.
pub fn repair_row(row: &[u8]) -> Result<Corrected, Refusal>
    ensures { result ≡ repair_row_of row.now }
{
    if row.len() != 255 {
        return Err(Refusal::Short);
    }
    let mut held = [0u8; 255];
    slices::copy_in(&mut held, 0, row);
    repair(held)
}
