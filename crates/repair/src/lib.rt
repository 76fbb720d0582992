// Repair of rows of RS(255,239), exact: the one coded row within eight bytes, or that there is none (document 01, section 3, and demand 2). What is to be added to a row
// is found in crate solving.
#![tactic(auto)]

ghost use Rattle.std.specs.Prelude.{◌≡◌, ◌≤◌};
ghost use Rattle.repair.specs.InnerRows.{told_of};
ghost use Rattle.repair.specs.Repair.{mending_of, Mends};

mod rows;

use packet::Packet;
use refusals::Refusal;

// Repairs each of up to fifteen rows that stand one behind the other, where they stand, and counts the bytes that were mended. Refused: 13, with the first row that has no coded row within eight bytes, and 1 where
// they are not whole rows or more than fifteen. Refused, nothing is changed.
pub fn mend(rows: &mut [u8]) -> Result<u32, Refusal>
    ensures { Mends (mending_of rows.old) result rows.new }
{
    if rows.len() % 255 != 0 {
        return Err(Refusal::Short);
    }
    if Packet::PROTECTED < rows.len() {
        return Err(Refusal::Short);
    }
    let rests = encoding::remainders(rows);
    told(rows::mend_from(rows, 0, &rests))
}

// What is told of rows by what they end as: the first that is broken, of fifteen, or 15 and as many as the bytes that were mended.
fn told(ended: usize) -> Result<u32, Refusal>
    requires { ended ≤ 135 }
    ensures { result ≡ told_of ended }
{
    if ended < 15 {
        return Err(Refusal::Repair(ended as u32));
    }
    Ok((ended - 15) as u32)
}
