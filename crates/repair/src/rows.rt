// The rows of a payload, mended all or none (document 01, section 5, Offer).
ghost use Rattle.std.specs.Prelude.{◌≡◌, ◌*◌, ◌/◌, ◌≤◌, ◌<◌, length, take, drop};
ghost use Rattle.code.specs.Mend.{mend_rows};
ghost use Rattle.repair.specs.InnerRows.{Resting, Finished, Ends};
ghost use Rattle.errata.specs.InnerErrata.{mended_by, entries};

use errata::Errata;

// What row i leaves. The front of what one row leaves is taken in crate solving too; a public call for both would have to be total, and longer than both.
fn rest_in(rests: &[u8; 240], i: usize) -> [u8; 16]
    requires { i < 15 }
    ensures { result ≡ take 16 (drop (i * 16) rests.now) }
{
    let mut rest = [0u8; 16];
    rest.copy_from_slice(&rests[i * 16..i * 16 + 16]);
    rest
}

// The row at the front, held by value, with the values added at the places.
fn corrected(rows: &[u8], e: &Errata) -> [u8; 255]
    requires { 255 ≤ length rows.now }
    ensures { result ≡ mended_by (take 255 rows.now) (entries e.now.at) (entries e.now.values) e.now.n }
{
    let mut row = [0u8; 255];
    row.copy_from_slice(&rows[..255]);
    e.added_to(row)
}

// Where the rows behind were mended, none of them broken, corrects the row at the front, and counts its bytes to theirs. A row with nothing to add is right as it stands.
fn finish(ended: usize, rows: &mut [u8], e: &Errata) -> usize
    requires { (e.now.n ≤ 8) × (255 ≤ length rows.old) × (ended ≤ 127) }
    ensures { Finished ended rows.old e.now.at e.now.values e.now.n result rows.new }
{
    if ended < 15 {
        return ended;
    }
    if e.n == 0 {
        return ended;
    }
    let row = corrected(rows, e);
    rows[..255].copy_from_slice(&row);
    ended + e.n
}

// Mends the rows, of which the first is row i, or none of them: what was found of a row waits until all rows behind it are found. The first row that has no coded
// row within eight bytes; where all are mended 15, which no row is, and as many more as the bytes that were mended. A number,
// since each row would take an enum apart and build it anew.
pub(crate) fn mend_from(rows: &mut [u8], i: usize, rests: &[u8; 240]) -> usize
    requires { Resting rows.old i rests.now }
    ensures { Ends rows.old (mend_rows (length rows.old / 255) i rows.old) result rows.new }
{
    if rows.len() == 0 {
        return 15;
    }
    let Some(e) = solving::find(rest_in(rests, i)) else {
        return i;
    };
    let ended = mend_from(&mut rows[255..], i + 1, rests);
    finish(ended, rows, &e)
}
