// What is judged of a place in column order by lengths alone: document 02, R-8, refusals 9, 23 and 22. Private to the crate.
ghost use Rattle.std.specs.Prelude.{◌≡◌, not, ◌&&◌, ◌*◌, ◌≤◌, ◌<◌, ◌^◌, eqb};
ghost use Rattle.layout.specs.Layout.{tables_of};
ghost use Rattle.places.specs.Room.{lowest_from};
ghost use Rattle.contents.specs.Contents.{contents};
ghost use Rattle.columns.specs.Columns.{sent_length, length_serves, misfits};
ghost use Rattle.columns.specs.InnerJudge.{Serving, is_nothing};

use places::Place;

// Whether a file of `n` bytes may have been sent in as many packets as the place has slots.
pub(crate) fn length_serves(p: Place, n: usize) -> bool
    requires { (1 ≤ p.rows) × (1 ≤ p.slot) }
    ensures { result ≡ length_serves p n }
{
    if n == 0 {
        return false;
    }
    if 16777216 < n {
        return false;
    }
    let sent = 255 * layout::rows_of(p.rows, n);
    words::over(sent, p.slot as usize) == p.count as usize
}

// Whether a slot of `n` bytes is filled, and not with as many as it should have.
fn differs(n: usize, full: usize) -> bool
    ensures { result ≡ (not (eqb n 0) && not (eqb n full)) }
{
    n != 0 && n != full
}

// Whether every slot that is filled has S bytes, and the last one what remains, of a file of `n` bytes.
pub(crate) fn lengths_fit(p: Place, store: &[u8], n: usize) -> bool
    requires { Serving p store.now n }
    ensures { result ≡ is_nothing (lowest_from (misfits p.slot (sent_length p.rows n) (contents p store.now)) 0 p.count) }
{
    let size = p.slot as usize;
    let mut left = 255 * layout::rows_of(p.rows, n);
    for k in 0..p.count {
        let at = p.start as usize + k as usize * (size + 2);
        let full = words::lesser(size, left);
        if differs(contents::slot_length(store, at), full) {
            return false;
        }
        left -= full;
    }
    true
}
