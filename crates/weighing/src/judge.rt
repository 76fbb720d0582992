// The rows of a place in column order, judged one by one: document 02, R-8, refusals 31, 32 and 24. A row is restored where something of it is lost, and nothing is kept
// of it. Private to the crate.
ghost use Rattle.std.specs.Prelude.{◌≡◌, ◌-◌, ◌*◌, ◌≤◌, ◌<◌, ◌^◌, replicate};
ghost use Rattle.errata.specs.InnerErrata.{entries, mended_by};
ghost use Rattle.layout.specs.Spread.{row_start};
ghost use Rattle.contents.specs.Contents.{bytes_at, contents};
ghost use Rattle.columns.specs.Handing.{all_zero};
ghost use Rattle.columns.specs.Columns.{hand_columns_of, weighed_of};
ghost use Rattle.columns.specs.InnerJudge.{Tabled, Shaped, beyond_in, hand_judged};
ghost use Rattle.weighing.specs.Inner.{fault_of};
ghost use Rattle.layout.specs.Spread.{Columns};

use errata::Errata;
use places::Place;
use refusals::Refusal;

// What is wrong with a row: it lacks more than sixteen bytes, its known bytes fit no coded row, or it is not 0 beyond the file's end.
#[derive(Clone, Copy)]
enum Fault {
    Lost,
    Uncoded,
    Padding,
}

// Whether row `q`, once it is restored, holds 0 wherever it reaches beyond a file of `n` bytes. Few rows do.
fn row_ends(row: [u8; 255], e: &Errata, m: usize, q: usize, n: usize) -> bool
    requires { (0 < m) × (m ≤ 255) × (q * 255 < 2 ^ 63) }
    ensures { result ≡ all_zero (beyond_in m n q (mended_by row (entries e.now.at) (entries e.now.values) e.now.n)) }
{
    let k = layout::columns_within(m, layout::row_start(m, q), n);
    if k == 239 {
        return true;
    }
    e.added_to(row)[k..239].iter().all(|b| *b == 0)
}

// What is wrong with row `q`, if anything is.
fn fault_of(p: Place, store: &[u8], n: usize, q: u32) -> Option<Fault>
    requires { Tabled p store.now }
    ensures { result ≡ fault_of p.rows p.slot (contents p store.now) n q }
{
    let came = losses::gather(p, store, q);
    let missing = came.lost;
    if 16 < missing {
        return Some(Fault::Lost);
    }
    let row = came.row;
    let at = came.at;
    let Some(e) = solving::fill(row, at, missing) else {
        return Some(Fault::Uncoded);
    };
    if !row_ends(row, &e, p.rows as usize, q as usize, n) {
        return Some(Fault::Padding);
    }
    None
}

// The refusals 31, 32 and 24. The first row that lacks more than sixteen bytes ends the pass, since that is refused before all else; of the others a row that fits
// no coded row (32) is told before one that is not 0 beyond the end (24), in whatever order they come.
pub(crate) fn judge(p: Place, store: &[u8], n: usize) -> Result<(), Refusal>
    requires { Shaped p store.now n × (hand_columns_of p store.now n (replicate n 0) ≡ hand_judged p store.now n (replicate n 0)) }
    ensures { result ≡ weighed_of p store.now n }
{
    let mut answer = Ok(());
    for q in 0..layout::rows_of(p.rows, n) as u32 {
        match fault_of(p, store, n, q) {
            Some(Fault::Lost) => return Err(Refusal::Lost(q)),
            Some(Fault::Uncoded) => answer = Err(Refusal::Code),
            Some(Fault::Padding) => answer = answer.and(Err(Refusal::Padding)),
            None => {}
        }
    }
    answer
}
