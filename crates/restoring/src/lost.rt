// The lost bytes of a file in column order, put in row by row: document 02, R-8. A row that lacks at most sixteen bytes has them back by the code. Private to the crate.
ghost use Rattle.std.specs.Prelude.{◌≡◌, ℕ, ◌+◌, ◌-◌, ◌*◌, ◌≤◌, ◌<◌, ◌^◌, length, get_or};
ghost use Rattle.code.specs.Value.{value};
ghost use Rattle.layout.specs.Layout.{tables_of};
ghost use Rattle.columns.specs.InnerWrite.{Writable};
ghost use Rattle.columns.specs.InnerBytes.{aim_of, LostRow, LostBelow, Nearer, Restores, put_column, put_columns};

use places::Place;

// The exclusive or of all bytes of a row.
fn sum_of(row: &[u8]) -> u8
    ensures { result ≡ value row.now 1 }
{
    let mut acc: u8 = 0;
    for b in row {
        acc ^= *b;
    }
    acc
}

// The bytes of a row at its first `n` places, which are lost. A single one is the exclusive or of the others, since a coded row is nothing at 1.
fn lost_values(row: [u8; 255], at: [u8; 16], n: usize) -> [u8; 16]
    ensures { Restores row at n result }
{
    if n == 1 {
        let mut values = [0u8; 16];
        values[0] = sum_of(&row);
        return values;
    }
    match solving::fill(row, at, n) {
        Some(e) => e.values,
        None => [0; 16],
    }
}

// Puts the byte `v` of the place `a` into its column, where this holds information and stands below `n`.
fn put_byte(a: u8, v: u8, m: usize, base: usize, n: usize, out: &mut [u8])
    requires { (a < 255) × (m ≤ 255) × (base < 2 ^ 32) × (n ≤ length out.old) }
    ensures { out.new ≡ put_column m n base out.old (254 - a) v }
{
    let c = 254 - words::index(a);
    if 239 <= c {
        return;
    }
    let to = base + c * m;
    if n <= to {
        return;
    }
    out[to] = v;
}

// The same for each of the first `lost` places.
fn put_lost(
    at: [u8; 16],
    values: [u8; 16],
    lost: usize,
    m: usize,
    base: usize,
    n: usize,
    out: &mut [u8],
)
    requires { (lost ≤ 16) × ((k : ℕ) → k < lost → get_or at k 0 < 255) × (m ≤ 255) × (base < 2 ^ 32) × (n ≤ length out.old) }
    ensures { out.new ≡ put_columns m n base at values lost out.old }
{
    for k in 0..lost {
        put_byte(at[k], values[k], m, base, n, out);
    }
}

// Puts the lost bytes of row `q` where they belong.
fn restore_row(p: Place, store: &[u8], q: u32, n: usize, out: &mut [u8])
    requires { Writable p store.now n × (q < p.rows * tables_of p.rows n) × (n ≤ length out.old) }
    ensures { Nearer (aim_of p store.now) n (LostRow p store.now q) out.old out.new }
{
    let came = losses::gather(p, store, q);
    let lost = came.lost;
    if lost == 0 {
        return;
    }
    let at = came.at;
    let row = came.row;
    let values = lost_values(row, at, lost);
    let m = p.rows as usize;
    let base = layout::row_start(m, q as usize);
    put_lost(at, values, lost, m, base, n, out);
}

// Puts all lost bytes of a file of `n` bytes where they belong.
pub(crate) fn restore_rows(p: Place, store: &[u8], n: usize, out: &mut [u8])
    requires { Writable p store.now n × (n ≤ length out.old) }
    ensures { Nearer (aim_of p store.now) n (LostBelow p store.now (p.rows * tables_of p.rows n)) out.old out.new }
{
    for q in 0..layout::rows_of(p.rows, n) as u32 {
        restore_row(p, store, q, n, out);
    }
}
