// Rows of 255 bytes in the store, and where their information bytes belong in the file: document 01, sections 3 and 5. Private to the crate.
ghost use Rattle.std.specs.Prelude.{◌≡◌, ℕ, ◌+◌, ◌-◌, ◌*◌, ◌≤◌, ◌<◌, ◌^◌, eqb, length};
ghost use Rattle.layout.specs.Layout.{tables_of};
ghost use Rattle.layout.specs.Spread.{spread, row_start};
ghost use Rattle.columns.specs.Handing.{all_zero};
ghost use Rattle.handing.specs.Passes.{RowsAt, info_at, Scatters, Padding};
ghost use Rattle.layout.specs.Spread.{Columns};

// Whether a file of `n` bytes needs `count` tables of `m` rows.
pub(crate) fn needs_tables(n: usize, m: usize, count: usize) -> bool
    requires { (0 < m) × (m ≤ 255) × (count * (239 * m) < 2 ^ 64) }
    ensures { result ≡ eqb (tables_of m n) count }
{
    let size = 239 * m;
    let room = count * size;
    n <= room && room - n < size
}

// Writes the first `k` information bytes of the row at `at` to `p`, `p + m` and so on.
fn scatter_row(store: &[u8], at: usize, k: usize, m: usize, p: usize, out: &mut [u8])
    requires { (at + 239 ≤ length store.now) × (m ≤ 255) × (k ≤ 239) × ((c : ℕ) → c < k → p + c * m < length out.old) }
    ensures { (n : ℕ) → Columns m n p k → out.new ≡ spread m n (info_at store.now at) p out.old }
{
    // A product for each byte takes longer.
    let mut to = p;
    for c in 0..k {
        out[to] = store[at + c];
        to += m;
    }
}

// Writes the information bytes of `count` rows that stand from `at` on, the first being row `q`, to where they belong in a file of `n` bytes.
pub(crate) fn scatter_rows(
    store: &[u8],
    at: usize,
    count: usize,
    m: usize,
    q: usize,
    n: usize,
    out: &mut [u8],
)
    requires { RowsAt m (length store.now) at count q × (n ≤ length out.old) }
    ensures { Scatters m n store.now at count q out.old out.new }
{
    for j in 0..count {
        let p = layout::row_start(m, q + j);
        let k = layout::columns_within(m, p, n);
        scatter_row(store, at + j * 255, k, m, p, out);
    }
}

// Whether bytes, no more of them than a row has, are 0. They are compared with as many zeros, since that looks at many at once.
fn is_zero(bytes: &[u8]) -> bool
    requires { length bytes.now ≤ 239 }
    ensures { result ≡ all_zero bytes.now }
{
    if bytes.len() == 0 {
        return true;
    }
    let zeros = [0u8; 239];
    slices::same(bytes, &zeros[..bytes.len()])
}

// Whether the rows hold 0 wherever they reach beyond a file of `n` bytes.
pub(crate) fn rows_end(store: &[u8], at: usize, count: usize, m: usize, q: usize, n: usize) -> bool
    requires { RowsAt m (length store.now) at count q }
    ensures { Padding m n store.now at count q result }
{
    for j in 0..count {
        let k = layout::columns_within(m, layout::row_start(m, q + j), n);
        let a = at + j * 255;
        if !is_zero(&store[a + k..a + 239]) {
            return false;
        }
    }
    true
}
