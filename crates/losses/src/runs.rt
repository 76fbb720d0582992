// A row gathered by its runs, a run being the columns that stand in one slot: document 02, R-8. Private to the crate. Column x of a row stands at byte `first + x * m` of what was
// sent, `first` being where its column 0 stands.
ghost use Rattle.std.specs.Prelude.{◌≡◌, not, ◌&&◌, ◌||◌, ◌+◌, ◌*◌, ◌/◌, ◌%◌, ◌<◌, ◌≤◌, ◌^◌, eqb, leb, length};
ghost use Rattle.places.specs.Places.{end_of, in_rows};
ghost use Rattle.contents.specs.Slots.{length_at};
ghost use Rattle.losses.specs.InnerRuns.{Tabled, Held, Walk, Reached, Copied, One, Noted, Gathered, Begins, Ended, Behind, Alone, Taken};

use places::Place;

// Where a run ended: the column behind it, and how many columns are lost up to there.
#[derive(Clone, Copy)]
struct Run {
    column: usize,
    lost: usize,
}

// The length that stands in the slot at `at`, which lies in the store: that is asked once for all slots, since `contents::slot_length`, which asks each time, makes it a sixth slower (102 for 119 MB/s).
fn length_at(store: &[u8], at: usize) -> usize
    requires { at + 2 ≤ length store.now }
    ensures { result ≡ length_at store.now at }
{
    words::index(store[at]) + words::index(store[at + 1]) * 256
}

// Whether a slot for `size` bytes may hold `n`, `by_rows` saying whether payloads are whole rows: `contents::length_fits` finds that out anew for each slot.
fn may_hold(size: usize, by_rows: bool, n: usize) -> bool
    ensures { result ≡ (leb n size && (not by_rows || eqb (n % 255) 0)) }
{
    if size < n {
        return false;
    }
    !by_rows || n % 255 == 0
}

// The length of the payload in slot `k`; 0 where it is empty, where its length is wrong, and where there is no such slot. `by_rows` says whether payloads are whole rows.
fn held_by(p: Place, store: &[u8], k: usize, by_rows: bool) -> usize
    requires { (end_of p ≤ length store.now) × (by_rows ≡ in_rows p) }
    ensures { Held p store.now k result }
{
    if p.count as usize <= k {
        return 0;
    }
    let n = length_at(store, p.start as usize + k * (p.slot as usize + 2));
    if may_hold(p.slot as usize, by_rows, n) {
        return n;
    }
    0
}

// The same where that is not known yet.
fn held(p: Place, store: &[u8], k: usize) -> usize
    requires { end_of p ≤ length store.now }
    ensures { Held p store.now k result }
{
    held_by(p, store, k, settings::row_wise(p.protection, p.order))
}

// The slot in which byte `j` stands. No division where it is slot `k`.
fn slot_of(j: usize, size: usize, k: usize) -> usize
    requires { (0 < size) × (size < 2 ^ 16) × (k < 2 ^ 47) }
    ensures { result ≡ j / size }
{
    let begin = k * size;
    if j < begin {
        return j / size;
    }
    if j - begin < size {
        return k;
    }
    j / size
}

// Copies the columns from `c` on that stand before byte `end`, which lies `d` on in the store. Answers the column behind them.
fn copy_run(
    row: &mut [u8; 255],
    c: usize,
    store: &[u8],
    first: usize,
    m: usize,
    d: usize,
    end: usize,
) -> usize
    requires { (length row.old ≡ 255) × Walk first m end c × (d + end ≤ length store.now) }
    ensures { Copied first m d end store.now c row.old result row.new }
{
    // By hand, with the one test: as a `for x in c..255` that returns at `end` it makes handing out in columns a sixth slower (224 for 269 MB/s).
    let mut x = c;
    let mut j = first + c * m;
    while j < end {
        row[x] = store[d + j];
        x += 1;
        j += m;
    }
    x
}

// Passes over the columns from `c` on that stand before byte `end`.
fn pass_run(c: usize, first: usize, m: usize, end: usize) -> usize
    requires { Walk first m end c }
    ensures { Reached first m end c result }
{
    if end <= first + c * m {
        return c;
    }
    words::over(end - first, m)
}

// Notes column `c` as lost, unless sixteen are noted.
fn note(at: &mut [u8; 16], lost: usize, c: usize)
    requires { (length at.old ≡ 16) × (c < 255) }
    ensures { One c lost at.old at.new }
{
    if 16 <= lost {
        return;
    }
    at[lost] = (254 - c) as u8;
}

// Notes the columns from `c` on that stand before byte `end` as lost, `lost` being lost already. Answers the column behind them.
fn note_run(at: &mut [u8; 16], lost: usize, c: usize, first: usize, m: usize, end: usize) -> usize
    requires { (length at.old ≡ 16) × (lost ≤ 255) × Walk first m end c }
    ensures { Noted first m end c lost at.old result at.new }
{
    for x in c..255 {
        if end <= first + x * m {
            return x;
        }
        note(at, lost + (x - c), x);
    }
    255
}

// Gathers the run that begins with column `c`, which stands in slot `k`.
fn take_run(
    p: Place,
    store: &[u8],
    first: usize,
    k: usize,
    c: usize,
    lost: usize,
    row: &mut [u8; 255],
    at: &mut [u8; 16],
) -> Run
    requires { Begins p store.now first k c lost row.old at.old }
    ensures { Ended p store.now first c result.column result.lost row.new at.new }
{
    let m = p.rows as usize;
    let size = p.slot as usize;
    let begin = k * size;
    let last = first + 255 * m;
    let end = words::lesser(begin + size, last);
    let n = held(p, store, k);
    let empty = n == 0;
    if empty {
        let column = note_run(at, lost, c, first, m, end);
        return Run {
            column,
            lost: lost + (column - c),
        };
    }
    let d = p.start as usize + 2 * k + 2;
    let behind = copy_run(row, c, store, first, m, d, words::lesser(begin + n, last));
    let column = pass_run(behind, first, m, end);
    Run { column, lost }
}

// Gathers the row whose column 0 is byte `first`, in a row and places that are all 0, run by run. Answers how many columns are lost.
fn take_runs(p: Place, store: &[u8], first: usize, row: &mut [u8; 255], at: &mut [u8; 16]) -> usize
    requires { Tabled p (length store.now) × (first < 2 ^ 46) × Gathered p store.now first 0 0 row.old at.old }
    ensures { Gathered p store.now first 255 result row.new at.new }
{
    let m = p.rows as usize;
    let size = p.slot as usize;
    let mut lost: usize = 0;
    let mut c: usize = 0;
    let mut k: usize = 0;
    // By while, since each step is as long as the run that was gathered.
    while c < 255 {
        k = slot_of(first + c * m, size, k);
        let run = take_run(p, store, first, k, c, lost, row, at);
        c = run.column;
        lost = run.lost;
        k += 1;
    }
    lost
}

// Where a byte of what was sent stands: its slot, and its number there.
#[derive(Clone, Copy)]
struct Spot {
    slot: usize,
    byte: usize,
}

// Where the byte stands that is `step` slots and `rest` bytes behind.
fn spot_behind(s: Spot, step: usize, rest: usize, size: usize) -> Spot
    requires { (s.slot < 2 ^ 48) × (s.byte < size) × (step < 256) × (rest < size) × (size < 2 ^ 16) }
    ensures { Behind s.slot s.byte step rest size result.slot result.byte }
{
    let byte = s.byte + rest;
    if byte < size {
        return Spot {
            slot: s.slot + step,
            byte,
        };
    }
    Spot {
        slot: s.slot + step + 1,
        byte: byte - size,
    }
}

// Gathers column `c` alone, which stands at that spot. Answers how many columns are lost then.
fn take_column(
    p: Place,
    store: &[u8],
    by_rows: bool,
    s: Spot,
    c: usize,
    lost: usize,
    row: &mut [u8; 255],
    at: &mut [u8; 16],
) -> usize
    requires { Alone p (length store.now) by_rows c lost row.old at.old }
    ensures { Taken p store.now s.slot s.byte c lost row.old at.old result row.new at.new }
{
    let n = held_by(p, store, s.slot, by_rows);
    if s.byte < n {
        row[c] = store[p.start as usize + s.slot * (p.slot as usize + 2) + 2 + s.byte];
        return lost;
    }
    if 0 < n {
        return lost;
    }
    note(at, lost, c);
    lost + 1
}

// Gathers the row as `take_runs` does, column by column: the faster way where a slot holds one column at most.
fn take_columns(
    p: Place,
    store: &[u8],
    first: usize,
    row: &mut [u8; 255],
    at: &mut [u8; 16],
) -> usize
    requires { Tabled p (length store.now) × (first < 2 ^ 46) × Gathered p store.now first 0 0 row.old at.old }
    ensures { Gathered p store.now first 255 result row.new at.new }
{
    let by_rows = settings::row_wise(p.protection, p.order);
    let size = p.slot as usize;
    let step = p.rows as usize / size;
    let rest = p.rows as usize % size;
    let mut s = Spot {
        slot: first / size,
        byte: first % size,
    };
    let mut lost: usize = 0;
    for c in 0..255 {
        lost = take_column(p, store, by_rows, s, c, lost, row, at);
        s = spot_behind(s, step, rest, size);
    }
    lost
}

// The same where slots lie evenly below the columns: each column is the same byte of its slot. One way for all three
// hands out at 2.9 times the peer's speed, where these do at 4.9.
fn take_even(p: Place, store: &[u8], first: usize, row: &mut [u8; 255], at: &mut [u8; 16]) -> usize
    requires { Tabled p (length store.now) × (first < 2 ^ 46) × (p.rows % p.slot ≡ 0) × Gathered p store.now first 0 0 row.old at.old }
    ensures { Gathered p store.now first 255 result row.new at.new }
{
    let by_rows = settings::row_wise(p.protection, p.order);
    let size = p.slot as usize;
    let step = p.rows as usize / size;
    let byte = first % size;
    let mut k = first / size;
    let mut lost: usize = 0;
    for c in 0..255 {
        lost = take_column(p, store, by_rows, Spot { slot: k, byte }, c, lost, row, at);
        k += step;
    }
    lost
}

// Gathers the row whose column 0 is byte `first`, in a row and places that are all 0. Answers how many columns are lost.
pub(crate) fn take_row(
    p: Place,
    store: &[u8],
    first: usize,
    row: &mut [u8; 255],
    at: &mut [u8; 16],
) -> usize
    requires { Tabled p (length store.now) × (first < 2 ^ 46) × Gathered p store.now first 0 0 row.old at.old }
    ensures { Gathered p store.now first 255 result row.new at.new }
{
    let m = p.rows as usize;
    let size = p.slot as usize;
    if m % size == 0 {
        return take_even(p, store, first, row, at);
    }
    if size <= m {
        return take_columns(p, store, first, row, at);
    }
    take_runs(p, store, first, row, at)
}

// Where column 0 of row `q` stands in what was sent, the rows of all tables counted through.
pub(crate) fn first_byte(q: u32, rows: u8) -> usize
    requires { 0 < rows }
    ensures { (result ≡ q / rows * (255 * rows) + q % rows) × (result < 2 ^ 46) }
{
    let m = rows as usize;
    q as usize / m * (255 * m) + q as usize % m
}
