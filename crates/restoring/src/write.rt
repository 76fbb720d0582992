// The file of a place in column order, written once every refusal is ruled out: document 02, R-8. In column order the information columns of a table are file bytes that follow one
// another, so what came is copied slot by slot; what is lost is then put in, row by row. Private to the crate.
ghost use Rattle.std.specs.Prelude.{◌≡◌, ◌++◌, ◌+◌, ◌≤◌, ◌<◌, length, drop};
ghost use Rattle.layout.specs.Layout.{undone};
ghost use Rattle.contents.specs.Contents.{slot_at, contents};
ghost use Rattle.columns.specs.Columns.{sent_length, restored};
ghost use Rattle.columns.specs.InnerWrite.{Writable};
ghost use Rattle.columns.specs.InnerBytes.{aim_of, Known, Nearer, Together, Copied};

use crate::lost;
use places::Place;

// Bytes of the file that follow one another in one slot: the slot, the first of them there, and how many.
#[derive(Clone, Copy)]
struct Chunk {
    slot: usize,
    from: usize,
    len: usize,
}

// Those from byte `f` of a file of `n` bytes on, up to the end of their slot or of their table's information.
fn chunk_at(p: Place, n: usize, f: usize) -> Chunk
    requires { (1 ≤ p.rows) × (1 ≤ p.slot) × (n ≤ 16777216) × (f < n) }
    ensures { Together p.rows p.slot n f result.slot result.from result.len }
{
    let m = p.rows as usize;
    let size = p.slot as usize;
    let table = 239 * m;
    let t = f / table;
    let j = f + t * (16 * m);
    let from = j % size;
    let left = words::lesser(n, (t + 1) * table) - f;
    Chunk {
        slot: j / size,
        from,
        len: words::lesser(size - from, left),
    }
}

// Copies a chunk to `to`; of an empty slot nothing.
fn copy_chunk(p: Place, store: &[u8], c: Chunk, to: usize, out: &mut [u8])
    requires { slot_at p c.slot + 2 + c.from + c.len ≤ length store.now }
    ensures { Copied store.now (slot_at p c.slot) c.from c.len to out.old out.new }
{
    let at = p.start as usize + c.slot * (p.slot as usize + 2);
    if contents::slot_length(store, at) == 0 {
        return;
    }
    let first = at + 2 + c.from;
    slices::copy_in(out, to, &store[first..first + c.len]);
}

// Writes the bytes of the file that came.
fn write_known(p: Place, store: &[u8], n: usize, out: &mut [u8])
    requires { Writable p store.now n × (n ≤ length out.old) }
    ensures { Nearer (aim_of p store.now) n (Known p store.now) out.old out.new }
{
    let mut f: usize = 0;
    // By while, since each step is as long as the part that was copied.
    while f < n {
        let c = chunk_at(p, n, f);
        copy_chunk(p, store, c, f, out);
        f += c.len;
    }
}

// Writes the file of `n` bytes that a place holds, at the front of the output. Where no slot is empty nothing is lost.
pub(crate) fn write_file(p: Place, store: &[u8], n: usize, out: &mut [u8])
    requires { Writable p store.now n × (n ≤ length out.old) }
    ensures { out.new ≡ undone 1 p.rows (restored p.rows p.slot (contents p store.now) (sent_length p.rows n)) n 0 ++ drop n out.old }
{
    write_known(p, store, n, out);
    // Every length was judged before, so that something is seen.
    let seen = standing::survey(p, store).unwrap();
    if seen.filled == p.count {
        return;
    }
    lost::restore_rows(p, store, n, out);
}
