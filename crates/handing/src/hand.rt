// Hand out: document 01, section 5. Every refusal is ruled out before a byte is written.
ghost use Rattle.std.specs.Prelude.{◌≡◌, ◌++◌, ◌/◌, ◌≤◌, length, drop};
ghost use Rattle.layout.specs.Spread.{scattered};
ghost use Rattle.contents.specs.Contents.{contents};
ghost use Rattle.handing.specs.Hand.{hand_rows, hand_contents};
ghost use Rattle.handing.specs.Passes.{Usable, Filled, Rowed, sent_in, info_in, Padding};

use crate::tables;
use places::Place;
use refusals::Refusal;

// Writes the payloads of a place one behind the other.
fn write_plain(p: Place, store: &[u8], out: &mut [u8])
    requires { Filled p store.now × (length (sent_in p store.now) ≤ length out.old) }
    ensures { out.new ≡ sent_in p store.now ++ drop (length (sent_in p store.now)) out.old }
{
    let width = p.slot as usize + 2;
    // A product for each slot takes longer.
    let mut at = p.start as usize;
    let mut o: usize = 0;
    for k in 0..p.count {
        let n = contents::slot_length(store, at);
        let from = at + 2;
        let to = from + n;
        slices::copy_in(out, o, &store[from..to]);
        o += n;
        at += width;
    }
}

// Writes the rows of a place to where they belong in a file of `n` bytes.
fn write_rows(p: Place, store: &[u8], n: usize, out: &mut [u8])
    requires { Rowed p store.now × (n ≤ length out.old) }
    ensures { out.new ≡ scattered p.rows n (info_in (sent_in p store.now)) (length (sent_in p store.now) / 255) out.old }
{
    let m = p.rows as usize;
    let width = p.slot as usize + 2;
    let mut q: usize = 0;
    for k in 0..p.count {
        let at = p.start as usize + k as usize * width;
        let count = contents::slot_length(store, at) / 255;
        tables::scatter_rows(store, at + 2, count, m, q, n, out);
        q += count;
    }
}

// Whether the rows of a place hold 0 wherever they reach beyond a file of `n` bytes.
fn padding_ends(p: Place, store: &[u8], n: usize) -> bool
    requires { Rowed p store.now }
    ensures { Padding p.rows n (sent_in p store.now) 0 (length (sent_in p store.now) / 255) 0 result }
{
    let m = p.rows as usize;
    let width = p.slot as usize + 2;
    let mut q: usize = 0;
    for k in 0..p.count {
        let at = p.start as usize + k as usize * width;
        let count = contents::slot_length(store, at) / 255;
        if !tables::rows_end(store, at + 2, count, m, q, n) {
            return false;
        }
        q += count;
    }
    true
}

// With protection the tables are undone.
fn hand_rows(p: Place, store: &[u8], bytes: usize, n: usize, out: &mut [u8]) -> Result<(), Refusal>
    requires { Rowed p store.now × (bytes ≡ length (sent_in p store.now)) }
    ensures { (result ≡ (hand_rows p.rows (sent_in p store.now) n out.old).answer)
        × (out.new ≡ (hand_rows p.rows (sent_in p store.now) n out.old).output) }
{
    let m = p.rows as usize;
    let rows = bytes / 255;
    if rows % m != 0 {
        return Err(Refusal::Shape);
    }
    if !tables::needs_tables(n, m, rows / m) {
        return Err(Refusal::Size);
    }
    if !padding_ends(p, store, n) {
        return Err(Refusal::Padding);
    }
    if out.len() < n {
        return Err(Refusal::Output);
    }
    write_rows(p, store, n, out);
    Ok(())
}

// The first `n` bytes of the file that a place holds. Without protection the joined payloads are the file.
pub(crate) fn hand_usable(p: Place, store: &[u8], n: usize, out: &mut [u8]) -> Result<(), Refusal>
    requires { Usable p store.now }
    ensures { (result ≡ (hand_contents p (contents p store.now) n out.old).answer)
        × (out.new ≡ (hand_contents p (contents p store.now) n out.old).output) }
{
    let seen = standing::survey(p, store).ok_or(Refusal::Slot)?;
    if seen.empty != p.count {
        return Err(Refusal::Missing(seen.empty));
    }
    let bytes = seen.bytes;
    if p.protection != 0 {
        return hand_rows(p, store, bytes, n, out);
    }
    let differs = n != bytes;
    if differs {
        return Err(Refusal::Size);
    }
    if out.len() < bytes {
        return Err(Refusal::Output);
    }
    write_plain(p, store, out);
    Ok(())
}
