// The payload of a packet that is sent by columns (document 02, R-8): a part of all tables, column behind column. The information columns are the file's own bytes; a row whose
// checks are in the part is encoded once, by crate filling, which this stands on.
#![tactic(auto)]

ghost use Rattle.std.specs.Prelude.{◌≡◌, ◌+◌, ◌-◌, ◌*◌, ◌<◌, ◌≤◌, length, get_or};
ghost use Rattle.std.proofs.lemmas.List.Edits.{sets};
ghost use Rattle.ground.specs.Lists.{listed};
ghost use Rattle.laying.specs.InnerLay.{sent_byte, table_byte, Table, Part, Strewn};
ghost use Rattle.laying.specs.Lay.{lay_serves, lay_verdict, lay_into};

use refusals::Refusal;

// Whether `put_columns` serves, given room.
#[tactic(auto, unfolding(crate::specs::Lay::lay_serves))]
fn serves(len: usize, m: usize, from: usize, n: usize) -> bool
    ensures { result ≡ lay_serves len m from n }
{
    if m == 0 || 255 < m || 16777216 < len || 4077 < n {
        return false;
    }
    let all = 255 * layout::rows_of(m as u8, len);
    from <= all && n <= all - from
}

// Writes n bytes of the file, from byte `at` on, and zeros beyond it.
fn put_info(file: &[u8], at: usize, n: usize, out: &mut [u8], o: usize)
    requires { (at ≤ 16842240) × (n ≤ 4077) × (o + n ≤ length out.old) }
    ensures { out.new ≡ sets out.old o (listed (λ k. get_or file.now k 0) n at) }
{
    let a = at.min(file.len());
    let b = (at + n).min(file.len());
    slices::copy_in(out, o, &file[a..b]);
    out[o + (b - a)..o + n].fill(0);
}

// Writes the bytes of a row, from byte c on, m bytes apart: to o, o + m, .., as long as that is below o + n.
fn strew(row: &[u8], c: usize, m: usize, n: usize, out: &mut [u8], o: usize)
    requires { (0 < m) × (m ≤ 255) × (length row.now ≡ 255) × (n ≤ (255 - c) * m) × (o + n ≤ length out.old) }
    ensures { Strewn (λ q. get_or row.now (c + q) 0) m n o out.old out.new }
{
    for q in 0..words::over(n, m) {
        out[o + q * m] = row[c + q];
    }
}

// Encodes the row of table t that has byte p of it, and writes that byte to o and those of the columns behind it m bytes apart, as long as that is below o + n.
fn put_row(file: &[u8], m: usize, t: usize, p: usize, n: usize, out: &mut [u8], o: usize)
    requires { Table (length file.now) m t × (p + n ≤ 255 * m) × (o + n ≤ length out.old) }
    ensures { Strewn (λ q. table_byte m file.now t (p + q * m)) m n o out.old out.new }
{
    let r = p % m;
    let c = p / m;
    let mut row = [0u8; 255];
    // It serves and has room, so nothing is refused.
    let _ = filling::put_rows(file, m, t * (239 * m) + r, 1, &mut row);
    strew(&row, c, m, n, out, o);
}

// Writes n bytes of table t, from byte p on: each row that has one of them is encoded once.
fn put_checks(file: &[u8], m: usize, t: usize, p: usize, n: usize, out: &mut [u8], o: usize)
    requires { Table (length file.now) m t × (p + n ≤ 255 * m) × (o + n ≤ length out.old) }
    ensures { out.new ≡ sets out.old o (listed (table_byte m file.now t) n p) }
{
    for i in 0..n.min(m) {
        put_row(file, m, t, p + i, n - i, out, o + i);
    }
}

// Of the `left` bytes from byte j of what is sent on, writes those that lie in its table, and all in information columns or all in check columns, to o. How many they are.
fn put_run(file: &[u8], m: usize, j: usize, left: usize, out: &mut [u8], o: usize) -> usize
    requires { (0 < left) × Part (length file.now) m j left (length out.old) o }
    ensures { (0 < result) × (result ≤ left) × (out.new ≡ sets out.old o (listed (sent_byte m file.now) result j)) }
{
    let t = j / (255 * m);
    let p = j % (255 * m);
    if p < 239 * m {
        let n = left.min(239 * m - p);
        put_info(file, t * (239 * m) + p, n, out, o);
        return n;
    }
    let n = left.min(255 * m - p);
    put_checks(file, m, t, p, n, out, o);
    n
}

// Writes n bytes of what is sent, from byte `from` on, to the start of `out`.
fn fill(file: &[u8], m: usize, from: usize, n: usize, out: &mut [u8])
    requires { Part (length file.now) m from n (length out.old) 0 }
    ensures { out.new ≡ sets out.old 0 (listed (sent_byte m file.now) n from) }
{
    let mut x: usize = 0;
    // By while, since each step is as long as the run that was put.
    while x < n {
        x += put_run(file, m, from + x, n - x, out, x);
    }
}

// Writes n bytes of the file's tables of m rows, sent column by column, from byte `from` on, to the start of `out`. Refused, and nothing written: 17 where m is not 1 to 255, the
// file is above 16,777,216 bytes, n is above 4077, or the bytes lie beyond the file's tables; 26 where `out` has no room for them.
pub fn put_columns(
    file: &[u8],
    m: usize,
    from: usize,
    n: usize,
    out: &mut [u8],
) -> Result<(), Refusal>
    ensures { (result ≡ lay_verdict (length file.now) m from n (length out.old)) × (out.new ≡ lay_into file.now m from n out.old) }
{
    if !serves(file.len(), m, from, n) {
        return Err(Refusal::Field);
    }
    if out.len() < n {
        return Err(Refusal::Output);
    }
    fill(file, m, from, n, out);
    Ok(())
}
