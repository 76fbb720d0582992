// Rows of a table, taken out of a file and encoded (document 01, section 3). The checks are written by crate encoding, which this stands on.
#![tactic(auto)]

ghost use Rattle.std.specs.Prelude.{◌≡◌, ◌+◌, ◌*◌, ◌<◌, ◌≤◌, length, get_or};
ghost use Rattle.std.proofs.lemmas.List.Edits.{sets};
ghost use Rattle.filling.specs.InnerColumn.{column};
ghost use Rattle.filling.specs.Put.{info_from, rows_from, put_serves, put_verdict, put_rows};

use refusals::Refusal;

// Whether `put_rows` serves, given room.
#[tactic(auto, unfolding(crate::specs::Put::put_serves))]
fn serves(len: usize, m: usize, at: usize, n: usize) -> bool
    ensures { result ≡ put_serves len m at n }
{
    0 < m && m <= 255 && n <= 15 && at <= 16777216 && len <= 16777216
}

// Copies eight bytes of the file, from byte `at` on and m apart.
fn copy_eight(file: &[u8], m: usize, at: usize, out: &mut [u8], o: usize)
    requires { (m ≤ 255) × (at + 7 * m < length file.now) × (o + 8 ≤ length out.old) }
    ensures { out.new ≡ sets out.old o (column file.now m at 8) }
{
    for c in 0..8 {
        out[o + c] = file[at + c * m];
    }
}

// Copies n bytes of the file, from byte `at` on and m apart, and zeros beyond it.
fn copy_padded(file: &[u8], m: usize, at: usize, n: usize, out: &mut [u8], o: usize)
    requires { (m ≤ 255) × (at ≤ 16838176) × (n ≤ 239) × (o + n ≤ length out.old) }
    ensures { out.new ≡ sets out.old o (column file.now m at n) }
{
    for c in 0..n {
        out[o + c] = file.get(at + c * m).copied().unwrap_or(0);
    }
}

// Writes the information bytes of the row that starts at byte `at` of the file: eight at a time where all of them lie within the file, and what is left one by one.
fn gather(file: &[u8], m: usize, at: usize, out: &mut [u8], o: usize)
    requires { (m ≤ 255) × (at ≤ 16777231) × (o + 239 ≤ length out.old) }
    ensures { out.new ≡ sets out.old o (info_from file.now m at) }
{
    let eights = if at + 238 * m < file.len() { 29 } else { 0 };
    for k in 0..eights {
        copy_eight(file, m, at + k * 8 * m, out, o + k * 8);
    }
    let c = eights * 8;
    copy_padded(file, m, at + c * m, 239 - c, out, o + c);
}

// Fills `rows` with the n rows from byte `at` of the file on.
fn fill(file: &[u8], m: usize, at: usize, n: usize, rows: &mut [u8])
    requires { (m ≤ 255) × (n ≤ 15) × (at ≤ 16777216) × (length rows.old ≡ n * 255) }
    ensures { rows.new ≡ rows_from file.now m at n }
{
    for r in 0..n {
        gather(file, m, at + r, rows, r * 255);
    }
    encoding::put_checks(rows);
}

// Writes n coded rows of a table of m rows to the start of `out`: the first has its information from byte `at` of the file on, m bytes apart, the next from the
// byte behind that. Beyond the file there are zeros. Refused, and nothing written: 17 where m is not 1 to 255, n is above 15, or the file or `at` is above
// 16,777,216; 26 where `out` has no room for the rows.
pub fn put_rows(file: &[u8], m: usize, at: usize, n: usize, out: &mut [u8]) -> Result<(), Refusal>
    ensures { (result ≡ put_verdict (length file.now) m at n (length out.old)) × (out.new ≡ put_rows file.now m at n out.old) }
{
    if !serves(file.len(), m, at, n) {
        return Err(Refusal::Field);
    }
    if out.len() < n * 255 {
        return Err(Refusal::Output);
    }
    fill(file, m, at, n, &mut out[0..n * 255]);
    Ok(())
}
