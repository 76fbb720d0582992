// The register of CRC-32 (source document 000, Annex C, as document 01, section 2, takes it), fed by a table that the caller lends. Beside this code the crate has
// the definition of the CRC (specs/) and its laws (proofs/). The table has an entry for each half byte at each of 32 places: sixteen bytes go in at once, and yet
// it is small enough to be made anew for a call.
#![tactic(auto)]

mod halfbytes;

ghost use Rattle.std.specs.Prelude.{◌≡◌, [], ◌∷◌, ◌+◌, ◌*◌, ◌%◌, ◌≤◌, ◌<◌, length, get_or, take, drop};
ghost use Rattle.crc.specs.Table.{Rule, number, entries, group_by, feed_by};

// The table, for a caller that feeds many parts: made once, it is lent to each `feed_by`.
pub fn table() -> [u32; 512]
    ensures { Rule 32 0x04C11DB7 32 result }
{
    halfbytes::ROWS
}

// The register after the bytes, where the table is the one of `table`. Any other table is walked over in the same way.
pub fn feed_by(table: &[u32; 512], register: u32, bytes: &[u8]) -> u32
    ensures { result ≡ feed_by 32 table.now (16 ∷ 4 ∷ 1 ∷ []) register bytes.now }
{
    let (sixteens, rest) = bytes.as_chunks::<16>();
    let (fours, ones) = rest.as_chunks::<4>();
    let r = sixteens.iter().fold(register, |r, b| sixteen(table, r, b));
    let s = fours.iter().fold(r, |r, b| four(table, r, b));
    ones.iter().fold(s, |r, b| one(table, r, *b))
}

// Sixteen bytes go in. The word that waits for the register comes last, so that the others need not wait.
fn sixteen(t: &[u32; 512], register: u32, bytes: &[u8; 16]) -> u32
    ensures { result ≡ group_by 32 t.now 16 register bytes.now }
{
    eight(t, 0, word(bytes, 12))
        ^ (eight(t, 8, word(bytes, 8))
            ^ (eight(t, 16, word(bytes, 4)) ^ eight(t, 24, register ^ word(bytes, 0))))
}

// Four bytes go in.
fn four(t: &[u32; 512], register: u32, bytes: &[u8; 4]) -> u32
    ensures { result ≡ group_by 32 t.now 4 register bytes.now }
{
    eight(t, 0, register ^ word(bytes, 0))
}

// One byte goes in.
fn one(t: &[u32; 512], register: u32, b: u8) -> u32
    ensures { result ≡ group_by 32 t.now 1 register (b ∷ []) }
{
    two(t, 0, (register >> 24) ^ words::wide32(b)) ^ (register << 8)
}

// The entries of a word's eight half bytes, from row k on.
fn eight(t: &[u32; 512], k: usize, v: u32) -> u32
    requires { k ≤ 24 }
    ensures { result ≡ entries t.now k 8 v }
{
    two(t, k, v) ^ (two(t, k + 2, v >> 8) ^ (two(t, k + 4, v >> 16) ^ two(t, k + 6, v >> 24)))
}

// The entries of the two low half bytes, in rows k and k + 1.
fn two(t: &[u32; 512], k: usize, v: u32) -> u32
    requires { k ≤ 30 }
    ensures { result ≡ entries t.now k 2 v }
{
    at(t, k, v) ^ at(t, k + 1, v >> 4)
}

// The entry of the lowest half byte in row k.
fn at(t: &[u32; 512], k: usize, v: u32) -> u32
    requires { k < 32 }
    ensures { result ≡ get_or t.now (k * 16 + v % 16) 0 }
{
    t[k * 16 + (v % 16) as usize]
}

// Four bytes as one number, the first one highest. (`u32::from_be_bytes` swaps a whole word, which is then taken apart by half bytes: a fifth slower.)
fn word(bytes: &[u8], i: usize) -> u32
    requires { i + 4 ≤ length bytes.now }
    ensures { result ≡ number (take 4 (drop i bytes.now)) }
{
    words::wide32(bytes[i]) * 16777216
        + words::wide32(bytes[i + 1]) * 65536
        + words::wide32(bytes[i + 2]) * 256
        + words::wide32(bytes[i + 3])
}
