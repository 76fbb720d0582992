// The register that divides by the generator (document 01, section 3), eight bytes at a time: sixteen bytes in two words. The table of what a half byte leaves
// is taken once a public call and lent down.
ghost use Rattle.std.specs.Prelude.{◌≡◌, ◌+◌, ◌*◌, ◌%◌, ◌<◌, ◌≤◌, length};
ghost use Rattle.std.proofs.lemmas.List.Edits.{sets};
ghost use Rattle.code.specs.Register.{run};
ghost use Rattle.code.specs.Repair.{checks_of};
ghost use Rattle.encoding.specs.InnerRegister.{part, unpack, both, checks_at, remainder_at, sealed, Halves, Feeding};

use crate::halves;

// Sixteen bytes, the first one at the top of `h`.
#[derive(Clone, Copy)]
pub(crate) struct Reg {
    pub h: u64,
    pub l: u64,
}

// The table of what a half byte leaves, by its place and its value, with its rule.
#[derive(Drop)]
pub(crate) struct HalfBytes {
    halves: [u64; 512],
    ghost ruled: { Halves halves },
}

// The table. The entry of 1 at the lowest place is the generator itself, without its leading coefficient; the others are multiples of it.
pub(crate) fn table() -> HalfBytes {
    let generator = crate::GENERATOR;
    let mut halves = halves::HALVES;
    halves[2] = word(&generator, 1);
    halves[3] = word(&generator, 9);
    HalfBytes { halves }
}

// The register after the eight bytes of `x`.
fn turn(r: Reg, x: u64, t: &HalfBytes) -> Reg
    ensures { both result.h result.l ≡ run (both r.h r.l) (unpack 8 x) }
{
    let mut w = r.h ^ x;
    let mut h = r.l;
    let mut l: u64 = 0;
    for k in 0..16 {
        let i = 32 * k + 2 * (w % 16) as usize;
        h = h ^ t.halves[i];
        l = l ^ t.halves[i + 1];
        w = w / 16;
    }
    Reg { h, l }
}

// Eight bytes of `d`, from `at` on, as a word, the first one highest.
fn word(d: &[u8], at: usize) -> u64
    requires { at + 8 ≤ length d.now }
    ensures { unpack 8 result ≡ part d.now at 8 }
{
    u64::from_be_bytes([
        d[at],
        d[at + 1],
        d[at + 2],
        d[at + 3],
        d[at + 4],
        d[at + 5],
        d[at + 6],
        d[at + 7],
    ])
}

// The register after the first seven of the 239 bytes of `d` from `at` on.
fn begin(d: &[u8], at: usize, t: &HalfBytes) -> Reg
    requires { at + 239 ≤ length d.now }
    ensures { Feeding d.now at (both result.h result.l) 0 }
{
    turn(Reg { h: 0, l: 0 }, word(d, at) / 256, t)
}

// The register after eight bytes more, of which there were k times eight.
fn go_on(r: Reg, d: &[u8], at: usize, k: usize, t: &HalfBytes) -> Reg
    requires { (at + 239 ≤ length d.now) × (k < 29) × Feeding d.now at (both r.h r.l) k }
    ensures { Feeding d.now at (both result.h result.l) (k + 1) }
{
    turn(r, word(d, at + 8 * k + 7), t)
}

// The checks of the 239 bytes of `d` from `at` on.
pub(crate) fn checks(d: &[u8], at: usize, t: &HalfBytes) -> Reg
    requires { at + 239 ≤ length d.now }
    ensures { both result.h result.l ≡ checks_at d.now at }
{
    let mut r = begin(d, at, t);
    for k in 0..29 {
        r = go_on(r, d, at, k, t);
    }
    r
}

// Writes the checks of two rows that stand one behind the other, each behind its 239 bytes: of the row from `at` on, and of the one from `at + 255` on. The two
// registers take turns, so that neither waits for the other.
pub(crate) fn seal_two(rows: &mut [u8], at: usize, t: &HalfBytes)
    requires { at + 510 ≤ length rows.old }
    ensures { rows.new ≡ sealed rows.old at }
{
    let from = at + 255;
    let d: &[u8] = rows;
    let mut a = begin(d, at, t);
    let mut b = begin(d, from, t);
    for k in 0..29 {
        a = go_on(a, d, at, k, t);
        b = go_on(b, d, from, k, t);
    }
    put(rows, at + 239, a);
    put(rows, from + 239, b);
}

// The remainder of the row of 255 bytes from `at` on.
pub(crate) fn rest(d: &[u8], at: usize, t: &HalfBytes) -> Reg
    requires { at + 255 ≤ length d.now }
    ensures { both result.h result.l ≡ remainder_at d.now at }
{
    let q = checks(d, at, t);
    Reg {
        h: q.h ^ word(d, at + 239),
        l: q.l ^ word(d, at + 247),
    }
}

// Writes the eight bytes of a word.
fn put_word(out: &mut [u8], at: usize, w: u64)
    requires { at + 8 ≤ length out.old }
    ensures { out.new ≡ sets out.old at (unpack 8 w) }
{
    out[at..at + 8].copy_from_slice(&w.to_be_bytes());
}

// Writes the sixteen bytes of a register.
pub(crate) fn put(out: &mut [u8], at: usize, r: Reg)
    requires { at + 16 ≤ length out.old }
    ensures { out.new ≡ sets out.old at (both r.h r.l) }
{
    put_word(out, at, r.h);
    put_word(out, at + 8, r.l);
}

// The checks of a row's 239 information bytes, which are all of `info`.
pub(crate) fn row_checks(info: &[u8]) -> [u8; 16]
    requires { length info.now ≡ 239 }
    ensures { result ≡ checks_of info.now }
{
    let t = table();
    let q = checks(info, 0, &t);
    let mut a = [0u8; 16];
    put(&mut a, 0, q);
    a
}
