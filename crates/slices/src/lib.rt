// Lent bytes, copied and compared.
#![tactic(auto)]

ghost use Rattle.std.specs.Prelude.{◌≡◌, ◌+◌, ◌<◌, ◌≤◌};
ghost use Rattle.std.proofs.lemmas.List.Edits.{sets};
ghost use Rattle.slices.specs.Slices.{same};

// Copies `bytes` into `store` from `at` on, as far as the store reaches. Byte by byte: most copies are short, where the library's copy of a part is slower, and it
// would have the archive for C ask for one function more from outside, memmove.
pub fn copy_in(store: &mut [u8], at: usize, bytes: &[u8])
    ensures { store.new ≡ sets store.old at bytes.now }
{
    let n = reach(store.len(), at, bytes.len());
    for i in 0..n {
        store[at + i] = bytes[i];
    }
}

// How many of `n` bytes from `at` on lie in `size` bytes.
fn reach(size: usize, at: usize, n: usize) -> usize
    ensures { (result ≤ n) × (0 < result → at + result ≤ size) × (result < n → size ≤ at + result) }
{
    n.min(size.saturating_sub(at))
}

// Whether two slices hold the same bytes.
pub fn same(a: &[u8], b: &[u8]) -> bool
    ensures { result ≡ same a.now b.now }
{
    a == b
}
