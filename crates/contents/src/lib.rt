// Slots of a store as the calls above read and fill them: document 01, section 5. Each takes every input, and answers what the definitions of specs/ say, by
// which what a place holds is told. A store reads as 0 beyond its end.
#![tactic(auto)]

ghost use Rattle.std.specs.Prelude.{◌≡◌, ◌+◌, ◌≤◌, length};
ghost use Rattle.contents.specs.Slots.{length_at, room_for, slot_verdict, stored_within};
ghost use Rattle.contents.specs.Contents.{length_fits};

use places::Place;
use refusals::Refusal;

// The length that stands in the slot at `at`. Every slot of a place is asked, so that the bytes are looked up one by one only at the store's end.
pub fn slot_length(store: &[u8], at: usize) -> usize
    ensures { result ≡ length_at store.now at }
{
    let n = store.len();
    if n < 2 || n - 1 <= at {
        return low_byte(store, at);
    }
    u16::from_le_bytes([store[at], store[at + 1]]) as usize
}

// The same where the store has at most the first byte of it.
fn low_byte(store: &[u8], at: usize) -> usize
    requires { length store.now ≤ at + 1 }
    ensures { result ≡ length_at store.now at }
{
    usize::from(store.get(at).copied().unwrap_or(0))
}

// Whether a slot of a place may hold `n` bytes.
pub fn length_fits(p: Place, n: usize) -> bool
    ensures { result ≡ length_fits p n }
{
    n <= p.slot as usize && (!settings::row_wise(p.protection, p.order) || n % 255 == 0)
}

// Puts a payload into the slot at `at`. Its length is written last: a process that is killed before leaves the slot empty. Refused, and nothing written: 26 where
// there is no room for it.
pub fn put_slot(store: &mut [u8], at: usize, payload: &[u8]) -> Result<(), Refusal>
    ensures { (result ≡ slot_verdict (length store.old) at (length payload.now)) × (store.new ≡ stored_within store.old at payload.now) }
{
    let n = payload.len();
    if !has_room(store.len(), at, n) {
        return Err(Refusal::Output);
    }
    slices::copy_in(store, at + 2, payload);
    store[at..at + 2].copy_from_slice(&(n as u16).to_le_bytes());
    Ok(())
}

// Whether a slot at `at` in a store of `size` bytes has room for `n`.
fn has_room(size: usize, at: usize, n: usize) -> bool
    ensures { result ≡ room_for size at n }
{
    n <= 65535 && n + 2 <= size && at <= size - (n + 2)
}
