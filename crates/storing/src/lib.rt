// A payload meets the slot of its number: document 01, section 5, Offer, and the refusals 15 and 16. What is offered comes here once it is read, judged by its fields and mended.
#![tactic(auto)]

ghost use Rattle.std.specs.Prelude.{◌≡◌, ◌<◌, ◌^◌};
ghost use Rattle.record.specs.Put.{slot_has, put_of};

use places::Place;
use record::Offered;
use refusals::Refusal;

// A payload, of which `mended` bytes were mended, meets the slot of its number: an empty one takes it, and no other changes. `agrees` says whether the packet's CRC is
// that of its header and this payload; where it is not, the slot is not looked at. Refused: 9 where the slot does not lie in the store or is shorter than the
// payload, 14, 15, 16.
pub fn put_in(
    p: Place,
    store: &mut [u8],
    number: u32,
    payload: &[u8],
    mended: u32,
    agrees: bool,
) -> Result<Offered, Refusal>
    ensures { (result ≡ (put_of p store.old number payload.now mended agrees).answer)
        × (store.new ≡ (put_of p store.old number payload.now mended agrees).store) }
{
    let at = p.start as usize + number as usize * (p.slot as usize + 2);
    if !slot_has(p, store.len(), at, payload.len()) {
        return Err(Refusal::Record);
    }
    if !agrees {
        return Err(Refusal::Crc);
    }
    let n = contents::slot_length(store, at);
    if !contents::length_fits(p, n) {
        return Err(Refusal::Slot);
    }
    if n == 0 {
        // The slot lies in the store and has room: asked above.
        let _ = contents::put_slot(store, at, payload);
        return Ok(Offered::Stored(mended));
    }
    let from = at + 2;
    if slices::same(&store[from..from + n], payload) {
        return Ok(Offered::Repeat(mended));
    }
    Err(Refusal::Conflict)
}

// Whether the slot that starts at `at` lies in a store of `size` bytes, and has room for `n`.
fn slot_has(p: Place, size: usize, at: usize, n: usize) -> bool
    requires { at < 2 ^ 63 }
    ensures { result ≡ slot_has p size at n }
{
    if size < at + (p.slot as usize + 2) {
        return false;
    }
    n <= p.slot as usize
}
