// How a resource stands: document 01, section 5, Status. A pass over the lengths of a place's slots, two bytes of each, which Hand out begins with too. Record
// and store are only read.
#![tactic(auto)]

ghost use Rattle.std.specs.Prelude.{◌≡◌, ◌≤◌, length};
ghost use Rattle.places.specs.Places.{end_of};
ghost use Rattle.contents.specs.Contents.{contents};
ghost use Rattle.standing.specs.Survey.{seen_of};
ghost use Rattle.standing.specs.Status.{standing_in, status_of};

use places::{Name, Place, Record};
use refusals::Refusal;

// What a pass saw: how many slots are filled, how many stand before the lowest empty one, which is all of them where none is empty, and how many bytes the
// payloads have.
#[derive(Clone, Copy)]
pub struct Seen {
    pub filled: u32,
    pub empty: u32,
    pub bytes: usize,
}

// How a resource stands: the number of filled slots, and the lowest empty one.
#[derive(Clone, Copy)]
pub struct Standing {
    pub filled: u32,
    pub lowest: Option<usize>,
}

// What the slots of a place hold, by their lengths; nothing for a place that passes the end of the store, or has a slot whose length is wrong. Whether the place
// lies in the store is asked once, before the first slot.
pub fn survey(p: Place, store: &[u8]) -> Option<Seen>
    ensures { result ≡ seen_of p store.now }
{
    if store.len() < places::end_of(p) {
        return None;
    }
    let width = p.slot as usize + 2;
    let mut filled: u32 = 0;
    let mut empty: u32 = 0;
    let mut bytes: usize = 0;
    for k in 0..p.count {
        let n = contents::slot_length(store, p.start as usize + k as usize * width);
        if !contents::length_fits(p, n) {
            return None;
        }
        if n != 0 {
            filled += 1;
        }
        if filled == k + 1 {
            empty = filled;
        }
        bytes += n;
    }
    Some(Seen {
        filled,
        empty,
        bytes,
    })
}

// How a place stands.
fn stands(p: Place, store: &[u8]) -> Result<Standing, Refusal>
    requires { end_of p ≤ length store.now }
    ensures { result ≡ standing_in (contents p store.now) }
{
    let seen = survey(p, store).ok_or(Refusal::Slot)?;
    let lowest = if seen.empty == p.count {
        None
    } else {
        Some(seen.empty as usize)
    };
    Ok(Standing {
        filled: seen.filled,
        lowest,
    })
}

// How many slots of the place that a name means are filled, and the lowest empty one. Refused: 9, 10, 15.
pub fn status(held: Record, store: &[u8], name: Name) -> Result<Standing, Refusal>
    ensures { result ≡ status_of held store.now name }
{
    if !room::is_good(held, store.len()) {
        return Err(Refusal::Record);
    }
    let i = places::find_place(held, name).ok_or(Refusal::Unknown)?;
    stands(held.places[i], store)
}
