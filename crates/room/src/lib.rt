// Where the bytes of places stand in the store: document 01, section 5; when refusal 9 is given: section 6. A record is judged by `is_good` before anything else
// is asked of it. The definitions and laws are those of crate places.
#![tactic(auto)]

ghost use Rattle.std.specs.Prelude.{◌≡◌};
ghost use Rattle.places.specs.Places.{good};
ghost use Rattle.places.specs.Room.{lowest_start};

use places::Record;

mod free;
mod ranges;

// Whether the record is good for a store of `n` bytes: refusal 9 is given exactly if it is not.
pub fn is_good(held: Record, n: usize) -> bool
    ensures { result ≡ good n held.places }
{
    for (i, p) in held.places.iter().enumerate() {
        if p.resource != 0 {
            if !ranges::is_sound(n, *p) {
                return false;
            }
            let later = &held.places[i + 1..];
            if !later.iter().all(|q| ranges::do_agree(*p, *q)) {
                return false;
            }
        }
    }
    true
}

// The lowest start at which `size` bytes fit a store of `n` bytes and meet no place. It is 0 or the end of a place in use: a byte
// lower they would meet that place.
pub fn lowest_start(held: Record, n: usize, size: usize) -> Option<usize>
    ensures { result ≡ lowest_start n size held.places }
{
    let end = ranges::usable(n);
    if free::is_free(held, end, size, 0) {
        return Some(0);
    }
    let mut best = end + 1;
    for p in held.places {
        if p.resource != 0 {
            let start = places::end_of(p);
            if start < best && free::is_free(held, end, size, start) {
                best = start;
            }
        }
    }
    if best <= end { Some(best) } else { None }
}
