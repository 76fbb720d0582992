// Whether bytes of the store are free: document 01, section 5, Open.
ghost use Rattle.std.specs.Prelude.{◌≡◌, ◌&&◌, ◌+◌, ◌<◌, ◌^◌, leb};
ghost use Rattle.places.specs.Places.{all};
ghost use Rattle.places.specs.Room.{clear};

use places::{Place, Record};

// The size bytes from s on meet no byte of a place in use.
fn is_clear(s: usize, size: usize, p: Place) -> bool
    requires { s + size < 2 ^ 64 }
    ensures { result ≡ clear s size p }
{
    if p.resource == 0 {
        return true;
    }
    if places::end_of(p) <= s {
        return true;
    }
    s + size <= p.start as usize
}

// The size bytes from s on end at `end` or before it, and meet no place.
pub(crate) fn is_free(held: Record, end: usize, size: usize, s: usize) -> bool
    ensures { result ≡ (leb (s + size) end && all (clear s size) held.places) }
{
    if end < s {
        return false;
    }
    if end - s < size {
        return false;
    }
    held.places.iter().all(|p| is_clear(s, size, *p))
}
