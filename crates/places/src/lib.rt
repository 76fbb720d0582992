// The record of eight places: document 01, section 5. Whether it is good for a store, and where there is room in it, is told by crate room; every call here
// answers for any record.
#![tactic(auto)]

ghost use Rattle.std.specs.Prelude.{◌≡◌};
ghost use Rattle.places.specs.Places.{fresh_record, cover_of, end_of, place_of, count_fits, names, place_named, first_unused};

use settings::Settings;

// A place in use holds what a file is collected under and where its slots start. It is in use exactly if its resource is not 0.
#[derive(Clone, Copy)]
pub struct Place {
    pub resource: u16,
    pub kind: u8,
    pub update: u8,
    pub count: u32,
    pub protection: u8,
    pub rows: u8,
    pub slot: u16,
    pub start: u32,
    pub edition: u16,
    pub order: u16,
}

impl Place {
    // A place that is not in use, as all are in a fresh record and each is once it is closed.
    pub const UNUSED: Place = Place {
        resource: 0,
        kind: 0,
        update: 0,
        count: 0,
        protection: 0,
        rows: 0,
        slot: 0,
        start: 0,
        edition: 0,
        order: 0,
    };
}

#[derive(Clone, Copy)]
pub struct Record {
    pub places: [Place; 8],
}

// What a place is found by: resource and type together.
#[derive(Clone, Copy, PartialEq, Eq)]
pub struct Name {
    pub resource: u16,
    pub kind: u8,
}

// A record whose places are all unused.
pub fn fresh() -> Record
    ensures { result ≡ fresh_record }
{
    Record {
        places: [Place::UNUSED; 8],
    }
}

// Whether a place is the one that a name means. An unused one is meant by none.
pub fn holds(p: Place, name: Name) -> bool
    ensures { result ≡ names p name }
{
    let own = Name {
        resource: p.resource,
        kind: p.kind,
    };
    p.resource != 0 && own == name
}

// The place that a name means.
pub fn find_place(held: Record, name: Name) -> Option<usize>
    ensures { result ≡ place_named held.places name }
{
    held.places.iter().position(|p| holds(*p, name))
}

// The first unused place.
pub fn find_unused(held: Record) -> Option<usize>
    ensures { result ≡ first_unused held.places }
{
    held.places.iter().position(|p| p.resource == 0)
}

// The bytes that `count` slots for `size` bytes cover.
pub fn cover_of(count: u32, size: u16) -> usize
    ensures { result ≡ cover_of count size }
{
    count as usize * (size as usize + 2)
}

// Where the bytes of a place end.
pub fn end_of(p: Place) -> usize
    ensures { result ≡ end_of p }
{
    p.start as usize + cover_of(p.count, p.slot)
}

// Whether a file may have this many packets.
pub fn count_fits(count: u32) -> bool
    ensures { result ≡ count_fits count }
{
    1 <= count && count <= 1048575
}

// The place that settings, a count and a start ask for. Without protection M is held as 0, in either edition.
pub fn place_of(settings: Settings, count: u32, start: u32) -> Place
    ensures { result ≡ place_of settings count start }
{
    Place {
        resource: settings.resource,
        kind: settings.kind,
        update: settings.update,
        count: count,
        protection: settings.protection,
        rows: settings::rows_held(settings),
        slot: settings.size,
        start: start,
        edition: settings.edition,
        order: settings.order,
    }
}
