// The record as a caller holds it, 160 bytes (specs/Layout.antt): read, and written again.
#![tactic(auto)]

ghost use Rattle.std.specs.Prelude.{◌≡◌, ◌+◌, ◌*◌, ◌≤◌, length};
ghost use Rattle.std.proofs.lemmas.List.Edits.{sets};
ghost use Rattle.holding.specs.Layout.{place_length, record_length, two, four, place_in, record_in, place_bytes, record_bytes};

use places::{Place, Record};
use std::array;

// The bytes of a place, and of a record's eight.
const PLACE: usize = 20;

pub const RECORD: usize = 160;

// Two bytes as a number.
fn two_in(bytes: &[u8], at: usize) -> u16
    requires { at + 2 ≤ length bytes.now }
    ensures { result ≡ two bytes.now at }
{
    u16::from_le_bytes([bytes[at], bytes[at + 1]])
}

// Four bytes as a number.
fn four_in(bytes: &[u8], at: usize) -> u32
    requires { at + 4 ≤ length bytes.now }
    ensures { result ≡ four bytes.now at }
{
    u32::from_le_bytes([bytes[at], bytes[at + 1], bytes[at + 2], bytes[at + 3]])
}

// The place in the bytes from `at` on.
#[tactic(auto, unfolding(crate::specs::Layout::place_in))]
fn place_in(bytes: &[u8], at: usize) -> Place
    requires { at + place_length ≤ length bytes.now }
    ensures { result ≡ place_in bytes.now at }
{
    Place {
        resource: two_in(bytes, at),
        kind: bytes[at + 2],
        update: bytes[at + 3],
        count: four_in(bytes, at + 4),
        protection: bytes[at + 8],
        rows: bytes[at + 9],
        slot: two_in(bytes, at + 10),
        start: four_in(bytes, at + 12),
        edition: two_in(bytes, at + 16),
        order: two_in(bytes, at + 18),
    }
}

// The record in its bytes, and others behind them.
#[tactic(auto, unfolding(crate::specs::Layout::record_in))]
fn places_in(bytes: &[u8]) -> Record
    requires { record_length ≤ length bytes.now }
    ensures { result ≡ record_in bytes.now }
{
    Record {
        places: array::from_fn(|i| place_in(bytes, i * PLACE)),
    }
}

// The record in the first 160 bytes. Where there are fewer, zeros stand for those behind them.
pub fn record_in(bytes: &[u8]) -> Record
    ensures { result ≡ record_in bytes.now }
{
    if RECORD <= bytes.len() {
        return places_in(bytes);
    }
    let mut whole = [0u8; RECORD];
    slices::copy_in(&mut whole, 0, bytes);
    places_in(&whole)
}

// The bytes of a place.
#[tactic(auto, unfolding(crate::specs::Layout::place_bytes))]
fn place_bytes(p: Place) -> [u8; PLACE]
    ensures { result ≡ place_bytes p }
{
    let resource = p.resource.to_le_bytes();
    let count = p.count.to_le_bytes();
    let slot = p.slot.to_le_bytes();
    let start = p.start.to_le_bytes();
    let edition = p.edition.to_le_bytes();
    let order = p.order.to_le_bytes();
    [
        resource[0],
        resource[1],
        p.kind,
        p.update,
        count[0],
        count[1],
        count[2],
        count[3],
        p.protection,
        p.rows,
        slot[0],
        slot[1],
        start[0],
        start[1],
        start[2],
        start[3],
        edition[0],
        edition[1],
        order[0],
        order[1],
    ]
}

// The record's bytes, place by place.
fn record_bytes(held: Record) -> [u8; RECORD]
    ensures { result ≡ record_bytes held }
{
    let mut out = [0u8; RECORD];
    for (i, p) in held.places.iter().enumerate() {
        slices::copy_in(&mut out, i * PLACE, &place_bytes(*p));
    }
    out
}

// Puts the record's bytes to the start of others, as far as these reach.
pub fn put_record(held: Record, bytes: &mut [u8])
    ensures { bytes.new ≡ sets bytes.old 0 (record_bytes held) }
{
    slices::copy_in(bytes, 0, &record_bytes(held));
}
