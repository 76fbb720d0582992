// The library's C face: each function stands for one call of the crates below, with its answer as one number. Crate brithelva_c exports them, and
// include/brithelva.h documents them for C. Parameters that travel together stay apart here, since C hands over numbers.
#![tactic(auto)]

ghost use Rattle.std.specs.Prelude.{◌≡◌, true, false, length, MatchResult};
ghost use Rattle.refusals.specs.Told.{refused_as};
ghost use Rattle.crc.specs.Crc.{crc32_of};
ghost use Rattle.settings.specs.Settings.{meant_edition, meant_order, house};
ghost use Rattle.holding.specs.Layout.{record_length, record_bytes};
ghost use Rattle.face.specs.Face.{answer_of, Says, Keeps, encode_says, repair_says, reading_says, read_says, pack_says, open_says, offer_says, status_says, hand_says, close_says};
ghost use Rattle.listing.specs.Listing.{describe_says, compose_says};

use packet::Packet;
use places::{Name, Record};
use refusals::Refusal;
use settings::Settings;

// Record's number, for bytes lent as a record that are not as many as it has: what C is answered is a number.
const NO_RECORD: u64 = 9;

// Field's number, for a description that is not thirty numbers; a number for the same reason.
const NOT_THIRTY: u64 = 17;

// The CRC-32 of the bytes.
pub fn bh_crc32(bytes: &[u8]) -> u32
    ensures { result ≡ crc32_of bytes.now }
{
    checksum::crc32(bytes)
}

// The checks of 239 information bytes, at the start of `checks`.
pub fn bh_encode_row(info: &[u8], checks: &mut [u8]) -> u64
    ensures { Says (encode_says info.now checks.old) result checks.new }
{
    let made = encoding::encode_row(info);
    let verdict = made.verdict;
    answers::put_if(verdict, &made.checks, checks)
}

// The row of 255 bytes as repaired, at the start of `fixed`. The value is the number of bytes mended.
pub fn bh_repair_row(row: &[u8], fixed: &mut [u8]) -> u64
    ensures { Says (repair_says row.now fixed.old) result fixed.new }
{
    match single::repair_row(row) {
        Ok(mended) => answers::with_value(face::put(&mended.row, fixed), mended.count),
        Err(r) => answers::refused(r),
    }
}

// The fields of a packet as nine numbers and its edition, at the start of `fields`.
pub fn bh_read_fields(packet: &[u8], fields: &mut [u32]) -> u64
    ensures { Says (read_says true packet.now fields.old) result fields.new }
{
    put_reading(fields::read_fields(packet), fields)
}

// The same without refusal 7, for packets of either order.
pub fn bh_read_header(packet: &[u8], fields: &mut [u32]) -> u64
    ensures { Says (read_says false packet.now fields.old) result fields.new }
{
    put_reading(fields::read_header(packet), fields)
}

// What was read, at the start of `fields`.
fn put_reading(reading: Result<Packet, Refusal>, fields: &mut [u32]) -> u64
    ensures { Says (reading_says reading fields.old) result fields.new }
{
    match reading {
        Ok(f) => face::put_fields(f, fields),
        Err(r) => answers::refused(r),
    }
}

// Packet `number` of a file in an edition and an order, at the start of `out`. The value is its length.
pub fn bh_pack_as(
    file: &[u8],
    resource: u16,
    kind: u8,
    update: u8,
    protection: u8,
    rows: u8,
    size: u16,
    edition: u16,
    order: u16,
    number: u32,
    out: &mut [u8],
) -> u64
    ensures { Says (pack_says file.now (record { resource = resource; kind = kind; update = update; protection = protection; rows = rows; size = size; edition = edition; order = order }) number out.old) result out.new }
{
    let settings = Settings {
        resource,
        kind,
        update,
        protection,
        rows,
        size,
        edition,
        order,
    };
    let packed = pack::pack(file, settings, number, out);
    answers::length_as(packed)
}

// The same in the edition and the order that are meant where none is named. It stays beside the other, since each is a call of C.
pub fn bh_pack(
    file: &[u8],
    resource: u16,
    kind: u8,
    update: u8,
    protection: u8,
    rows: u8,
    size: u16,
    number: u32,
    out: &mut [u8],
) -> u64
    ensures { Says (pack_says file.now (record { resource = resource; kind = kind; update = update; protection = protection; rows = rows; size = size; edition = meant_edition; order = meant_order }) number out.old) result out.new }
{
    bh_pack_as(
        file,
        resource,
        kind,
        update,
        protection,
        rows,
        size,
        Settings::EDITION,
        Settings::ORDER,
        number,
        out,
    )
}

// The same under the house setting.
pub fn bh_pack_house(
    file: &[u8],
    resource: u16,
    kind: u8,
    update: u8,
    number: u32,
    out: &mut [u8],
) -> u64
    ensures { Says (pack_says file.now (house resource kind update) number out.old) result out.new }
{
    let packed = pack::pack_house(file, resource, kind, update, number, out);
    answers::length_as(packed)
}

// Puts the record that a call hands over back into its bytes; beside a refusal they stay.
fn put_kept(held: &mut [u8], kept: Result<Record, Refusal>) -> u64
    requires { length held.old ≡ record_length }
    ensures { MatchResult kept (λ k. (result ≡ 0) × (held.new ≡ record_bytes k)) (λ r. (result ≡ answer_of (refused_as r)) × (held.new ≡ held.old)) }
{
    match kept {
        Ok(next) => {
            holding::put_record(next, held);
            0
        }
        Err(r) => answers::refused(r),
    }
}

// Opens a place of the record in an edition and an order: the record's bytes and the slots' lengths in the store change, or nothing does.
pub fn bh_open_as(
    held: &mut [u8],
    store: &mut [u8],
    resource: u16,
    kind: u8,
    update: u8,
    count: u32,
    protection: u8,
    rows: u8,
    slot: u16,
    edition: u16,
    order: u16,
) -> u64
    ensures { Keeps (open_says held.old store.old (record { resource = resource; kind = kind; update = update; protection = protection; rows = rows; size = slot; edition = edition; order = order }) count) result held.new store.new }
{
    if held.len() != holding::RECORD {
        return NO_RECORD;
    }
    let settings = Settings {
        resource,
        kind,
        update,
        protection,
        rows,
        size: slot,
        edition,
        order,
    };
    let kept = opening::open(holding::record_in(held), store, settings, count);
    put_kept(held, kept)
}

// The same in the edition and the order that are meant where none is named. It stays beside the other, since each is a call of C.
pub fn bh_open(
    held: &mut [u8],
    store: &mut [u8],
    resource: u16,
    kind: u8,
    update: u8,
    count: u32,
    protection: u8,
    rows: u8,
    slot: u16,
) -> u64
    ensures { Keeps (open_says held.old store.old (record { resource = resource; kind = kind; update = update; protection = protection; rows = rows; size = slot; edition = meant_edition; order = meant_order }) count) result held.new store.new }
{
    bh_open_as(
        held,
        store,
        resource,
        kind,
        update,
        count,
        protection,
        rows,
        slot,
        Settings::EDITION,
        Settings::ORDER,
    )
}

// The same under the house setting.
pub fn bh_open_house(
    held: &mut [u8],
    store: &mut [u8],
    resource: u16,
    kind: u8,
    update: u8,
    count: u32,
) -> u64
    ensures { Keeps (open_says held.old store.old (house resource kind update) count) result held.new store.new }
{
    if held.len() != holding::RECORD {
        return NO_RECORD;
    }
    let before = holding::record_in(held);
    let kept = opening::open_house(before, store, resource, kind, update, count);
    put_kept(held, kept)
}

// Offers a packet to the record, which is only read. The value is twice the bytes mended, and 1 more for a repeat.
pub fn bh_offer(held: &[u8], store: &mut [u8], packet: &[u8]) -> u64
    ensures { Keeps (offer_says held.now store.old packet.now) result held.now store.new }
{
    if held.len() != holding::RECORD {
        return NO_RECORD;
    }
    let offered = offering::offer(holding::record_in(held), store, packet);
    answers::offered_as(offered)
}

// How a resource and type stand: the value is the filled slots + 2^24 · (the lowest empty one + 1), with 0 for the latter where none is empty.
pub fn bh_status(held: &[u8], store: &[u8], resource: u16, kind: u8) -> u64
    ensures { result ≡ status_says held.now store.now (record { resource = resource; kind = kind }) }
{
    if held.len() != holding::RECORD {
        return NO_RECORD;
    }
    let name = Name { resource, kind };
    let standing = standing::status(holding::record_in(held), store, name);
    answers::standing_as(standing)
}

// A collected file of `length` bytes, at the start of `out`. Record and store are only read.
pub fn bh_hand_out(
    held: &[u8],
    store: &[u8],
    resource: u16,
    kind: u8,
    length: u64,
    out: &mut [u8],
) -> u64
    ensures { Says (hand_says held.now store.now (record { resource = resource; kind = kind }) length out.old) result out.new }
{
    if held.len() != holding::RECORD {
        return NO_RECORD;
    }
    let before = holding::record_in(held);
    let name = Name { resource, kind };
    let verdict = readout::hand_out(before, store, name, length as usize, out);
    answers::verdict_of(verdict)
}

// Closes the place of a resource and type. The store is only read.
pub fn bh_close(held: &mut [u8], store: &[u8], resource: u16, kind: u8) -> u64
    ensures { Keeps (close_says held.old store.now (record { resource = resource; kind = kind })) result held.new store.now }
{
    if held.len() != holding::RECORD {
        return NO_RECORD;
    }
    let name = Name { resource, kind };
    let kept = opening::close(holding::record_in(held), store, name);
    put_kept(held, kept)
}

// The attributes of a description file as thirty numbers, at the start of `values`.
pub fn bh_read_description(text: &[u8], values: &mut [u64]) -> u64
    ensures { Says (describe_says text.now values.old) result values.new }
{
    match description::read(text) {
        Ok(d) => listing::put_numbers(d, values),
        Err(r) => answers::refused(r),
    }
}

// The description file of thirty numbers whose texts are parts of `text`, at the start of `out`. The value is its length.
pub fn bh_write_description(values: &[u64], text: &[u8], out: &mut [u8]) -> u64
    ensures { Says (compose_says values.now text.now out.old) result out.new }
{
    if values.len() != 30 {
        return NOT_THIRTY;
    }
    let d = listing::description_of(values);
    let composed = composing::write(text, d, out);
    answers::length_as(composed)
}
