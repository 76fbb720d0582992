// The symbols of the C library: each is the function of crate brithelva that has its name, with the same clauses. C hands over a slice as a pointer and then
// a length; include/brithelva.h documents each call.
#![tactic(auto)]

ghost use Rattle.std.specs.Prelude.{◌≡◌, true, false};
ghost use Rattle.crc.specs.Crc.{crc32_of};
ghost use Rattle.settings.specs.Settings.{meant_edition, meant_order, house};
ghost use Rattle.face.specs.Face.{Says, Keeps, encode_says, repair_says, read_says, pack_says, open_says, offer_says, status_says, hand_says, close_says};
ghost use Rattle.listing.specs.Listing.{describe_says, compose_says};

// The CRC-32 of the bytes.
#[unsafe(no_mangle)]
pub extern "C" fn bh_crc32(bytes: &[u8]) -> u32
    ensures { result ≡ crc32_of bytes.now }
{
    brithelva::bh_crc32(bytes)
}

// The checks of 239 information bytes, at the start of `checks`.
#[unsafe(no_mangle)]
pub extern "C" fn bh_encode_row(info: &[u8], checks: &mut [u8]) -> u64
    ensures { Says (encode_says info.now checks.old) result checks.new }
{
    brithelva::bh_encode_row(info, checks)
}

// The row of 255 bytes as repaired, at the start of `fixed`. The value is the number of bytes mended.
#[unsafe(no_mangle)]
pub extern "C" fn bh_repair_row(row: &[u8], fixed: &mut [u8]) -> u64
    ensures { Says (repair_says row.now fixed.old) result fixed.new }
{
    brithelva::bh_repair_row(row, fixed)
}

// The fields of a packet as nine numbers and its edition, at the start of `fields`.
#[unsafe(no_mangle)]
pub extern "C" fn bh_read_fields(packet: &[u8], fields: &mut [u32]) -> u64
    ensures { Says (read_says true packet.now fields.old) result fields.new }
{
    brithelva::bh_read_fields(packet, fields)
}

// The same without refusal 7, for packets of either order.
#[unsafe(no_mangle)]
pub extern "C" fn bh_read_header(packet: &[u8], fields: &mut [u32]) -> u64
    ensures { Says (read_says false packet.now fields.old) result fields.new }
{
    brithelva::bh_read_header(packet, fields)
}

// Packet `number` of a file in an edition and an order, at the start of `out`. The value is its length.
#[unsafe(no_mangle)]
pub extern "C" fn bh_pack_as(
    file: &[u8],
    resource: u16,
    kind: u8,
    update: u8,
    protection: u8,
    rows: u8,
    size: u16,
    edition: u16,
    order: u16,
    number: u32,
    out: &mut [u8],
) -> u64
    ensures { Says (pack_says file.now (record { resource = resource; kind = kind; update = update; protection = protection; rows = rows; size = size; edition = edition; order = order }) number out.old) result out.new }
{
    brithelva::bh_pack_as(
        file, resource, kind, update, protection, rows, size, edition, order, number, out,
    )
}

// The same in the edition and the order that are meant where none is named. It stays beside the other, since each is a call of C.
#[unsafe(no_mangle)]
pub extern "C" fn bh_pack(
    file: &[u8],
    resource: u16,
    kind: u8,
    update: u8,
    protection: u8,
    rows: u8,
    size: u16,
    number: u32,
    out: &mut [u8],
) -> u64
    ensures { Says (pack_says file.now (record { resource = resource; kind = kind; update = update; protection = protection; rows = rows; size = size; edition = meant_edition; order = meant_order }) number out.old) result out.new }
{
    brithelva::bh_pack(
        file, resource, kind, update, protection, rows, size, number, out,
    )
}

// The same under the house setting.
#[unsafe(no_mangle)]
pub extern "C" fn bh_pack_house(
    file: &[u8],
    resource: u16,
    kind: u8,
    update: u8,
    number: u32,
    out: &mut [u8],
) -> u64
    ensures { Says (pack_says file.now (house resource kind update) number out.old) result out.new }
{
    brithelva::bh_pack_house(file, resource, kind, update, number, out)
}

// Opens a place of the record in an edition and an order: the record's bytes and the slots' lengths in the store change, or nothing does.
#[unsafe(no_mangle)]
pub extern "C" fn bh_open_as(
    held: &mut [u8],
    store: &mut [u8],
    resource: u16,
    kind: u8,
    update: u8,
    count: u32,
    protection: u8,
    rows: u8,
    slot: u16,
    edition: u16,
    order: u16,
) -> u64
    ensures { Keeps (open_says held.old store.old (record { resource = resource; kind = kind; update = update; protection = protection; rows = rows; size = slot; edition = edition; order = order }) count) result held.new store.new }
{
    brithelva::bh_open_as(
        held, store, resource, kind, update, count, protection, rows, slot, edition, order,
    )
}

// The same in the edition and the order that are meant where none is named. It stays beside the other, since each is a call of C.
#[unsafe(no_mangle)]
pub extern "C" fn bh_open(
    held: &mut [u8],
    store: &mut [u8],
    resource: u16,
    kind: u8,
    update: u8,
    count: u32,
    protection: u8,
    rows: u8,
    slot: u16,
) -> u64
    ensures { Keeps (open_says held.old store.old (record { resource = resource; kind = kind; update = update; protection = protection; rows = rows; size = slot; edition = meant_edition; order = meant_order }) count) result held.new store.new }
{
    brithelva::bh_open(
        held, store, resource, kind, update, count, protection, rows, slot,
    )
}

// The same under the house setting.
#[unsafe(no_mangle)]
pub extern "C" fn bh_open_house(
    held: &mut [u8],
    store: &mut [u8],
    resource: u16,
    kind: u8,
    update: u8,
    count: u32,
) -> u64
    ensures { Keeps (open_says held.old store.old (house resource kind update) count) result held.new store.new }
{
    brithelva::bh_open_house(held, store, resource, kind, update, count)
}

// Offers a packet to the record, which is only read. The value is twice the bytes mended, and 1 more for a repeat.
#[unsafe(no_mangle)]
pub extern "C" fn bh_offer(held: &[u8], store: &mut [u8], packet: &[u8]) -> u64
    ensures { Keeps (offer_says held.now store.old packet.now) result held.now store.new }
{
    brithelva::bh_offer(held, store, packet)
}

// How a resource and type stand: the value is the filled slots + 2^24 · (the lowest empty one + 1), with 0 for the latter where none is empty.
#[unsafe(no_mangle)]
pub extern "C" fn bh_status(held: &[u8], store: &[u8], resource: u16, kind: u8) -> u64
    ensures { result ≡ status_says held.now store.now (record { resource = resource; kind = kind }) }
{
    brithelva::bh_status(held, store, resource, kind)
}

// A collected file of `length` bytes, at the start of `out`. Record and store are only read.
#[unsafe(no_mangle)]
pub extern "C" fn bh_hand_out(
    held: &[u8],
    store: &[u8],
    resource: u16,
    kind: u8,
    length: u64,
    out: &mut [u8],
) -> u64
    ensures { Says (hand_says held.now store.now (record { resource = resource; kind = kind }) length out.old) result out.new }
{
    brithelva::bh_hand_out(held, store, resource, kind, length, out)
}

// Closes the place of a resource and type. The store is only read.
#[unsafe(no_mangle)]
pub extern "C" fn bh_close(held: &mut [u8], store: &[u8], resource: u16, kind: u8) -> u64
    ensures { Keeps (close_says held.old store.now (record { resource = resource; kind = kind })) result held.new store.now }
{
    brithelva::bh_close(held, store, resource, kind)
}

// The attributes of a description file as thirty numbers, at the start of `values`.
#[unsafe(no_mangle)]
pub extern "C" fn bh_read_description(text: &[u8], values: &mut [u64]) -> u64
    ensures { Says (describe_says text.now values.old) result values.new }
{
    brithelva::bh_read_description(text, values)
}

// The description file of thirty numbers whose texts are parts of `text`, at the start of `out`. The value is its length.
#[unsafe(no_mangle)]
pub extern "C" fn bh_write_description(values: &[u64], text: &[u8], out: &mut [u8]) -> u64
    ensures { Says (compose_says values.now text.now out.old) result out.new }
{
    brithelva::bh_write_description(values, text, out)
}
