// Offer: document 01, section 5. A packet is judged first, which does not look at the store; then its payload meets what the slot of its number holds.
// Refusals in the order 9, then 1 to 8 as the field reader gives them, 7 passed over at a place in column order (document 02, R-8), then 10, 11, 33 (R-9), and 12 to 16.
#![tactic(auto)]

ghost use Rattle.std.specs.Prelude.{◌≡◌, Ok, true, not, ◌+◌, ◌/◌, ◌%◌, ◌≤◌, eqb, length};
ghost use Rattle.packet.specs.Packet.{read_by, read_of};
ghost use Rattle.places.specs.Places.{names, fits};
ghost use Rattle.contents.specs.Contents.{slot_at};
ghost use Rattle.code.specs.Mend.{mend_rows};
ghost use Rattle.record.specs.Offer.{packet_name, name_in, differs, judge_mended, judge, offer_judged, offer_of};
ghost use Rattle.record.specs.InnerOffer.{Comes, nowhere};

use packet::Packet;
use places::{Name, Place, Record};
use record::Offered;
use refusals::Refusal;

// The resource and type that a packet names: its bytes 3 and 4, and the two high bits of byte 12.
fn name_in(packet: &[u8]) -> Name
    requires { 19 ≤ length packet.now }
    ensures { result ≡ name_in packet.now }
{
    Name {
        resource: packet[3] as u16 * 256 + packet[4] as u16,
        kind: packet[12] / 64,
    }
}

// The fields of a packet as the place that it names has it read: in column order refusal 7 is passed over.
fn read_at(p: Place, packet: &[u8]) -> Result<Packet, Refusal>
    ensures { result ≡ read_by (not (eqb p.order 1)) packet.now }
{
    if p.order == 1 {
        return fields::read_header(packet);
    }
    fields::read_fields(packet)
}

// A packet that no place is for: what reading its fields refuses comes first.
fn offer_nowhere(packet: &[u8]) -> Result<Offered, Refusal>
    ensures { result ≡ nowhere (read_of packet.now) }
{
    fields::read_fields(packet)?;
    Err(Refusal::Unknown)
}

// Refusal 11. Packet and place are two types, of which four fields are compared, the last under protection alone.
fn differs(p: Place, fields: Packet) -> bool
    ensures { result ≡ differs p fields }
{
    if fields.update != p.update {
        return true;
    }
    if fields.count != p.count {
        return true;
    }
    if fields.protection != p.protection {
        return true;
    }
    fields.protection == 1 && fields.rows != p.rows
}

// A packet with protection: each row of its payload is repaired first, and the repaired payload goes on. There are fifteen rows at most.
fn offer_rows(
    p: Place,
    store: &mut [u8],
    number: u32,
    packet: &[u8],
    payload: &[u8],
) -> Result<Offered, Refusal>
    requires { (slot_at p number + (p.slot + 2) ≤ length store.old) × (14 ≤ length packet.now) × (length payload.now ≤ p.slot) × (length payload.now ≤ 3825) × (length payload.now % 255 ≡ 0) }
    ensures { Comes (offer_judged p store.old (judge_mended number packet.now (mend_rows (length payload.now / 255) 0 payload.now))) result store.new }
{
    let n = payload.len();
    let mut buffer = [0u8; Packet::PROTECTED];
    slices::copy_in(&mut buffer, 0, payload);
    let mended = repair::mend(&mut buffer[..n])?;
    let repaired = &buffer[..n];
    storing::put_in(
        p,
        store,
        number,
        repaired,
        mended,
        sealing::agrees(packet, repaired),
    )
}

// A packet that was read, at the place that holds its resource and type.
fn offer_at(p: Place, store: &mut [u8], fields: Packet, packet: &[u8]) -> Result<Offered, Refusal>
    requires { (read_by (not (eqb p.order 1)) packet.now ≡ Ok fields) × (fits (length store.old) p ≡ true) × (names p (packet_name fields) ≡ true) }
    ensures { Comes (offer_judged p store.old (judge p fields packet.now)) result store.new }
{
    if differs(p, fields) {
        return Err(Refusal::Other);
    }
    if edition::edition_of(fields) != p.edition {
        return Err(Refusal::Edition);
    }
    let end = packet.len() - Packet::CRC;
    let payload = &packet[Packet::HEADER..end];
    if (p.slot as usize) < payload.len() {
        return Err(Refusal::Wide);
    }
    if !settings::row_wise(fields.protection, p.order) {
        return storing::put_in(
            p,
            store,
            fields.number,
            payload,
            0,
            sealing::agrees(packet, payload),
        );
    }
    offer_rows(p, store, fields.number, packet, payload)
}

// Offers one packet to the place that holds its resource and type. Its payload, repaired under protection, goes into the slot of its number if that is empty; a slot
// that holds it already stays as it is. Refused, the store is as it came.
pub fn offer(held: Record, store: &mut [u8], packet: &[u8]) -> Result<Offered, Refusal>
    ensures { (result ≡ (offer_of held store.old packet.now).answer) × (store.new ≡ (offer_of held store.old packet.now).store) }
{
    if !room::is_good(held, store.len()) {
        return Err(Refusal::Record);
    }
    if packet.len() < Packet::HEADER + 1 + Packet::CRC {
        return Err(Refusal::Short);
    }
    let Some(i) = places::find_place(held, name_in(packet)) else {
        return offer_nowhere(packet);
    };
    let p = held.places[i];
    // Taken apart by let .. else, as document 01 asks of Offer.
    let reading = read_at(p, packet);
    let Ok(fields) = reading else {
        return Err(reading.unwrap_err());
    };
    offer_at(p, store, fields, packet)
}
