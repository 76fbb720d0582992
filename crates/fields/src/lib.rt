// A packet's fields, read: document 01, sections 2 and 6; for packets of either order, document 02, R-8.
#![tactic(auto)]

ghost use Rattle.std.specs.Prelude.{◌≡◌, ◌&&◌, ◌+◌, ◌*◌, ◌/◌, ◌%◌, ◌≤◌, length};
ghost use Rattle.packet.specs.Packet.{fields_in, marked, bad_protection, bad_number, bad_rows, judged, read_by, read_of, read_header_of};

use packet::Packet;
use refusals::Refusal;

// Whether the start mark stands at the front.
fn marked(packet: &[u8]) -> bool
    requires { 14 ≤ length packet.now }
    ensures { result ≡ marked packet.now }
{
    packet[0] == 0x49 && packet[1] == 0x59 && packet[2] == 0x69
}

// The sixteen bits of the resource: bytes 3 and 4.
fn resource_in(high: u8, low: u8) -> u16
    ensures { result ≡ high * 256 + low }
{
    u16::from(high) * 256 + u16::from(low)
}

// The twenty bits of the packet number: bytes 5 and 6 and the high half of byte 7.
fn number_in(high: u8, middle: u8, low: u8) -> u32
    ensures { result ≡ high * 4096 + middle * 16 + low / 16 }
{
    u32::from(high) * 4096 + u32::from(middle) * 16 + u32::from(low) / 16
}

// The twelve bits of the packet length: byte 8 and the high half of byte 9.
fn length_in(high: u8, low: u8) -> u16
    ensures { result ≡ high * 16 + low / 16 }
{
    u16::from(high) * 16 + u16::from(low) / 16
}

// The twenty bits of the packet count: the low half of byte 9 and bytes 10 and 11.
fn count_in(high: u8, middle: u8, low: u8) -> u32
    ensures { result ≡ high % 16 * 65536 + middle * 256 + low }
{
    u32::from(high) % 16 * 65536 + u32::from(middle) * 256 + u32::from(low)
}

// The eight bits of the rows: the low half of byte 12 and the high half of byte 13.
fn rows_in(high: u8, low: u8) -> u8
    ensures { result ≡ high % 16 * 16 + low / 16 }
{
    high % 16 * 16 + low / 16
}

// The nine fields of a header, as sent.
fn fields_in(packet: &[u8]) -> Packet
    requires { 14 ≤ length packet.now }
    ensures { result ≡ fields_in packet.now }
{
    Packet {
        resource: resource_in(packet[3], packet[4]),
        number: number_in(packet[5], packet[6], packet[7]),
        update: packet[7] % 16,
        length: length_in(packet[8], packet[9]),
        count: count_in(packet[9], packet[10], packet[11]),
        kind: packet[12] / 64,
        protection: packet[12] / 16 % 4,
        rows: rows_in(packet[12], packet[13]),
        reserved: packet[13] % 16,
    }
}

// Refusal 5: protection 2 or 3, or 1 with M = 0.
fn bad_protection(fields: Packet) -> bool
    ensures { result ≡ bad_protection fields }
{
    1 < fields.protection || fields.protection == 1 && fields.rows == 0
}

// Refusal 6: of a stream a count that is not 0, or number 1048575; of a file a number that is not below the count.
fn bad_number(fields: Packet) -> bool
    ensures { result ≡ bad_number fields }
{
    if fields.kind == 0 {
        return fields.count != 0 || fields.number == 1048575;
    }
    fields.count <= fields.number
}

// Refusal 7, where rows are judged: with protection, the payload of a packet of n bytes is not whole rows.
fn bad_rows(rows: bool, fields: Packet, n: usize) -> bool
    requires { 19 ≤ n }
    ensures { result ≡ rows && bad_rows fields n }
{
    rows && fields.protection == 1 && (n - (Packet::HEADER + Packet::CRC)) % 255 != 0
}

// The fields of a packet of n bytes, or the first of the refusals 4 to 8; 7 only where rows are judged.
fn judge(rows: bool, fields: Packet, n: usize) -> Result<Packet, Refusal>
    requires { 19 ≤ n }
    ensures { result ≡ judged rows fields n }
{
    if fields.kind == 3 {
        return Err(Refusal::Type);
    }
    if bad_protection(fields) {
        return Err(Refusal::Protection);
    }
    if bad_number(fields) {
        return Err(Refusal::Number);
    }
    if bad_rows(rows, fields, n) {
        return Err(Refusal::Rows);
    }
    if fields.resource == 0 {
        return Err(Refusal::Resource);
    }
    Ok(fields)
}

// The fields of a packet as sent, or the first of the refusals 1 to 8. The payload and the CRC are not looked at.
pub fn read_fields(packet: &[u8]) -> Result<Packet, Refusal>
    ensures { result ≡ read_of packet.now }
{
    read_by(true, packet)
}

// The same without refusal 7, for packets of either order: in column order a protected payload may have any length.
pub fn read_header(packet: &[u8]) -> Result<Packet, Refusal>
    ensures { result ≡ read_header_of packet.now }
{
    read_by(false, packet)
}

// The fields, or the first refusal; 7 only where rows are judged.
fn read_by(rows: bool, packet: &[u8]) -> Result<Packet, Refusal>
    ensures { result ≡ read_by rows packet.now }
{
    if packet.len() < Packet::HEADER + 1 + Packet::CRC {
        return Err(Refusal::Short);
    }
    if !marked(packet) {
        return Err(Refusal::Mark);
    }
    let fields = fields_in(packet);
    if fields.length as usize != packet.len() {
        return Err(Refusal::Length);
    }
    judge(rows, fields, packet.len())
}
