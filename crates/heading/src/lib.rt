// A packet's header, written: document 01, sections 2 and 6.
#![tactic(auto)]

ghost use Rattle.std.specs.Prelude.{◌≡◌};
ghost use Rattle.packet.specs.Packet.{header_of};

use packet::Packet;

// The fourteen bytes before a payload. Of a field that is too wide for the header its low bits are written.
// Most fields do not begin at a byte, so that the library's conversions to bytes would serve one of nine.
pub fn header(packet: Packet) -> [u8; Packet::HEADER]
    ensures { result ≡ header_of packet }
{
    [
        0x49,
        0x59,
        0x69,
        (packet.resource / 256) as u8,
        (packet.resource % 256) as u8,
        (packet.number / 4096 % 256) as u8,
        (packet.number / 16 % 256) as u8,
        (packet.number % 16) as u8 * 16 + packet.update % 16,
        (packet.length / 16 % 256) as u8,
        (packet.length % 16) as u8 * 16 + (packet.count / 65536 % 16) as u8,
        (packet.count / 256 % 256) as u8,
        (packet.count % 256) as u8,
        packet.kind % 4 * 64 + packet.protection % 4 * 16 + packet.rows / 16,
        packet.rows % 16 * 16 + packet.reserved % 16,
    ]
}
