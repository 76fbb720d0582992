// A packet's CRC: written behind its header and payload (document 01, section 4), and judged when it is offered (section 5).
#![tactic(auto)]

ghost use Rattle.std.specs.Prelude.{◌≡◌, length};
ghost use Rattle.sealing.specs.Sealing.{seal_verdict, sealed_at, crc_agrees};

use packet::Packet;
use refusals::Refusal;

// Writes the CRC of the first n bytes behind them. Refused, and nothing written: 26 where there is no room for it.
pub fn seal(out: &mut [u8], n: usize) -> Result<(), Refusal>
    ensures { (result ≡ seal_verdict (length out.old) n) × (out.new ≡ sealed_at out.old n) }
{
    let len = out.len();
    if len < Packet::CRC {
        return Err(Refusal::Output);
    }
    if len - Packet::CRC < n {
        return Err(Refusal::Output);
    }
    let sum = checksum::crc32(&out[..n]);
    out[n..n + Packet::CRC].copy_from_slice(&sum.to_be_bytes());
    Ok(())
}

// Whether the CRC as sent is that of the packet's header and of a payload, which may be the repaired one. What is too short for a header has none.
pub fn agrees(packet: &[u8], payload: &[u8]) -> bool
    ensures { result ≡ crc_agrees packet.now payload.now }
{
    let n = packet.len();
    if n < Packet::HEADER {
        return false;
    }
    let sent = u32::from_be_bytes([packet[n - 4], packet[n - 3], packet[n - 2], packet[n - 1]]);
    let t = crc::table();
    let header = crc::feed_by(&t, checksum::start(), &packet[..Packet::HEADER]);
    sent == checksum::finish(crc::feed_by(&t, header, payload))
}
