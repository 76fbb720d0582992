// CRC-32 of source document 000, Annex C, as document 01, section 2, takes it: of the whole at once, and in parts.
#![tactic(auto)]

ghost use Rattle.std.specs.Prelude.{◌≡◌};
ghost use Rattle.ground.specs.Bits.{sum};
ghost use Rattle.crc.specs.Crc.{feed, ones, crc32_of};

const ONES: u32 = 0xFFFFFFFF;

// The CRC-32 of the bytes.
pub fn crc32(bytes: &[u8]) -> u32
    ensures { result ≡ crc32_of bytes.now }
{
    feed(ONES, bytes) ^ ONES
}

// The register before the first byte.
pub fn start() -> u32
    ensures { result ≡ ones 32 }
{
    ONES
}

// The register after the bytes. A caller that has them in parts feeds one part after the other, from `start` on.
pub fn feed(register: u32, bytes: &[u8]) -> u32
    ensures { result ≡ feed 32 0x04C11DB7 register bytes.now }
{
    let t = crc::table();
    crc::feed_by(&t, register, bytes)
}

// The CRC of all that was fed.
pub fn finish(register: u32) -> u32
    ensures { result ≡ sum register (ones 32) }
{
    register ^ ONES
}
