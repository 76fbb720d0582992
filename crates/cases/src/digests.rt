// Digests of bytes: the length, the CRC-32 and FNV-1a of 64 bits.

#[derive(Clone, Copy, PartialEq, Eq)]
pub(crate) struct Digest {
    pub(crate) length: u64,
    pub(crate) crc: u64,
    pub(crate) fnv: u64,
}

impl Digest {
    pub(crate) fn of(bytes: &[u8]) -> Digest {
        Digest {
            length: bytes.len() as u64,
            crc: u64::from(brithelva::bh_crc32(bytes)),
            fnv: fnv(START, bytes),
        }
    }

    pub(crate) fn print(self) {
        io::print_decimal(1, self.length);
        io::write_all(1, b" bytes crc ");
        io::print_hex(1, self.crc, 8);
        io::write_all(1, b" fnv ");
        io::print_hex(1, self.fnv, 16);
    }
}

// What FNV-1a starts from, and what it multiplies by.
const START: u64 = 14695981039346656037;

const PRIME: u64 = 1099511628211;

// FNV-1a, going on from h.
fn fnv(h: u64, bytes: &[u8]) -> u64 {
    let mut next = h;
    for b in bytes {
        next = (next ^ u64::from(*b)).wrapping_mul(PRIME);
    }
    next
}

// One number for all that a call may change.
pub(crate) fn mark(held: &[u8], store: &[u8], out: &[u8]) -> u64 {
    fnv(fnv(fnv(START, held), store), out)
}
