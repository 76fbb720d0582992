// The packet of document 01, section 2: its fields and its lengths. No code: the crate has the definitions of the header, of reading it and of its
// two editions (specs/), and what is proved of them (proofs/). They are read and written in crate fields; what an edition writes and shows is told in crate edition.
#![tactic(auto)]

// A packet's fields, as sent. `kind` is document 01's type: 0 stream, 1 file, 2 description file.
#[derive(Clone, Copy)]
pub struct Packet {
    pub resource: u16,
    pub number: u32,
    pub update: u8,
    pub length: u16,
    pub count: u32,
    pub kind: u8,
    pub protection: u8,
    pub rows: u8,
    pub reserved: u8,
}

// What an edition writes where nothing else is said: the four reserved bits, and M without protection.
#[derive(Clone, Copy)]
pub struct Spare {
    pub reserved: u8,
    pub rows: u8,
}

impl Packet {
    // The bytes before the payload.
    pub const HEADER: usize = 14;
    // The bytes behind it.
    pub const CRC: usize = 4;
    // The longest payload.
    pub const LARGEST: usize = 4077;
    // The longest with protection: fifteen rows.
    pub const PROTECTED: usize = 3825;
}
