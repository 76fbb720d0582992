// The two editions of the spare bits: document 02, R-9.
#![tactic(auto)]

ghost use Rattle.std.specs.Prelude.{◌≡◌};
ghost use Rattle.packet.specs.Edition.{spare_of, is_of, edition_of};

use packet::{Packet, Spare};

// What is told of a packet that is of neither edition: editions are numbers that C hands over, and `edition_of` is defined by them.
const NEITHER: u16 = 0;

// What an edition writes: all ones in edition 1, all zeros in edition 2. Of a number that is no edition, zeros.
pub fn spare_of(edition: u16) -> Spare
    ensures { result ≡ spare_of edition }
{
    if edition == 1 {
        return Spare {
            reserved: 15,
            rows: 255,
        };
    }
    Spare {
        reserved: 0,
        rows: 0,
    }
}

// Whether a packet's spare bits are those of an edition. With protection M is the number of rows, and does not count.
fn is_of(edition: u16, fields: Packet) -> bool
    ensures { result ≡ is_of edition fields }
{
    let spare = spare_of(edition);
    if fields.reserved != spare.reserved {
        return false;
    }
    fields.protection != 0 || fields.rows == spare.rows
}

// The edition that a packet's fields show: 1, 2, or 0 for neither. Streams have one too.
pub fn edition_of(fields: Packet) -> u16
    ensures { result ≡ edition_of fields }
{
    if is_of(1, fields) {
        return 1;
    }
    if is_of(2, fields) {
        return 2;
    }
    NEITHER
}
