// The settings under which a file is packed and collected: document 01, sections 2 and 4, and the house setting.
#![tactic(auto)]

ghost use Rattle.std.specs.Prelude.{◌≡◌};
ghost use Rattle.settings.specs.Settings.{row_wise, size_fits, rows_held, rows_sent, house as houseOf};

use packet::Packet;

// What a file is packed and collected under, besides its packets' count. `size` is the payload size P of packing and the slot size S of a
// place, `edition` that of the packets' spare bits, `order` that in which the tables are sent: 0 by rows, 1 by columns.
#[derive(Clone, Copy)]
pub struct Settings {
    pub resource: u16,
    pub kind: u8,
    pub update: u8,
    pub protection: u8,
    pub rows: u8,
    pub size: u16,
    pub edition: u16,
    pub order: u16,
}

impl Settings {
    // The edition that is meant where none is named. Editions and orders are numbers that C hands over; every call takes any number.
    pub const EDITION: u16 = 2;
    // And the order: by rows.
    pub const ORDER: u16 = 0;
}

// Whether a payload is whole rows: with protection, in row order.
pub fn row_wise(protection: u8, order: u16) -> bool
    ensures { result ≡ row_wise protection order }
{
    protection != 0 && order == 0
}

// Whether payloads and slots may have this size.
pub fn size_fits(protection: u8, order: u16, size: u16) -> bool
    ensures { result ≡ size_fits protection order size }
{
    if !row_wise(protection, order) {
        return 1 <= size && size as usize <= Packet::LARGEST;
    }
    if size % 255 != 0 {
        return false;
    }
    255 <= size && size as usize <= Packet::PROTECTED
}

// M as it is held: 0 without protection.
pub fn rows_held(settings: Settings) -> u8
    ensures { result ≡ rows_held settings }
{
    if settings.protection == 0 {
        0
    } else {
        settings.rows
    }
}

// M as it is written: without protection as the edition has it.
pub fn rows_sent(settings: Settings) -> u8
    ensures { result ≡ rows_sent settings }
{
    if settings.protection != 0 {
        return settings.rows;
    }
    edition::spare_of(settings.edition).rows
}

// The house setting, for a packing or an opening call that names none: fifteen rows a packet.
pub fn house(resource: u16, kind: u8, update: u8) -> Settings
    ensures { result ≡ houseOf resource kind update }
{
    Settings {
        resource,
        kind,
        update,
        protection: 1,
        rows: 32,
        size: 3825,
        edition: Settings::EDITION,
        order: Settings::ORDER,
    }
}
