// The refusals of document 01, section 6, and of document 02, one enum for all calls.
#![tactic(auto)]

ghost use Rattle.std.specs.Prelude.{◌≡◌};
ghost use Rattle.refusals.specs.Refusals.{number_of, value_of};

// By the documents' names; the extra value where one is named: of Repair the first row that has no coded row within eight bytes, of
// Missing the lowest empty slot, of Line the line that has a fault, of Lost the first row that lacks more than sixteen bytes.
#[derive(Clone, Copy)]
pub enum Refusal {
    Short,
    Mark,
    Length,
    Type,
    Protection,
    Number,
    Rows,
    Resource,
    Record,
    Unknown,
    Other,
    Wide,
    Repair(u32),
    Crc,
    Slot,
    Conflict,
    Field,
    Held,
    Full,
    Room,
    Missing(u32),
    Shape,
    Size,
    Padding,
    Count,
    Output,
    Line(u32),
    Extra,
    Lost(u32),
    Code,
    Edition,
}

// The refusal's number.
pub fn number(r: Refusal) -> u8
    ensures { result ≡ number_of r }
{
    match r {
        Refusal::Short => 1,
        Refusal::Mark => 2,
        Refusal::Length => 3,
        Refusal::Type => 4,
        Refusal::Protection => 5,
        Refusal::Number => 6,
        Refusal::Rows => 7,
        Refusal::Resource => 8,
        Refusal::Record => 9,
        Refusal::Unknown => 10,
        Refusal::Other => 11,
        Refusal::Wide => 12,
        Refusal::Repair(_) => 13,
        Refusal::Crc => 14,
        Refusal::Slot => 15,
        Refusal::Conflict => 16,
        Refusal::Field => 17,
        Refusal::Held => 18,
        Refusal::Full => 19,
        Refusal::Room => 20,
        Refusal::Missing(_) => 21,
        Refusal::Shape => 22,
        Refusal::Size => 23,
        Refusal::Padding => 24,
        Refusal::Count => 25,
        Refusal::Output => 26,
        Refusal::Line(_) => 29,
        Refusal::Extra => 30,
        Refusal::Lost(_) => 31,
        Refusal::Code => 32,
        Refusal::Edition => 33,
    }
}

// Its extra value, 0 where none is named.
pub fn value(r: Refusal) -> u32
    ensures { result ≡ value_of r }
{
    match r {
        Refusal::Repair(row) => row,
        Refusal::Missing(slot) => slot,
        Refusal::Line(line) => line,
        Refusal::Lost(row) => row,
        _ => 0,
    }
}
