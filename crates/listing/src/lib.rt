// A description as thirty numbers, as the C face lends and takes it.
#![tactic(auto)]

ghost use Rattle.std.specs.Prelude.{◌≡◌, ◌≤◌};
ghost use Rattle.attributes.specs.Told.{description_list};
ghost use Rattle.face.specs.Face.{Says, puts};
ghost use Rattle.listing.specs.Listing.{time_from, description_from};

use attributes::{Description, Part};
use calendar::Time;

// Output's number, for an output that is too short: what C is answered is a number.
const NO_ROOM: u64 = 26;

// The thirty numbers, line 01 first.
fn numbers_of(d: Description) -> [u64; 30]
    ensures { result ≡ description_list d }
{
    [
        d.service,
        d.mode,
        d.resource,
        d.update,
        d.name.at as u64,
        d.name.length as u64,
        d.kind,
        d.title.at as u64,
        d.title.length as u64,
        d.summary.at as u64,
        d.summary.length as u64,
        d.keywords.at as u64,
        d.keywords.length as u64,
        d.charset,
        d.path.at as u64,
        d.path.length as u64,
        d.size,
        d.begins.year,
        d.begins.month,
        d.begins.day,
        d.begins.hour,
        d.begins.minute,
        d.begins.second,
        d.ends.year,
        d.ends.month,
        d.ends.day,
        d.ends.hour,
        d.ends.minute,
        d.ends.second,
        d.delete,
    ]
}

// The thirty numbers of a description at the start of `out`, if it has room.
pub fn put_numbers(d: Description, out: &mut [u64]) -> u64
    ensures { Says (puts (description_list d) out.old) result out.new }
{
    let short = out.len() < 30;
    if short {
        return NO_ROOM;
    }
    out[..30].copy_from_slice(&numbers_of(d));
    0
}

// A part of which both numbers are given.
fn part(at: u64, length: u64) -> Part
    ensures { result ≡ record { at = at; length = length } }
{
    Part {
        at: at as usize,
        length: length as usize,
    }
}

// The time whose six numbers stand from `at` on.
fn time_from(v: [u64; 30], at: usize) -> Time
    requires { at ≤ 24 }
    ensures { result ≡ time_from v at }
{
    Time {
        year: v[at],
        month: v[at + 1],
        day: v[at + 2],
        hour: v[at + 3],
        minute: v[at + 4],
        second: v[at + 5],
    }
}

// The description of thirty numbers.
fn from_thirty(v: [u64; 30]) -> Description
    ensures { result ≡ description_from v }
{
    Description {
        service: v[0],
        mode: v[1],
        resource: v[2],
        update: v[3],
        name: part(v[4], v[5]),
        kind: v[6],
        title: part(v[7], v[8]),
        summary: part(v[9], v[10]),
        keywords: part(v[11], v[12]),
        charset: v[13],
        path: part(v[14], v[15]),
        size: v[16],
        begins: time_from(v, 17),
        ends: time_from(v, 23),
        delete: v[29],
    }
}

// The description of thirty numbers; where there are fewer, zeros stand for those behind them.
pub fn description_of(numbers: &[u64]) -> Description
    ensures { result ≡ description_from numbers.now }
{
    let mut v = [0u64; 30];
    let n = numbers.len().min(30);
    v[..n].copy_from_slice(&numbers[..n]);
    from_thirty(v)
}
