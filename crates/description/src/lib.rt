// Reading a description file (document 02, R-4): its lines are found first, then read into attributes, then judged by the rules that the writer keeps too.
#![tactic(auto)]

ghost use Rattle.std.specs.Prelude.{◌≡◌, ◌+◌, ◌≤◌, length};
ghost use Rattle.decimal.specs.Decimal.{number_in};
ghost use Rattle.attributes.specs.Attributes.{part_of};
ghost use Rattle.attributes.specs.Describe.{optional_in, given_time, lower, describe_of};
ghost use Rattle.description.specs.Inner.{ReadOf, Within};

mod lines;

use attributes::{Description, Part};
use calendar::Time;
use refusals::Refusal;

// The number that a part of the text writes.
fn number_at(text: &[u8], p: Part) -> u64
    requires { p.at + p.length ≤ length text.now }
    ensures { result ≡ number_in (part_of text.now p) }
{
    decimal::number_in(&text[p.at..p.at + p.length])
}

// The number of a part that may be empty, which is told by `none`.
fn optional_at(text: &[u8], p: Part, none: u64) -> u64
    requires { p.at + p.length ≤ length text.now }
    ensures { result ≡ optional_in none (part_of text.now p) }
{
    if p.length == 0 {
        return none;
    }
    let found = number_at(text, p);
    if found == none {
        return decimal::NO_NUMBER;
    }
    found
}

// The time of a part that may be empty, which is told by zeros.
fn time_at(text: &[u8], p: Part) -> Time
    requires { p.at + p.length ≤ length text.now }
    ensures { result ≡ given_time (part_of text.now p) }
{
    if p.length == 0 {
        return Time::default();
    }
    times::time_in(&text[p.at..p.at + p.length])
}

// The attributes whose values stand in these parts.
fn attributes_in(text: &[u8], parts: [Part; 15]) -> Description
    requires { Within parts (length text.now) }
    ensures { ReadOf text.now parts result }
{
    Description {
        service: number_at(text, parts[0]),
        mode: number_at(text, parts[1]),
        resource: number_at(text, parts[2]),
        update: number_at(text, parts[3]),
        name: parts[4],
        kind: number_at(text, parts[5]),
        title: parts[6],
        summary: parts[7],
        keywords: parts[8],
        charset: optional_at(text, parts[9], Description::NO_CHARSET),
        path: parts[10],
        size: optional_at(text, parts[11], Description::NO_SIZE),
        begins: time_at(text, parts[12]),
        ends: time_at(text, parts[13]),
        delete: number_at(text, parts[14]),
    }
}

// The lower of two.
fn lower(a: u64, b: u64) -> u64
    ensures { result ≡ lower a b }
{
    a.min(b)
}

// The attributes of a description file, its texts as parts of `text`. A line that is missing or has a fault is refused with the number of the lowest such line, bytes behind
// line 15 after that.
pub fn read(text: &[u8]) -> Result<Description, Refusal>
    ensures { result ≡ describe_of text.now }
{
    let found = lines::split(text);
    let d = attributes_in(text, found.parts);
    let fault = lower(judging::lowest_fault(text, d), found.count as u64 + 1);
    if fault <= 15 {
        return Err(Refusal::Line(fault as u32));
    }
    if found.next < text.len() {
        return Err(Refusal::Extra);
    }
    Ok(d)
}
