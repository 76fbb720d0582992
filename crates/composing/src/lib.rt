// Writing a description file.
#![tactic(auto)]

ghost use Rattle.std.specs.Prelude.{◌≡◌, ◌+◌, ◌<◌, ◌≤◌, ltb, length};
ghost use Rattle.std.proofs.lemmas.List.Edits.{sets};
ghost use Rattle.decimal.specs.Decimal.{digits};
ghost use Rattle.attributes.specs.Attributes.{optional_text, time_value};
ghost use Rattle.attributes.specs.Lines.{label};
ghost use Rattle.attributes.specs.Compose.{compose_of};
ghost use Rattle.composing.specs.Inner.{own, lent, pieces, piece_of, piece_in, Holds, line_of, lines_by, size_by, Lies, Placed};

use attributes::{Description, Part};
use calendar::{Time, not_given};
use decimal::digits_of;
use judging::lowest_fault;
use refusals::Refusal;
use slices::copy_in;
use times::time_text;

// A line's value: at most nineteen bytes at the front of `bytes`, then a part of the text. One of the two has no bytes. Their count stands beside them, since the
// library has no heap.
#[derive(Clone, Copy)]
struct Value {
    bytes: [u8; 19],
    length: usize,
    part: Part,
}

// A number's digits.
fn number(n: u64) -> Value
    ensures { Holds (own (digits n)) result }
{
    let found = digits_of(n);
    let digits = found.bytes;
    let mut bytes: [u8; 19] = [0; 19];
    copy_in(&mut bytes, 0, &digits);
    Value {
        bytes: bytes,
        length: found.length,
        part: Part { at: 0, length: 0 },
    }
}

// A part of the text.
fn text_part(p: Part) -> Value
    ensures { Holds (lent p) result }
{
    Value {
        bytes: [0; 19],
        length: 0,
        part: p,
    }
}

// A number's digits, none where it is `none`.
fn optional(none: u64, n: u64) -> Value
    ensures { Holds (own (optional_text none n)) result }
{
    if n == none {
        return text_part(Part { at: 0, length: 0 });
    }
    number(n)
}

// A time's nineteen bytes, none where it is not given.
fn time(t: Time) -> Value
    ensures { Holds (own (time_value t)) result }
{
    if not_given(t) {
        return text_part(Part { at: 0, length: 0 });
    }
    let bytes = time_text(t);
    Value {
        bytes: bytes,
        length: 19,
        part: Part { at: 0, length: 0 },
    }
}

// The value of line k, the first counted 0.
fn value_of(d: Description, k: usize) -> Value
    requires { k < 15 }
    ensures { Holds (piece_of d k) result }
{
    match k {
        0 => number(d.service),
        1 => number(d.mode),
        2 => number(d.resource),
        3 => number(d.update),
        4 => text_part(d.name),
        5 => number(d.kind),
        6 => text_part(d.title),
        7 => text_part(d.summary),
        8 => text_part(d.keywords),
        9 => optional(Description::NO_CHARSET, d.charset),
        10 => text_part(d.path),
        11 => optional(Description::NO_SIZE, d.size),
        12 => time(d.begins),
        13 => time(d.ends),
        _ => number(d.delete),
    }
}

// Whether the fifteen lines have more bytes than `room`. What is left of it is counted down, since the sum of their lengths may be no `usize`.
fn lacks_room(d: Description, room: usize) -> bool
    ensures { result ≡ ltb room (size_by (pieces d)) }
{
    let mut left = room;
    for k in 0..15 {
        let v = value_of(d, k);
        let part = v.part;
        let own = 4 + v.length;
        if left < own {
            return true;
        }
        if left - own < part.length {
            return true;
        }
        left = left - own - part.length;
    }
    false
}

// The number of a line, two digits, and a colon. The reader writes out the same three bytes: one call for both would be a public one, with a law of its own.
fn label(n: usize) -> [u8; 3]
    ensures { result ≡ label n }
{
    [(n / 10 % 10) as u8 + b'0', (n % 10) as u8 + b'0', b':']
}

// Writes line k with a value at `at`; the answer is where it ends.
fn put_line(text: &[u8], v: Value, k: usize, out: &mut [u8], at: usize) -> usize
    requires { (k < 15) × (v.length ≤ 19) × Lies text.now v.part × (at + (4 + v.length + v.part.length) ≤ length out.old) }
    ensures { (result ≡ at + (4 + v.length + v.part.length)) × (out.new ≡ sets out.old at (line_of text.now k (piece_in v))) }
{
    let front = label(k + 1);
    copy_in(out, at, &front);
    let n = v.length;
    let bytes = v.bytes;
    copy_in(out, at + 3, &bytes[0..n]);
    let part = v.part;
    let from = part.at;
    let end = from + part.length;
    copy_in(out, at + 3 + n, &text[from..end]);
    let last = at + 3 + n + part.length;
    out[last] = b'\n';
    last + 1
}

// Writes the fifteen lines at the start of `out`; the answer is how many bytes they have.
fn put_lines(text: &[u8], d: Description, out: &mut [u8]) -> usize
    requires { Placed text.now d × (size_by (pieces d) ≤ length out.old) }
    ensures { (result ≡ size_by (pieces d)) × (out.new ≡ sets out.old 0 (lines_by text.now 0 (pieces d))) }
{
    let mut at: usize = 0;
    for k in 0..15 {
        let v = value_of(d, k);
        at = put_line(text, v, k, out, at);
    }
    at
}

// The fifteen lines of a description whose texts are parts of `text`, at the start of `out`; the answer is how many bytes were written. An attribute that cannot stand in its
// line is refused with the lowest such line, an output that is too short behind that; then nothing is written.
pub fn write(text: &[u8], d: Description, out: &mut [u8]) -> Result<usize, Refusal>
    ensures { (result ≡ (compose_of text.now d out.old).answer) × (out.new ≡ (compose_of text.now d out.old).out) }
{
    let fault = lowest_fault(text, d);
    if fault <= 15 {
        return Err(Refusal::Line(fault as u32));
    }
    if lacks_room(d, out.len()) {
        return Err(Refusal::Output);
    }
    Ok(put_lines(text, d, out))
}
