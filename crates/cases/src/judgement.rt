// The cases: each compares what is got with what is expected, writes one line, and counts. Names are bytes of the file that need not be text, so the
// lines are written by crate io and not by `println!`.
use crate::buffer::{self, Buffer};
use crate::calls::Answer;
use crate::digests::Digest;
use crate::state::State;
use crate::tokens;

#[derive(Clone, Copy)]
enum Kind {
    Accepted,
    Refused,
    Bytes,
    Out,
    Store,
    Held,
    Packet,
    File,
}

static KINDS: [(&[u8], Kind); 8] = [
    (b"accepted", Kind::Accepted),
    (b"refused", Kind::Refused),
    (b"bytes", Kind::Bytes),
    (b"out", Kind::Out),
    (b"store", Kind::Store),
    (b"held", Kind::Held),
    (b"packet", Kind::Packet),
    (b"file", Kind::File),
];

// How many cases there were, and how many of them were wrong.
#[derive(Clone, Copy)]
pub(crate) struct Tally {
    pub(crate) cases: u64,
    pub(crate) wrong: u64,
}

impl Tally {
    fn count(&mut self, right: bool) {
        self.cases = self.cases.wrapping_add(1);
        self.wrong = self.wrong.wrapping_add(u64::from(!right));
    }
}

// A line up to what is expected.
fn begin(line: &[u8]) {
    io::write_all(1, b"case ");
    io::write_all(1, tokens::word(line, 1));
    io::write_all(1, b": expected ");
}

fn end(right: bool) {
    if right {
        io::write_all(1, b" ok\n");
    } else {
        io::write_all(1, b" wrong\n");
    }
}

// A value, where it is not 0.
fn print_value(before: &[u8], value: u64) {
    if value != 0 {
        io::write_all(1, before);
        io::print_decimal(1, value);
    }
}

fn print_answer(answer: Answer) {
    match answer {
        Answer::Accepted(value) => {
            io::write_all(1, b"accepted");
            print_value(b" ", value);
        }
        Answer::Refused {
            number,
            value,
            changed,
        } => {
            io::write_all(1, b"refused ");
            io::print_decimal(1, number);
            print_value(b" value ", value);
            if changed {
                io::write_all(1, b", changed");
            }
        }
    }
}

fn print_pairs(bytes: &[u8]) {
    for b in bytes {
        io::print_hex(1, u64::from(*b), 2);
    }
}

fn judge_answer(expected: Answer, got: Answer) -> bool {
    print_answer(expected);
    io::write_all(1, b" got ");
    print_answer(got);
    expected == got
}

fn judge_digest(expected: Digest, got: Digest) -> bool {
    expected.print();
    io::write_all(1, b" got ");
    got.print();
    expected == got
}

fn judge_pairs(expected: &[u8], got: &[u8]) -> bool {
    print_pairs(expected);
    io::write_all(1, b" got ");
    print_pairs(got);
    expected == got
}

// The pairs from word 4 on, of which there are at most 8,192, with as many bytes of the output, from the position in word 3 on.
fn judge_bytes(line: &[u8], out: &Buffer) -> bool {
    let mut room = [0u8; 8192];
    let n = tokens::put_pairs(line, 4, &mut room);
    let expected = buffer::first(n, &room);
    let behind = buffer::behind(tokens::number(line, 3) as usize, out.as_slice());
    judge_pairs(expected, buffer::first(expected.len(), behind))
}

// The digests in the words from 3 on.
fn judge_memory(line: &[u8], got: &Buffer) -> bool {
    let expected = Digest {
        length: tokens::number(line, 3),
        crc: tokens::hexadecimal(line, 4),
        fnv: tokens::hexadecimal(line, 5),
    };
    judge_digest(expected, Digest::of(got.as_slice()))
}

// The file, with as many bytes of the output.
fn judge_file(file: &Buffer, out: &Buffer) -> bool {
    let expected = file.as_slice();
    let got = buffer::first(expected.len(), out.as_slice());
    judge_digest(Digest::of(expected), Digest::of(got))
}

impl State<'_> {
    fn is_right(&self, kind: Kind, line: &[u8]) -> bool {
        let n = tokens::number(line, 3);
        match kind {
            Kind::Accepted => judge_answer(Answer::Accepted(n), self.answer),
            Kind::Refused => {
                judge_answer(Answer::of(n, tokens::number(line, 4), false), self.answer)
            }
            Kind::Bytes => judge_bytes(line, &self.out),
            Kind::Out => judge_memory(line, &self.out),
            Kind::Store => judge_memory(line, &self.store),
            Kind::Held => judge_memory(line, &self.held),
            Kind::Packet => judge_memory(line, &self.bytes),
            Kind::File => judge_file(&self.file, &self.out),
        }
    }

    // Judges what word 2 names; nothing where it names none.
    pub(crate) fn judge(&mut self, line: &[u8]) {
        if let Some(kind) = tokens::meaning(&KINDS, tokens::word(line, 2)) {
            begin(line);
            let right = self.is_right(kind, line);
            end(right);
            self.tally.count(right);
        }
    }
}
