// The calls of the library, and whether a refused one changed what it was lent.
use crate::commands::{Call, Plain, Record};
use crate::state::State;
use crate::{buffer, digests, numbers, tokens};
use refusals::Refusal;
use settings::Settings;

// Accepted with a value, or refused; then with the refusal's number and value, and whether the call changed anything, of which both are printed.
#[derive(Clone, Copy, PartialEq, Eq)]
pub(crate) enum Answer {
    Accepted(u64),
    Refused {
        number: u64,
        value: u64,
        changed: bool,
    },
}

impl Answer {
    // Number 0 is no refusal's.
    pub(crate) fn of(number: u64, value: u64, changed: bool) -> Answer {
        if number == 0 {
            Answer::Accepted(value)
        } else {
            Answer::Refused {
                number,
                value,
                changed,
            }
        }
    }

    // An answer that the library gave as one number.
    pub(crate) fn of_code(code: u64, changed: bool) -> Answer {
        Answer::of(code % 256, code / 256, changed)
    }
}

// The CRC, as four bytes.
fn crc(bytes: &[u8], out: &mut [u8]) -> u64 {
    if out.len() < 4 {
        return u64::from(refusals::number(Refusal::Output));
    }
    buffer::put(&brithelva::bh_crc32(bytes).to_be_bytes(), out, 0);
    0
}

// Numbers as four bytes each, as many bytes as fit.
fn put_numbers(numbers: &[u32; 10], out: &mut [u8]) {
    for (i, number) in numbers.iter().enumerate() {
        buffer::put(&number.to_be_bytes(), out, 4 * i);
    }
}

// As many of these numbers as word 1 says.
fn room<'a>(line: &[u8], numbers: &'a mut [u32]) -> &'a mut [u32] {
    let n = numbers.len().min(tokens::number(line, 1) as usize);
    &mut numbers[..n]
}

// What a call that reads fields answered, and these where it accepted.
fn put_fields(answer: u64, fields: &[u32; 10], out: &mut [u8]) -> u64 {
    if answer == 0 {
        put_numbers(fields, out);
    }
    answer
}

// The fields of a packet.
fn read(line: &[u8], bytes: &[u8], out: &mut [u8]) -> u64 {
    let mut fields = [0u32; 10];
    let answer = brithelva::bh_read_fields(bytes, room(line, &mut fields));
    put_fields(answer, &fields, out)
}

// Those of a packet of either order.
fn read_header(line: &[u8], bytes: &[u8], out: &mut [u8]) -> u64 {
    let mut fields = [0u32; 10];
    let answer = brithelva::bh_read_header(bytes, room(line, &mut fields));
    put_fields(answer, &fields, out)
}

// A description's attributes, into as many of the output's numbers as word 1 says.
fn describe(line: &[u8], bytes: &[u8], out: &mut [u8]) -> u64 {
    let mut values = [0u64; 32];
    numbers::take(out, &mut values);
    let room = (tokens::number(line, 1) as usize).min(32);
    let answer = brithelva::bh_read_description(bytes, &mut values[..room]);
    numbers::put(&values, out);
    answer
}

// Writes the description of as many of the file's numbers as word 1 says.
fn compose(line: &[u8], file: &[u8], bytes: &[u8], out: &mut [u8]) -> u64 {
    let mut values = [0u64; 32];
    numbers::take(file, &mut values);
    let count = (tokens::number(line, 1) as usize).min(32);
    brithelva::bh_write_description(&values[..count], bytes, out)
}

// A packet of the file, in the edition and the order at hand.
pub(crate) fn pack_as(number: u32, file: &[u8], s: Settings, out: &mut [u8]) -> u64 {
    brithelva::bh_pack_as(
        file,
        s.resource,
        s.kind,
        s.update,
        s.protection,
        s.rows,
        s.size,
        s.edition,
        s.order,
        number,
        out,
    )
}

// The same by the call that names neither.
fn pack(number: u32, file: &[u8], s: Settings, out: &mut [u8]) -> u64 {
    brithelva::bh_pack(
        file,
        s.resource,
        s.kind,
        s.update,
        s.protection,
        s.rows,
        s.size,
        number,
        out,
    )
}

// The same under the house setting.
fn pack_house(number: u32, file: &[u8], s: Settings, out: &mut [u8]) -> u64 {
    brithelva::bh_pack_house(file, s.resource, s.kind, s.update, number, out)
}

// The calls that take no record. Those that pack take the packet's number from word 1.
fn call_plain(
    call: Plain,
    line: &[u8],
    file: &[u8],
    s: Settings,
    bytes: &[u8],
    out: &mut [u8],
) -> u64 {
    match call {
        Plain::Crc => crc(bytes, out),
        Plain::Encode => brithelva::bh_encode_row(bytes, out),
        Plain::Repair => brithelva::bh_repair_row(bytes, out),
        Plain::Read => read(line, bytes, out),
        Plain::ReadHeader => read_header(line, bytes, out),
        Plain::Describe => describe(line, bytes, out),
        Plain::Compose => compose(line, file, bytes, out),
        Plain::Pack => pack(tokens::number32(line, 1), file, s, out),
        Plain::PackAs => pack_as(tokens::number32(line, 1), file, s, out),
        Plain::PackHouse => pack_house(tokens::number32(line, 1), file, s, out),
    }
}

// Opens with the count in word 1, in the edition and the order at hand.
fn open_as(line: &[u8], held: &mut [u8], store: &mut [u8], s: Settings) -> u64 {
    brithelva::bh_open_as(
        held,
        store,
        s.resource,
        s.kind,
        s.update,
        tokens::number32(line, 1),
        s.protection,
        s.rows,
        s.size,
        s.edition,
        s.order,
    )
}

// The same by the call that names neither.
fn open(line: &[u8], held: &mut [u8], store: &mut [u8], s: Settings) -> u64 {
    brithelva::bh_open(
        held,
        store,
        s.resource,
        s.kind,
        s.update,
        tokens::number32(line, 1),
        s.protection,
        s.rows,
        s.size,
    )
}

// The same under the house setting.
fn open_house(line: &[u8], held: &mut [u8], store: &mut [u8], s: Settings) -> u64 {
    let count = tokens::number32(line, 1);
    brithelva::bh_open_house(held, store, s.resource, s.kind, s.update, count)
}

// The calls that take a record; the last three with the resource and the type in words 1 and 2.
fn call_record(
    call: Record,
    line: &[u8],
    held: &mut [u8],
    store: &mut [u8],
    s: Settings,
    bytes: &[u8],
    out: &mut [u8],
) -> u64 {
    let resource = tokens::number16(line, 1);
    let kind = tokens::number8(line, 2);
    match call {
        Record::Open => open(line, held, store, s),
        Record::OpenAs => open_as(line, held, store, s),
        Record::OpenHouse => open_house(line, held, store, s),
        Record::Offer => brithelva::bh_offer(held, store, bytes),
        Record::Status => brithelva::bh_status(held, store, resource, kind),
        Record::Hand => {
            let size = tokens::number(line, 3);
            brithelva::bh_hand_out(held, store, resource, kind, size, out)
        }
        Record::Close => brithelva::bh_close(held, store, resource, kind),
    }
}

impl State<'_> {
    // One number for all that a call may change.
    fn mark(&self) -> u64 {
        digests::mark(
            self.held.as_slice(),
            self.store.as_slice(),
            self.out.as_slice(),
        )
    }

    fn call_plain(&mut self, call: Plain, line: &[u8]) -> u64 {
        let file = self.file.as_slice();
        let bytes = self.bytes.as_slice();
        call_plain(
            call,
            line,
            file,
            self.settings,
            bytes,
            self.out.as_mut_slice(),
        )
    }

    fn call_record(&mut self, call: Record, line: &[u8]) -> u64 {
        let held = self.held.as_mut_slice();
        let store = self.store.as_mut_slice();
        let bytes = self.bytes.as_slice();
        let out = self.out.as_mut_slice();
        call_record(call, line, held, store, self.settings, bytes, out)
    }

    // The answer of a call. What it may change is compared with what it was.
    pub(crate) fn call(&mut self, call: Call, line: &[u8]) -> Answer {
        let before = self.mark();
        let code = match call {
            Call::Plain(plain) => self.call_plain(plain, line),
            Call::Record(record) => self.call_record(record, line),
        };
        Answer::of_code(code, self.mark() != before)
    }
}
