// The commands that set what is at hand.
use crate::buffer::{self, Buffer};
use crate::commands::{OnBytes, OnFile, OnHeld, OnOut, OnSettings, OnStore};
use crate::{generator, lines, numbers, tokens};
use settings::Settings;

// Pairs from word 2 on, from the position in word 1 on; what falls beyond the end is dropped.
fn overwrite(line: &[u8], buffer: &mut Buffer) {
    let at = tokens::number(line, 1) as usize;
    if let Some(part) = buffer.as_mut_slice().get_mut(at..) {
        tokens::put_pairs(line, 2, part);
    }
}

// As many bytes as word 2 says, each that of word 1.
fn fill(line: &[u8], buffer: &mut Buffer) {
    let bytes = buffer.resize(tokens::number(line, 2) as usize);
    bytes.fill(tokens::number8(line, 1));
}

// As many bytes as word 2 says, from the seed in word 1.
fn generate(line: &[u8], buffer: &mut Buffer) {
    let bytes = buffer.resize(tokens::number(line, 2) as usize);
    generator::generate(bytes, tokens::number32(line, 1));
}

// The bytes from the position in word 1 on, as many as word 2 says, there are and fit.
fn show(line: &[u8], source: &Buffer, out: &mut Buffer) {
    let part = buffer::behind(tokens::number(line, 1) as usize, source.as_slice());
    out.resize(0);
    out.append(buffer::first(tokens::number(line, 2) as usize, part));
}

pub(crate) fn set_file(command: OnFile, line: &[u8], file: &mut Buffer) {
    match command {
        OnFile::Generate => generate(line, file),
        OnFile::Put => overwrite(line, file),
        OnFile::Value => numbers::set(line, file),
    }
}

pub(crate) fn set_store(command: OnStore, line: &[u8], store: &mut Buffer) {
    match command {
        OnStore::Fill => fill(line, store),
        OnStore::Poke => overwrite(line, store),
    }
}

// The twenty bytes of a place.
fn place(line: &[u8]) -> [u8; 20] {
    let [r0, r1] = tokens::number16(line, 2).to_le_bytes();
    let [c0, c1, c2, c3] = tokens::number32(line, 5).to_le_bytes();
    let [s0, s1] = tokens::number16(line, 8).to_le_bytes();
    let [t0, t1, t2, t3] = tokens::number32(line, 9).to_le_bytes();
    let [e0, e1] = tokens::number16(line, 10).to_le_bytes();
    let [o0, o1] = tokens::number16(line, 11).to_le_bytes();
    let kind = tokens::number8(line, 3);
    let update = tokens::number8(line, 4);
    let protection = tokens::number8(line, 6);
    let rows = tokens::number8(line, 7);
    [
        r0, r1, kind, update, c0, c1, c2, c3, protection, rows, s0, s1, t0, t1, t2, t3, e0, e1, o0,
        o1,
    ]
}

// The bytes of the place in word 1, if there is such a place, as far as the record reaches.
fn put_place(line: &[u8], held: &mut Buffer) {
    let i = tokens::number(line, 1);
    if i < 8 {
        buffer::put(&place(line), held.as_mut_slice(), 20 * i as usize);
    }
}

pub(crate) fn set_held(command: OnHeld, line: &[u8], held: &mut Buffer) {
    match command {
        OnHeld::Zeros => held.resize(tokens::number(line, 1) as usize).fill(0),
        OnHeld::Place => put_place(line, held),
    }
}

pub(crate) fn set_out(
    command: OnOut,
    line: &[u8],
    out: &mut Buffer,
    held: &Buffer,
    store: &Buffer,
) {
    match command {
        OnOut::Fill => fill(line, out),
        OnOut::ShowHeld => show(line, held, out),
        OnOut::ShowStore => show(line, store, out),
    }
}

// Zeros behind, up to the length in word 1.
fn grow(line: &[u8], bytes: &mut Buffer) {
    let from = bytes.as_slice().len();
    let to = tokens::number(line, 1) as usize;
    if let Some(new) = bytes.resize(from.max(to)).get_mut(from..) {
        new.fill(0);
    }
}

// Only the first, as many as word 1 says.
fn cut(line: &[u8], bytes: &mut Buffer) {
    let n = bytes.as_slice().len().min(tokens::number(line, 1) as usize);
    bytes.resize(n);
}

// The first bytes of the output, as many as word 1 says, behind those that are there.
fn append(line: &[u8], bytes: &mut Buffer, out: &Buffer) {
    bytes.append(buffer::first(tokens::number(line, 1) as usize, out.as_slice()));
}

// The same in place of those that are there.
fn take(line: &[u8], bytes: &mut Buffer, out: &Buffer) {
    bytes.resize(0);
    append(line, bytes, out);
}

// The CRC of the bytes before the last four, in the last four.
fn seal(bytes: &mut [u8]) {
    if let Some(at) = bytes.len().checked_sub(4) {
        let crc = brithelva::bh_crc32(buffer::first(at, bytes));
        buffer::put(&crc.to_be_bytes(), bytes, at);
    }
}

// The byte at the position in word 1 altered by the mask in word 2.
fn flip(line: &[u8], bytes: &mut Buffer) {
    let at = tokens::number(line, 1) as usize;
    buffer::flip(bytes.as_mut_slice(), at, tokens::number8(line, 2));
}

fn damage(line: &[u8], bytes: &mut Buffer) {
    let family = tokens::number(line, 1);
    generator::damage(bytes.as_mut_slice(), family, tokens::number32(line, 2));
}

// The pairs from word 1 on.
fn pairs(line: &[u8], bytes: &mut Buffer) {
    let n = tokens::put_pairs(line, 1, bytes.resize(usize::MAX));
    bytes.resize(n);
}

pub(crate) fn set_bytes(command: OnBytes, line: &[u8], bytes: &mut Buffer, out: &Buffer) {
    match command {
        OnBytes::Pairs => pairs(line, bytes),
        OnBytes::Random => generate(line, bytes),
        OnBytes::Fill => fill(line, bytes),
        OnBytes::Put => overwrite(line, bytes),
        OnBytes::Flip => flip(line, bytes),
        OnBytes::Cut => cut(line, bytes),
        OnBytes::Grow => grow(line, bytes),
        OnBytes::Take => take(line, bytes, out),
        OnBytes::Append => append(line, bytes, out),
        OnBytes::Seal => seal(bytes.as_mut_slice()),
        OnBytes::Damage => damage(line, bytes),
        OnBytes::Line => lines::append(tokens::from_word(line, 1), bytes),
        OnBytes::Insert => lines::insert(line, bytes),
        OnBytes::Drop => lines::remove(line, bytes),
        OnBytes::Swap => {
            lines::remove(line, bytes);
            lines::insert(line, bytes);
        }
    }
}

pub(crate) fn set_settings(command: OnSettings, line: &[u8], settings: &mut Settings) {
    match command {
        OnSettings::All => {
            settings.resource = tokens::number16(line, 1);
            settings.kind = tokens::number8(line, 2);
            settings.update = tokens::number8(line, 3);
            settings.protection = tokens::number8(line, 4);
            settings.rows = tokens::number8(line, 5);
            settings.size = tokens::number16(line, 6);
        }
        OnSettings::Edition => settings.edition = tokens::number16(line, 1),
        OnSettings::Order => settings.order = tokens::number16(line, 1),
    }
}
