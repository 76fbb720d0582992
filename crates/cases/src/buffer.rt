// Lent bytes: those at hand, and parts and copies of them.

// The bytes at hand are the first of a room. The length is cut to the room where they are lent, so that no fact has to hold of the two fields together.
#[derive(Drop)]
pub(crate) struct Buffer<'a> {
    room: &'a mut [u8],
    length: usize,
}

impl<'a> Buffer<'a> {
    pub(crate) fn new(room: &'a mut [u8]) -> Buffer<'a> {
        Buffer { room, length: 0 }
    }
}

impl Buffer<'_> {
    pub(crate) fn as_slice(&self) -> &[u8] {
        first(self.length, self.room)
    }

    pub(crate) fn as_mut_slice(&mut self) -> &mut [u8] {
        let n = self.length.min(self.room.len());
        &mut self.room[..n]
    }

    // Makes the length this, as far as the room allows, and lends the bytes.
    pub(crate) fn resize(&mut self, length: usize) -> &mut [u8] {
        self.length = length.min(self.room.len());
        self.as_mut_slice()
    }

    // Puts these behind, as far as the room allows.
    pub(crate) fn append(&mut self, more: &[u8]) {
        let at = self.as_slice().len();
        put(more, self.resize(at.saturating_add(more.len())), at);
    }
}

// As many bytes as this, or all of them.
pub(crate) fn first(n: usize, bytes: &[u8]) -> &[u8] {
    bytes.get(..n).unwrap_or(bytes)
}

// All from a position on.
pub(crate) fn behind(at: usize, bytes: &[u8]) -> &[u8] {
    bytes.get(at..).unwrap_or_default()
}

// Copies as many bytes as fit, from a position on.
pub(crate) fn put(source: &[u8], out: &mut [u8], at: usize) {
    if let Some(part) = out.get_mut(at..) {
        let n = source.len().min(part.len());
        part[..n].copy_from_slice(&source[..n]);
    }
}

// Alters the byte at a position; beyond the end nothing.
pub(crate) fn flip(out: &mut [u8], at: usize, mask: u8) {
    if let Some(byte) = out.get_mut(at) {
        *byte ^= mask;
    }
}
