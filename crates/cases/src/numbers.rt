// Numbers of 64 bits in bytes, eight bytes each, most significant first: those of description files.
ghost use Rattle.std.specs.Prelude.{◌<◌, ◌≤◌};

use crate::buffer::{self, Buffer};
use crate::tokens;

// As many whole numbers as there are in the bytes.
pub(crate) fn take(bytes: &[u8], numbers: &mut [u64; 32]) {
    for (i, number) in numbers.iter_mut().enumerate() {
        if let Some(eight) = buffer::behind(8 * i, bytes).first_chunk::<8>() {
            *number = u64::from_be_bytes(*eight);
        }
    }
}

// As many whole numbers as fit into the bytes.
pub(crate) fn put(numbers: &[u64; 32], bytes: &mut [u8]) {
    let whole = bytes.len() / 8;
    for (i, number) in numbers.iter().enumerate() {
        if i < whole {
            buffer::put(&number.to_be_bytes(), bytes, 8 * i);
        }
    }
}

// The number in word j + 2, if there is one, as number `from + j` of the bytes, as much of it as fits.
fn set_one(line: &[u8], j: usize, from: usize, bytes: &mut [u8])
    requires { (j < 32) × (from ≤ 32) }
{
    if !tokens::from_word(line, j + 2).is_empty() {
        let number = tokens::number(line, j + 2);
        buffer::put(&number.to_be_bytes(), bytes, 8 * (from + j));
    }
}

// The numbers from word 2 on, from the number in word 1 on, which is taken as 32 where it is more; beyond the end nothing.
pub(crate) fn set(line: &[u8], buffer: &mut Buffer) {
    let bytes = buffer.as_mut_slice();
    let from = (tokens::number(line, 1) as usize).min(32);
    for j in 0..32 {
        set_one(line, j, from, bytes);
    }
}
