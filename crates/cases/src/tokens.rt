// The words of a line: names, decimal and hexadecimal numbers, pairs of hexadecimal digits. A word that is missing is empty, and an empty number is 0.
ghost use Rattle.std.specs.Prelude.{◌+◌, ◌*◌, ◌<◌, ◌≤◌};

use crate::buffer;

// Word k, counted from 0.
pub(crate) fn word(line: &[u8], k: usize) -> &[u8] {
    let rest = from_word(line, k);
    buffer::first(space_in(rest), rest)
}

// All that stands from word k on, as it stands.
pub(crate) fn from_word(line: &[u8], k: usize) -> &[u8] {
    let mut rest = line;
    for _ in 0..k {
        rest = buffer::behind(space_in(rest).saturating_add(1), rest);
    }
    rest
}

// Where the first space stands, or the end.
fn space_in(line: &[u8]) -> usize {
    for (i, b) in line.iter().enumerate() {
        if *b == b' ' {
            return i;
        }
    }
    line.len()
}

// What a name stands for in a table.
pub(crate) fn meaning<T: Copy>(table: &[(&[u8], T)], name: &[u8]) -> Option<T> {
    for entry in table {
        if entry.0 == name {
            return Some(entry.1);
        }
    }
    None
}

// What a digit stands for, decimal or hexadecimal.
fn digit(b: u8) -> u8
    ensures { result < 16 }
{
    match b {
        b'0'..=b'9' => b - b'0',
        b'a'..=b'f' => b - b'a' + 10,
        _ => 0,
    }
}

// A word's digits as a number of this base, modulo 2^64.
fn value(word: &[u8], base: u64) -> u64 {
    let mut n: u64 = 0;
    for b in word {
        n = n.wrapping_mul(base).wrapping_add(u64::from(digit(*b)));
    }
    n
}

// Word k as a decimal number.
pub(crate) fn number(line: &[u8], k: usize) -> u64 {
    value(word(line, k), 10)
}

// The same modulo 2^32, 2^16 and 2^8. One generic function for the three would need a trait with three impls, which is longer.
pub(crate) fn number32(line: &[u8], k: usize) -> u32 {
    (number(line, k) % 4294967296) as u32
}

pub(crate) fn number16(line: &[u8], k: usize) -> u16 {
    (number(line, k) % 65536) as u16
}

pub(crate) fn number8(line: &[u8], k: usize) -> u8 {
    (number(line, k) % 256) as u8
}

// Word k as a hexadecimal number.
pub(crate) fn hexadecimal(line: &[u8], k: usize) -> u64 {
    value(word(line, k), 16)
}

// The byte of two hexadecimal digits.
fn pair(high: u8, low: u8) -> u8 {
    (digit(high) << 4) | digit(low)
}

// How many pairs there are in so many bytes, with a space between two.
fn pairs_in(length: usize) -> usize
    ensures { 3 * result ≤ length + 1 }
{
    length / 3 + length % 3 / 2
}

// The pairs from word k on, as many as there are and fit, at the start of `out`. Answers how many.
pub(crate) fn put_pairs(line: &[u8], k: usize, out: &mut [u8]) -> usize {
    let pairs = from_word(line, k);
    let n = pairs_in(pairs.len()).min(out.len());
    for i in 0..n {
        out[i] = pair(pairs[3 * i], pairs[3 * i + 1]);
    }
    n
}
