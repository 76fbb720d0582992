// Lines of the bytes at hand: put in, taken away. They are counted from 1, and 0 is taken as 1.
ghost use Rattle.std.specs.Prelude.{◌≤◌, length};

use crate::buffer::Buffer;
use crate::tokens;

// Where line k begins; the end if there are fewer.
fn start(text: &[u8], k: u64) -> usize
    ensures { result ≤ length text.now }
{
    let mut left = k;
    for (i, b) in text.iter().enumerate() {
        if left <= 1 {
            return i;
        }
        if *b == b'\n' {
            left -= 1;
        }
    }
    text.len()
}

// A text and one LF behind what is there.
pub(crate) fn append(text: &[u8], bytes: &mut Buffer) {
    bytes.append(text);
    bytes.append(b"\n");
}

// The text from word 2 on and one LF in front of the line that word 1 counts; what is then beyond the room is dropped.
pub(crate) fn insert(line: &[u8], bytes: &mut Buffer) {
    let mut room = [0u8; 8192];
    let mut behind = Buffer::new(&mut room);
    let all = bytes.as_slice();
    let at = start(all, tokens::number(line, 1));
    behind.append(&all[at..]);
    bytes.resize(at);
    append(tokens::from_word(line, 2), bytes);
    bytes.append(behind.as_slice());
}

// Takes the line away that word 1 counts, if there is one.
pub(crate) fn remove(line: &[u8], bytes: &mut Buffer) {
    let all = bytes.as_mut_slice();
    let at = start(all, tokens::number(line, 1));
    let part = &mut all[at..];
    let n = start(part, 2);
    part.rotate_left(n);
    let length = all.len() - n;
    bytes.resize(length);
}
