// Texts as they stand in a line of a description file: UTF-8, and where lines break.
#![tactic(auto)]

ghost use Rattle.std.specs.Prelude.{◌≡◌};
ghost use Rattle.texts.specs.Utf8.{well_formed};
ghost use Rattle.texts.specs.Breaks.{until_lf, unbroken};
ghost use Rattle.texts.specs.Inner.{pending, asked, after};

// What is awaited inside a sequence: so many bytes more (0), the next one from (1) to (2), and those behind it from 80 to BF.
#[derive(Clone, Copy)]
struct Wait(u8, u8, u8);

// A byte that cannot come: behind a wrong byte nothing is well formed.
const NEVER: Wait = Wait(1, 1, 0);

// Whether the bytes are valid UTF-8.
pub fn well_formed(bytes: &[u8]) -> bool
    ensures { result ≡ well_formed bytes.now }
{
    let mut wait = Wait(0, 0, 0);
    for b in bytes {
        wait = step(wait, *b);
    }
    wait.0 == 0
}

// What is awaited behind the byte `b`.
fn step(wait: Wait, b: u8) -> Wait
    ensures { pending result.0 result.1 result.2 ≡ after (pending wait.0 wait.1 wait.2) b }
{
    if wait.0 == 0 {
        return awaited(b);
    }
    if b < wait.1 {
        return NEVER;
    }
    if wait.2 < b {
        return NEVER;
    }
    Wait(wait.0 - 1, 0x80, 0xBF)
}

// What a first byte asks for.
fn awaited(b: u8) -> Wait
    ensures { pending result.0 result.1 result.2 ≡ asked b }
{
    if b < 0x80 {
        return Wait(0, 0, 0);
    }
    if b < 0xC2 {
        return NEVER;
    }
    if b < 0xE0 {
        return Wait(1, 0x80, 0xBF);
    }
    if b < 0xE1 {
        return Wait(2, 0xA0, 0xBF);
    }
    if b < 0xED {
        return Wait(2, 0x80, 0xBF);
    }
    if b < 0xEE {
        return Wait(2, 0x80, 0x9F);
    }
    if b < 0xF0 {
        return Wait(2, 0x80, 0xBF);
    }
    if b < 0xF1 {
        return Wait(3, 0x90, 0xBF);
    }
    if b < 0xF4 {
        return Wait(3, 0x80, 0xBF);
    }
    if b < 0xF5 {
        return Wait(3, 0x80, 0x8F);
    }
    NEVER
}

// How many bytes stand before the first LF, or all of them where there is none.
pub fn until_lf(bytes: &[u8]) -> usize
    ensures { result ≡ until_lf bytes.now }
{
    for (i, b) in bytes.iter().enumerate() {
        if *b == b'\n' {
            return i;
        }
    }
    bytes.len()
}

// Whether the bytes have neither CR nor LF. The loop has no other way out, so that many bytes can be looked at in one go.
pub fn unbroken(bytes: &[u8]) -> bool
    ensures { result ≡ unbroken bytes.now }
{
    let mut so_far = true;
    for b in bytes {
        so_far = so_far & (*b != b'\n') & (*b != b'\r');
    }
    so_far
}
