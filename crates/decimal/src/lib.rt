// Numbers in decimal digits, read and written.
#![tactic(auto)]

ghost use Rattle.std.specs.Prelude.{◌≡◌, not, ◌&&◌, ◌||◌, ◌++◌, ◌-◌, eqb, length, replicate, get_or};
ghost use Rattle.ground.specs.Ranges.{between};
ghost use Rattle.decimal.specs.Decimal.{number_in, digits};

// Stands for no number of at most eight digits. It is a number and no `None`, since `no_number` (specs/Decimal.antt), which the contract of `number_in` cites, is one.
pub const NO_NUMBER: u64 = 100000000;

// The digits of a number at the front, zeros behind them. Their count stands beside them, since the library has no heap for a string.
#[derive(Clone, Copy)]
pub struct Digits {
    pub bytes: [u8; 8],
    pub length: usize,
}

// The number that the bytes write, or 100000000 where they write none of at most eight digits.
pub fn number_in(bytes: &[u8]) -> u64
    ensures { result ≡ number_in bytes.now }
{
    if !counted(bytes) {
        return NO_NUMBER;
    }
    let mut value: u64 = 0;
    for b in bytes {
        if !b.is_ascii_digit() {
            return NO_NUMBER;
        }
        value = value * 10 + u64::from(*b - b'0');
    }
    value
}

// Whether the bytes are one to eight, the first of several not a 0.
fn counted(bytes: &[u8]) -> bool
    ensures { result ≡ (between 1 8 (length bytes.now) && (eqb (length bytes.now) 1 || not (eqb (get_or bytes.now 0 0) 48))) }
{
    let n = bytes.len();
    if n == 0 {
        return false;
    }
    if 8 < n {
        return false;
    }
    if n == 1 {
        return true;
    }
    bytes[0] != b'0'
}

// The digits of a number; of one with more than eight the last eight.
pub fn digits_of(n: u64) -> Digits
    ensures { (result.length ≡ length (digits n)) × (result.bytes ≡ digits n ++ replicate (8 - length (digits n)) 0) }
{
    let length = count_of(n);
    let mut bytes: [u8; 8] = [0; 8];
    let mut rest = n;
    for i in (0..length).rev() {
        bytes[i] = (rest % 10) as u8 + b'0';
        rest /= 10;
    }
    Digits { bytes, length }
}

// How many digits a number has; eight where it has more.
fn count_of(n: u64) -> usize
    ensures { result ≡ length (digits n) }
{
    n.max(1).ilog10().min(7) as usize + 1
}
