// How dates with a time of day are written, and read back.
#![tactic(auto)]

ghost use Rattle.std.specs.Prelude.{cond, ◌≡◌, ◌+◌, ◌-◌, ◌/◌, ◌%◌, ◌<◌, eqb, length};
ghost use Rattle.ground.specs.Ranges.{is_digit};
ghost use Rattle.times.specs.Written.{time_text, form, formed, two_at, time_at, time_in};

use calendar::{Time, is_real};

// Stands for a value that writes no real time. It is none itself, nor the time of zeros, which stands for none given. A time
// and no None, since `wrong_time` (specs/), by which `time_in` is defined, is one.
const WRONG: Time = Time {
    year: 0,
    month: 1,
    day: 0,
    hour: 0,
    minute: 0,
    second: 0,
};

// The last digit of a number, in ASCII.
fn ones(n: u64) -> u8
    ensures { result ≡ n % 10 + 48 }
{
    (n % 10) as u8 + b'0'
}

// The digit before the last.
fn tens(n: u64) -> u8
    ensures { result ≡ n / 10 % 10 + 48 }
{
    ones(n / 10)
}

// The nineteen bytes of a time.
pub fn time_text(t: Time) -> [u8; 19]
    ensures { result ≡ time_text t }
{
    let century = t.year / 100;
    let year = t.year % 100;
    [
        tens(century),
        ones(century),
        tens(year),
        ones(year),
        b'.',
        tens(t.month),
        ones(t.month),
        b'.',
        tens(t.day),
        ones(t.day),
        b'/',
        tens(t.hour),
        ones(t.hour),
        b':',
        tens(t.minute),
        ones(t.minute),
        b':',
        tens(t.second),
        ones(t.second),
    ]
}

// Whether a byte is what the form has there: a digit where that is 0.
fn fits(f: u8, b: u8) -> bool
    ensures { result ≡ cond (eqb f 0) (is_digit b) (eqb b f) }
{
    if f == 0 {
        return b.is_ascii_digit();
    }
    b == f
}

// Whether the bytes have the form yyyy.mm.dd/hh:mm:ss.
fn formed(bytes: &[u8]) -> bool
    ensures { result ≡ formed form bytes.now }
{
    let form = [
        0, 0, 0, 0, b'.', 0, 0, b'.', 0, 0, b'/', 0, 0, b':', 0, 0, b':', 0, 0,
    ];
    if bytes.len() != form.len() {
        return false;
    }
    for (i, b) in bytes.iter().enumerate() {
        if !fits(form[i], *b) {
            return false;
        }
    }
    true
}

// The number of a digit.
fn digit(b: u8) -> u64
    ensures { (result ≡ b - 48) × (result < 256) }
{
    u64::from(b.saturating_sub(b'0'))
}

// The number of the two digits at `i`.
fn two_at(bytes: &[u8], i: usize) -> u64
    requires { i + 1 < length bytes.now }
    ensures { (result ≡ two_at bytes.now i) × (result < 4096) }
{
    digit(bytes[i]) * 10 + digit(bytes[i + 1])
}

// The time of nineteen bytes of the form.
fn time_at(bytes: &[u8]) -> Time
    requires { length bytes.now ≡ 19 }
    ensures { result ≡ time_at bytes.now }
{
    let year = two_at(bytes, 0) * 100 + two_at(bytes, 2);
    let month = two_at(bytes, 5);
    let day = two_at(bytes, 8);
    let hour = two_at(bytes, 11);
    let minute = two_at(bytes, 14);
    let second = two_at(bytes, 17);
    Time {
        year,
        month,
        day,
        hour,
        minute,
        second,
    }
}

// The real time that the bytes write. Where they write none it has year 0 and month 1, and is not real.
pub fn time_in(bytes: &[u8]) -> Time
    ensures { result ≡ time_in bytes.now }
{
    if !formed(bytes) {
        return WRONG;
    }
    let t = time_at(bytes);
    if !is_real(t) {
        return WRONG;
    }
    t
}
