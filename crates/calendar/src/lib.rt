// Dates with a time of day: which are real, and which of two comes first.
#![tactic(auto)]

ghost use Rattle.std.specs.Prelude.{◌≡◌};
ghost use Rattle.calendar.specs.Calendar.{leap, days_in, real, not_given, not_after};

use words::within;

// A date and a time of day, real or not.
#[derive(Clone, Copy, PartialEq, Eq, PartialOrd, Ord, Default)]
pub struct Time {
    pub year: u64,
    pub month: u64,
    pub day: u64,
    pub hour: u64,
    pub minute: u64,
    pub second: u64,
}

// Whether a year has a 29 February.
#[tactic(auto, unfolding(crate::specs::Calendar::leap))]
fn leap(year: u64) -> bool
    ensures { result ≡ leap year }
{
    if year % 4 != 0 {
        return false;
    }
    if year % 100 != 0 {
        return true;
    }
    year % 400 == 0
}

// The days of a month.
#[tactic(auto, unfolding(crate::specs::Calendar::days_in))]
fn days_in(year: u64, month: u64) -> u64
    ensures { result ≡ days_in year month }
{
    if month == 2 {
        if leap(year) {
            return 29;
        }
        return 28;
    }
    if month == 4 || month == 6 || month == 9 || month == 11 {
        return 30;
    }
    31
}

// Whether it is a date of the calendar, from year 1 to 9999, with a time of day.
#[tactic(auto, unfolding(crate::specs::Calendar::real))]
pub fn is_real(t: Time) -> bool
    ensures { result ≡ real t }
{
    if !within(1, 9999, t.year) {
        return false;
    }
    if !within(1, 12, t.month) {
        return false;
    }
    if !within(1, days_in(t.year, t.month), t.day) {
        return false;
    }
    if t.hour > 23 {
        return false;
    }
    if t.minute > 59 {
        return false;
    }
    t.second <= 59
}

// Whether a time is not given: all its numbers are 0.
pub fn not_given(t: Time) -> bool
    ensures { result ≡ not_given t }
{
    t == Time::default()
}

// Whether `a` is not after `b`.
pub fn not_after(a: Time, b: Time) -> bool
    ensures { result ≡ not_after a b }
{
    a <= b
}
