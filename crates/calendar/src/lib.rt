// Days of the Gregorian calendar, times of a day, and the numbers that digits of a value show.
#![tactic(auto)]

ghost use Rattle.std.specs.Prelude.{◌≡◌, ◌+◌, ◌*◌, ◌-◌, ◌≤◌};
ghost use Rattle.layout.specs.Calendar.{leap, last_day, is_day, is_time, two_digits, four_digits};

use layout::{Date, Time};

// Whether a year is a leap year.
fn is_leap(year: u32) -> bool
    ensures { result ≡ leap year }
{
    year % 4 == 0 && (year % 100 != 0 || year % 400 == 0)
}

// The last day of a month, of a leap year or of another.
#[tactic(auto, unfolding(layout::specs::Calendar::last_day, layout::specs::Bytes::one_of))]
fn last_day(long: bool, month: u32) -> u32
    ensures { result ≡ last_day long month }
{
    match month {
        2 => if long { 29 } else { 28 },
        4 | 6 | 9 | 11 => 30,
        _ => 31,
    }
}

// Whether a date is a day of the years 1 to 9999.
#[tactic(auto, unfolding(layout::specs::Calendar::is_day))]
pub fn is_day(d: Date) -> bool
    ensures { result ≡ is_day d }
{
    (1..=9999).contains(&d.year)
        && (1..=12).contains(&d.month)
        && (1..=last_day(is_leap(d.year), d.month)).contains(&d.day)
}

// Whether a time is one of a day.
#[tactic(auto, unfolding(layout::specs::Calendar::is_time))]
pub fn is_time(t: Time) -> bool
    ensures { result ≡ is_time t }
{
    t.hour <= 23 && t.minute <= 59 && t.second <= 59
}

// The number that a digit shows.
fn digit_value(x: u8) -> u32
    ensures { result ≡ x - 0x30 }
{
    u32::from(x.saturating_sub(b'0'))
}

// The number that two digits show.
fn shown(x: u8, y: u8) -> u32
    ensures { (result ≡ (x - 0x30) * 10 + (y - 0x30)) × (result ≤ 2277) }
{
    digit_value(x) * 10 + digit_value(y)
}

// The number that two digits from place i on show; a byte that is not there counts as 0.
pub fn two_digits(v: &[u8], i: usize) -> u32
    ensures { result ≡ two_digits i v.now }
{
    if i < v.len() {
        shown(v[i], parts::byte_at(v, i + 1))
    } else {
        0
    }
}

// The number that four digits from place i on show.
pub fn four_digits(v: &[u8], i: usize) -> u32
    ensures { result ≡ four_digits i v.now }
{
    if i < v.len() {
        shown(v[i], parts::byte_at(v, i + 1)) * 100
            + shown(parts::byte_at(v, i + 2), parts::byte_at(v, i + 3))
    } else {
        0
    }
}
