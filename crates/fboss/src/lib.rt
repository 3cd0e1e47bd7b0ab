// FBOSS v5: its header, its rules and readings, and its check.
#![tactic(auto)]

ghost use Rattle.std.specs.Prelude.{◌≡◌};
ghost use Rattle.layout.specs.Fboss.{fboss, fboss_opened, fboss_date, date_rule, fboss_rule, fboss_reading};
ghost use Rattle.layout.specs.Read.{sealed};

use layout::{Date, Reading, Refusal};

pub fn fboss_opened(image: &[u8]) -> Result<(usize, usize), Refusal>
    ensures { result ≡ fboss_opened image.now }
{
    let no_header = Err(Refusal::at(3, 0));
    if image.len() < 4 {
        return no_header;
    }
    if image[0] != 0xFB {
        return no_header;
    }
    if image[1] != 0xFB {
        return no_header;
    }
    if image[2] != 0x05 {
        return Err(Refusal::at(4, 0));
    }
    if image[3] != 0xFF {
        return no_header;
    }
    Ok((4, image.len()))
}

// What eight digits YYYYMMDD show.
fn fboss_date(v: &[u8]) -> Date
    ensures { result ≡ fboss_date v.now }
{
    Date {
        year: calendar::four_digits(v, 0),
        month: calendar::two_digits(v, 4),
        day: calendar::two_digits(v, 6),
    }
}

// Whether a value is eight digits that show a day.
#[tactic(auto, unfolding(layout::specs::Fboss::date_rule))]
fn date_rule(v: &[u8]) -> bool
    ensures { result ≡ date_rule v.now }
{
    v.len() == 8 && parts::all_between(v, b'0', b'9') && calendar::is_day(fboss_date(v))
}

// Whether the value of a named entry meets its rule.
#[tactic(auto, unfolding(layout::specs::Fboss::fboss_rule, layout::specs::Bytes::one_of))]
pub fn fboss_rule(code: u32, v: &[u8]) -> bool
    ensures { result ≡ fboss_rule code v.now }
{
    match code {
        1 | 2 | 6 | 7 | 11 | 12 | 14 | 15 | 16 => parts::all_printable(v),
        3 => v.len() == 8 && parts::all_printable(v),
        4 | 5 => v.len() == 12 && parts::all_printable(v),
        8..=10 => v.len() == 1,
        13 => date_rule(v),
        17..=20 => v.len() == 8,
        _ => true,
    }
}

// What the value of a named entry means.
#[tactic(auto, unfolding(layout::specs::Fboss::fboss_reading))]
pub fn fboss_reading(code: u32, v: &[u8]) -> Reading
    ensures { result ≡ fboss_reading code v.now }
{
    match code {
        8..=10 => Reading::Number(u32::from(v.first().copied().unwrap_or(0))),
        13 => Reading::Dated(fboss_date(v)),
        17..=20 => Reading::Addresses(parts::six_bytes(v), parts::count_bytes(v)),
        _ => Reading::Text,
    }
}

// Whether the check after entries that end at p is right.
pub fn fboss_sealed(image: &[u8], p: usize) -> bool
    ensures { result ≡ sealed fboss image.now p }
{
    if image.len() < p {
        return false;
    }
    let check = crc::check16(&image[..p]).to_be_bytes();
    parts::is_stored(image, p + 2, &check)
}
