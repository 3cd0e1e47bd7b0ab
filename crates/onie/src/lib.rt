// ONIE: its header, its rules and readings, and its check.
#![tactic(auto)]

ghost use Rattle.std.specs.Prelude.{◌≡◌, ◌≤◌, ◌<◌, ◌&&◌, eqb, length, get_or};
ghost use Rattle.layout.specs.Bytes.{if, all, same_bytes, part};
ghost use Rattle.layout.specs.Shape.{fine, faulty};
ghost use Rattle.layout.specs.Onie.{onie, tlv_info, declared, onie_opened, onie_filled, fits_form, formed, onie_date, onie_time, onie_date_rule, capital, onie_rule, onie_reading};
ghost use Rattle.layout.specs.Read.{sealed};

use layout::{Date, Reading, Refusal, Time};

// TlvInfo and a zero, which every header begins with.
pub const TLV_INFO: [u8; 8] = *b"TlvInfo\0";

// The form of a date: 00/00/0000 00:00:00.
const DATE_FORM: [u8; 19] = *b"00/00/0000 00:00:00";

// Whether an image begins with TlvInfo and a zero.
fn is_onie(image: &[u8]) -> bool
    ensures { result ≡ same_bytes (part 0 8 image.now) tlv_info }
{
    image.starts_with(&TLV_INFO)
}

// The length that the header of an image of at least eleven bytes declares.
fn declared_length(image: &[u8]) -> usize
    requires { 11 ≤ length image.now }
    ensures { (result ≡ declared image.now) × (result < 65536) × (get_or image.now 10 0 < 256) }
{
    usize::from(u16::from_be_bytes([image[9], image[10]]))
}

// Where the entries of an image are, by its header.
pub fn onie_opened(image: &[u8]) -> Result<(usize, usize), Refusal>
    ensures { result ≡ onie_opened image.now }
{
    if image.len() < 11 {
        return Err(Refusal::at(3, 0));
    }
    if !is_onie(image) {
        return Err(Refusal::at(3, 0));
    }
    if image[8] != 0x01 {
        return Err(Refusal::at(4, 0));
    }
    let n = declared_length(image);
    if 2048 < n {
        return Err(Refusal::at(5, 9));
    }
    if image.len() < 11 + n {
        return Err(Refusal::at(5, 9));
    }
    Ok((11, 11 + n))
}

// Whether the check ends a room that ends at `end`, where the entries end at p.
#[tactic(auto, unfolding(layout::specs::Onie::onie_filled))]
pub fn is_filled(p: usize, end: usize) -> bool
    ensures { onie_filled p end ≡ if result (λ _. fine) (λ _. faulty 5 9) }
{
    6 <= end && end - 6 == p
}

// Whether a byte fits a byte of a form.
fn fits_form(x: u8, b: u8) -> bool
    ensures { result ≡ fits_form x b }
{
    if x == b'0' {
        b.is_ascii_digit()
    } else {
        b == x
    }
}

// Whether bytes are of a form.
fn is_formed(form: &[u8], v: &[u8]) -> bool
    ensures { result ≡ formed form.now v.now }
{
    form.len() == v.len() && form.iter().zip(v).all(|(x, b)| fits_form(*x, *b))
}

// The date that MM/DD/YYYY HH:NN:SS shows.
fn onie_date(v: &[u8]) -> Date
    ensures { result ≡ onie_date v.now }
{
    Date {
        year: calendar::four_digits(v, 6),
        month: calendar::two_digits(v, 0),
        day: calendar::two_digits(v, 3),
    }
}

// And the time.
fn onie_time(v: &[u8]) -> Time
    ensures { result ≡ onie_time v.now }
{
    Time {
        hour: calendar::two_digits(v, 11),
        minute: calendar::two_digits(v, 14),
        second: calendar::two_digits(v, 17),
    }
}

// Whether a value is MM/DD/YYYY HH:NN:SS and shows a day and a time of it.
#[tactic(auto, unfolding(layout::specs::Onie::onie_date_rule))]
fn date_rule(v: &[u8]) -> bool
    ensures { result ≡ onie_date_rule v.now }
{
    is_formed(&DATE_FORM, v) && calendar::is_day(onie_date(v)) && calendar::is_time(onie_time(v))
}

// A country: two letters A-Z.
fn country_rule(v: &[u8]) -> bool
    ensures { result ≡ (eqb (length v.now) 2 && all capital v.now) }
{
    v.len() == 2 && parts::all_between(v, b'A', b'Z')
}

// Whether the value of a named entry meets its rule.
#[tactic(auto, unfolding(layout::specs::Onie::onie_rule, layout::specs::Bytes::one_of))]
pub fn onie_rule(code: u32, v: &[u8]) -> bool
    ensures { result ≡ onie_rule code v.now }
{
    match code {
        0x21 | 0x22 | 0x23 | 0x2B | 0x2D => parts::all_printable(v),
        0x24 => v.len() == 6,
        0x25 => date_rule(v),
        0x2A => v.len() == 2,
        0x2C => country_rule(v),
        0xFD => 4 <= v.len(),
        _ => true,
    }
}

// What the value of a named entry means.
#[tactic(auto, unfolding(layout::specs::Onie::onie_reading))]
pub fn onie_reading(code: u32, v: &[u8]) -> Reading
    ensures { result ≡ onie_reading code v.now }
{
    match code {
        0x24 => Reading::Addresses(parts::six_bytes(v), 1),
        0x25 => Reading::Timed(onie_date(v), onie_time(v)),
        0x2A => Reading::Number(parts::first_two(v)),
        0xFD => Reading::Plain,
        _ => Reading::Text,
    }
}

// Whether the check after entries that end at p is right.
pub fn onie_sealed(image: &[u8], p: usize) -> bool
    ensures { result ≡ sealed onie image.now p }
{
    if image.len() < p {
        return false;
    }
    let check = parts::four_bytes(crc::check32_closed(&image[..p], 0xFE, 0x04));
    parts::is_stored(image, p + 2, &check)
}
