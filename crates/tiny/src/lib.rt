// Tiny EEPROM version 2: its header, what opens an entry, lengths, rules and readings, and its check.
#![tactic(auto)]

ghost use Rattle.std.specs.Prelude.{◌≡◌, get_or};
ghost use Rattle.layout.specs.Tiny.{tiny, tiny_opened, tiny_head, tiny_length, tiny_takes, revision_rule, batch, tiny_rule, passed, identity, tiny_reading};
ghost use Rattle.layout.specs.Read.{sealed};

use layout::{Head, Identity, Reading, Refusal, StringNumber};

// Where the entries of an image are, by its header.
pub fn tiny_opened(image: &[u8]) -> Result<(usize, usize), Refusal>
    ensures { result ≡ tiny_opened image.now }
{
    if image.len() < 3 {
        return Err(Refusal::at(3, 0));
    }
    if image[0] != 0x56 {
        return Err(Refusal::at(3, 0));
    }
    if image[1] != 0x02 {
        return Err(Refusal::at(4, 0));
    }
    let total = image[2] as usize;
    if (4 <= total) & (total <= image.len()) {
        return Ok((3, total - 1));
    }
    Err(Refusal::at(5, 2))
}

// What opens an entry. `shut`: the entry before was the pool.
pub fn tiny_head(shut: bool, s: &[u8]) -> Result<Option<Head>, u32>
    ensures { result ≡ tiny_head shut s.now }
{
    if s.len() <= 0 {
        return Ok(None);
    }
    if shut {
        return Err(9);
    }
    let code = s[0] as u32;
    if code == 0x00 {
        return Err(6);
    }
    Ok(Some(Head {
        code: code,
        key: 1,
        klen: 0,
        at: 1,
    }))
}

// The length of a value, after its head.
pub fn tiny_length(s: &[u8], h: Head) -> Result<(usize, usize), u32>
    ensures { result ≡ tiny_length h s.now }
{
    let code = h.code;
    if code < 16 {
        return parts::byte_length(s, h);
    }
    Ok(((code / 16) as usize, h.at))
}

// Whether a value of the length n may follow the tag.
pub fn tiny_takes(code: u32, n: usize) -> bool
    ensures { result ≡ tiny_takes code n }
{
    if code < 16 {
        n < 256
    } else {
        n == (code / 16) as usize
    }
}

// Whether the revision of an identity is allowed.
fn revision_rule(v: &[u8]) -> bool
    ensures { result ≡ revision_rule v.now }
{
    let major = parts::byte_at(v, 2);
    let minor = parts::byte_at(v, 3);
    matches!(major, 0..=99 | 128..=153) && minor <= 99
}

// The batch number at the end of an identity with batch, low byte first.
fn batch_of(v: &[u8]) -> u32
    ensures { result ≡ batch v.now }
{
    u32::from(u16::from_le_bytes([parts::byte_at(v, 6), parts::byte_at(v, 7)]))
}

// Whether the value of a named entry is allowed.
#[tactic(auto, unfolding(layout::specs::Tiny::tiny_rule))]
pub fn tiny_rule(code: u32, v: &[u8]) -> bool
    ensures { result ≡ tiny_rule code v.now }
{
    match code {
        0x61 | 0x62 => revision_rule(v),
        0x80 | 0x81 => revision_rule(v) && batch_of(v) <= 9999,
        _ => true,
    }
}

// How many of the low four bits are on: the number of tests passed.
fn tests_passed(b: u8) -> u8
    ensures { result ≡ passed b }
{
    (b % 16).count_ones() as u8
}

// The string number that the byte at i is.
fn string_number(v: &[u8], i: usize) -> StringNumber
    ensures { result.0 ≡ get_or v.now i 0 }
{
    StringNumber(usize::from(parts::byte_at(v, i)))
}

// The identity that a value begins with.
fn identity_of(v: &[u8]) -> Identity
    ensures { result ≡ identity v.now }
{
    Identity {
        serial: string_number(v, 0),
        part: string_number(v, 1),
        major: parts::byte_at(v, 2),
        minor: parts::byte_at(v, 3),
        free0: parts::byte_at(v, 4),
        free1: parts::byte_at(v, 5),
    }
}

// What the value of a named entry means.
#[tactic(auto, unfolding(layout::specs::Tiny::tiny_reading))]
pub fn tiny_reading(code: u32, v: &[u8]) -> Reading
    ensures { result ≡ tiny_reading code v.now }
{
    match code {
        0x10 => Reading::Numbered(string_number(v, 0)),
        0x11 => {
            let b = parts::byte_at(v, 0);
            Reading::Tests(b, tests_passed(b))
        }
        0x60 => Reading::Addresses(parts::six_bytes(v), 1),
        0x61 | 0x62 => Reading::Identified(identity_of(v)),
        0x80 | 0x81 => Reading::Batched(identity_of(v), batch_of(v)),
        _ => Reading::Plain,
    }
}

// Whether the check after entries that end at p is right.
pub fn tiny_sealed(image: &[u8], p: usize) -> bool
    ensures { result ≡ sealed tiny image.now p }
{
    p < image.len() && image[p] == crc::check8(0, &image[..p])
}
