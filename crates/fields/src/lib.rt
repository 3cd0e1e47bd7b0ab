// What a field list in lent bytes says: its fields, and the parts of the lent values that a field names.
// The goals are tried with the formats opened.
#![tactic(auto, unfolding(layout::specs::Fboss::fboss, layout::specs::Vpd::vpd, layout::specs::Tiny::tiny, layout::specs::Onie::onie))]

ghost use Rattle.std.specs.Prelude.{◌≡◌, ◌+◌, ◌≤◌, ◌<◌, length, get_or, [], leb};
ghost use Rattle.layout.specs.Bytes.{if, part, part_at};
ghost use Rattle.layout.specs.Editions.{shape};
ghost use Rattle.layout.specs.Write.{word, field_at, fields_in, field_key, parts_inside};

use layout::{Field, Format, Part, Place};

// The number at `a`, four bytes, low byte first.
fn word_at(s: &[u8], a: usize) -> u32
    requires { a + 4 ≤ length s.now }
    ensures { result ≡ word a s.now }
{
    u32::from_le_bytes([s[a], s[a + 1], s[a + 2], s[a + 3]])
}

// The number at `a`, and 0 where its four bytes are not all there.
pub fn word_in(s: &[u8], a: usize) -> u32
    ensures { result ≡ if (leb (a + 4) (length s.now)) (λ _. word a s.now) (λ _. 0) }
{
    if parts::is_inside(s.len(), a, 4) {
        word_at(s, a)
    } else {
        0
    }
}

// The place and the length at `a`, four bytes each.
fn part_at(s: &[u8], a: usize) -> Part
    requires { a + 8 ≤ length s.now }
    ensures { result ≡ part_at (word a s.now) (word (a + 4) s.now) }
{
    Part {
        place: Place(word_at(s, a) as usize),
        len: word_at(s, a + 4) as usize,
    }
}

// How many fields there are.
pub fn count_fields(fields: &[u8]) -> usize
    ensures { result ≡ length (fields_in fields.now) }
{
    fields.len() / 20
}

// Field i of the list, and all zero where there is none.
pub fn field_at(fields: &[u8], i: usize) -> Field
    ensures { result ≡ get_or (fields_in fields.now) i (field_at []) }
{
    if i < fields.len() / 20 {
        let at = i * 20;
        Field {
            code: word_at(fields, at),
            key: part_at(fields, at + 4),
            value: part_at(fields, at + 12),
        }
    } else {
        let none = Part {
            place: Place(0),
            len: 0,
        };
        Field {
            code: 0,
            key: none,
            value: none,
        }
    }
}

// The bytes of a part of the values, or as many of them as there are.
fn bytes_of(values: &[u8], x: Part) -> &[u8]
    ensures { result.now ≡ part x.place.0 x.len values.now }
{
    frames::part_of(values, x.place.0, x.len)
}

// The key of a field: outside VPD it counts as empty.
pub fn field_key(format: Format, values: &[u8], x: Field) -> &[u8]
    ensures { result.now ≡ field_key (shape format).keyed x values.now }
{
    match format {
        Format::Vpd => bytes_of(values, x.key),
        Format::Fboss | Format::Tiny | Format::Onie => &[],
    }
}

// The value of a field.
pub fn field_value(values: &[u8], x: Field) -> &[u8]
    ensures { result.now ≡ part x.value.place.0 x.value.len values.now }
{
    bytes_of(values, x.value)
}

// Whether a part lies inside n bytes.
fn is_inside(x: Part, n: usize) -> bool
    ensures { result ≡ leb (x.place.0 + x.len) n }
{
    parts::is_inside(n, x.place.0, x.len)
}

// Whether the parts of a field lie inside the values; outside VPD the key is not looked at.
pub fn parts_inside(format: Format, values: &[u8], x: Field) -> bool
    ensures { result ≡ parts_inside (shape format).keyed x values.now }
{
    let n = values.len();
    match format {
        Format::Vpd => is_inside(x.key, n) && is_inside(x.value, n),
        Format::Fboss | Format::Tiny | Format::Onie => is_inside(x.value, n),
    }
}
