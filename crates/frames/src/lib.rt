// What a call's format and edition come to, and what stands at a place of an image, for any format.
#![tactic(auto, unfolding(layout::specs::Bytes::one_of, layout::specs::Bytes::part, layout::specs::Bytes::same_bytes, layout::specs::Shape::next, layout::specs::Fboss::fboss, layout::specs::Vpd::vpd, layout::specs::Vpd::vpd_twice, layout::specs::Tiny::tiny, layout::specs::Onie::onie, layout::specs::Editions::chosen, layout::specs::Editions::kind, layout::specs::Editions::names, layout::specs::Editions::since_in, layout::specs::Read::sealed, laws::specs::Marked::all_marked))]

ghost use Rattle.std.specs.Prelude.{◌≡◌, false, ◌-◌, ◌*◌, ◌≤◌};
ghost use Rattle.layout.specs.Bytes.{if, one_of, part};
ghost use Rattle.layout.specs.Shape.{fine, faulty, on_length, on_head, next};
ghost use Rattle.layout.specs.Editions.{shape, known_edition, with_edition, chosen, names, kind};
ghost use Rattle.layout.specs.Read.{sealed, same};
ghost use Rattle.laws.specs.Marked.{all_marked};
ghost use Rattle.frames.specs.Spots.{spot_at};

use layout::{Format, Frame, Head, Reading, Refusal};

// The first edition that has the format.
fn first_edition(format: Format) -> u32
    ensures { result ≡ (shape format).edition }
{
    match format {
        Format::Fboss | Format::Vpd | Format::Tiny => 1,
        Format::Onie => 3,
    }
}

// Whether the edition is known.
pub fn is_edition(edition: u32) -> bool
    ensures { result ≡ known_edition edition }
{
    (1..=4).contains(&edition)
}

// A format, where the edition is known and has it.
fn with_edition(edition: u32, format: Format) -> Result<Format, u32>
    ensures { result ≡ with_edition edition format }
{
    if !is_edition(edition) {
        return Err(1);
    }
    if edition < first_edition(format) {
        return Err(16);
    }
    Ok(format)
}

// The format and edition of a call: 16 for a number that is no format's, then 1, then 16 for a format that the edition does not have.
pub fn choose(format: u32, edition: u32) -> Result<Format, u32>
    ensures { result ≡ chosen format edition }
{
    match format {
        1 => with_edition(edition, Format::Fboss),
        2 => with_edition(edition, Format::Vpd),
        3 => with_edition(edition, Format::Tiny),
        4 => with_edition(edition, Format::Onie),
        _ => Err(16),
    }
}

// Whether the edition names the code.
pub fn is_named(format: Format, edition: u32, code: u32) -> bool
    ensures { result ≡ names (shape format) edition code }
{
    match (format, code) {
        (Format::Fboss, 1..=16) => 1 <= edition,
        (Format::Fboss, 17..=20) => 2 <= edition,
        (Format::Vpd, 0x01) => 1 <= edition,
        (Format::Vpd, 0xFE) => 2 <= edition,
        (Format::Tiny, 0x01 | 0x10..=0x11 | 0x60..=0x62) => 1 <= edition,
        (Format::Tiny, 0x80..=0x81) => 2 <= edition,
        (Format::Onie, 0x21..=0x25 | 0x2A..=0x2D | 0xFD) => 3 <= edition,
        _ => false,
    }
}

// The format's number times 256.
fn kind_base(format: Format) -> u32
    ensures { (result ≡ (shape format).number * 256) × (result ≤ 1024) }
{
    match format {
        Format::Fboss => 256,
        Format::Vpd => 512,
        Format::Tiny => 768,
        Format::Onie => 1024,
    }
}

// The kind of an entry of this code.
pub fn kind_of(format: Format, edition: u32, code: u32) -> u32
    ensures { result ≡ kind (shape format) edition code }
{
    if is_named(format, edition, code) {
        kind_base(format) + code
    } else {
        0
    }
}

// Whether no entry may follow one of this code.
pub fn is_last(format: Format, code: u32) -> bool
    ensures { result ≡ (shape format).last code }
{
    match format {
        Format::Tiny => code == 0x01,
        Format::Fboss | Format::Vpd | Format::Onie => false,
    }
}

// Where the entries of an image are.
pub fn open_image(format: Format, image: &[u8]) -> Result<(usize, usize), Refusal>
    ensures { result ≡ (shape format).opened image.now }
{
    match format {
        Format::Fboss => fboss::fboss_opened(image),
        Format::Vpd => Ok((0, image.len())),
        Format::Tiny => tiny::tiny_opened(image),
        Format::Onie => onie::onie_opened(image),
    }
}

// The n bytes of s from `at` on, or as many of them as there are.
pub fn part_of(s: &[u8], at: usize, n: usize) -> &[u8]
    ensures { result.now ≡ part at n s.now }
{
    match s.get(at..) {
        Some(rest) => rest.get(..n).unwrap_or(rest),
        None => &s[..0],
    }
}

fn length_of(format: Format, s: &[u8], h: Head) -> Result<(usize, usize), u32>
    ensures { result ≡ (shape format).vlen h s.now }
{
    match format {
        Format::Fboss | Format::Onie => parts::byte_length(s, h),
        Format::Vpd => vpd::group_length(s, h.at),
        Format::Tiny => tiny::tiny_length(s, h),
    }
}

// The frame at the front of s that has this head and this length.
fn on_length(l: Result<(usize, usize), u32>, h: Head, s: &[u8]) -> Result<Option<Frame>, u32>
    ensures { result ≡ on_length l h s.now }
{
    let (v, j) = l?;
    if !parts::is_inside(s.len(), j, v) {
        return Err(5);
    }
    Ok(Some(Frame {
        code: h.code,
        key: h.key,
        klen: h.klen,
        at: h.at,
        val: j,
        vlen: v,
        size: j + v,
    }))
}

// The frame at the front of s, where x is what opens an entry there.
fn on_head(x: Result<Option<Head>, u32>, format: Format, s: &[u8]) -> Result<Option<Frame>, u32>
    ensures { result ≡ on_head x (shape format) s.now }
{
    match x? {
        None => Ok(None),
        Some(h) => on_length(length_of(format, s, h), h, s),
    }
}

// The frame at the front of s. `shut`: the entry before was one that none may follow.
// Each format has a call of its own, so that the compiler makes code for it alone and uses what is the same in all its heads.
fn frame_of(format: Format, shut: bool, s: &[u8]) -> Result<Option<Frame>, u32>
    ensures { result ≡ next (shape format) shut s.now }
{
    match format {
        Format::Fboss => on_head(parts::coded_head(s, 250, 2), Format::Fboss, s),
        Format::Vpd => on_head(vpd::vpd_head(s), Format::Vpd, s),
        Format::Tiny => on_head(tiny::tiny_head(shut, s), Format::Tiny, s),
        Format::Onie => on_head(parts::coded_head(s, 0xFE, 4), Format::Onie, s),
    }
}

// What stands at p, in a room that ends before `end`. `frame_of` is called at this one place, so that it is compiled as a part of this function.
pub fn next_frame(
    format: Format,
    shut: bool,
    image: &[u8],
    p: usize,
    end: usize,
) -> Result<Option<Frame>, u32>
    ensures { result ≡ next (shape format) shut (part p (end - p) image.now) }
{
    frame_of(format, shut, part_of(image, p, end.saturating_sub(p)))
}

// Entry n of those that begin at start, in a room that ends before `end`.
pub fn find_frame(
    format: Format,
    image: &[u8],
    start: usize,
    end: usize,
    n: usize,
) -> Option<(Frame, usize)>
    ensures { result ≡ spot_at (shape format) image.now false start end n }
{
    let mut p = start;
    let mut left = n;
    let mut shut = false;
    while let Ok(Some(f)) = next_frame(format, shut, image, p, end) {
        if left == 0 {
            return Some((f, p));
        }
        shut = is_last(format, f.code);
        p += f.size;
        left -= 1;
    }
    None
}

// Whether the stored check is right, where the entries end at p.
pub fn is_sealed(format: Format, image: &[u8], p: usize) -> bool
    ensures { result ≡ sealed (shape format) image.now p }
{
    match format {
        Format::Fboss => fboss::fboss_sealed(image, p),
        Format::Vpd => true,
        Format::Tiny => tiny::tiny_sealed(image, p),
        Format::Onie => onie::onie_sealed(image, p),
    }
}

// Whether the room of entries that end at p, and which ends at `end`, is as the format asks; where it is not, the declared length is wrong.
pub fn is_filled(format: Format, p: usize, end: usize) -> bool
    ensures { (shape format).filled p end ≡ if result (λ _. fine) (λ _. faulty 5 9) }
{
    match format {
        Format::Onie => onie::is_filled(p, end),
        Format::Fboss | Format::Vpd | Format::Tiny => true,
    }
}

// The reader's rule on the key of a named entry.
pub fn reader_key(format: Format, code: u32, key: &[u8]) -> bool
    ensures { result ≡ (shape format).reader_key code key.now }
{
    match format {
        Format::Vpd => vpd::vpd_reader_key(code, key),
        Format::Fboss | Format::Tiny | Format::Onie => true,
    }
}

// The writer's rule on the key of a field.
pub fn writer_key(format: Format, code: u32, key: &[u8]) -> bool
    ensures { result ≡ (shape format).writer_key code key.now }
{
    match format {
        Format::Vpd => vpd::vpd_writer_key(code, key),
        Format::Fboss | Format::Tiny | Format::Onie => true,
    }
}

// The rule on the value of a named entry.
pub fn value_rule(format: Format, code: u32, v: &[u8]) -> bool
    ensures { result ≡ (shape format).value_rule code v.now }
{
    match format {
        Format::Fboss => fboss::fboss_rule(code, v),
        Format::Vpd => vpd::vpd_rule(code, v),
        Format::Tiny => tiny::tiny_rule(code, v),
        Format::Onie => onie::onie_rule(code, v),
    }
}

// Whether all required codes are marked as seen.
pub fn is_complete(format: Format, seen: &[u8; 256]) -> bool
    ensures { result ≡ all_marked (shape format).required seen.now }
{
    match format {
        Format::Fboss => [1, 8, 9, 10, 11].iter().all(|code| seen[*code] != 0),
        Format::Vpd | Format::Tiny | Format::Onie => true,
    }
}

// Whether an image must have an entry of this code.
pub fn is_required(format: Format, code: u32) -> bool
    ensures { result ≡ one_of (shape format).required code }
{
    matches!((format, code), (Format::Fboss, 1 | 8..=11))
}

// Whether an entry of this code and key comes a second time where there is one of the code and the key given after them.
pub fn is_same(format: Format, code: u32, key: &[u8], code2: u32, key2: &[u8]) -> bool
    ensures { result ≡ same (shape format) (record { code = code; key = key.now }) (record { code = code2; key = key2.now }) }
{
    code == code2
        && match format {
            Format::Vpd => code != 0x01 || parts::same_bytes(key, key2),
            Format::Onie => code != 0xFD,
            Format::Fboss | Format::Tiny => true,
        }
}

// The reading of a named entry's value.
pub fn reading_of(format: Format, code: u32, v: &[u8]) -> Reading
    ensures { result ≡ (shape format).reading code v.now }
{
    match format {
        Format::Fboss => fboss::fboss_reading(code, v),
        Format::Vpd => Reading::Plain,
        Format::Tiny => tiny::tiny_reading(code, v),
        Format::Onie => onie::onie_reading(code, v),
    }
}
