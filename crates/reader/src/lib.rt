// The calls that read an image: check, entry n, the value of entry n, a Tiny string, and the walk.
#![tactic(auto)]

ghost use Rattle.std.specs.Prelude.{◌≡◌, ℕ, ◌+◌, ◌-◌, ◌≤◌, ◌<◌, List, length};
ghost use Rattle.layout.specs.Bytes.{part};
ghost use Rattle.layout.specs.Editions.{shape, known_edition, kind};
ghost use Rattle.layout.specs.Walk.{content};
ghost use Rattle.layout.specs.Calls.{check_image, key_part, reading_by, entry_of, nth, entries_of, entry_at, value_at, string_in, pool_string, string_at, bytes_at, verdict};
ghost use Rattle.laws.specs.Passes.{walked, IsDone, raws_in};
ghost use Rattle.reader.specs.Here.{here_at};
ghost use Rattle.reader.specs.Walk.{step_walk};

use layout::{Entry, Format, Frame, Part, Place, Reading, Refusal, StringNumber};

// An entry, the place after it, and whether none may follow it.
#[derive(Clone, Copy)]
pub struct Standing {
    pub entry: Entry,
    pub next: usize,
    pub shut: bool,
}

// 01's term "walk": it holds format, edition and entry number.
#[derive(Clone, Copy)]
pub struct Walk {
    pub format: u32,
    pub edition: u32,
    pub entry: usize,
}

// The answer of a walk's step, with the walk that is handed back.
#[derive(Clone, Copy)]
pub struct Stepped {
    pub answer: Result<Entry, Refusal>,
    pub next: Walk,
}

// Whether the edition is known.
pub fn is_edition(edition: u32) -> bool
    ensures { result ≡ known_edition edition }
{
    frames::is_edition(edition)
}

// The number of entries, or the refusal.
pub fn check_image(format: u32, edition: u32, image: &[u8]) -> Result<usize, Refusal>
    ensures { result ≡ check_image format edition image.now }
{
    Ok(accept::take_image(format, edition, image)?.count)
}

// The part of a key in a record: without a key it has length 0 and stands at the value's place.
#[tactic(auto, unfolding(layout::specs::Fboss::fboss, layout::specs::Vpd::vpd, layout::specs::Tiny::tiny, layout::specs::Onie::onie))]
fn key_part(format: Format, p: usize, f: Frame) -> Part
    requires { (f.key ≤ f.val) × (p + f.val < 18446744073709551616) }
    ensures { (bs : List ℕ) → result ≡ key_part (shape format).keyed p (record { bytes = bs; frame = f }) }
{
    match format {
        Format::Vpd => Part::at(p + f.key, f.klen),
        Format::Fboss | Format::Tiny | Format::Onie => Part::at(p + f.val, 0),
    }
}

// What the n bytes from `at` on mean as the value of an entry of this code: plain bytes, where the edition does not name it.
fn reading_at(format: Format, edition: u32, code: u32, image: &[u8], at: usize, n: usize) -> Reading
    ensures { result ≡ reading_by (shape format) edition code (part at n image.now) }
{
    if frames::is_named(format, edition, code) {
        frames::reading_of(format, code, frames::part_of(image, at, n))
    } else {
        Reading::Plain
    }
}

// The record of the entry at p with this frame, kind and reading. Both are given, so that this function is small and is compiled as a part of its callers.
#[tactic(auto, unfolding(layout::specs::Calls::entry_of))]
fn entry_of(format: Format, p: usize, f: Frame, as_kind: u32, reading: Reading) -> Entry
    requires { (f.key ≤ f.val) × (p + f.val < 18446744073709551616) }
    ensures { (edition : ℕ) (bs : List ℕ) → as_kind ≡ kind (shape format) edition f.code → reading ≡ reading_by (shape format) edition f.code (content (record { bytes = bs; frame = f })).value → result ≡ entry_of (shape format) edition p (record { bytes = bs; frame = f }) }
{
    Entry {
        code: f.code,
        kind: as_kind,
        place: Place(p),
        size: f.size,
        key: key_part(format, p, f),
        value: Part::at(p + f.val, f.vlen),
        reading,
    }
}

// The entry at p, in a room that ends before `end`.
pub fn entry_here(
    format: Format,
    edition: u32,
    image: &[u8],
    shut: bool,
    p: usize,
    end: usize,
) -> Option<Standing>
    ensures { result ≡ here_at (shape format) edition image.now shut p end }
{
    let Ok(Some(f)) = frames::next_frame(format, shut, image, p, end) else {
        return None;
    };
    let as_kind = frames::kind_of(format, edition, f.code);
    let reading = reading_at(format, edition, f.code, image, p + f.val, f.vlen);
    Some(Standing {
        entry: entry_of(format, p, f, as_kind, reading),
        next: p + f.size,
        shut: frames::is_last(format, f.code),
    })
}

// Entry n of entries that begin at start.
fn nth_entry(
    format: Format,
    edition: u32,
    image: &[u8],
    start: usize,
    end: usize,
    n: usize,
) -> Result<Entry, Refusal>
    requires { IsDone (walked format image.now start end) }
    ensures { result ≡ nth (entries_of (shape format) edition start (raws_in (walked format image.now start end))) n }
{
    let Some((f, p)) = frames::find_frame(format, image, start, end, n) else {
        return Err(Refusal::from(13));
    };
    let as_kind = frames::kind_of(format, edition, f.code);
    let reading = reading_at(format, edition, f.code, image, p + f.val, f.vlen);
    Ok(entry_of(format, p, f, as_kind, reading))
}

// Entry n, counted from 0.
pub fn entry_at(format: u32, edition: u32, image: &[u8], n: usize) -> Result<Entry, Refusal>
    ensures { result ≡ entry_at format edition image.now n }
{
    let room = accept::take_image(format, edition, image)?;
    nth_entry(room.format, edition, image, room.start, room.end, n)
}

// Where the value of entry n stands.
#[tactic(auto, unfolding(layout::specs::Calls::value_at))]
pub fn value_part(format: u32, edition: u32, image: &[u8], n: usize) -> Result<Part, Refusal>
    ensures { result ≡ value_at format edition image.now n }
{
    Ok(entry_at(format, edition, image, n)?.value)
}

// The bytes of a part that was located.
fn located_bytes(image: &[u8], x: Result<Part, Refusal>) -> &[u8]
    ensures { result.now ≡ bytes_at image.now x }
{
    match x {
        Ok(part) => frames::part_of(image, part.place.0, part.len),
        Err(_) => &image[..0],
    }
}

// Number and place: 0 and 0 where nothing is refused.
fn located_verdict(x: Result<Part, Refusal>) -> Refusal
    ensures { result ≡ verdict x }
{
    x.err().unwrap_or(Refusal::from(0))
}

// The value of entry n, as a part of the image; empty where it is refused.
pub fn value_at(format: u32, edition: u32, image: &[u8], n: usize) -> &[u8]
    ensures { result.now ≡ bytes_at image.now (value_at format edition image.now n) }
{
    located_bytes(image, value_part(format, edition, image, n))
}

// Number and place of the same call.
pub fn value_verdict(format: u32, edition: u32, image: &[u8], n: usize) -> Refusal
    ensures { result ≡ verdict (value_at format edition image.now n) }
{
    located_verdict(value_part(format, edition, image, n))
}

// The string of this number in a pool whose bytes begin at `place` of the image.
fn string_in(pool: &[u8], place: Place, number: StringNumber) -> Result<Part, Refusal>
    requires { place.0 + length pool.now ≤ 65536 }
    ensures { result ≡ string_in pool.now place.0 0 number.0 }
{
    let mut skip = number.0;
    let mut first = 0;
    for (i, byte) in pool.iter().enumerate() {
        if 0x80 <= *byte {
            if skip == 0 {
                return Ok(Part::at(place.0 + first, i + 1 - first));
            }
            skip -= 1;
            first = i + 1;
        }
    }
    Err(Refusal::from(15))
}

// The same in the pool of an image, whose entries begin at start.
fn pool_string(
    image: &[u8],
    start: Place,
    end: Place,
    number: StringNumber,
) -> Result<Part, Refusal>
    requires { (end.0 ≤ length image.now) × (length image.now ≤ 65536) × IsDone (walked Format.Tiny image.now start.0 end.0) }
    ensures { result ≡ pool_string start.0 (raws_in (walked Format.Tiny image.now start.0 end.0)) number.0 }
{
    let mut p = start.0;
    let mut shut = false;
    while let Ok(Some(f)) = frames::next_frame(Format::Tiny, shut, image, p, end.0) {
        if f.code == 1 {
            let at = p + f.val;
            return string_in(frames::part_of(image, at, f.vlen), Place(at), number);
        }
        shut = frames::is_last(Format::Tiny, f.code);
        p += f.size;
    }
    Err(Refusal::from(15))
}

// Where a string of the pool stands.
pub fn string_part(
    format: u32,
    edition: u32,
    image: &[u8],
    number: StringNumber,
) -> Result<Part, Refusal>
    ensures { result ≡ string_at format edition image.now number.0 }
{
    if format != 3 {
        return Err(Refusal::from(16));
    }
    let room = accept::take_image(format, edition, image)?;
    pool_string(image, Place(room.start), Place(room.end), number)
}

// A string of the pool, as a part of the image, its last byte as stored; empty where it is refused.
pub fn string_at(format: u32, edition: u32, image: &[u8], number: StringNumber) -> &[u8]
    ensures { result.now ≡ bytes_at image.now (string_at format edition image.now number.0) }
{
    located_bytes(image, string_part(format, edition, image, number))
}

// Number and place of the same call.
pub fn string_verdict(format: u32, edition: u32, image: &[u8], number: StringNumber) -> Refusal
    ensures { result ≡ verdict (string_at format edition image.now number.0) }
{
    located_verdict(string_part(format, edition, image, number))
}

impl Walk {
    // A walk that stands before the first entry.
    pub fn new(format: u32, edition: u32) -> Self
        ensures { result ≡ record { format = format; edition = edition; entry = 0 } }
    {
        Walk {
            format,
            edition,
            entry: 0,
        }
    }

    // Entry n of the image, with the walk moved on by one; a refused step hands the walk back unmoved.
    pub fn step(self, image: &[u8]) -> Stepped
        ensures { result ≡ step_walk self image.now }
    {
        let answer = entry_at(self.format, self.edition, image, self.entry);
        let mut next = self;
        if answer.is_ok() {
            next.entry += 1;
        }
        Stepped { answer, next }
    }
}
