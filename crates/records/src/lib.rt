// What goes out to C: the packed answer, and an entry record and a vendor block in lent bytes.
// The goals are tried with these definitions opened.
#![tactic(auto, unfolding(layout::specs::Calls::told_reading, crate::specs::Packed::packed, crate::specs::Words::record_bytes, crate::specs::Words::block_bytes))]

ghost use Rattle.std.specs.Prelude.{◌≡◌, ℕ, ◌+◌, ◌*◌, ◌/◌, ◌≤◌, [], ◌∷◌, length};
ghost use Rattle.layout.specs.Calls.{told, told_refusal, told_checked, told_located};
ghost use Rattle.layout.specs.Write.{told_made};
ghost use Rattle.layout.specs.Bytes.{part_at};
ghost use Rattle.output.specs.Placing.{copied};
ghost use Rattle.blocks.specs.Offset.{each_offset};
ghost use Rattle.records.specs.Packed.{packed};
ghost use Rattle.records.specs.Words.{word_bytes, words_bytes, reading_words, former_words, record_words, record_bytes, signed_word, block_words, block_bytes};

use blocks::{Block, Offsets};
use layout::{Date, Entry, Identity, Part, Reading, Refusal, Time};

// ---- the packed answer

// A refusal.
pub fn pack_refusal(r: Refusal) -> u64
    ensures { result ≡ packed (told_refusal r) }
{
    if r.number == 0 {
        return 0;
    }
    u64::from(r.number % 32) * 576460752303423488 + (r.place.0 % 576460752303423488) as u64
}

// A count.
pub fn pack_count(n: usize) -> u64
    ensures { result ≡ packed (told n (part_at 0 0) []) }
{
    (n % 134217728) as u64 * 4294967296
}

// A number of entries or of bytes, or the refusal: the answer of a check and of a list, of a write and of an edit.
pub fn pack_answer(x: Result<usize, Refusal>) -> u64
    ensures checked { result ≡ packed (told_checked x) }
    ensures made { result ≡ packed (told_made x) }
{
    match x {
        Ok(n) => pack_count(n),
        Err(r) => pack_refusal(r),
    }
}

// A part of the image, or the refusal.
pub fn pack_located(x: Result<Part, Refusal>) -> u64
    ensures { result ≡ packed (told_located x) }
{
    match x {
        Err(r) => pack_refusal(r),
        Ok(part) => {
            let place = part.place;
            let at = place.0;
            (part.len % 134217728) as u64 * 4294967296 + (at % 4294967296) as u64
        }
    }
}

// ---- a record

// A word over `out`, from `at` on.
fn put_word(out: &mut [u8], at: usize, n: u64)
    requires { at + 4 ≤ length out.old }
    ensures { out.new ≡ copied out.old at (word_bytes n) }
{
    let bytes = n.to_le_bytes();
    out[at..at + 4].copy_from_slice(&bytes[..4]);
}

// Words over `out`, from `at` on, where they fit. The room is tested once.
fn put_words(out: &mut [u8], at: usize, words: &[u64])
    ensures { out.new ≡ copied out.old at (words_bytes words.now) }
{
    if at <= out.len() && words.len() <= (out.len() - at) / 4 {
        for (i, word) in words.iter().enumerate() {
            put_word(out, at + i * 4, *word);
        }
    }
}

// A number of 64 bits over `out`, from `at` on, low byte first, where it fits.
pub fn put_long(out: &mut [u8], at: usize, n: u64)
    ensures { out.new ≡ copied out.old at (words_bytes (n ∷ n / 4294967296 ∷ [])) }
{
    output::copy_at(out, at, &n.to_le_bytes());
}

fn identity_words(first: u64, x: Identity, last: u64) -> [u64; 8]
    ensures { result ≡ (first ∷ x.serial.0 ∷ x.part.0 ∷ x.major ∷ x.minor ∷ x.free0 ∷ x.free1 ∷ last ∷ []) }
{
    [
        first,
        x.serial.0 as u64,
        x.part.0 as u64,
        u64::from(x.major),
        u64::from(x.minor),
        u64::from(x.free0),
        u64::from(x.free1),
        last,
    ]
}

fn date_words(first: u64, d: Date, t: Time) -> [u64; 8]
    ensures { result ≡ (first ∷ d.year ∷ d.month ∷ d.day ∷ t.hour ∷ t.minute ∷ t.second ∷ 0 ∷ []) }
{
    [
        first,
        u64::from(d.year),
        u64::from(d.month),
        u64::from(d.day),
        u64::from(t.hour),
        u64::from(t.minute),
        u64::from(t.second),
        0,
    ]
}

fn reading_words(r: Reading) -> [u64; 8]
    ensures { result ≡ reading_words r }
{
    match r {
        Reading::Plain => [0; 8],
        Reading::Text => [1, 0, 0, 0, 0, 0, 0, 0],
        Reading::Number(n) => [2, u64::from(n), 0, 0, 0, 0, 0, 0],
        Reading::Addresses(base, count) => [
            3,
            base / 4294967296,
            base % 4294967296,
            count,
            0,
            0,
            0,
            0,
        ],
        Reading::Numbered(s) => [4, s.0 as u64, 0, 0, 0, 0, 0, 0],
        Reading::Tests(byte, passed) => [5, u64::from(byte), u64::from(passed), 0, 0, 0, 0, 0],
        Reading::Identified(x) => identity_words(6, x, 0),
        Reading::Batched(x, batch) => identity_words(7, x, u64::from(batch)),
        Reading::Dated(d) => {
            let midnight = Time {
                hour: 0,
                minute: 0,
                second: 0,
            };
            date_words(8, d, midnight)
        }
        Reading::Timed(d, t) => date_words(9, d, t),
    }
}

// The words of editions 1 to 3.
fn former_words(x: Entry) -> [u64; 16]
    ensures { result ≡ former_words x }
{
    let w = reading_words(x.reading);
    [
        u64::from(x.code),
        u64::from(x.kind),
        x.place.0 as u64,
        x.key.place.0 as u64,
        x.key.len as u64,
        x.value.place.0 as u64,
        x.value.len as u64,
        0,
        w[0],
        w[1],
        w[2],
        w[3],
        w[4],
        w[5],
        w[6],
        w[7],
    ]
}

// From edition 4 on word 7 is the length of the whole frame.
fn record_words(edition: u32, x: Entry) -> [u64; 16]
    ensures { result ≡ record_words edition x }
{
    let mut words = former_words(x);
    if 4 <= edition {
        words[7] = x.size as u64;
    }
    words
}

// The record of an entry for an edition over `out`, from `at` on, where it fits.
pub fn put_record(out: &mut [u8], at: usize, edition: u32, x: Entry)
    ensures { out.new ≡ copied out.old at (record_bytes edition x) }
{
    put_words(out, at, &record_words(edition, x));
}

// ---- a vendor block

// A signed number as a word.
fn signed_word(z: i8) -> u64
    ensures { result ≡ signed_word z }
{
    u64::from(i32::from(z).cast_unsigned())
}

fn offset_words(o: Offsets) -> [u64; 8]
    ensures { result ≡ each_offset signed_word o }
{
    [
        signed_word(o.c_west_in),
        signed_word(o.c_west_out),
        signed_word(o.c_east_in),
        signed_word(o.c_east_out),
        signed_word(o.l_west_in),
        signed_word(o.l_west_out),
        signed_word(o.l_east_in),
        signed_word(o.l_east_out),
    ]
}

fn block_words(x: Block) -> [u64; 12]
    ensures { result ≡ block_words x }
{
    let w = offset_words(x.offsets);
    [
        x.serial.place.0 as u64,
        x.serial.len as u64,
        x.block.place.0 as u64,
        x.block.len as u64,
        w[0],
        w[1],
        w[2],
        w[3],
        w[4],
        w[5],
        w[6],
        w[7],
    ]
}

// A block over the front of `out`, where it fits.
pub fn put_block(out: &mut [u8], x: Block)
    ensures { out.new ≡ copied out.old 0 (block_bytes x) }
{
    put_words(out, 0, &block_words(x));
}
