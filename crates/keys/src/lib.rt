// A filter of keys, in words that the caller lends: a key that it does not know was never noted in it.
#![tactic(auto)]

ghost use Rattle.std.specs.Prelude.{◌≡◌, ◌<◌};
ghost use Rattle.keys.specs.Filter.{hash_byte, hashed, word_at, bit_at, mask, may_know, noted, may_repeat, with_key, key_count, filter_words};

use layout::Format;

// One byte taken into a hash.
#[tactic(auto, unfolding(crate::specs::Filter::hash_byte))]
fn hash_byte(h: u32, b: u8) -> u32
    ensures { result ≡ hash_byte h b }
{
    h.wrapping_add(u32::from(b)).wrapping_mul(0xC2B2AE35)
}

// The hash of a key, of 32 bits.
fn hash_key(key: &[u8]) -> u32
    ensures { result ≡ hashed key.now }
{
    key.iter().fold(5, |h, b| hash_byte(h, *b))
}

// Which of n words a hash belongs to.
fn word_at(n: usize, h: u32) -> usize
    requires { 0 < n }
    ensures { (result ≡ word_at n h) × (result < n) }
{
    ((u64::from(h) * (n % 65536) as u64) >> 32) as usize
}

// One of the 64 bits of a word.
fn bit_at(x: u64) -> u64
    ensures { result ≡ bit_at x }
{
    1u64 << (x % 64)
}

// The bits of a word that a hash belongs to, at most four.
#[tactic(auto, unfolding(crate::specs::Filter::mask))]
fn mask_of(h: u32) -> u64
    ensures { result ≡ mask h }
{
    let g = u64::from(h) * 0x85EBCA6B;
    bit_at(g >> 14) | bit_at(g >> 20) | bit_at(g >> 26) | bit_at(g >> 32)
}

// Sets the bits of a key, and tells whether they were set before.
fn set_bits(filter: &mut [u64], key: &[u8]) -> bool
    ensures { (result ≡ may_know filter.old key.now) × (filter.new ≡ noted filter.old key.now) }
{
    let n = filter.len();
    if n == 0 {
        return true;
    }
    let h = hash_key(key);
    let at = word_at(n, h);
    let old = filter[at];
    let new = old | mask_of(h);
    filter[at] = new;
    new == old
}

// Notes the key of an entry of code 01h, and tells whether such an entry may have been noted before; of another code nothing is noted.
#[tactic(auto, unfolding(crate::specs::Filter::may_repeat, crate::specs::Filter::with_key))]
pub fn note_key(filter: &mut [u64], code: u32, key: &[u8]) -> bool
    ensures { (result ≡ may_repeat filter.old code key.now) × (filter.new ≡ with_key filter.old code key.now) }
{
    if code != 1 {
        return true;
    }
    set_bits(filter, key)
}

// The sizes of a filter in words, two keys to a word: for few keys, for more of them, and for any number.
pub const FEW: usize = 64;

pub const MORE: usize = 256;

pub const MANY: usize = 6656;

// How many keys there can be among so many entries.
fn key_count(format: Format, count: usize) -> usize
    ensures { result ≡ key_count format count }
{
    match format {
        Format::Vpd => count,
        Format::Fboss | Format::Tiny | Format::Onie => 0,
    }
}

// The size of the filter for so many entries, in words: none for three keys or fewer.
#[tactic(auto, unfolding(crate::specs::Filter::filter_words))]
pub fn filter_words(format: Format, count: usize) -> usize
    ensures { result ≡ filter_words (key_count format count) }
{
    match key_count(format, count) {
        0..=3 => 0,
        keys if keys / 2 <= FEW => FEW,
        keys if keys / 2 <= MORE => MORE,
        _ => MANY,
    }
}
