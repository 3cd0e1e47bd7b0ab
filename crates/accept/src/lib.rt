// The image's own refusals: an image is taken, with where its entries are, or refused.
#![tactic(auto)]

ghost use Rattle.std.specs.Prelude.{◌≡◌, Bool, false, List, ◌-◌, ◌≤◌, ◌<◌, length};
ghost use Rattle.layout.specs.Answers.{fault_told};
ghost use Rattle.layout.specs.Bytes.{part};
ghost use Rattle.layout.specs.Shape.{Label};
ghost use Rattle.layout.specs.Editions.{shape};
ghost use Rattle.layout.specs.Walk.{Raw, walk, labels_of};
ghost use Rattle.layout.specs.Read.{seen_before, codes_of, fault, read_walked};
ghost use Rattle.laws.specs.Passes.{walked};
ghost use Rattle.laws.proofs.Marks.{Marks};
ghost use Rattle.keys.proofs.Seen.{key_seen};
ghost use Rattle.accept.specs.Passes.{Passed, walk_ending, ending_of};
ghost use Rattle.accept.specs.Taken.{room_taken, taken};

use layout::{Format, Refusal};

// How a pass over the entries ends whose frames are sound: with so many of them, at the place `over`, and with what the rules and the required fields come to.
#[derive(Clone, Copy)]
struct Pass {
    count: usize,
    over: usize,
    judgement: Result<(), Refusal>,
}

// Where the entries of an accepted image are, and how many: they start at `start`, have room up to `end`, and end at `over`.
#[derive(Clone, Copy)]
pub struct Room {
    pub format: Format,
    pub start: usize,
    pub end: usize,
    pub over: usize,
    pub count: usize,
}

// Whether entries have keys.
fn is_keyed(format: Format) -> bool
    ensures { result ≡ (shape format).keyed }
{
    matches!(format, Format::Vpd)
}

// The number of bytes between the end of the entries and the check.
fn closing_length(format: Format) -> usize
    ensures { result ≡ length (shape format).closing }
{
    match format {
        Format::Fboss | Format::Onie => 2,
        Format::Vpd => 1,
        Format::Tiny => 0,
    }
}

// Where the entries of an image lie, and how they are read: by a format and an edition, from `start` on, in a room that ends before `end`.
#[derive(Clone, Copy)]
struct Span {
    format: Format,
    edition: u32,
    start: usize,
    end: usize,
}

impl Span {
    // A pass over the frames alone, from p on, after n entries and with what the rules come to.
    // `shut`: the entry before was one that none may follow.
    fn walk_on(
        self,
        image: &[u8],
        shut: bool,
        p: usize,
        n: usize,
        judgement: Result<(), Refusal>,
    ) -> Result<Pass, Refusal>
        requires { (p ≤ self.end) × (n ≤ p) }
        ensures { result ≡ walk_ending n judgement (walk (shape self.format) shut p (part p (self.end - p) image.now)) }
    {
        let mut q = p;
        let mut count = n;
        let mut closed = shut;
        loop {
            match frames::next_frame(self.format, closed, image, q, self.end) {
                Ok(Some(f)) => {
                    closed = frames::is_last(self.format, f.code);
                    q += f.size;
                    count += 1;
                }
                Ok(None) => {
                    return Ok(Pass {
                        count,
                        over: q,
                        judgement,
                    });
                }
                Err(k) => {
                    return Err(Refusal::at(k, q));
                }
            }
        }
    }

    // Whether an entry before p has code 01h and this key.
    fn seen_key(self, image: &[u8], p: usize, key: &[u8]) -> bool
        requires { p ≤ self.end }
        ensures { (past : List Raw) (shut : Bool) → Passed Format.Vpd image.now self.end false self.start past shut p → result ≡ key_seen (labels_of past) key.now }
    {
        let mut q = self.start;
        while q < p {
            let Ok(Some(f)) = frames::next_frame(Format::Vpd, false, image, q, self.end) else {
                return false;
            };
            let other = frames::part_of(image, q + f.key, f.klen);
            if f.code == 1 && parts::same_bytes(key, other) {
                return true;
            }
            q += f.size;
        }
        false
    }

    // Whether the entry of this code and key, at p, comes a second time; a VPD 01h does not where its key is not known, and an ONIE FDh never does.
    fn is_seen(
        self,
        image: &[u8],
        p: usize,
        code: u32,
        key: &[u8],
        known: bool,
        seen: &[u8; 256],
    ) -> bool
        requires { (p ≤ self.end) × (code < 256) }
        ensures { (past : List Raw) (shut : Bool) → Passed self.format image.now self.end false self.start past shut p → Marks (codes_of past) seen.now → (known ≡ false → key_seen (labels_of past) key.now ≡ false) → result ≡ seen_before (shape self.format) (labels_of past) (record { code = code; key = key.now }) }
    {
        match self.format {
            Format::Vpd if code == 1 => known && self.seen_key(image, p, key),
            Format::Onie if code == 0xFD => false,
            _ => seen[code as usize] != 0,
        }
    }

    // What is wrong with an entry of this code, key and value, if anything: 7, then 8 where it comes a second time.
    fn fault_of(self, code: u32, key: &[u8], value: &[u8], repeated: bool) -> Option<u32>
        ensures { (seen : List Label) → repeated ≡ seen_before (shape self.format) seen (record { code = code; key = key.now }) → result ≡ fault_told (fault (shape self.format) self.edition seen (record { code = code; key = key.now; value = value.now })) }
    {
        if !frames::is_named(self.format, self.edition, code) {
            return None;
        }
        if !frames::reader_key(self.format, code, key) {
            return Some(7);
        }
        if !frames::value_rule(self.format, code, value) {
            return Some(7);
        }
        if repeated {
            return Some(8);
        }
        None
    }

    // One pass over the entries, for the frames and for the rules: a broken frame anywhere comes before what the rules say, so that after the first fault only the frames are looked at.
    // The filter is for the keys that are passed.
    fn read_entries(self, image: &[u8], filter: &mut [u64]) -> Result<Pass, Refusal>
        requires { self.start ≤ self.end }
        ensures { result ≡ ending_of self.format self.edition (walked self.format image.now self.start self.end) self.start }
    {
        let mut seen = [0u8; 256];
        let mut p = self.start;
        let mut n: usize = 0;
        let mut shut = false;
        loop {
            match frames::next_frame(self.format, shut, image, p, self.end) {
                Ok(Some(f)) => {
                    let key = frames::part_of(image, p + f.key, f.klen);
                    let known = keys::note_key(filter, f.code, key);
                    let repeated = self.is_seen(image, p, f.code, key, known, &seen);
                    let value = frames::part_of(image, p + f.val, f.vlen);
                    if let Some(k) = self.fault_of(f.code, key, value, repeated) {
                        return self.walk_on(image, shut, p, n, Err(Refusal::at(k, p)));
                    }
                    seen[f.code as usize] = 1;
                    shut = frames::is_last(self.format, f.code);
                    p += f.size;
                    n += 1;
                }
                Ok(None) => {
                    let judgement = if frames::is_complete(self.format, &seen) {
                        Ok(())
                    } else {
                        Err(Refusal::from(11))
                    };
                    return Ok(Pass {
                        count: n,
                        over: p,
                        judgement,
                    });
                }
                Err(k) => {
                    return Err(Refusal::at(k, p));
                }
            }
        }
    }

    // The same with a filter for any number of keys.
    fn read_many(self, image: &[u8]) -> Result<Pass, Refusal>
        requires { self.start ≤ self.end }
        ensures { result ≡ ending_of self.format self.edition (walked self.format image.now self.start self.end) self.start }
    {
        let mut filter = [0u64; keys::MANY];
        self.read_entries(image, &mut filter)
    }

    // The same with the filter that is lent, or with a larger one where more words are asked for.
    // It calls itself, and so the compiler gives it no room for the filter of read_many, which a call on few keys would have to touch.
    fn read_sized(self, image: &[u8], filter: &mut [u64], words: usize) -> Result<Pass, Refusal>
        requires { self.start ≤ self.end }
        ensures { result ≡ ending_of self.format self.edition (walked self.format image.now self.start self.end) self.start }
    {
        if words <= filter.len() {
            return self.read_entries(image, filter);
        }
        if words <= keys::MORE {
            let mut larger = [0u64; keys::MORE];
            return self.read_sized(image, &mut larger, words);
        }
        self.read_many(image)
    }

    // The same with a filter of at least so many words, and with none where none are asked for.
    fn read_with(self, image: &[u8], words: usize) -> Result<Pass, Refusal>
        requires { self.start ≤ self.end }
        ensures { result ≡ ending_of self.format self.edition (walked self.format image.now self.start self.end) self.start }
    {
        if words == 0 {
            let mut none = [0u64; 0];
            return self.read_entries(image, &mut none);
        }
        let mut filter = [0u64; keys::FEW];
        self.read_sized(image, &mut filter, words)
    }

    // The same for any entries. Where they have keys the frames are looked at first, as the size of the filter goes by their number.
    fn read_room(self, image: &[u8]) -> Result<Pass, Refusal>
        requires { self.start ≤ self.end }
        ensures { result ≡ ending_of self.format self.edition (walked self.format image.now self.start self.end) self.start }
    {
        if !is_keyed(self.format) {
            return self.read_with(image, 0);
        }
        let pass = self.walk_on(image, false, self.start, 0, Ok(()))?;
        self.read_with(image, keys::filter_words(self.format, pass.count))
    }

    // The room that an image's entries take, or the image's refusal.
    fn take_room(self, image: &[u8]) -> Result<Room, Refusal>
        requires { (self.start ≤ self.end) × (self.end ≤ 65536) }
        ensures { result ≡ room_taken (read_walked (walked self.format image.now self.start self.end) self.format self.edition image.now self.start self.end) self.end }
    {
        let pass = self.read_room(image)?;
        if !frames::is_filled(self.format, pass.over, self.end) {
            return Err(Refusal::at(5, 9));
        }
        if !frames::is_sealed(self.format, image, pass.over) {
            return Err(Refusal::at(10, pass.over + closing_length(self.format)));
        }
        pass.judgement?;
        Ok(Room {
            format: self.format,
            start: self.start,
            end: self.end,
            over: pass.over,
            count: pass.count,
        })
    }
}

// The image, or its refusal: 16, 1, 2, its header's, 5, 6 and 9, what its format asks of its room, then 10, 7 and 8, 11.
pub fn take_image(format: u32, edition: u32, image: &[u8]) -> Result<Room, Refusal>
    ensures { result ≡ taken format edition image.now }
{
    let format = frames::choose(format, edition)?;
    if 65536 < image.len() {
        return Err(Refusal::from(2));
    }
    let (start, end) = frames::open_image(format, image)?;
    let span = Span {
        format,
        edition,
        start,
        end,
    };
    span.take_room(image)
}
