// The types that the definitions of specs/ and the code of the other crates share, and how a place, a part and a refusal are made.
#![tactic(auto)]

ghost use Rattle.std.specs.Prelude.{◌≡◌};
ghost use Rattle.layout.specs.Bytes.{part_at, refusal};

// 01's term "place": it counts bytes of the image. In a field it counts bytes of the lent values, in a vendor block bytes of the payload, and in a write's refusal it may be a field's number in the list.
#[derive(Clone, Copy, PartialEq, Eq)]
pub struct Place(pub usize);

// 01's term "string number": it counts the strings of a Tiny pool, from 0.
#[derive(Clone, Copy, PartialEq, Eq)]
pub struct StringNumber(pub usize);

// 01's term "part": some of the bytes that were lent, by the place of the first and by length.
#[derive(Clone, Copy, PartialEq, Eq)]
pub struct Part {
    pub place: Place,
    pub len: usize,
}

impl Part {
    // The part of so many bytes from a place on.
    pub fn at(place: usize, len: usize) -> Self
        ensures { result ≡ part_at place len }
    {
        let place = Place(place);
        Part { place, len }
    }
}

// The layouts; document 01 numbers them 1, 2 and 3, and document 02 adds 4.
#[derive(Clone, Copy, PartialEq, Eq)]
pub enum Format {
    Fboss,
    Vpd,
    Tiny,
    Onie,
}

// 01's term "identity": the string numbers of serial and part, the revision, and two free bytes.
#[derive(Clone, Copy)]
pub struct Identity {
    pub serial: StringNumber,
    pub part: StringNumber,
    pub major: u8,
    pub minor: u8,
    pub free0: u8,
    pub free1: u8,
}

// 02's term "date": year, month and day of the Gregorian calendar.
#[derive(Clone, Copy)]
pub struct Date {
    pub year: u32,
    pub month: u32,
    pub day: u32,
}

// The time of a date with time.
#[derive(Clone, Copy)]
pub struct Time {
    pub hour: u32,
    pub minute: u32,
    pub second: u32,
}

// 01's term "reading": what an entry's value means.
#[derive(Clone, Copy)]
pub enum Reading {
    // any bytes
    Plain,
    // bytes that are text
    Text,
    Number(u32),
    // an address block: the 48-bit base, and the count
    Addresses(u64, u64),
    // the number of a string
    Numbered(StringNumber),
    // test flags: the byte, and the number of tests passed
    Tests(u8, u8),
    Identified(Identity),
    // an identity with batch: the batch number comes last
    Batched(Identity, u32),
    Dated(Date),
    // a date with time
    Timed(Date, Time),
}

// 01's term "entry record".
#[derive(Clone, Copy)]
pub struct Entry {
    pub code: u32,
    // 01's term "kind": format × 256 + code where the edition names the code, and else 0
    pub kind: u32,
    // of the entry's first byte
    pub place: Place,
    // 02's "length of the whole frame", with the length bytes as they are stored: the next entry or the end begins so many bytes after this one's first byte
    pub size: usize,
    pub key: Part,
    pub value: Part,
    pub reading: Reading,
}

// A field to be written: a code, and the parts of the lent values that are its key and its value.
#[derive(Clone, Copy)]
pub struct Field {
    pub code: u32,
    pub key: Part,
    pub value: Part,
}

// A number of 01's table or of 02's, and the place that goes with it.
#[derive(Clone, Copy, PartialEq, Eq)]
pub struct Refusal {
    pub number: u32,
    pub place: Place,
}

impl Refusal {
    // The refusal of this number at a place.
    pub fn at(number: u32, place: usize) -> Self
        ensures { result ≡ refusal number place }
    {
        let place = Place(place);
        Refusal { number, place }
    }
}

// A number alone is the refusal at 0.
impl From<u32> for Refusal {
    ghost from_gives = { λ number r. r ≡ refusal number 0 };

    fn from(number: u32) -> Refusal {
        Refusal::at(number, 0)
    }
}

// What stands before the length of a value: the code, the key's place and length, and the place where the value's length begins.
// These places count from the entry's first byte. In a format without keys the key is empty and stands where the value's length begins.
#[derive(Clone, Copy)]
pub struct Head {
    pub code: u32,
    pub key: usize,
    pub klen: usize,
    pub at: usize,
}

// One entry's frame: its head, the place and length of its value, and the length of the whole. Its places count from its first byte.
#[derive(Clone, Copy)]
pub struct Frame {
    pub code: u32,
    pub key: usize,
    pub klen: usize,
    pub at: usize,
    pub val: usize,
    pub vlen: usize,
    pub size: usize,
}
