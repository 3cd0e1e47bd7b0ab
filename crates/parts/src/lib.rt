// What the readers of several formats do alike: parts of bytes, numbers and checks in them, and entries of one code byte.
#![tactic(auto)]

ghost use Rattle.std.specs.Prelude.{◌≡◌, ◌+◌, ◌-◌, ◌^◌, ◌≤◌, ◌<◌, length, get_or, leb};
ghost use Rattle.layout.specs.Bytes.{all, between, same_bytes, part, high_first};
ghost use Rattle.layout.specs.Shape.{byte_length, coded_head};
ghost use Rattle.layout.specs.Fboss.{printable};
ghost use Rattle.layout.specs.Onie.{four_bytes};

use layout::Head;

// Byte i, and 0 where it is not there.
pub fn byte_at(s: &[u8], i: usize) -> u8
    ensures { result ≡ get_or s.now i 0 }
{
    s.get(i).copied().unwrap_or(0)
}

// Whether n bytes from `at` on lie in a room of so many bytes.
pub fn is_inside(room: usize, at: usize, n: usize) -> bool
    ensures { result ≡ leb (at + n) room }
{
    at <= room && n <= room - at
}

// A length of one byte, where the head says that it begins.
pub fn byte_length(s: &[u8], h: Head) -> Result<(usize, usize), u32>
    ensures { result ≡ byte_length h s.now }
{
    let at = h.at;
    if at < s.len() {
        Ok((usize::from(s[at]), at + 1))
    } else {
        Err(5)
    }
}

// What opens an entry of one code byte and one length byte, in a format that ends with an entry of the code `end` and the length `size`.
pub fn coded_head(s: &[u8], end: u8, size: u8) -> Result<Option<Head>, u32>
    ensures { result ≡ coded_head end size s.now }
{
    if s.len() <= 0 {
        return Err(5);
    }
    let first = s[0];
    if first == 0 {
        return Err(6);
    }
    if first == 255 {
        return Err(6);
    }
    if first == end {
        if s.len() <= 1 {
            return Err(5);
        }
        if s[1] != size {
            return Err(6);
        }
        let n = usize::from(size);
        if s.len() < 2 + n {
            return Err(5);
        }
        return Ok(None);
    }
    Ok(Some(Head {
        code: u32::from(first),
        key: 1,
        klen: 0,
        at: 1,
    }))
}

// The n bytes from `at` on, as far as they are there, as one number, high byte first.
fn high_first(s: &[u8], at: usize, n: usize) -> u64
    requires { n ≤ 6 }
    ensures { (result ≡ high_first 0 (part at n s.now)) × (result < 256 ^ n) }
{
    let mut number: u64 = 0;
    for b in s.iter().skip(at).take(n) {
        number = number * 256 + u64::from(*b);
    }
    number
}

// The first six bytes as one number, high byte first: the base of an address block.
pub fn six_bytes(s: &[u8]) -> u64
    ensures { result ≡ high_first 0 (part 0 6 s.now) }
{
    high_first(s, 0, 6)
}

// The first two bytes as one number, high byte first.
pub fn first_two(s: &[u8]) -> u32
    ensures { result ≡ high_first 0 (part 0 2 s.now) }
{
    high_first(s, 0, 2) as u32
}

// The two bytes after the first six as one number, high byte first: the count of an address block.
pub fn count_bytes(s: &[u8]) -> u64
    ensures { result ≡ high_first 0 (part 6 2 s.now) }
{
    high_first(s, 6, 2)
}

// A number in four bytes, high byte first.
pub fn four_bytes(n: u32) -> [u8; 4]
    ensures { result ≡ four_bytes n }
{
    n.to_be_bytes()
}

// Whether two parts are the same bytes.
pub fn same_bytes(x: &[u8], y: &[u8]) -> bool
    ensures { result ≡ same_bytes x.now y.now }
{
    x == y
}

// Whether the bytes from `at` on, as many as a check has, are the check.
pub fn is_stored(image: &[u8], at: usize, check: &[u8]) -> bool
    ensures { result ≡ same_bytes (part at (length check.now) image.now) check.now }
{
    match image.get(at..) {
        Some(rest) => rest.starts_with(check),
        None => check.is_empty(),
    }
}

// Whether every byte is one of low to high.
pub fn all_between(v: &[u8], low: u8, high: u8) -> bool
    ensures { result ≡ all (between low high) v.now }
{
    v.iter().all(|b| low <= *b && *b <= high)
}

// Whether every byte is text.
pub fn all_printable(v: &[u8]) -> bool
    ensures { result ≡ all printable v.now }
{
    all_between(v, 0x20, 0x7E)
}
