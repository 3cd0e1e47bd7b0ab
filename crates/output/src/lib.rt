// Writing into a lent output: what opens an entry, a value with its length, and the header, end and check of an image.
// The goals are tried with the formats and their bytes of a length opened.
#![tactic(auto, unfolding(layout::specs::Fboss::fboss, layout::specs::Vpd::vpd, layout::specs::Vpd::shortest, layout::specs::Tiny::tiny, layout::specs::Onie::onie, layout::specs::Onie::onie_check))]

ghost use Rattle.std.specs.Prelude.{◌≡◌, ℕ, ◌+◌, ◌-◌, ◌≤◌, ◌<◌, [], ◌∷◌, ◌++◌, true, length, take, replicate};
ghost use Rattle.layout.specs.Bytes.{part};
ghost use Rattle.layout.specs.Read.{limit};
ghost use Rattle.layout.specs.Write.{image_of, padded};
ghost use Rattle.layout.specs.Fboss.{fboss};
ghost use Rattle.layout.specs.Vpd.{vpd, shortest};
ghost use Rattle.layout.specs.Tiny.{tiny};
ghost use Rattle.layout.specs.Onie.{onie};
ghost use Rattle.layout.specs.Editions.{shape};
ghost use Rattle.output.specs.Lengths.{capped, sealed_length, fits_in, has_room};
ghost use Rattle.output.specs.Placing.{copied, opening_placed, value_placed, finished};

use layout::Format;

// ---- lengths

// The sum of two lengths, cut off.
pub fn add_capped(a: usize, b: usize) -> usize
    ensures { result ≡ capped (a + b) }
{
    a.saturating_add(b).min(65537)
}

// The rule on the length of a value that is written.
pub fn length_rule(format: Format, code: u32, n: usize) -> bool
    ensures { result ≡ (shape format).length_rule code n }
{
    match format {
        Format::Fboss | Format::Onie => n < 256,
        Format::Vpd => true,
        Format::Tiny => tiny::tiny_takes(code, n),
    }
}

// How many bytes say the length n in VPD.
fn shortest_length(n: usize) -> usize
    ensures { (result ≡ length (shortest n)) × (result ≤ 4) }
{
    match n {
        ..128 => 1,
        ..16384 => 2,
        ..2097152 => 3,
        _ => 4,
    }
}

// How many bytes say the length n of a value.
fn lens_length(format: Format, code: u32, n: usize) -> usize
    ensures { result ≡ length ((shape format).lens code n) }
{
    match format {
        Format::Fboss | Format::Onie => 1,
        Format::Vpd => shortest_length(n),
        Format::Tiny => usize::from(code < 16),
    }
}

// The length of what opens an entry with this key, cut off.
pub fn opening_length(format: Format, code: u32, key: &[u8]) -> usize
    ensures { result ≡ capped (length ((shape format).opening code key.now)) }
{
    match format {
        Format::Vpd => add_capped(1 + shortest_length(key.len()), key.len()),
        Format::Fboss | Format::Tiny | Format::Onie => 1,
    }
}

// The length of a value of n bytes with the bytes that say its length, cut off.
pub fn value_length(format: Format, code: u32, n: usize) -> usize
    ensures { result ≡ capped (length ((shape format).lens code n) + n) }
{
    add_capped(lens_length(format, code, n), n)
}

// The length of an image whose entries have n bytes, cut off.
pub fn image_length(format: Format, n: usize) -> usize
    ensures { result ≡ capped (sealed_length (shape format) n) }
{
    match format {
        Format::Fboss => add_capped(n, 8),
        Format::Vpd => add_capped(n, 1),
        Format::Tiny => add_capped(n, 4),
        Format::Onie => add_capped(n, 17),
    }
}

// The most bytes that an image may have which is written.
fn most(format: Format) -> usize
    ensures { (result ≡ (shape format).most) × (result ≤ limit) }
{
    match format {
        Format::Fboss | Format::Vpd => 65536,
        Format::Tiny => 255,
        Format::Onie => 2059,
    }
}

// Whether an image whose entries have n bytes fits its format and an output of so many bytes.
pub fn fits(format: Format, n: usize, room: usize) -> bool
    ensures { result ≡ fits_in (shape format) n room }
{
    let m = image_length(format, n);
    m <= most(format) && m <= room
}

// Where the entries of an image begin that is written.
pub fn header_length(format: Format) -> usize
    ensures { result ≡ length ((shape format).header 0) }
{
    match format {
        Format::Fboss => 4,
        Format::Vpd => 0,
        Format::Tiny => 3,
        Format::Onie => 11,
    }
}

// Whether n bytes from `at` on lie in an output of so many bytes, and it is not too long.
fn has_room(room: usize, at: usize, n: usize) -> bool
    ensures { result ≡ has_room room at n }
{
    room <= 65536 && add_capped(at, n) <= room
}

// ---- bytes

// `s` over `out`, from `at` on, where it fits.
pub fn copy_at(out: &mut [u8], at: usize, s: &[u8])
    ensures { out.new ≡ copied out.old at s.now }
{
    if at <= out.len() && s.len() <= out.len() - at {
        for i in 0..s.len() {
            out[at + i] = s[i];
        }
    }
}

// The byte n, where it fits.
fn put_one(out: &mut [u8], at: usize, n: usize)
    requires { n < 256 }
    ensures { out.new ≡ copied out.old at (n ∷ []) }
{
    copy_at(out, at, &[n as u8]);
}

// The shortest bytes that say n in VPD, where they fit: seven bits in each, and the high bit on but in the last.
fn put_shortest(out: &mut [u8], at: usize, n: usize)
    requires { n ≤ limit }
    ensures { out.new ≡ copied out.old at (shortest n) }
{
    let last = (n % 0x80) as u8;
    if n < 0x80 {
        copy_at(out, at, &[last]);
    } else if n < 0x4000 {
        copy_at(out, at, &[(0x80 + n / 0x80) as u8, last]);
    } else {
        let first = (0x80 + n / 0x4000) as u8;
        copy_at(out, at, &[first, (0x80 + n / 0x80 % 0x80) as u8, last]);
    }
}

// What opens a new entry of a code that is a byte, where there is room for it.
fn write_opening(out: &mut [u8], at: usize, format: Format, code: u32, key: &[u8])
    requires code_bound { code < 256 }
    requires out_len_bound { (length out.old ≤ limit) × (at + length ((shape format).opening code key.now) ≤ length out.old) }
    ensures { out.new ≡ copied out.old at ((shape format).opening code key.now) }
{
    copy_at(out, at, &[code as u8]);
    if let Format::Vpd = format {
        put_shortest(out, at + 1, key.len());
        copy_at(out, at + 1 + shortest_length(key.len()), key);
    }
}

// What opens a new entry of this code and key.
pub fn put_opening(out: &mut [u8], at: usize, format: Format, code: u32, key: &[u8])
    ensures { out.new ≡ opening_placed (shape format) out.old at code key.now }
{
    if code < 256 && has_room(out.len(), at, opening_length(format, code, key)) {
        write_opening(out, at, format, code, key);
    }
}

// The bytes that say the length n of a value of this code.
fn put_lens(out: &mut [u8], at: usize, format: Format, code: u32, n: usize)
    requires { ((shape format).length_rule code n ≡ true) × (n ≤ limit) }
    ensures { out.new ≡ copied out.old at ((shape format).lens code n) }
{
    match format {
        Format::Fboss | Format::Onie => put_one(out, at, n),
        Format::Vpd => put_shortest(out, at, n),
        Format::Tiny => {
            if code < 16 {
                put_one(out, at, n);
            }
        }
    }
}

// A value that meets the rule on lengths, with the bytes that say its length, where there is room for them.
fn write_value(out: &mut [u8], at: usize, format: Format, code: u32, v: &[u8])
    requires v_value { (shape format).length_rule code (length v.now) ≡ true }
    requires out_len_bound { (length out.old ≤ limit) × (at + (length ((shape format).lens code (length v.now)) + length v.now) ≤ length out.old) }
    ensures { out.new ≡ copied out.old at ((shape format).lens code (length v.now) ++ v.now) }
{
    put_lens(out, at, format, code, v.len());
    copy_at(out, at + lens_length(format, code, v.len()), v);
}

// A value of an entry of this code, with the bytes that say its length.
pub fn put_value(out: &mut [u8], at: usize, format: Format, code: u32, v: &[u8])
    ensures { out.new ≡ value_placed (shape format) out.old at code v.now }
{
    let n = v.len();
    if length_rule(format, code, n) && has_room(out.len(), at, value_length(format, code, n)) {
        write_value(out, at, format, code, v);
    }
}

// ---- the image

// FFh from `at` on.
fn fill_rest(out: &mut [u8], at: usize)
    requires { at ≤ length out.old }
    ensures { out.new ≡ copied out.old at (replicate (length out.old - at) 0xFF) }
{
    out[at..].fill(0xFF);
}

// `end` from `at` on, and FFh after it.
fn put_end(out: &mut [u8], at: usize, end: &[u8])
    requires { at + length end.now ≤ length out.old }
    ensures { out.new ≡ padded (take at out.old ++ end.now) (length out.old) }
{
    copy_at(out, at, end);
    fill_rest(out, at + end.len());
}

// FB FB 05 FF, the entries, FA 02, and the check over all before FA, high byte first.
fn finish_fboss(out: &mut [u8], n: usize)
    requires { n + 8 ≤ length out.old }
    ensures { out.new ≡ padded (image_of fboss (part 4 n out.old)) (length out.old) }
{
    copy_at(out, 0, &[0xFB, 0xFB, 0x05, 0xFF]);
    let at = n + 4;
    let [high, low] = crc::check16(&out[..at]).to_be_bytes();
    put_end(out, at, &[0xFA, 0x02, high, low]);
}

// The entries, and 00.
fn finish_vpd(out: &mut [u8], n: usize)
    requires { n + 1 ≤ length out.old }
    ensures { out.new ≡ padded (image_of vpd (part 0 n out.old)) (length out.old) }
{
    put_end(out, n, &[0x00]);
}

// 56 02, the length of the image, the entries, and the check over all before it.
fn finish_tiny(out: &mut [u8], n: usize)
    requires { (n + 4 ≤ length out.old) × (n + 4 ≤ 255) }
    ensures { out.new ≡ padded (image_of tiny (part 3 n out.old)) (length out.old) }
{
    copy_at(out, 0, &[0x56, 0x02, (n + 4) as u8]);
    let at = n + 3;
    let check = crc::check8(0, &out[..at]);
    put_end(out, at, &[check]);
}

// TlvInfo and a zero, 01, the length of all after the header, the entries, FE 04, and the check over all before it, high byte first.
fn finish_onie(out: &mut [u8], n: usize)
    requires { (n + 17 ≤ length out.old) × (n + 17 ≤ 2059) }
    ensures { out.new ≡ padded (image_of onie (part 11 n out.old)) (length out.old) }
{
    copy_at(out, 0, &onie::TLV_INFO);
    let total = n + 6;
    let [high, low] = (total as u16).to_be_bytes();
    copy_at(out, 8, &[0x01, high, low]);
    let at = n + 11;
    let [a, b, c, d] = parts::four_bytes(crc::check32_closed(&out[..at], 0xFE, 0x04));
    put_end(out, at, &[0xFE, 0x04, a, b, c, d]);
}

// The n bytes of entries that stand where the header ends become an image: header, end, check, and FFh after it.
pub fn finish(out: &mut [u8], format: Format, n: usize)
    ensures { out.new ≡ finished (shape format) out.old n }
{
    if fits(format, n, out.len()) {
        match format {
            Format::Fboss => finish_fboss(out, n),
            Format::Vpd => finish_vpd(out, n),
            Format::Tiny => finish_tiny(out, n),
            Format::Onie => finish_onie(out, n),
        }
    }
}
