// Offsets of an amplifier: signed numbers from bytes, and bytes from signed numbers.
#![tactic(auto)]

ghost use Rattle.std.specs.Prelude.{◌≡◌, ◌<◌, get_or};
ghost use Rattle.blocks.specs.Offset.{signed, signed_byte, offsets_in, offset_bytes};

use blocks::Offsets;

// The number that a byte says.
pub fn offset_of(b: u8) -> i8
    ensures { result ≡ signed b }
{
    b.cast_signed()
}

// The byte that says a number.
pub fn byte_of(z: i8) -> u8
    ensures { result ≡ signed_byte z }
{
    z.cast_unsigned()
}

// The number that byte i says, which counts as 0 where it is not there.
fn offset_at(s: &[u8], i: usize) -> i8
    ensures { result ≡ signed (get_or s.now i 0) }
{
    offset_of(parts::byte_at(s, i))
}

// The eight offsets that the first eight bytes say; a byte that is not there counts as 0.
pub fn offsets_in(s: &[u8]) -> Offsets
    ensures { result ≡ offsets_in s.now }
{
    Offsets {
        c_west_in: offset_at(s, 0),
        c_west_out: offset_at(s, 1),
        c_east_in: offset_at(s, 2),
        c_east_out: offset_at(s, 3),
        l_west_in: offset_at(s, 4),
        l_west_out: offset_at(s, 5),
        l_east_in: offset_at(s, 6),
        l_east_out: offset_at(s, 7),
    }
}

// The eight bytes that say the offsets.
pub fn offset_bytes(o: Offsets) -> [u8; 8]
    ensures { result ≡ offset_bytes o }
{
    [
        byte_of(o.c_west_in),
        byte_of(o.c_west_out),
        byte_of(o.c_east_in),
        byte_of(o.c_east_out),
        byte_of(o.l_west_in),
        byte_of(o.l_west_out),
        byte_of(o.l_east_in),
        byte_of(o.l_east_out),
    ]
}
