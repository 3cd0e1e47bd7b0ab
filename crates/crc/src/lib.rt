// Checks of a slice of bytes, of 16 bits, of 8 and of 32, each by constant tables of remainders.
#![tactic(auto)]

ghost use Rattle.std.specs.Prelude.{◌≡◌, [], ◌∷◌, ◌++◌, List, map, ℕ, ◌<◌, slice_index_or};
ghost use Rattle.crc.specs.Crc.{check_of, mirror, polynomial16, polynomial8, polynomial32, check16_of, check8_of, check32_of};

mod ahead16;
mod ahead32;
mod ahead8;
mod remainders16;
mod remainders32;
mod remainders8;

use ahead8::{AHEAD8_1, AHEAD8_2, AHEAD8_3};
use ahead16::{AHEAD16_1, AHEAD16_2, AHEAD16_3};
use ahead32::{AHEAD32_1, AHEAD32_2, AHEAD32_3};
use remainders8::REMAINDERS8;
use remainders16::REMAINDERS16;
use remainders32::REMAINDERS32;

// The four tables of each check: at n, that for a byte that is taken in with n others after it. In one array, so that a loop keeps one address for all four.
static TABLES8: [[u8; 256]; 4] = [REMAINDERS8, AHEAD8_1, AHEAD8_2, AHEAD8_3];

static TABLES16: [[u16; 256]; 4] = [REMAINDERS16, AHEAD16_1, AHEAD16_2, AHEAD16_3];

static TABLES32: [[u32; 256]; 4] = [REMAINDERS32, AHEAD32_1, AHEAD32_2, AHEAD32_3];

// The entry at i of a table, which is f at i where f is the rule of all its entries.
fn entry<T: Copy>(table: &[T; 256], i: u8) -> T
    ensures { (f : ℕ → T) → ((k : ℕ) → k < 256 → slice_index_or table.now k (f k) ≡ f k) → result ≡ f i }
{
    table[usize::from(i)]
}

// A remainder, by which a check goes on after the bytes that it has taken in.
trait Remainder: Copy {
    // What the check gives once these bytes are taken in too.
    ghost gives: { Self → List ℕ → ℕ };

    // One byte taken in, by one look into a table.
    fn byte_in(self, b: u8) -> Self
        ensures { (bs : List ℕ) → gives result bs ≡ gives self (b ∷ bs) };

    // Four bytes taken in at once, each by a look into a table of its own: no look waits for another of the four.
    fn four_in(self, four: [u8; 4]) -> Self
        ensures { (bs : List ℕ) → gives result bs ≡ gives self (four ++ bs) };
}

// The bytes taken in, four at once, and then those that are left.
fn taken_in<R: Remainder>(start: R, bytes: &[u8]) -> R
    ensures { (bs : List ℕ) → R.gives result bs ≡ R.gives start (bytes.now ++ bs) }
{
    let (fours, rest) = bytes.as_chunks::<4>();
    let mut r = start;
    for four in fours {
        r = r.four_in(*four);
    }
    for b in rest {
        r = r.byte_in(*b);
    }
    r
}

// ---- of 16 bits

impl Remainder for u16 {
    ghost gives = { check_of 16 polynomial16 };

    fn byte_in(self, b: u8) -> u16 {
        let [high, _] = self.to_be_bytes();
        (self << 8) ^ entry(&TABLES16[0], high ^ b)
    }

    fn four_in(self, four: [u8; 4]) -> u16 {
        let [high, low] = self.to_be_bytes();
        let [b, c, d, e] = four;
        let rest = entry(&TABLES16[1], d) ^ entry(&TABLES16[0], e);
        rest ^ (entry(&TABLES16[3], high ^ b) ^ entry(&TABLES16[2], low ^ c))
    }
}

// The 16-bit check (01, FBOSS v5).
pub fn check16(bytes: &[u8]) -> u16
    ensures { result ≡ check16_of bytes.now }
{
    taken_in(0x1D0F, bytes)
}

// ---- of 8 bits

impl Remainder for u8 {
    ghost gives = { check_of 8 polynomial8 };

    // No bit of the remainder stays.
    fn byte_in(self, b: u8) -> u8 {
        entry(&TABLES8[0], self ^ b)
    }

    // The one look that waits for the remainder comes last.
    fn four_in(self, four: [u8; 4]) -> u8 {
        let [b, c, d, e] = four;
        let rest = entry(&TABLES8[2], c) ^ entry(&TABLES8[1], d) ^ entry(&TABLES8[0], e);
        rest ^ entry(&TABLES8[3], self ^ b)
    }
}

// The 8-bit check from a start (01, Tiny version 2, whose start is 0; 02, Tiny check from a table).
pub fn check8(start: u8, bytes: &[u8]) -> u8
    ensures { result ≡ check8_of start bytes.now }
{
    taken_in(start, bytes)
}

// ---- of 32 bits, with the remainder and the tables mirrored

impl Remainder for u32 {
    ghost gives = { λ r bs. check_of 32 polynomial32 (mirror 32 r) (map (mirror 8) bs) };

    fn byte_in(self, b: u8) -> u32 {
        let [lowest, _, _, _] = self.to_le_bytes();
        (self >> 8) ^ entry(&TABLES32[0], lowest ^ b)
    }

    fn four_in(self, four: [u8; 4]) -> u32 {
        let [lowest, second, third, highest] = self.to_le_bytes();
        let [b, c, d, e] = four;
        let front = entry(&TABLES32[3], lowest ^ b) ^ entry(&TABLES32[2], second ^ c);
        front ^ (entry(&TABLES32[1], third ^ d) ^ entry(&TABLES32[0], highest ^ e))
    }
}

// The 32-bit check of bytes and of more bytes after them that need not stand beside them.
fn check32_over(bytes: &[u8], last: &[u8]) -> u32
    ensures { result ≡ check32_of (bytes.now ++ last.now) }
{
    let r = taken_in(0xFFFFFFFF, bytes);
    taken_in(r, last) ^ 0xFFFFFFFF
}

// The 32-bit check (02, ONIE images and edition 3).
pub fn check32(bytes: &[u8]) -> u32
    ensures { result ≡ check32_of bytes.now }
{
    check32_over(bytes, &[])
}

// The 32-bit check of bytes and two more after them that need not stand beside them.
pub fn check32_closed(bytes: &[u8], x: u8, y: u8) -> u32
    ensures { result ≡ check32_of (bytes.now ++ (x ∷ y ∷ [])) }
{
    check32_over(bytes, &[x, y])
}
