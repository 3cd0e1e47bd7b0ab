// Vendor blocks: a payload that is split over FDh entries of an ONIE image is joined, judged and given, or made and cut into values.
#![tactic(auto)]

ghost use Rattle.std.specs.Prelude.{◌≡◌, List, ◌++◌, ℕ, ◌+◌, ◌≤◌, ◌<◌, length};
ghost use Rattle.std.specs.Option.{option_copied};
ghost use Rattle.layout.specs.Read.{limit};
ghost use Rattle.layout.specs.Write.{put_bytes};
ghost use Rattle.laws.specs.Passes.{walked, IsDone};
ghost use Rattle.output.specs.Placing.{copied};
ghost use Rattle.blocks.specs.Payload.{prefix, joined, serial_length, block_length, measured, checked, amplifier, block_of, payload_says, front, payload_of, cut_into, sum};
ghost use Rattle.blocks.specs.Vendor.{asked, taking, take_matching, read_vendor, pieces_in, write_vendor};
ghost use Rattle.vendor.specs.Pieces.{piece_in, matching_in, joined_length, counted_by};

use blocks::{Block, Offsets};
use layout::{Format, Part, Refusal};

// What the value of a matching entry begins with.
const PREFIX: [u8; 5] = [0x00, 0x00, 0x1F, 0x79, 0x00];

// ---- read

// The piece of the payload that an entry of this code and value holds, where it matches.
fn piece_of(code: u32, value: &[u8]) -> Option<&[u8]>
    ensures { (key : List ℕ) → option_copied result ≡ piece_in (record { code = code; key = key; value = value.now }) }
{
    if code != 0xFD {
        return None;
    }
    value.strip_prefix(&PREFIX)
}

// The pieces of all matching entries, one after another, from the front of `own` on, and how many bytes they have; none where no entry matches.
fn join(own: &mut [u8], image: &[u8], start: usize, end: usize) -> Option<usize>
    requires { IsDone (walked Format.Onie image.now start end) × (start ≤ end) × (end ≤ start + length own.old) }
    ensures value { result ≡ joined_length (matching_in image.now start end) }
    ensures own_after { own.new ≡ copied own.old 0 (joined (matching_in image.now start end)) }
    ensures len_in_bounds { length (joined (matching_in image.now start end)) ≤ length own.old }
{
    let mut p = start;
    let mut len = None;
    while let Ok(Some(f)) = frames::next_frame(Format::Onie, false, image, p, end) {
        let value = frames::part_of(image, p + f.val, f.vlen);
        if let Some(piece) = piece_of(f.code, value) {
            let at = len.unwrap_or(0);
            output::copy_at(own, at, piece);
            len = Some(at + piece.len());
        }
        p += f.size;
    }
    len
}

// Whether the last four bytes are the check over all before them.
fn is_checked(payload: &[u8]) -> bool
    ensures { result ≡ checked payload.now }
{
    match payload.split_last_chunk::<4>() {
        Some((said, check)) => *check == parts::four_bytes(crc::check32(said)),
        None => false,
    }
}

// The length of the serial.
fn serial_length(payload: &[u8]) -> usize
    ensures { (result ≡ serial_length payload.now) × (result < 256) }
{
    usize::from(parts::byte_at(payload, 0))
}

// The length of the block.
fn block_length(payload: &[u8]) -> usize
    ensures { (result ≡ block_length payload.now) × (result < 65536) }
{
    let at = 1 + serial_length(payload);
    let high = parts::byte_at(payload, at);
    let low = parts::byte_at(payload, at + 1);
    usize::from(u16::from_be_bytes([high, low]))
}

// Whether a payload is exactly as long as its parts.
#[tactic(auto, unfolding(blocks::specs::Payload::measured))]
fn is_measured(payload: &[u8]) -> bool
    ensures { result ≡ measured payload.now }
{
    let s = serial_length(payload);
    let b = block_length(payload);
    payload.len() == 1 + s + 2 + b + 4
}

// Whether the block is that of a dual-band amplifier.
#[tactic(auto, unfolding(blocks::specs::Payload::amplifier))]
fn is_amplifier(payload: &[u8]) -> bool
    ensures { result ≡ amplifier payload.now }
{
    block_length(payload) == 9 && parts::byte_at(payload, 1 + serial_length(payload) + 2) == 0x00
}

// The parts and the offsets.
fn block_of(payload: &[u8]) -> Block
    ensures { result ≡ block_of payload.now }
{
    let s = serial_length(payload);
    let b = block_length(payload);
    let at = 1 + s + 2;
    Block {
        serial: Part::at(1, s),
        block: Part::at(at, b),
        offsets: offsets::offsets_in(payload.get(at + 1..).unwrap_or(&[])),
    }
}

// What a payload comes to: 18, 19, 20, or what it says.
#[tactic(auto, unfolding(blocks::specs::Payload::payload_says))]
fn payload_says(payload: &[u8]) -> Result<Block, u32>
    ensures { result ≡ payload_says payload.now }
{
    if !is_measured(payload) {
        return Err(18);
    }
    if !is_checked(payload) {
        return Err(19);
    }
    if !is_amplifier(payload) {
        return Err(20);
    }
    Ok(block_of(payload))
}

// What a payload comes to; where nothing is wrong with it and it fits, it goes to the front of the buffer.
fn take_payload(buffer: &mut [u8], payload: &[u8]) -> Result<(usize, Block), Refusal>
    ensures value { result ≡ (taking (payload_says payload.now) payload.now buffer.old).answer }
    ensures buffer_after { buffer.new ≡ (taking (payload_says payload.now) payload.now buffer.old).memory }
{
    let block = payload_says(payload)?;
    let n = payload.len();
    if buffer.len() < n {
        return Err(Refusal::from(12));
    }
    buffer[..n].copy_from_slice(payload);
    Ok((n, block))
}

// The payload of entries that have the room from start to end. It is joined in memory of this call, so that all is judged before the buffer is written.
fn take_room(
    buffer: &mut [u8],
    image: &[u8],
    start: usize,
    end: usize,
) -> Result<(usize, Block), Refusal>
    requires { IsDone (walked Format.Onie image.now start end) × (start ≤ end) × (end ≤ start + 2048) }
    ensures value { result ≡ (take_matching (matching_in image.now start end) buffer.old).answer }
    ensures buffer_after { buffer.new ≡ (take_matching (matching_in image.now start end) buffer.old).memory }
{
    let mut own = [0u8; 2048];
    let Some(len) = join(&mut own, image, start, end) else {
        return Err(Refusal::from(17));
    };
    take_payload(buffer, &own[..len])
}

// What both calls ask first, with so many bytes lent to be written: 16, 1, 2.
#[tactic(auto, unfolding(blocks::specs::Vendor::asked))]
pub fn ask(format: u32, edition: u32, lent: usize) -> Result<Format, u32>
    ensures { result ≡ asked format edition lent }
{
    if format != 4 {
        return Err(16);
    }
    let known = frames::choose(format, edition)?;
    if 65536 < lent {
        return Err(2);
    }
    Ok(known)
}

// The payload of an image, into the buffer, with what it says; a refusal leaves the buffer as it was.
pub fn read_vendor(
    buffer: &mut [u8],
    format: u32,
    edition: u32,
    image: &[u8],
) -> Result<(usize, Block), Refusal>
    ensures { (result ≡ (read_vendor format edition image.now buffer.old).answer) × (buffer.new ≡ (read_vendor format edition image.now buffer.old).memory) }
{
    ask(format, edition, buffer.len())?;
    let room = accept::take_image(format, edition, image)?;
    take_room(buffer, image, room.start, room.end)
}

// ---- write

// How many pieces there are, where none is above 250 and they sum to `need`.
fn count_pieces(pieces: &[u8], need: usize) -> Option<usize>
    ensures { result ≡ counted_by (pieces_in pieces.now) need }
{
    let (sizes, _) = pieces.as_chunks::<4>();
    let mut left = need;
    for &size in sizes {
        let size = u32::from_le_bytes(size) as usize;
        if 250 < size {
            return None;
        }
        left = left.checked_sub(size)?;
    }
    if left != 0 {
        return None;
    }
    Some(sizes.len())
}

// All of a payload before its check, from the front of `own` on.
fn put_front(own: &mut [u8], serial: &[u8], offsets: Offsets)
    requires { (length serial.now ≤ 255) × (12 + length serial.now ≤ length own.old) }
    ensures { own.new ≡ copied own.old 0 (front serial.now offsets) }
{
    let n = serial.len();
    output::copy_at(own, 0, &[n as u8]);
    output::copy_at(own, 1, serial);
    output::copy_at(own, 1 + n, &[0x00, 0x09, 0x00]);
    output::copy_at(own, 1 + n + 3, &offsets::offset_bytes(offsets));
}

// A payload, from the front of `own` on.
fn put_payload(own: &mut [u8], serial: &[u8], offsets: Offsets)
    requires { (length serial.now ≤ 255) × (16 + length serial.now ≤ length own.old) }
    ensures { own.new ≡ copied own.old 0 (payload_of serial.now offsets) }
{
    put_front(own, serial, offsets);
    let n = 12 + serial.len();
    let check = parts::four_bytes(crc::check32(&own[..n]));
    output::copy_at(own, n, &check);
}

// The prefix and a piece, from `to` on.
fn put_piece(out: &mut [u8], to: usize, piece: &[u8])
    requires { (to + (5 + length piece.now) ≤ length out.old) × (length out.old ≤ limit) }
    ensures { out.new ≡ copied out.old to (prefix ++ piece.now) }
{
    output::copy_at(out, to, &PREFIX);
    output::copy_at(out, to + 5, piece);
}

// The payload cut into pieces, the prefix before each, from the front of the output on.
fn put_pieces(out: &mut [u8], pieces: &[u8], payload: &[u8])
    requires { (length out.old ≤ limit) × (sum (pieces_in pieces.now) ≡ length payload.now) × (length (cut_into (pieces_in pieces.now) payload.now) ≤ length out.old) }
    ensures { out.new ≡ copied out.old 0 (cut_into (pieces_in pieces.now) payload.now) }
{
    let mut to = 0;
    let mut rest = payload;
    let (sizes, _) = pieces.as_chunks::<4>();
    for &size in sizes {
        let (piece, others) = rest.split_at(u32::from_le_bytes(size) as usize);
        put_piece(out, to, piece);
        to += 5 + piece.len();
        rest = others;
    }
}

// The values of a payload in so many pieces, where they fit.
fn put_values(
    out: &mut [u8],
    serial: &[u8],
    offsets: Offsets,
    pieces: &[u8],
    n: usize,
) -> Result<usize, Refusal>
    requires { (length out.old ≤ limit) × (length serial.now ≤ 255) × (n ≡ length (pieces_in pieces.now)) × (sum (pieces_in pieces.now) ≡ 16 + length serial.now) }
    ensures value { result ≡ (put_bytes (cut_into (pieces_in pieces.now) (payload_of serial.now offsets)) out.old).answer }
    ensures out_after { out.new ≡ (put_bytes (cut_into (pieces_in pieces.now) (payload_of serial.now offsets)) out.old).memory }
{
    let len = 16 + serial.len();
    if 65536 < n {
        return Err(Refusal::from(12));
    }
    let total = 5 * n + len;
    if out.len() < total {
        return Err(Refusal::from(12));
    }
    let mut own = [0u8; 271];
    put_payload(&mut own, serial, offsets);
    put_pieces(out, pieces, &own[..len]);
    Ok(total)
}

// The values of a payload of this serial and these offsets, into the output; a refusal leaves the output as it was.
pub fn write_vendor(
    out: &mut [u8],
    format: u32,
    edition: u32,
    serial: &[u8],
    offsets: Offsets,
    pieces: &[u8],
) -> Result<usize, Refusal>
    ensures { (result ≡ (write_vendor format edition serial.now offsets (pieces_in pieces.now) out.old).answer) × (out.new ≡ (write_vendor format edition serial.now offsets (pieces_in pieces.now) out.old).memory) }
{
    ask(format, edition, out.len())?;
    if 255 < serial.len() {
        return Err(Refusal::from(18));
    }
    let Some(n) = count_pieces(pieces, 16 + serial.len()) else {
        return Err(Refusal::from(18));
    };
    put_values(out, serial, offsets, pieces, n)
}
