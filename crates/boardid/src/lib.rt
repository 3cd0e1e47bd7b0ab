// The calls from C. Each takes the edition of the caller's header; docs/C-INTERFACE.md has the layouts and the packed answer.
#![tactic(auto)]

ghost use Rattle.std.specs.Prelude.{◌≡◌, ℕ, ◌+◌, ◌*◌, ◌/◌, ◌≤◌, ◌<◌, List, length};
ghost use Rattle.layout.specs.Editions.{shape};
ghost use Rattle.layout.specs.Bytes.{refusal};
ghost use Rattle.layout.specs.Calls.{entries_of, told_checked};
ghost use Rattle.laws.specs.Passes.{walked, IsDone, raws_in};
ghost use Rattle.output.specs.Placing.{copied};
ghost use Rattle.blocks.specs.Vendor.{read_vendor};
ghost use Rattle.records.specs.Packed.{packed};
ghost use Rattle.records.specs.Words.{records_bytes};
ghost use Rattle.records.specs.Exports.{check_call, value_call, string_call, entry_call, walk_format, walk_edition, walk_entry, step_call, list_call, write_call, edit_call, add_call, remove_call, unlent, vendor_read_call, offsets_of, vendor_write_call, room_add_call, room_replace_call, room_remove_call, room_fetch_call};

use blocks::Offsets;
use layout::{Format, Place, Refusal, StringNumber};
use reader::Walk;

// ---- check, value, string

// The number of entries.
#[unsafe(no_mangle)]
pub extern "C" fn boardid_check(format: u32, edition: u32, image: &[u8]) -> u64
    ensures { result ≡ check_call format edition image.now }
{
    records::pack_answer(reader::check_image(format, edition, image))
}

// The part of the image that is the value of entry n.
#[unsafe(no_mangle)]
pub extern "C" fn boardid_value(format: u32, edition: u32, image: &[u8], n: u64) -> u64
    ensures { result ≡ value_call format edition image.now n }
{
    records::pack_located(reader::value_part(format, edition, image, n as usize))
}

// The part of the image that is a string of a Tiny pool.
#[unsafe(no_mangle)]
pub extern "C" fn boardid_string(format: u32, edition: u32, image: &[u8], number: u64) -> u64
    ensures { result ≡ string_call format edition image.now number }
{
    let n = StringNumber(number as usize);
    records::pack_located(reader::string_part(format, edition, image, n))
}

// ---- one record

// The record of entry n, over the front of the output.
fn give_entry(
    format: u32,
    edition: u32,
    image: &[u8],
    n: usize,
    out: &mut [u8],
) -> Result<usize, Refusal>
    ensures { (packed (told_checked result) ≡ (entry_call format edition image.now n out.old).answer) × (out.new ≡ (entry_call format edition image.now n out.old).memory) }
{
    let entry = reader::entry_at(format, edition, image, n)?;
    if out.len() < 64 {
        return Err(Refusal::from(12));
    }
    records::put_record(out, 0, edition, entry);
    Ok(1)
}

// The record of entry n.
#[unsafe(no_mangle)]
pub extern "C" fn boardid_entry(
    format: u32,
    edition: u32,
    image: &[u8],
    n: u64,
    out: &mut [u8],
) -> u64
    ensures { (result ≡ (entry_call format edition image.now n out.old).answer) × (out.new ≡ (entry_call format edition image.now n out.old).memory) }
{
    records::pack_answer(give_entry(format, edition, image, n as usize, out))
}

// ---- the walk

// The walk that stands in lent bytes; one that is cut short is read as format 0.
fn walk_in(w: &[u8]) -> Walk
    ensures { result ≡ record { format = walk_format w.now; edition = walk_edition w.now; entry = walk_entry w.now } }
{
    if w.len() < 16 {
        return Walk {
            format: 0,
            edition: 0,
            entry: 0,
        };
    }
    let low = fields::word_in(w, 8) as usize;
    let high = fields::word_in(w, 12) as usize;
    Walk {
        format: fields::word_in(w, 0),
        edition: fields::word_in(w, 4),
        entry: low + high * 4294967296,
    }
}

// The record of the walk's entry, over the front of the output, and the walk moved on by one.
fn give_step(walk: &mut [u8], image: &[u8], out: &mut [u8]) -> Result<usize, Refusal>
    ensures { (packed (told_checked result) ≡ (step_call walk.old image.now out.old).answer) × (walk.new ≡ (step_call walk.old image.now out.old).walk) × (out.new ≡ (step_call walk.old image.now out.old).memory) }
{
    let w = walk_in(walk);
    let s = w.step(image);
    let entry = s.answer?;
    if out.len() < 64 {
        return Err(Refusal::from(12));
    }
    records::put_long(walk, 8, s.next.entry as u64);
    records::put_record(out, 0, w.edition, entry);
    Ok(1)
}

// The record of the walk's entry; the walk moves on by one.
#[unsafe(no_mangle)]
pub extern "C" fn boardid_step(walk: &mut [u8], image: &[u8], out: &mut [u8]) -> u64
    ensures { (result ≡ (step_call walk.old image.now out.old).answer) × (walk.new ≡ (step_call walk.old image.now out.old).walk) × (out.new ≡ (step_call walk.old image.now out.old).memory) }
{
    records::pack_answer(give_step(walk, image, out))
}

// ---- the list

// The records of all entries, from the first on. One pass over the image, from entry to entry.
fn put_records(out: &mut [u8], format: Format, edition: u32, image: &[u8], start: usize, end: usize)
    requires { IsDone (walked format image.now start end) × (length (raws_in (walked format image.now start end)) * 64 ≤ length out.old) }
    ensures { out.new ≡ copied out.old 0 (records_bytes edition (entries_of (shape format) edition start (raws_in (walked format image.now start end)))) }
{
    let mut p = start;
    let mut at: usize = 0;
    let mut shut = false;
    while let Some(s) = reader::entry_here(format, edition, image, shut, p, end) {
        records::put_record(out, at, edition, s.entry);
        shut = s.shut;
        p = s.next;
        at += 64;
    }
}

// The records of all entries, where there is room for them.
fn give_list(format: u32, edition: u32, image: &[u8], out: &mut [u8]) -> Result<usize, Refusal>
    ensures { (packed (told_checked result) ≡ (list_call format edition image.now out.old).answer) × (out.new ≡ (list_call format edition image.now out.old).memory) }
{
    let room = accept::take_image(format, edition, image)?;
    if out.len() / 64 < room.count {
        return Err(Refusal::from(12));
    }
    put_records(out, room.format, edition, image, room.start, room.end);
    Ok(room.count)
}

// The records of all entries.
#[unsafe(no_mangle)]
pub extern "C" fn boardid_list(format: u32, edition: u32, image: &[u8], out: &mut [u8]) -> u64
    ensures { (result ≡ (list_call format edition image.now out.old).answer) × (out.new ≡ (list_call format edition image.now out.old).memory) }
{
    records::pack_answer(give_list(format, edition, image, out))
}

// ---- write, edit, add and remove

// The image of a field list, into the output.
#[unsafe(no_mangle)]
pub extern "C" fn boardid_write(
    format: u32,
    edition: u32,
    fields: &[u8],
    values: &[u8],
    out: &mut [u8],
) -> u64
    ensures { (result ≡ (write_call format edition fields.now values.now out.old).answer) × (out.new ≡ (write_call format edition fields.now values.now out.old).memory) }
{
    records::pack_answer(writer::write_image(out, format, edition, fields, values))
}

// The image with another value for entry n, into the output.
#[unsafe(no_mangle)]
pub extern "C" fn boardid_edit(
    format: u32,
    edition: u32,
    image: &[u8],
    n: u64,
    value: &[u8],
    out: &mut [u8],
) -> u64
    ensures { (result ≡ (edit_call format edition image.now n value.now out.old).answer) × (out.new ≡ (edit_call format edition image.now n value.now out.old).memory) }
{
    records::pack_answer(editor::edit_entry(out, format, edition, image, n as usize, value))
}

// The image with an entry for the field, into the output.
#[unsafe(no_mangle)]
pub extern "C" fn boardid_add(
    format: u32,
    edition: u32,
    image: &[u8],
    field: &[u8],
    values: &[u8],
    out: &mut [u8],
) -> u64
    ensures { (result ≡ (add_call format edition image.now field.now values.now out.old).answer) × (out.new ≡ (add_call format edition image.now field.now values.now out.old).memory) }
{
    records::pack_answer(editor::add_field(out, format, edition, image, field, values))
}

// The image without entry n, into the output.
#[unsafe(no_mangle)]
pub extern "C" fn boardid_remove(
    format: u32,
    edition: u32,
    image: &[u8],
    n: u64,
    out: &mut [u8],
) -> u64
    ensures { (result ≡ (remove_call format edition image.now n out.old).answer) × (out.new ≡ (remove_call format edition image.now n out.old).memory) }
{
    records::pack_answer(editor::remove_entry(out, format, edition, image, n as usize))
}

// ---- vendor blocks

// What refuses a read where less than a block is lent, with a buffer of so many bytes: 12 at 0, after every other refusal.
fn read_unlent(format: u32, edition: u32, image: &[u8], lent: usize) -> Refusal
    ensures { (buffer : List ℕ) → length buffer ≡ lent → result ≡ unlent (read_vendor format edition image.now buffer).answer }
{
    match vendor::ask(format, edition, lent) {
        Err(number) => Refusal::from(number),
        Ok(_) => match vendor::read_vendor(&mut [], format, edition, image) {
            Err(r) => r,
            Ok(_) => Refusal::from(12),
        },
    }
}

// The payload of an image, into the buffer, and what it says, into the block.
fn give_payload(
    format: u32,
    edition: u32,
    image: &[u8],
    payload: &mut [u8],
    block: &mut [u8],
) -> Result<usize, Refusal>
    ensures { (packed (told_checked result) ≡ (vendor_read_call format edition image.now payload.old block.old).answer) × (payload.new ≡ (vendor_read_call format edition image.now payload.old block.old).payload) × (block.new ≡ (vendor_read_call format edition image.now payload.old block.old).block) }
{
    if block.len() < 48 {
        return Err(read_unlent(format, edition, image, payload.len()));
    }
    let (n, said) = vendor::read_vendor(payload, format, edition, image)?;
    records::put_block(block, said);
    Ok(n)
}

// The payload of an image, into the buffer, and what it says, into the block.
#[unsafe(no_mangle)]
pub extern "C" fn boardid_vendor_read(
    format: u32,
    edition: u32,
    image: &[u8],
    payload: &mut [u8],
    block: &mut [u8],
) -> u64
    ensures { (result ≡ (vendor_read_call format edition image.now payload.old block.old).answer) × (payload.new ≡ (vendor_read_call format edition image.now payload.old block.old).payload) × (block.new ≡ (vendor_read_call format edition image.now payload.old block.old).block) }
{
    records::pack_answer(give_payload(format, edition, image, payload, block))
}

// The offsets in a number of 64 bits.
fn offsets_of(n: u64) -> Offsets
    ensures { result ≡ offsets_of n }
{
    offsets::offsets_in(&n.to_le_bytes())
}

// The values of a payload in pieces, into the output.
#[unsafe(no_mangle)]
pub extern "C" fn boardid_vendor_write(
    format: u32,
    edition: u32,
    serial: &[u8],
    offsets: u64,
    pieces: &[u8],
    out: &mut [u8],
) -> u64
    ensures { (result ≡ (vendor_write_call format edition serial.now offsets pieces.now out.old).answer) × (out.new ≡ (vendor_write_call format edition serial.now offsets pieces.now out.old).memory) }
{
    let offsets = offsets_of(offsets);
    records::pack_answer(vendor::write_vendor(out, format, edition, serial, offsets, pieces))
}

// ---- machine-room files

// The file with one board more, into the output.
#[unsafe(no_mangle)]
pub extern "C" fn boardid_room_add(
    form: u32,
    edition: u32,
    file: &[u8],
    board: u32,
    format: u32,
    body: &[u8],
    out: &mut [u8],
) -> u64
    ensures { (result ≡ (room_add_call form edition file.now board format body.now out.old).answer) × (out.new ≡ (room_add_call form edition file.now board format body.now out.old).memory) }
{
    records::pack_answer(room_calls::add_board(out, form, edition, file, board, format, body))
}

// The file with another body and format for a board, into the output.
#[unsafe(no_mangle)]
pub extern "C" fn boardid_room_replace(
    form: u32,
    edition: u32,
    file: &[u8],
    board: u32,
    format: u32,
    body: &[u8],
    out: &mut [u8],
) -> u64
    ensures { (result ≡ (room_replace_call form edition file.now board format body.now out.old).answer) × (out.new ≡ (room_replace_call form edition file.now board format body.now out.old).memory) }
{
    records::pack_answer(room_calls::replace_board(out, form, edition, file, board, format, body))
}

// The file without a board, into the output.
#[unsafe(no_mangle)]
pub extern "C" fn boardid_room_remove(
    form: u32,
    edition: u32,
    file: &[u8],
    board: u32,
    out: &mut [u8],
) -> u64
    ensures { (result ≡ (room_remove_call form edition file.now board out.old).answer) × (out.new ≡ (room_remove_call form edition file.now board out.old).memory) }
{
    records::pack_answer(room_calls::remove_board(out, form, edition, file, board))
}

// The part of the file that is the body of a board.
#[unsafe(no_mangle)]
pub extern "C" fn boardid_room_fetch(form: u32, edition: u32, file: &[u8], board: u32) -> u64
    ensures { result ≡ room_fetch_call form edition file.now board }
{
    records::pack_located(room_calls::fetch_board(form, edition, file, board))
}
