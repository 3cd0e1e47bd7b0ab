// Runs the cases that 01 marks Run, 000's full example, 002's, a write, 02's name with a dot, ONIE images, 003's payload in both cuts, and machine-room files: a line for each, "ok" or "WRONG".
#![tactic(auto)]

use blocks::Block;
use layout::{Entry, Part, Place, Reading, Refusal, StringNumber};
use std::io;

fn say(rt: &impl Print, name: &str, is_right: bool) -> io::Result<()> {
    let verdict = if is_right { "ok" } else { "WRONG" };
    println!(rt; "{name}: {verdict}")
}

// Whether an image is accepted with so many entries.
fn has_count(format: u32, edition: u32, image: &[u8], count: usize) -> bool {
    reader::check_image(format, edition, image) == Ok(count)
}

// Whether an image is refused so.
fn is_refused(format: u32, edition: u32, image: &[u8], number: u32, place: usize) -> bool {
    reader::check_image(format, edition, image) == Err(Refusal::at(number, place))
}

fn check_of_many() -> bool {
    let text = [65u8; 256];
    crc::check16(&text) == 0xE938
}

// Code, kind and key of an entry.
fn is_entry(image: &[u8], e: Entry, code: u32, kind: u32, key: &[u8]) -> bool {
    let found = frames::part_of(image, e.key.place.0, e.key.len);
    e.code == code && e.kind == kind && found == key
}

// Whether entry n has this code, kind and key.
fn has_head(
    format: u32,
    edition: u32,
    image: &[u8],
    n: usize,
    code: u32,
    kind: u32,
    key: &[u8],
) -> bool {
    match reader::entry_at(format, edition, image, n) {
        Ok(e) => is_entry(image, e, code, kind, key),
        Err(_) => false,
    }
}

// Whether entry n has this value.
fn has_value(format: u32, edition: u32, image: &[u8], n: usize, value: &[u8]) -> bool {
    let found = reader::value_at(format, edition, image, n);
    let verdict = reader::value_verdict(format, edition, image, n);
    verdict == Refusal::from(0) && found == value
}

// Whether entry n of a VPD image is a string of this key and value.
fn has_pair(image: &[u8], n: usize, key: &[u8], value: &[u8]) -> bool {
    has_head(2, 2, image, n, 1, 513, key) && has_value(2, 2, image, n, value)
}

// The kind of an FBOSS entry of a code up to 20.
fn fboss_kind(edition: u32, code: u32) -> u32 {
    let last = if edition == 1 { 16 } else { 20 };
    if code <= last { 256 + code } else { 0 }
}

// Whether entry n of an FBOSS image has this code and value.
fn has_field(edition: u32, image: &[u8], n: usize, code: u32, value: &[u8]) -> bool {
    has_head(1, edition, image, n, code, fboss_kind(edition, code), b"")
        && has_value(1, edition, image, n, value)
}

fn first_fields(edition: u32, image: &[u8]) -> bool {
    has_field(edition, image, 0, 1, b"FIRST_SQUEEZE")
        && has_field(edition, image, 1, 2, b"20123456")
        && has_field(edition, image, 2, 3, b"SYSA1234")
        && has_field(edition, image, 3, 4, b"PCBA1234567 ")
        && has_field(edition, image, 4, 5, b"PCB12345678 ")
}

fn second_fields(edition: u32, image: &[u8]) -> bool {
    has_field(edition, image, 5, 6, b"MYODM1234567")
        && has_field(edition, image, 6, 7, b"OS123456789AB")
        && has_field(edition, image, 7, 8, b"\x01")
        && has_field(edition, image, 8, 9, b"\x00")
        && has_field(edition, image, 9, 10, b"\x01")
}

fn third_fields(edition: u32, image: &[u8]) -> bool {
    has_field(edition, image, 10, 11, b"PS1234567890A")
        && has_field(edition, image, 11, 12, b"UNA_MAS")
        && has_field(edition, image, 12, 13, b"20130203")
        && has_field(edition, image, 13, 14, b"TERZO")
        && has_field(edition, image, 14, 15, b"JUICETORY")
}

fn last_fields(edition: u32, image: &[u8]) -> bool {
    has_field(edition, image, 15, 16, b"BUDOKAN")
        && has_field(edition, image, 16, 17, b"\x11\x22\x33\x44\x55\x66\x01\x02")
        && has_field(edition, image, 17, 18, b"\x12\x34\x56\x78\x9A\xBC\x03\x04")
        && has_field(edition, image, 18, 19, b"\x66\x55\x44\x33\x22\x11\x02\x00")
        && has_field(edition, image, 19, 20, b"\xFE\xDC\xBA\x98\x76\x54\x00\x02")
}

// 000's full example, in its 20 entries.
fn is_full(edition: u32, image: &[u8]) -> bool {
    has_count(1, edition, image, 20)
        && first_fields(edition, image)
        && second_fields(edition, image)
        && third_fields(edition, image)
        && last_fields(edition, image)
}

// The 8,192 bytes of the example's dump.
fn full_image() -> [u8; 8192] {
    let fields =
        b"\xFB\xFB\x05\xFF\x01\x0DFIRST_SQUEEZE\x02\x0820123456\x03\x08SYSA1234\x04\x0CPCBA1234567 \x05\x0CPCB12345678 \x06\x0CMYODM1234567\x07\x0DOS123456789AB\x08\x01\x01\x09\x01\x00\x0A\x01\x01\x0B\x0DPS1234567890A\x0C\x07UNA_MAS\x0D\x0820130203\x0E\x05TERZO\x0F\x09JUICETORY\x10\x07BUDOKAN\x11\x08\x11\x22\x33\x44\x55\x66\x01\x02\x12\x08\x12\x34\x56\x78\x9A\xBC\x03\x04\x13\x08\x66\x55\x44\x33\x22\x11\x02\x00\x14\x08\xFE\xDC\xBA\x98\x76\x54\x00\x02\xFA\x02\xD5\xC6";
    let mut image = [0xFFu8; 8192];
    image[..fields.len()].copy_from_slice(fields);
    image
}

fn run_full(rt: &impl Print, image: &[u8; 8192]) -> io::Result<()> {
    say(rt, "full example, edition 2", is_full(2, image))?;
    say(rt, "full example, edition 1", is_full(1, image))?;
    say(rt, "full example, edition 3", is_full(3, image))?;
    Ok(())
}

// 002's encoding example.
fn is_encoding(image: &[u8]) -> bool {
    has_count(2, 2, image, 3)
        && has_pair(image, 0, b"UUID", b"0123456789ABCDEF")
        && has_pair(image, 1, b"3G_IMEI", b"AABBBBBB-CC-DD")
        && has_pair(image, 2, b"ethernet_mac", b"\x2A\x02\x03\xB3\xD5\x7C")
}

fn is_sku(image: &[u8]) -> bool {
    has_count(2, 2, image, 1) && has_pair(image, 0, b"SKU", b"A7")
}

// A record of no entry.
fn blank() -> Entry {
    let nowhere = Part {
        place: Place(0),
        len: 0,
    };
    Entry {
        code: 0,
        kind: 99,
        place: Place(0),
        size: 0,
        key: nowhere,
        value: nowhere,
        reading: Reading::Plain,
    }
}

// The list fills the first of four records, and the next stays as it was.
fn is_listed(image: &[u8]) -> bool {
    let four = [blank(); 4];
    let x = listing::list_four(2, 2, image, four);
    let first = x.records[0];
    let second = x.records[1];
    x.answer == Ok(1) && first.kind == 513 && second.kind == 99
}

// Whether a string of the pool is this one.
fn has_string(image: &[u8], number: usize, text: &[u8]) -> bool {
    let found = reader::string_at(3, 2, image, StringNumber(number));
    let verdict = reader::string_verdict(3, 2, image, StringNumber(number));
    verdict == Refusal::from(0) && found == text
}

fn has_no_string(image: &[u8], number: usize) -> bool {
    reader::string_verdict(3, 2, image, StringNumber(number)) == Refusal::from(15)
}

// A Tiny image with a string number and a pool of two strings and an unfinished tail.
fn run_pool(rt: &impl Print, image: &[u8]) -> io::Result<()> {
    say(rt, "tiny with a pool", has_count(3, 2, image, 2))?;
    say(rt, "string 0", has_string(image, 0, b"AB\xC3"))?;
    say(rt, "string 1", has_string(image, 1, b"D\xC5"))?;
    say(rt, "string 2, refused", has_no_string(image, 2))?;
    Ok(())
}

// Whether the output is as it was before a change.
fn is_untouched(out: &[u8]) -> bool {
    out.iter().all(|byte| *byte == 0xAA)
}

// The SKU image edited to "B", in ten bytes of output.
fn is_edited(image: &[u8]) -> bool {
    let mut out = [0xAAu8; 10];
    let m = editor::edit_entry(&mut out, 2, 2, image, 0, b"B");
    m == Ok(8) && out == *b"\x01\x03SKU\x01B\x00\xFF\xFF"
}

// The same in seven bytes: 12, and the output stays as it was.
fn is_not_edited(image: &[u8]) -> bool {
    let mut out = [0xAAu8; 7];
    let m = editor::edit_entry(&mut out, 2, 2, image, 0, b"B");
    m == Err(Refusal::from(12)) && is_untouched(&out)
}

// The SKU image written, in ten bytes of output: one field, with its key at 0 and its value at 3 of the values.
fn is_written(fields: &[u8]) -> bool {
    let mut out = [0xAAu8; 10];
    let m = writer::write_image(&mut out, 2, 2, fields, b"SKUA7");
    m == Ok(9) && out == *b"\x01\x03SKU\x02A7\x00\xFF"
}

// A value that ends after the values: 13, with the field's number, and the output stays as it was.
fn is_not_written(fields: &[u8]) -> bool {
    let mut out = [0xAAu8; 10];
    let m = writer::write_image(&mut out, 2, 2, fields, b"SKUA");
    m == Err(Refusal::from(13)) && is_untouched(&out)
}

// The name "lab.rack" is kept by an edit of its value.
fn is_name_kept(image: &[u8]) -> bool {
    let mut out = [0xAAu8; 16];
    let m = editor::edit_entry(&mut out, 2, 1, image, 0, b"R17");
    m == Ok(15) && out == *b"\x01\x08lab.rack\x03R17\x00\xFF"
}

// The same name in a write: 7, with the field's number, and the output stays as it was.
fn is_name_not_written(fields: &[u8]) -> bool {
    let mut out = [0xAAu8; 4];
    let m = writer::write_image(&mut out, 2, 2, fields, b"lab.rackR2");
    m == Err(Refusal::from(7)) && is_untouched(&out)
}

fn run_names(rt: &impl Print, image: &[u8], fields: &[u8]) -> io::Result<()> {
    say(rt, "lab.rack", has_pair(image, 0, b"lab.rack", b"R2"))?;
    say(rt, "lab.rack edited", is_name_kept(image))?;
    say(rt, "lab.rack written, refused", is_name_not_written(fields))?;
    say(
        rt,
        "lab.rack twice, refused",
        is_refused(
            2,
            1,
            b"\x01\x08lab.rack\x02R2\x01\x08lab.rack\x02R2\x00",
            8,
            13,
        ),
    )?;
    say(
        rt,
        "vpd with an empty key, refused",
        is_refused(2, 2, b"\x01\x00\x00\x00", 7, 0),
    )?;
    Ok(())
}

// A switch's image: a name, an address, a number, and two vendor extensions.
fn is_switch(image: &[u8]) -> bool {
    has_count(4, 3, image, 5)
        && has_head(4, 3, image, 0, 0x21, 1057, b"")
        && has_value(4, 3, image, 0, b"SW1")
        && has_head(4, 3, image, 2, 0x2A, 1066, b"")
        && has_value(4, 3, image, 4, b"\x00\x00\x1Fy\x01")
}

// Its name edited, in 50 bytes of output.
fn is_switch_edited(image: &[u8]) -> bool {
    let mut out = [0xAAu8; 50];
    let m = editor::edit_entry(&mut out, 4, 3, image, 0, b"SW12");
    m == Ok(49)
        && out
            == *b"TlvInfo\x00\x01\x00&!\x04SW12$\x06\x00\x11\x223DU*\x02\x00\x08\xFD\x05\x00\x00\x1Fy\x00\xFD\x05\x00\x00\x1Fy\x01\xFE\x04\x97\xF7\x9C\xC3\xFF"
}

// An image of a serial number written, in 22 bytes of output.
fn is_serial_written(fields: &[u8]) -> bool {
    let mut out = [0xAAu8; 22];
    let m = writer::write_image(&mut out, 4, 3, fields, b"A7");
    m == Ok(21) && out == *b"TlvInfo\x00\x01\x00\x0A#\x02A7\xFE\x04\x92\xA1\xA41\xFF"
}

fn run_onie(
    rt: &impl Print,
    empty: &[u8],
    cut: &[u8],
    switch: &[u8],
    fields: &[u8],
) -> io::Result<()> {
    say(
        rt,
        "check of the digits",
        crc::check32(b"123456789") == 0xCBF43926,
    )?;
    say(rt, "onie without entries", has_count(4, 3, empty, 0))?;
    say(
        rt,
        "onie by edition 2, refused",
        is_refused(4, 2, empty, 16, 0),
    )?;
    say(
        rt,
        "onie by edition 9, refused",
        is_refused(4, 9, empty, 1, 0),
    )?;
    say(rt, "onie cut, refused", is_refused(4, 3, cut, 5, 9))?;
    say(rt, "switch", is_switch(switch))?;
    say(rt, "switch edited", is_switch_edited(switch))?;
    say(rt, "serial number written", is_serial_written(fields))?;
    Ok(())
}

// 003's payload, with one byte of the buffer left as it was.
fn is_payload(payload: &[u8; 25]) -> bool {
    payload == b"\x08DQ000MPW\x00\x09\x00\x00\x00\x00\x00\x00\x00\x00\x00\x02`QK\xAA"
}

// What 003's payload says: a serial of 8 bytes at 1, a block of 9 at 11, and no offset but 0.
fn is_block(b: Block) -> bool {
    b.serial == Part::at(1, 8)
        && b.block == Part::at(11, 9)
        && offsets::offset_bytes(b.offsets) == [0; 8]
}

// Whether a read gives 003's payload, in 25 bytes of buffer.
fn is_amplifier(image: &[u8]) -> bool {
    let mut payload = [0xAAu8; 25];
    match vendor::read_vendor(&mut payload, 4, 3, image) {
        Ok((n, b)) => n == 24 && is_block(b) && is_payload(&payload),
        Err(_) => false,
    }
}

// Whether a read is refused so, and leaves a buffer of two bytes as it was.
fn is_no_amplifier(edition: u32, image: &[u8], number: u32) -> bool {
    let mut payload = [0xAAu8; 2];
    match vendor::read_vendor(&mut payload, 4, edition, image) {
        Ok(_) => false,
        Err(r) => r == Refusal::from(number) && is_untouched(&payload),
    }
}

// 003's values, in one piece and in two, in 35 bytes of output.
fn is_vendor_written(pieces: &[u8], count: usize, values: &[u8]) -> bool {
    let mut out = [0xAAu8; 35];
    let zeros = offsets::offsets_in(&[0; 8]);
    let m = vendor::write_vendor(&mut out, 4, 3, b"DQ000MPW", zeros, pieces);
    m == Ok(count) && out.as_slice() == values
}

fn run_amplifiers(
    rt: &impl Print,
    one: &[u8],
    two: &[u8],
    wrong: &[u8],
    empty: &[u8],
) -> io::Result<()> {
    say(rt, "amplifier in one piece", is_amplifier(one))?;
    say(rt, "amplifier in two pieces", is_amplifier(two))?;
    say(
        rt,
        "amplifier by edition 2, refused",
        is_no_amplifier(2, one, 16),
    )?;
    say(
        rt,
        "amplifier without a payload, refused",
        is_no_amplifier(3, empty, 17),
    )?;
    say(
        rt,
        "amplifier with a wrong check, refused",
        is_no_amplifier(3, wrong, 19),
    )?;
    say(
        rt,
        "amplifier in two bytes, refused",
        is_no_amplifier(3, two, 12),
    )?;
    say(
        rt,
        "payload written in one piece",
        is_vendor_written(
            b"\x18\x00\x00\x00",
            29,
            b"\x00\x00\x1Fy\x00\x08DQ000MPW\x00\x09\x00\x00\x00\x00\x00\x00\x00\x00\x00\x02`QK\xAA\xAA\xAA\xAA\xAA\xAA",
        ),
    )?;
    say(
        rt,
        "payload written in two pieces",
        is_vendor_written(
            b"\x17\x00\x00\x00\x01\x00\x00\x00",
            34,
            b"\x00\x00\x1Fy\x00\x08DQ000MPW\x00\x09\x00\x00\x00\x00\x00\x00\x00\x00\x00\x02`Q\x00\x00\x1Fy\x00K\xAA",
        ),
    )?;
    Ok(())
}

fn run_edits(rt: &impl Print, image: &[u8]) -> io::Result<()> {
    say(rt, "sku edited in ten bytes", is_edited(image))?;
    say(
        rt,
        "sku edited in seven bytes, refused",
        is_not_edited(image),
    )?;
    Ok(())
}

// An image with an entry for a field, in 18 bytes of output.
fn is_added(format: u32, image: &[u8], field: &[u8], values: &[u8], n: usize, made: &[u8]) -> bool {
    let mut out = [0xAAu8; 18];
    let m = editor::add_field(&mut out, format, 1, image, field, values);
    m == Ok(n) && out.as_slice() == made
}

// An addition that is refused, at 0; the output stays as it was.
fn is_not_added(format: u32, image: &[u8], field: &[u8], values: &[u8], number: u32) -> bool {
    let mut out = [0xAAu8; 4];
    let m = editor::add_field(&mut out, format, 1, image, field, values);
    m == Err(Refusal::from(number)) && is_untouched(&out)
}

// An image without entry i, in seven bytes of output.
fn is_removed(format: u32, image: &[u8], i: usize, n: usize, made: &[u8]) -> bool {
    let mut out = [0xAAu8; 7];
    let m = editor::remove_entry(&mut out, format, 1, image, i);
    m == Ok(n) && out.as_slice() == made
}

// A removal that is refused; the output stays as it was.
fn is_not_removed(format: u32, image: &[u8], i: usize, number: u32, place: usize) -> bool {
    let mut out = [0xAAu8; 4];
    let m = editor::remove_entry(&mut out, format, 1, image, i);
    m == Err(Refusal::at(number, place)) && is_untouched(&out)
}

// Additions to the SKU image: a field has its key at 0 and its value at 3 of the values.
fn run_additions(rt: &impl Print, image: &[u8], field: &[u8], cut: &[u8]) -> io::Result<()> {
    say(
        rt,
        "rev added",
        is_added(
            2,
            image,
            field,
            b"REVB2",
            17,
            b"\x01\x03SKU\x02A7\x01\x03REV\x02B2\x00\xFF",
        ),
    )?;
    say(
        rt,
        "second sku added, refused",
        is_not_added(2, image, field, b"SKUB2", 8),
    )?;
    say(
        rt,
        "r.v added, refused",
        is_not_added(2, image, field, b"R.VB2", 7),
    )?;
    say(
        rt,
        "rev added in four bytes, refused",
        is_not_added(2, image, field, b"REVB2", 12),
    )?;
    say(
        rt,
        "field of 19 bytes added, refused",
        is_not_added(2, image, cut, b"REVB2", 13),
    )?;
    Ok(())
}

// Additions to the image with a pool, and removals from it.
fn run_pool_changes(rt: &impl Print, image: &[u8], field: &[u8]) -> io::Result<()> {
    say(
        rt,
        "tests added before the pool",
        is_added(
            3,
            image,
            field,
            b"\x01",
            16,
            b"\x56\x02\x10\x10\x00\x11\x01\x01\x06AB\xC3D\xC5F\xE7\xFF\xFF",
        ),
    )?;
    say(
        rt,
        "pool removed",
        is_removed(3, image, 1, 6, b"\x56\x02\x06\x10\x00\xB7\xFF"),
    )?;
    Ok(())
}

fn run_removals(rt: &impl Print, image: &[u8], full: &[u8; 8192]) -> io::Result<()> {
    say(
        rt,
        "sku removed",
        is_removed(2, image, 0, 1, b"\x00\xFF\xFF\xFF\xFF\xFF\xFF"),
    )?;
    say(
        rt,
        "entry 1 of one removed, refused",
        is_not_removed(2, image, 1, 13, 0),
    )?;
    say(
        rt,
        "required field removed, refused",
        is_not_removed(1, full, 0, 11, 0),
    )?;
    say(
        rt,
        "field without a name removed, refused",
        is_not_removed(1, full, 16, 14, 166),
    )?;
    Ok(())
}

// Whether a change made this file, and left the two bytes after it as they were.
fn is_file_made(m: Result<usize, Refusal>, out: &[u8], file: &[u8]) -> bool {
    m == Ok(file.len())
        && out
            .strip_prefix(file)
            .is_some_and(|rest| rest.starts_with(b"\xAA\xAA"))
}

// A file with one board more, into an output of 48 bytes: the new file, and the two bytes after it as they were.
fn is_board_added(file: &[u8], board: u32, format: u32, body: &[u8], new: &[u8]) -> bool {
    let mut out = [0xAAu8; 48];
    let m = room_calls::add_board(&mut out, 1, 4, file, board, format, body);
    is_file_made(m, &out, new)
}

fn is_board_replaced(file: &[u8], board: u32, format: u32, body: &[u8], new: &[u8]) -> bool {
    let mut out = [0xAAu8; 48];
    let m = room_calls::replace_board(&mut out, 1, 4, file, board, format, body);
    is_file_made(m, &out, new)
}

fn is_board_removed(file: &[u8], board: u32, new: &[u8]) -> bool {
    let mut out = [0xAAu8; 48];
    let m = room_calls::remove_board(&mut out, 1, 4, file, board);
    is_file_made(m, &out, new)
}

// Whether an addition into an output of 28 bytes is refused so, and leaves it as it was.
fn is_board_not_added(
    form: u32,
    edition: u32,
    file: &[u8],
    board: u32,
    body: &[u8],
    number: u32,
    place: usize,
) -> bool {
    let mut out = [0xAAu8; 28];
    let m = room_calls::add_board(&mut out, form, edition, file, board, 3, body);
    m == Err(Refusal::at(number, place)) && is_untouched(&out)
}

fn is_board_not_replaced(file: &[u8], board: u32, number: u32) -> bool {
    let mut out = [0xAAu8; 28];
    let m = room_calls::replace_board(&mut out, 1, 4, file, board, 2, b"\x00");
    m == Err(Refusal::from(number)) && is_untouched(&out)
}

// Whether the body of a board is this part of the file.
fn is_board_at(file: &[u8], board: u32, place: usize, len: usize) -> bool {
    room_calls::fetch_board(1, 4, file, board) == Ok(Part::at(place, len))
}

fn is_board_nowhere(file: &[u8], board: u32, number: u32, place: usize) -> bool {
    room_calls::fetch_board(1, 4, file, board) == Err(Refusal::at(number, place))
}

fn run_room_changes(
    rt: &impl Print,
    none: &[u8],
    five: &[u8],
    nine: &[u8],
    both: &[u8],
) -> io::Result<()> {
    say(
        rt,
        "board 5 added",
        is_board_added(none, 5, 2, b"\x00", five),
    )?;
    say(
        rt,
        "board 9 added after it",
        is_board_added(five, 9, 3, b"\x56\x02\x04\x6F", both),
    )?;
    say(
        rt,
        "board 5 added before board 9",
        is_board_added(nine, 5, 2, b"\x00", both),
    )?;
    say(
        rt,
        "board 5 replaced by itself",
        is_board_replaced(both, 5, 2, b"\x00", both),
    )?;
    say(rt, "board 9 removed", is_board_removed(both, 9, five))?;
    say(rt, "board 5 removed", is_board_removed(both, 5, nine))?;
    say(rt, "last board removed", is_board_removed(five, 5, none))?;
    say(rt, "board 5 fetched", is_board_at(both, 5, 24, 1))?;
    say(rt, "board 9 fetched", is_board_at(both, 9, 25, 4))?;
    Ok(())
}

fn run_room_refusals(
    rt: &impl Print,
    none: &[u8],
    five: &[u8],
    both: &[u8],
    wrong: &[u8],
    falling: &[u8],
) -> io::Result<()> {
    let tiny = b"\x56\x02\x04\x6F";
    say(
        rt,
        "room file by edition 9, refused",
        is_board_not_added(2, 9, five, 5, tiny, 1, 0),
    )?;
    say(
        rt,
        "room file of form 2, refused",
        is_board_not_added(2, 4, five, 5, tiny, 21, 0),
    )?;
    say(
        rt,
        "room file cut short, refused",
        is_board_nowhere(
            b"\x52\x4D\x01\x00\x00\x01\x00\x00\x00\x00\x00\x05\x02\x00\x00\x01",
            5,
            21,
            0,
        ),
    )?;
    say(
        rt,
        "room file with falling numbers, refused",
        is_board_nowhere(falling, 5, 21, 0),
    )?;
    say(
        rt,
        "no such board fetched",
        is_board_nowhere(both, 7, 22, 0),
    )?;
    say(
        rt,
        "no such board replaced",
        is_board_not_replaced(both, 7, 22),
    )?;
    say(
        rt,
        "board there already",
        is_board_not_added(1, 4, both, 5, b"\x00", 23, 0),
    )?;
    say(
        rt,
        "body of no format, refused",
        is_board_nowhere(wrong, 5, 16, 16),
    )?;
    say(
        rt,
        "new body with a wrong check, refused",
        is_board_not_added(1, 4, none, 9, b"\x56\x02\x04\x6E", 10, 3),
    )?;
    say(
        rt,
        "board added in 28 bytes, refused",
        is_board_not_added(1, 4, five, 9, tiny, 12, 0),
    )?;
    Ok(())
}

fn run_writes(rt: &impl Print, fields: &[u8]) -> io::Result<()> {
    say(rt, "sku written", is_written(fields))?;
    say(
        rt,
        "value after the values, refused",
        is_not_written(fields),
    )?;
    Ok(())
}

fn run_ends(rt: &impl Print) -> io::Result<()> {
    say(rt, "vpd of no bytes", is_refused(2, 2, b"", 5, 0))?;
    say(rt, "vpd of 00", has_count(2, 2, b"\x00", 0))?;
    say(rt, "vpd of FF", has_count(2, 2, b"\xFF", 0))?;
    Ok(())
}

fn run_pairs(rt: &impl Print) -> io::Result<()> {
    say(
        rt,
        "encoding example",
        is_encoding(
            b"\x01\x04UUID\x100123456789ABCDEF\x01\x073G_IMEI\x0EAABBBBBB-CC-DD\x01\x0Cethernet_mac\x06\x2A\x02\x03\xB3\xD5\x7C\x00",
        ),
    )?;
    say(rt, "sku", is_sku(b"\x01\x03SKU\x02A7\x00"))?;
    say(rt, "sku, listed", is_listed(b"\x01\x03SKU\x02A7\x00"))?;
    Ok(())
}

fn main(rt: HostRuntime) -> io::Result<()> {
    say(&rt, "check of 256 A", check_of_many())?;
    run_ends(&rt)?;
    let image = full_image();
    run_full(&rt, &image)?;
    run_pairs(&rt)?;
    run_edits(&rt, b"\x01\x03SKU\x02A7\x00")?;
    run_additions(
        &rt,
        b"\x01\x03SKU\x02A7\x00",
        b"\x01\x00\x00\x00\x00\x00\x00\x00\x03\x00\x00\x00\x03\x00\x00\x00\x02\x00\x00\x00",
        b"\x01\x00\x00\x00\x00\x00\x00\x00\x03\x00\x00\x00\x03\x00\x00\x00\x02\x00\x00",
    )?;
    run_removals(&rt, b"\x01\x03SKU\x02A7\x00", &image)?;
    run_writes(
        &rt,
        b"\x01\x00\x00\x00\x00\x00\x00\x00\x03\x00\x00\x00\x03\x00\x00\x00\x02\x00\x00\x00",
    )?;
    run_names(
        &rt,
        b"\x01\x08lab.rack\x02R2\x00",
        b"\x01\x00\x00\x00\x00\x00\x00\x00\x08\x00\x00\x00\x08\x00\x00\x00\x02\x00\x00\x00",
    )?;
    run_onie(
        &rt,
        b"TlvInfo\x00\x01\x00\x06\xFE\x04\xD4C\x1C\x18",
        b"TlvInfo\x00\x01\x00\x06\xFE\x04\xD4C\x1C",
        b"TlvInfo\x00\x01\x00%!\x03SW1$\x06\x00\x11\x223DU*\x02\x00\x08\xFD\x05\x00\x00\x1Fy\x00\xFD\x05\x00\x00\x1Fy\x01\xFE\x04cm\x83\xB7",
        b"\x23\x00\x00\x00\x00\x00\x00\x00\x00\x00\x00\x00\x00\x00\x00\x00\x02\x00\x00\x00",
    )?;
    run_amplifiers(
        &rt,
        b"TlvInfo\x00\x01\x00%\xFD\x1D\x00\x00\x1Fy\x00\x08DQ000MPW\x00\x09\x00\x00\x00\x00\x00\x00\x00\x00\x00\x02`QK\xFE\x04\xC4\xCA\xCB\xB7",
        b"TlvInfo\x00\x01\x00,\xFD\x1C\x00\x00\x1Fy\x00\x08DQ000MPW\x00\x09\x00\x00\x00\x00\x00\x00\x00\x00\x00\x02`Q\xFD\x06\x00\x00\x1Fy\x00K\xFE\x04\x0F\xAE\x02\xF5",
        b"TlvInfo\x00\x01\x00%\xFD\x1D\x00\x00\x1Fy\x00\x08DQ000MPW\x00\x09\x00\x00\x00\x00\x00\x00\x00\x00\x00\x02`QL\xFE\x04\xC1\x85\xDD2",
        b"TlvInfo\x00\x01\x00\x06\xFE\x04\xD4C\x1C\x18",
    )?;
    run_pool(&rt, b"\x56\x02\x0E\x10\x00\x01\x06AB\xC3D\xC5F\x2F")?;
    run_pool_changes(
        &rt,
        b"\x56\x02\x0E\x10\x00\x01\x06AB\xC3D\xC5F\x2F",
        b"\x11\x00\x00\x00\x00\x00\x00\x00\x00\x00\x00\x00\x00\x00\x00\x00\x01\x00\x00\x00",
    )?;
    run_room_changes(
        &rt,
        b"\x52\x4D\x01\x00\x00\x00\x00\x00",
        b"\x52\x4D\x01\x00\x00\x01\x00\x00\x00\x00\x00\x05\x02\x00\x00\x01\x00",
        b"\x52\x4D\x01\x00\x00\x01\x00\x00\x00\x00\x00\x09\x03\x00\x00\x04\x56\x02\x04\x6F",
        b"\x52\x4D\x01\x00\x00\x02\x00\x00\x00\x00\x00\x05\x02\x00\x00\x01\x00\x00\x00\x09\x03\x00\x00\x04\x00\x56\x02\x04\x6F",
    )?;
    run_room_refusals(
        &rt,
        b"\x52\x4D\x01\x00\x00\x00\x00\x00",
        b"\x52\x4D\x01\x00\x00\x01\x00\x00\x00\x00\x00\x05\x02\x00\x00\x01\x00",
        b"\x52\x4D\x01\x00\x00\x02\x00\x00\x00\x00\x00\x05\x02\x00\x00\x01\x00\x00\x00\x09\x03\x00\x00\x04\x00\x56\x02\x04\x6F",
        b"\x52\x4D\x01\x00\x00\x01\x00\x00\x00\x00\x00\x05\x09\x00\x00\x01\x00",
        b"\x52\x4D\x01\x00\x00\x02\x00\x00\x00\x00\x00\x09\x02\x00\x00\x01\x00\x00\x00\x05\x02\x00\x00\x01\x00\x00",
    )?;
    Ok(())
}
