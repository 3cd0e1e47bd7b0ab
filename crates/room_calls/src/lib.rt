// The calls on a machine-room file: add, replace, remove and fetch a board. A body is judged by the reader's check alone.
#![tactic(auto)]

ghost use Rattle.std.specs.Prelude.{◌≡◌, [], ◌∷◌, ◌++◌, ◌+◌, ◌*◌, ◌≤◌, ◌<◌, length, map, drop};
ghost use Rattle.layout.specs.Bytes.{refusal};
ghost use Rattle.layout.specs.Read.{limit};
ghost use Rattle.layout.specs.Calls.{check_image};
ghost use Rattle.layout.specs.Write.{put_bytes};
ghost use Rattle.output.specs.Placing.{copied};
ghost use Rattle.rooms.specs.File.{board, one, two, four, head, count_in, headed, row_in, rows_in, sizes, read_room};
ghost use Rattle.rooms.specs.Calls.{body_allowed, judge_bodies, judge_stored, and_then, changed, change_allowed, open_room, opened_by, add_board, replace_board, remove_board, fetch_board};
ghost use Rattle.room_calls.specs.Rows.{as_row, right_row, with_row, scanned};
ghost use Rattle.room_calls.specs.Boards.{boards_at, found_by, judged_by, Stored};
ghost use Rattle.room_calls.specs.Laying.{rows_gone, laid, Lies};

use layout::{Part, Refusal};

// A row as it is stored: the board's number, the format of its body, a byte that is zero, and the length of its body.
#[derive(Clone, Copy)]
struct Row {
    number: u32,
    format: u32,
    zero: u8,
    size: usize,
}

// What rows come to for a board number: how many there are, how many have a number below it, the bytes of their bodies, the bytes of the body of this number (0 where there is none,
// since no body is empty), and the bytes of all bodies.
#[derive(Clone, Copy)]
struct Tally {
    count: usize,
    rows: usize,
    below: usize,
    own: usize,
    total: usize,
}

// ---- rows

// The row in eight bytes.
fn row_of(bytes: [u8; 8]) -> Row
    ensures { (as_row result ≡ row_in bytes) × (result.size < 65536) }
{
    let [a, b, c, d, format, zero, high, low] = bytes;
    let number = u32::from_be_bytes([a, b, c, d]);
    let size = u16::from_be_bytes([high, low]);
    Row {
        number,
        format: u32::from(format),
        zero,
        size: usize::from(size),
    }
}

// The rows of a file of n boards.
fn rows_at(file: &[u8], n: usize) -> &[[u8; 8]]
    requires { 8 + 8 * n ≤ length file.now }
    ensures { (map row_in result.now ≡ rows_in n (drop 8 file.now)) × (length result.now ≡ n) }
{
    file[8..8 + 8 * n].as_chunks::<8>().0
}

// Whether a row has its zero, a body, and a number from `low` on.
fn is_right(row: Row, low: u64) -> bool
    ensures { result ≡ right_row low (as_row row) }
{
    low <= u64::from(row.number) && row.zero == 0 && 1 <= row.size
}

// What rows come to with this one of them.
fn with_row(mut t: Tally, row: Row, wanted: u32) -> Tally
    requires { (t.rows < 65536) × (t.below < 4294967296) × (t.own < 4294967296) × (t.total < 4294967296) × (row.size < 65536) }
    ensures { result ≡ with_row t row.number row.size wanted }
{
    t.total += row.size;
    if row.number < wanted {
        t.rows += 1;
        t.below += row.size;
    } else if row.number == wanted {
        t.own += row.size;
    }
    t
}

// One pass over rows: whether they are right, and what they come to for the board that is wanted.
fn scan_rows(rows: &[[u8; 8]], wanted: u32) -> Option<Tally>
    requires { 8 * length rows.now ≤ limit }
    ensures { result ≡ scanned wanted (map row_in rows.now) }
{
    let mut t = Tally {
        count: rows.len(),
        rows: 0,
        below: 0,
        own: 0,
        total: 0,
    };
    let mut low: u64 = 0;
    for bytes in rows {
        let row = row_of(*bytes);
        if !is_right(row, low) {
            return None;
        }
        t = with_row(t, row, wanted);
        low = u64::from(row.number) + 1;
    }
    Some(t)
}

// ---- the file

// The head of a file of this form with so many boards.
fn head_bytes(form: u32, n: usize) -> [u8; 8]
    ensures { result ≡ head form n }
{
    let [.., form] = form.to_be_bytes();
    let [.., high, low] = n.to_be_bytes();
    [0x52, 0x4D, form, 0, high, low, 0, 0]
}

// How many boards the head of a file says.
fn count_in(file: &[u8]) -> usize
    requires { 8 ≤ length file.now }
    ensures { (result ≡ count_in file.now) × (result < 65536) }
{
    usize::from(u16::from_be_bytes([file[4], file[5]]))
}

// Whether a file that is long enough for one begins with a head of this form, which is a known one.
fn is_headed(form: u32, file: &[u8]) -> bool
    requires { 8 ≤ length file.now }
    ensures { result ≡ headed form file.now }
{
    form == 1 && parts::is_stored(file, 0, &head_bytes(form, count_in(file)))
}

// What the boards of a file that is not too long come to; or 21.
fn read_room(form: u32, file: &[u8], wanted: u32) -> Result<Tally, Refusal>
    requires { length file.now ≤ limit }
    ensures { result ≡ found_by (opened_by (read_room form file.now)) wanted }
{
    if file.len() < 8 || !is_headed(form, file) {
        return Err(Refusal::from(21));
    }
    let n = count_in(file);
    let start = 8 + 8 * n;
    if file.len() < start {
        return Err(Refusal::from(21));
    }
    let Some(t) = scan_rows(rows_at(file, n), wanted) else {
        return Err(Refusal::from(21));
    };
    if t.total != file.len() - start {
        return Err(Refusal::from(21));
    }
    Ok(t)
}

// What every call asks first, with so many bytes lent to be written: 1, 2, 21.
fn find_board(
    form: u32,
    edition: u32,
    file: &[u8],
    lent: usize,
    wanted: u32,
) -> Result<Tally, Refusal>
    ensures { result ≡ found_by (open_room form edition file.now lent) wanted }
{
    if !reader::is_edition(edition) {
        return Err(Refusal::from(1));
    }
    if 65536 < file.len() || 65536 < lent {
        return Err(Refusal::from(2));
    }
    read_room(form, file, wanted)
}

// ---- bodies

// What the check says of the body that stands at p.
fn judge_body(edition: u32, format: u32, body: &[u8], p: usize) -> Result<(), Refusal>
    requires { p ≤ limit }
    ensures { result ≡ judged_by (body_allowed (check_image format edition body.now) p) }
{
    match reader::check_image(format, edition, body) {
        Ok(_) => Ok(()),
        Err(r) => Err(Refusal::at(r.number, p + r.place.0)),
    }
}

// What the check says of the bodies of a file of n boards, which stand after the rows, in order.
fn judge_bodies(edition: u32, file: &[u8], n: usize) -> Result<(), Refusal>
    requires { (8 + 8 * n + sizes (rows_in n (drop 8 file.now)) ≡ length file.now) × (length file.now ≤ limit) }
    ensures { result ≡ judged_by (judge_bodies edition (8 + 8 * n) (boards_at n file.now)) }
{
    let mut p = 8 + 8 * n;
    for bytes in rows_at(file, n) {
        let row = row_of(*bytes);
        judge_body(edition, row.format, &file[p..p + row.size], p)?;
        p += row.size;
    }
    Ok(())
}

// ---- the new file

// How many rows go with a body of so many bytes.
fn rows_gone(own: usize) -> usize
    ensures { (result ≡ rows_gone own) × (result ≤ 1) }
{
    usize::from(0 < own)
}

// Two blocks with what is new between them, from `to` on.
fn put_between(out: &mut [u8], to: usize, front: &[u8], new: &[u8], after: &[u8])
    requires { (to + length (front.now ++ (new.now ++ after.now)) ≤ length out.old) × (length out.old ≤ limit) }
    ensures { out.new ≡ copied out.old to (front.now ++ (new.now ++ after.now)) }
{
    output::copy_at(out, to, front);
    let middle = to + front.len();
    output::copy_at(out, middle, new);
    output::copy_at(out, middle + new.len(), after);
}

// The new file, from the front of the output on.
fn lay_file(out: &mut [u8], form: u32, file: &[u8], t: Tally, row: &[u8], body: &[u8])
    requires lies { Lies (length file.now) t × (length file.now ≤ limit) × (length row.now ≤ 8) }
    requires body_in_bounds { (length (laid form file.now t row.now body.now) ≤ length out.old) × (length out.old ≤ limit) }
    ensures { out.new ≡ copied out.old 0 (laid form file.now t row.now body.now) }
{
    let gone = rows_gone(t.own);
    let head = head_bytes(form, t.count - gone + row.len() / 8);
    output::copy_at(out, 0, &head);
    let bodies = 8 + 8 * t.count;
    let cut = 8 + 8 * t.rows;
    put_between(out, 8, &file[8..cut], row, &file[cut + 8 * gone..bodies]);
    let middle = bodies + t.below;
    put_between(
        out,
        bodies - 8 * gone + row.len(),
        &file[bodies..middle],
        body,
        &file[middle + t.own..],
    );
}

// The same where it fits, and else 12.
fn put_file(
    out: &mut [u8],
    form: u32,
    file: &[u8],
    t: Tally,
    row: &[u8],
    body: &[u8],
) -> Result<usize, Refusal>
    requires { Lies (length file.now) t × (length file.now ≤ limit) × (length row.now ≤ 8) × (length out.old ≤ limit) }
    ensures value { result ≡ (put_bytes (laid form file.now t row.now body.now) out.old).answer }
    ensures out_after { out.new ≡ (put_bytes (laid form file.now t row.now body.now) out.old).memory }
{
    if 65536 < body.len() {
        return Err(Refusal::from(12));
    }
    let total = file.len() - 8 * rows_gone(t.own) - t.own + row.len() + body.len();
    if out.len() < total {
        return Err(Refusal::from(12));
    }
    lay_file(out, form, file, t, row, body);
    Ok(total)
}

// The row of a board.
fn row_bytes(number: u32, format: u32, size: usize) -> [u8; 8]
    ensures { result ≡ four number ++ (one format ++ (0 ∷ two size)) }
{
    let [a, b, c, d] = number.to_be_bytes();
    let [.., format] = format.to_be_bytes();
    let [.., high, low] = size.to_be_bytes();
    [a, b, c, d, format, 0, high, low]
}

// What a call asks after the board's number, and the file with this board in the place of its number.
fn put_board(
    out: &mut [u8],
    form: u32,
    edition: u32,
    file: &[u8],
    t: Tally,
    number: u32,
    format: u32,
    body: &[u8],
) -> Result<usize, Refusal>
    requires { Stored form file.now t number × (length out.old ≤ limit) }
    ensures value { result ≡ (change_allowed (and_then (judge_stored form edition (boards_at t.count file.now)) (λ _. judge_bodies edition 0 (board number format body.now ∷ []))) form (changed number (board number format body.now ∷ []) (boards_at t.count file.now)) out.old).answer }
    ensures out_after { out.new ≡ (change_allowed (and_then (judge_stored form edition (boards_at t.count file.now)) (λ _. judge_bodies edition 0 (board number format body.now ∷ []))) form (changed number (board number format body.now ∷ []) (boards_at t.count file.now)) out.old).memory }
{
    judge_bodies(edition, file, t.count)?;
    judge_body(edition, format, body, 0)?;
    let row = row_bytes(number, format, body.len());
    put_file(out, form, file, t, &row, body)
}

// ---- the calls

// The file with one board more, into the output; a refusal leaves the output as it was.
pub fn add_board(
    out: &mut [u8],
    form: u32,
    edition: u32,
    file: &[u8],
    board: u32,
    format: u32,
    body: &[u8],
) -> Result<usize, Refusal>
    ensures { (result ≡ (add_board form edition file.now board format body.now out.old).answer) × (out.new ≡ (add_board form edition file.now board format body.now out.old).memory) }
{
    let t = find_board(form, edition, file, out.len(), board)?;
    if 0 < t.own {
        return Err(Refusal::from(23));
    }
    put_board(out, form, edition, file, t, board, format, body)
}

// The file with another body and format for a board, into the output; a refusal leaves the output as it was.
pub fn replace_board(
    out: &mut [u8],
    form: u32,
    edition: u32,
    file: &[u8],
    board: u32,
    format: u32,
    body: &[u8],
) -> Result<usize, Refusal>
    ensures { (result ≡ (replace_board form edition file.now board format body.now out.old).answer) × (out.new ≡ (replace_board form edition file.now board format body.now out.old).memory) }
{
    let t = find_board(form, edition, file, out.len(), board)?;
    if t.own == 0 {
        return Err(Refusal::from(22));
    }
    put_board(out, form, edition, file, t, board, format, body)
}

// The file without a board, into the output; a refusal leaves the output as it was.
pub fn remove_board(
    out: &mut [u8],
    form: u32,
    edition: u32,
    file: &[u8],
    board: u32,
) -> Result<usize, Refusal>
    ensures { (result ≡ (remove_board form edition file.now board out.old).answer) × (out.new ≡ (remove_board form edition file.now board out.old).memory) }
{
    let t = find_board(form, edition, file, out.len(), board)?;
    if t.own == 0 {
        return Err(Refusal::from(22));
    }
    judge_bodies(edition, file, t.count)?;
    put_file(out, form, file, t, &[], &[])
}

// The body of a board, as a part of the file.
pub fn fetch_board(form: u32, edition: u32, file: &[u8], board: u32) -> Result<Part, Refusal>
    ensures { result ≡ fetch_board form edition file.now board }
{
    let Tally {
        count,
        below,
        own,
        ..
    } = find_board(form, edition, file, 0, board)?;
    if own == 0 {
        return Err(Refusal::from(22));
    }
    judge_bodies(edition, file, count)?;
    Ok(Part::at(8 + 8 * count + below, own))
}
