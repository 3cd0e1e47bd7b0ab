// An image with one entry changed, added or removed, into a second buffer.
#![tactic(auto)]

ghost use Rattle.std.specs.Prelude.{◌≡◌, ◌+◌, ◌≤◌, length};
ghost use Rattle.layout.specs.Editions.{shape};
ghost use Rattle.layout.specs.Read.{limit};
ghost use Rattle.layout.specs.Write.{fields_in, image_of, put};
ghost use Rattle.layout.specs.Edit.{edit_entry};
ghost use Rattle.layout.specs.Add.{add_field};
ghost use Rattle.layout.specs.Remove.{remove_entry};
ghost use Rattle.laws.specs.Passes.{walked, IsDone, raws_in};
ghost use Rattle.output.specs.Lengths.{capped};
ghost use Rattle.output.specs.Placing.{copied};
ghost use Rattle.editor.specs.Here.{fresh_bytes, Puttable, entries_of, new_at, taken_for};

use accept::Room;
use layout::{Format, Refusal};

// What is new among the bytes of entries: nothing, a value of an entry of this code with the bytes that say its length, or a whole entry.
#[derive(Clone, Copy)]
enum Fresh<'a> {
    Nothing,
    Value {
        code: u32,
        value: &'a [u8],
    },
    Entry {
        code: u32,
        key: &'a [u8],
        value: &'a [u8],
    },
}

impl Fresh<'_> {
    // Its length, cut off.
    fn len(self, format: Format) -> usize
        ensures { result ≡ capped (length (fresh_bytes (shape format) self.entry)) }
    {
        match self {
            Fresh::Nothing => 0,
            Fresh::Value { code, value } => output::value_length(format, code, value.len()),
            Fresh::Entry { code, key, value } => output::add_capped(
                output::opening_length(format, code, key),
                output::value_length(format, code, value.len()),
            ),
        }
    }

    // It is put from `at` on, where there is room for it.
    fn put(self, out: &mut [u8], at: usize, format: Format)
        requires out_len_bound { (length out.old ≤ limit) × Puttable (shape format) self }
        requires fresh_in_bounds { at + length (fresh_bytes (shape format) self) ≤ length out.old }
        ensures { out.new ≡ copied out.old at (fresh_bytes (shape format) self.entry) }
    {
        match self {
            Fresh::Nothing => {}
            Fresh::Value { code, value } => output::put_value(out, at, format, code, value),
            Fresh::Entry { code, key, value } => {
                output::put_opening(out, at, format, code, key);
                let next = at + output::opening_length(format, code, key);
                output::put_value(out, next, format, code, value);
            }
        }
    }
}

// The bytes of entries: those that stay in front, what is new, and those that stay after it.
#[derive(Clone, Copy)]
struct Entries<'a> {
    front: &'a [u8],
    fresh: Fresh<'a>,
    after: &'a [u8],
}

impl Entries<'_> {
    // Their length, cut off.
    fn len(self, format: Format) -> usize
        ensures { result ≡ capped (length (entries_of (shape format) self.entry)) }
    {
        let n = output::add_capped(self.front.len(), self.fresh.len(format));
        output::add_capped(n, self.after.len())
    }

    // They are laid from where the header ends.
    fn lay(self, out: &mut [u8], format: Format)
        requires out_len_bound { (length out.old ≤ limit) × Puttable (shape format) self.fresh }
        requires entries_in_bounds { length ((shape format).header 0) + length (entries_of (shape format) self) ≤ length out.old }
        ensures { out.new ≡ copied out.old (length ((shape format).header 0)) (entries_of (shape format) self.entry) }
    {
        let start = output::header_length(format);
        output::copy_at(out, start, self.front);
        let at = start + self.front.len();
        self.fresh.put(out, at, format);
        let next = at + self.fresh.len(format);
        output::copy_at(out, next, self.after);
    }

    // The image of them, where it fits.
    fn put(self, out: &mut [u8], format: Format) -> Result<usize, Refusal>
        requires { (length out.old ≤ limit) × Puttable (shape format) self.fresh }
        ensures { (result ≡ (put (shape format) (image_of (shape format) (entries_of (shape format) self.entry)) out.old).answer) × (out.new ≡ (put (shape format) (image_of (shape format) (entries_of (shape format) self.entry)) out.old).memory) }
    {
        let n = self.len(format);
        if !output::fits(format, n, out.len()) {
            return Err(Refusal::from(12));
        }
        self.lay(out, format);
        output::finish(out, format, n);
        Ok(output::image_length(format, n))
    }
}

// ---- the image

// The image that is to be changed into an output of n bytes: 16, 1, 2, and its own refusals.
fn take_for(n: usize, format: u32, edition: u32, image: &[u8]) -> Result<Room, Refusal>
    ensures { result ≡ taken_for n format edition image.now }
{
    if 65536 < n {
        frames::choose(format, edition)?;
        return Err(Refusal::from(2));
    }
    accept::take_image(format, edition, image)
}

// ---- edit

// The image with another value for entry i, into the output: 13, 14, 7, then 12. A refusal leaves the output as it was.
pub fn edit_entry(
    out: &mut [u8],
    format: u32,
    edition: u32,
    image: &[u8],
    i: usize,
    value: &[u8],
) -> Result<usize, Refusal>
    ensures { (result ≡ (edit_entry format edition image.now i value.now out.old).answer) × (out.new ≡ (edit_entry format edition image.now i value.now out.old).memory) }
{
    let room = take_for(out.len(), format, edition, image)?;
    let Some((f, p)) = frames::find_frame(room.format, image, room.start, room.end, i) else {
        return Err(Refusal::from(13));
    };
    if !frames::is_named(room.format, edition, f.code) {
        return Err(Refusal::at(14, p));
    }
    if !output::length_rule(room.format, f.code, value.len())
        || !frames::value_rule(room.format, f.code, value)
    {
        return Err(Refusal::at(7, p));
    }
    let entries = Entries {
        front: &image[room.start..p + f.at],
        fresh: Fresh::Value {
            code: f.code,
            value,
        },
        after: &image[p + f.size..room.over],
    };
    entries.put(out, room.format)
}

// ---- remove

// The image without entry i, into the output: 13, 14, 11, then 12. A refusal leaves the output as it was.
pub fn remove_entry(
    out: &mut [u8],
    format: u32,
    edition: u32,
    image: &[u8],
    i: usize,
) -> Result<usize, Refusal>
    ensures { (result ≡ (remove_entry format edition image.now i out.old).answer) × (out.new ≡ (remove_entry format edition image.now i out.old).memory) }
{
    let room = take_for(out.len(), format, edition, image)?;
    let Some((gone, at)) = frames::find_frame(room.format, image, room.start, room.end, i) else {
        return Err(Refusal::from(13));
    };
    if !frames::is_named(room.format, edition, gone.code) {
        return Err(Refusal::at(14, at));
    }
    if frames::is_required(room.format, gone.code) {
        return Err(Refusal::from(11));
    }
    let entries = Entries {
        front: &image[room.start..at],
        fresh: Fresh::Nothing,
        after: &image[at + gone.size..room.over],
    };
    entries.put(out, room.format)
}

// ---- add

// Where an entry of this code and key goes among those in the room, unless one of them is the same: one pass over them, which ends before an entry that none may follow.
fn find_place(room: Room, image: &[u8], code: u32, key: &[u8]) -> Option<usize>
    requires { IsDone (walked room.format image.now room.start room.end) }
    ensures { result ≡ new_at (shape room.format) (record { code = code; key = key.now }) (raws_in (walked room.format image.now room.start room.end)) room.start }
{
    let mut p = room.start;
    while let Ok(Some(f)) = frames::next_frame(room.format, false, image, p, room.end) {
        let other = frames::part_of(image, p + f.key, f.klen);
        if frames::is_same(room.format, code, key, f.code, other) {
            return None;
        }
        if frames::is_last(room.format, f.code) {
            return Some(p);
        }
        p += f.size;
    }
    Some(p)
}

// The image with an entry for the first field that is lent, into the output: 13, 14, 7, 8, then 12. A refusal leaves the output as it was.
pub fn add_field(
    out: &mut [u8],
    format: u32,
    edition: u32,
    image: &[u8],
    field: &[u8],
    values: &[u8],
) -> Result<usize, Refusal>
    ensures { (result ≡ (add_field format edition image.now (fields_in field.now) values.now out.old).answer) × (out.new ≡ (add_field format edition image.now (fields_in field.now) values.now out.old).memory) }
{
    let room = take_for(out.len(), format, edition, image)?;
    if fields::count_fields(field) == 0 {
        return Err(Refusal::from(13));
    }
    let x = fields::field_at(field, 0);
    if !fields::parts_inside(room.format, values, x) {
        return Err(Refusal::from(13));
    }
    if !frames::is_named(room.format, edition, x.code) {
        return Err(Refusal::from(14));
    }
    if !rules::meets_rule(room.format, values, x) {
        return Err(Refusal::from(7));
    }
    let key = fields::field_key(room.format, values, x);
    let value = fields::field_value(values, x);
    let Some(place) = find_place(room, image, x.code, key) else {
        return Err(Refusal::from(8));
    };
    let entries = Entries {
        front: &image[room.start..place],
        fresh: Fresh::Entry {
            code: x.code,
            key,
            value,
        },
        after: &image[place..room.over],
    };
    entries.put(out, room.format)
}
