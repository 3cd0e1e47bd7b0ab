// The writer's rules: a field list is sound, with the length of the entries that it makes, or one of its fields is refused.
#![tactic(auto)]

ghost use Rattle.std.specs.Prelude.{◌≡◌, false, ◌≤◌, ◌<◌, length, take};
ghost use Rattle.layout.specs.Answers.{fault_told};
ghost use Rattle.layout.specs.Editions.{shape};
ghost use Rattle.layout.specs.Read.{seen_before};
ghost use Rattle.layout.specs.Write.{fields_in, field_key, field_content, writer_rule, field_fault, entry_bytes};
ghost use Rattle.laws.proofs.Marks.{Marks};
ghost use Rattle.laws.proofs.Seen.{label_codes};
ghost use Rattle.keys.proofs.Seen.{key_seen};
ghost use Rattle.output.specs.Lengths.{capped};
ghost use Rattle.rules.specs.Fields.{field_labels, judged_fields};

use layout::{Field, Format, Refusal};

// Whether one of the first n fields has code 01h and this key.
fn seen_key(fields: &[u8], values: &[u8], n: usize, key: &[u8]) -> bool
    requires { n ≤ length (fields_in fields.now) }
    ensures { result ≡ seen_before (shape Format.Vpd) (field_labels (shape Format.Vpd) values.now (take n (fields_in fields.now))) (record { code = 1; key = key.now }) }
{
    for i in 0..n {
        let x = fields::field_at(fields, i);
        let other = fields::field_key(Format::Vpd, values, x);
        if x.code == 1 && parts::same_bytes(key, other) {
            return true;
        }
    }
    false
}

// Whether a field of this code and key comes a second time after the first n fields; a VPD 01h does not where its key is not known, and an ONIE FDh never does.
fn is_seen(
    format: Format,
    fields: &[u8],
    values: &[u8],
    n: usize,
    code: u32,
    key: &[u8],
    known: bool,
    seen: &[u8; 256],
) -> bool
    requires n_in_bounds { (n ≤ length (fields_in fields.now)) × (code < 256) }
    requires marks { Marks (label_codes (field_labels (shape format) values.now (take n (fields_in fields.now)))) seen.now }
    requires key_value { known ≡ false → key_seen (field_labels (shape format) values.now (take n (fields_in fields.now))) key.now ≡ false }
    ensures { result ≡ seen_before (shape format) (field_labels (shape format) values.now (take n (fields_in fields.now))) (record { code = code; key = key.now }) }
{
    match format {
        Format::Vpd if code == 1 => known && seen_key(fields, values, n, key),
        Format::Onie if code == 0xFD => false,
        _ => seen[code as usize] != 0,
    }
}

// Whether a field meets the writer's rule.
#[tactic(auto, unfolding(layout::specs::Write::writer_rule))]
pub fn meets_rule(format: Format, values: &[u8], x: Field) -> bool
    ensures { result ≡ writer_rule (shape format) (field_content (shape format) values.now x) }
{
    let key = fields::field_key(format, values, x);
    let value = fields::field_value(values, x);
    frames::writer_key(format, x.code, key)
        && output::length_rule(format, x.code, value.len())
        && frames::value_rule(format, x.code, value)
}

// What is wrong with the field x after the first n fields: 14, 13, 9, 7 or 8, if anything.
#[tactic(auto, unfolding(layout::specs::Write::field_fault))]
fn field_fault(
    format: Format,
    edition: u32,
    fields: &[u8],
    values: &[u8],
    n: usize,
    x: Field,
    shut: bool,
    known: bool,
    seen: &[u8; 256],
) -> Option<u32>
    requires n_in_bounds { n ≤ length (fields_in fields.now) }
    requires marks { Marks (label_codes (field_labels (shape format) values.now (take n (fields_in fields.now)))) seen.now }
    requires values_value { known ≡ false → key_seen (field_labels (shape format) values.now (take n (fields_in fields.now))) (field_key (shape format).keyed x values.now) ≡ false }
    ensures { result ≡ fault_told (field_fault (shape format) edition values.now shut (field_labels (shape format) values.now (take n (fields_in fields.now))) x) }
{
    if !frames::is_named(format, edition, x.code) {
        return Some(14);
    }
    if !fields::parts_inside(format, values, x) {
        return Some(13);
    }
    if shut {
        return Some(9);
    }
    if !meets_rule(format, values, x) {
        return Some(7);
    }
    let key = fields::field_key(format, values, x);
    if is_seen(format, fields, values, n, x.code, key, known, seen) {
        return Some(8);
    }
    None
}

// The length of the entry that a field makes, cut off.
fn field_length(format: Format, values: &[u8], x: Field) -> usize
    ensures { result ≡ capped (length (entry_bytes (shape format) (field_content (shape format) values.now x))) }
{
    let key = fields::field_key(format, values, x);
    let value = fields::field_value(values, x);
    output::add_capped(
        output::opening_length(format, x.code, key),
        output::value_length(format, x.code, value.len()),
    )
}

// The pass over a field list: the length of the entries that the fields make, cut off; or 14, 13, 9, 7, 8 field by field, with the field's number, then 11. With a filter of the keys passed.
fn judge_all(
    filter: &mut [u64],
    format: Format,
    edition: u32,
    fields: &[u8],
    values: &[u8],
) -> Result<usize, Refusal>
    ensures { result ≡ judged_fields format edition (fields_in fields.now) values.now }
{
    let mut seen = [0u8; 256];
    let mut shut = false;
    let mut total = 0;
    for i in 0..fields::count_fields(fields) {
        let x = fields::field_at(fields, i);
        let key = fields::field_key(format, values, x);
        let known = keys::note_key(filter, x.code, key);
        if let Some(number) = field_fault(
            format, edition, fields, values, i, x, shut, known, &seen,
        ) {
            return Err(Refusal::at(number, i));
        }
        seen[x.code as usize] = 1;
        shut = frames::is_last(format, x.code);
        total = output::add_capped(total, field_length(format, values, x));
    }
    if !frames::is_complete(format, &seen) {
        return Err(Refusal::from(11));
    }
    Ok(total)
}

// The same with a filter for any number of keys.
fn judge_many(format: Format, edition: u32, fields: &[u8], values: &[u8]) -> Result<usize, Refusal>
    ensures { result ≡ judged_fields format edition (fields_in fields.now) values.now }
{
    let mut filter = [0u64; keys::MANY];
    judge_all(&mut filter, format, edition, fields, values)
}

// The same with the filter that is lent, or with a larger one where more words are asked for.
// It calls itself, and so the compiler gives it no room for the filter of judge_many, which a call on few keys would have to touch.
fn judge_sized(
    filter: &mut [u64],
    format: Format,
    edition: u32,
    fields: &[u8],
    values: &[u8],
    words: usize,
) -> Result<usize, Refusal>
    ensures { result ≡ judged_fields format edition (fields_in fields.now) values.now }
{
    if words <= filter.len() {
        return judge_all(filter, format, edition, fields, values);
    }
    if words <= keys::MORE {
        let mut larger = [0u64; keys::MORE];
        return judge_sized(&mut larger, format, edition, fields, values, words);
    }
    judge_many(format, edition, fields, values)
}

// The pass over a field list, without a filter for few keys.
pub fn judge_fields(
    format: Format,
    edition: u32,
    fields: &[u8],
    values: &[u8],
) -> Result<usize, Refusal>
    ensures { result ≡ judged_fields format edition (fields_in fields.now) values.now }
{
    let words = keys::filter_words(format, fields::count_fields(fields));
    if words == 0 {
        return judge_all(&mut [], format, edition, fields, values);
    }
    let mut filter = [0u64; keys::FEW];
    judge_sized(&mut filter, format, edition, fields, values, words)
}
