// Writing an image from a field list that lies in lent bytes.
#![tactic(auto)]

ghost use Rattle.std.specs.Prelude.{◌≡◌, ◌+◌, ◌≤◌, length};
ghost use Rattle.layout.specs.Editions.{shape};
ghost use Rattle.layout.specs.Read.{limit};
ghost use Rattle.layout.specs.Write.{field_content, fields_in, image_of, put, write_as, write_image};
ghost use Rattle.output.specs.Lengths.{capped};
ghost use Rattle.output.specs.Placing.{over};
ghost use Rattle.writer.specs.Entries.{field_bytes, fields_bytes, Puttable, AllPuttable};
ghost use Rattle.writer.specs.Gives.{Gives};

use layout::{Field, Format, Refusal};

// The entry that a field makes, from `at` on; the place after it.
fn put_field(out: &mut [u8], at: usize, format: Format, values: &[u8], x: Field) -> usize
    requires puttable { Puttable (shape format) (field_content (shape format) values.now x) }
    requires out_len_bound { (length out.old ≤ limit) × (at + length (field_bytes (shape format) values.now x) ≤ length out.old) }
    ensures { (result ≡ at + length (field_bytes (shape format) values.now x)) × (out.new ≡ over out.old at (field_bytes (shape format) values.now x)) }
{
    let key = fields::field_key(format, values, x);
    let value = fields::field_value(values, x);
    let next = at + output::opening_length(format, x.code, key);
    output::put_opening(out, at, format, x.code, key);
    output::put_value(out, next, format, x.code, value);
    next + output::value_length(format, x.code, value.len())
}

// The entries that the fields make, one after another from `start` on.
fn put_fields(out: &mut [u8], start: usize, format: Format, fields: &[u8], values: &[u8])
    requires all_puttable { AllPuttable (shape format) values.now (fields_in fields.now) }
    requires out_len_bound { (length out.old ≤ limit) × (start + length (fields_bytes (shape format) values.now (fields_in fields.now)) ≤ length out.old) }
    ensures { out.new ≡ over out.old start (fields_bytes (shape format) values.now (fields_in fields.now)) }
{
    let mut at = start;
    for i in 0..fields::count_fields(fields) {
        at = put_field(out, at, format, values, fields::field_at(fields, i));
    }
}

// The image of fields that keep the rules, where it fits; n is the length of its entries, cut off.
fn put_image(
    out: &mut [u8],
    format: Format,
    fields: &[u8],
    values: &[u8],
    n: usize,
) -> Result<usize, Refusal>
    requires all_puttable { AllPuttable (shape format) values.now (fields_in fields.now) }
    requires out_len_bound { (length out.old ≤ limit) × (n ≡ capped (length (fields_bytes (shape format) values.now (fields_in fields.now)))) }
    ensures { Gives result out.new (put (shape format) (image_of (shape format) (fields_bytes (shape format) values.now (fields_in fields.now))) out.old) }
{
    if !output::fits(format, n, out.len()) {
        return Err(Refusal::from(12));
    }
    put_fields(out, output::header_length(format), format, fields, values);
    output::finish(out, format, n);
    Ok(output::image_length(format, n))
}

// The image of a field list in a known format, into an output that is not too long.
fn write_as(
    out: &mut [u8],
    format: Format,
    edition: u32,
    fields: &[u8],
    values: &[u8],
) -> Result<usize, Refusal>
    requires { length out.old ≤ limit }
    ensures { Gives result out.new (write_as format edition (fields_in fields.now) values.now out.old) }
{
    let n = rules::judge_fields(format, edition, fields, values)?;
    put_image(out, format, fields, values, n)
}

// The image of a field list, into the output; a refusal leaves the output as it was.
#[tactic(auto, unfolding(layout::specs::Write::write_image))]
pub fn write_image(
    out: &mut [u8],
    format: u32,
    edition: u32,
    fields: &[u8],
    values: &[u8],
) -> Result<usize, Refusal>
    ensures { (result ≡ (write_image format edition (fields_in fields.now) values.now out.old).answer) × (out.new ≡ (write_image format edition (fields_in fields.now) values.now out.old).memory) }
{
    let chosen = frames::choose(format, edition)?;
    if 65536 < out.len() {
        return Err(Refusal::from(2));
    }
    write_as(out, chosen, edition, fields, values)
}
