// The list: the entries of an image go into the records that are lent.
#![tactic(auto)]

ghost use Rattle.std.specs.Prelude.{◌≡◌};
ghost use Rattle.layout.specs.Calls.{list_entries};

use layout::{Entry, Refusal};

// The entries take the place of the first records, in image order. One pass over the image, from entry to entry; it has an entry for each of `count` records, and does not break off.
pub fn list_entries(
    format: u32,
    edition: u32,
    image: &[u8],
    records: &mut [Entry],
) -> Result<usize, Refusal>
    ensures { (result ≡ (list_entries format edition image.now records.old).answer) × (records.new ≡ (list_entries format edition image.now records.old).records) }
{
    let room = accept::take_image(format, edition, image)?;
    if records.len() < room.count {
        return Err(Refusal::from(12));
    }
    let mut p = room.start;
    let mut shut = false;
    for record in &mut records[..room.count] {
        let Some(here) = reader::entry_here(room.format, edition, image, shut, p, room.end) else {
            break;
        };
        *record = here.entry;
        p = here.next;
        shut = here.shut;
    }
    Ok(room.count)
}

// The answer of a list, with four records.
#[derive(Drop)]
pub struct Four {
    pub answer: Result<usize, Refusal>,
    pub records: [Entry; 4],
}

// The same on an array by value: it is lent to `list_entries`, and handed back. Whoever calls this one needs no walk.
pub fn list_four(format: u32, edition: u32, image: &[u8], mut a: [Entry; 4]) -> Four
    ensures { (result.answer ≡ (list_entries format edition image.now a).answer) × (result.records ≡ (list_entries format edition image.now a).records) }
{
    let answer = list_entries(format, edition, image, &mut a);
    Four { answer, records: a }
}
