// Reads a line of one place into a draft.
ghost use Rattle.std.specs.Prelude.{◌≡◌, ◌≤◌, min, length};
ghost use Rattle.reading.specs.Answers.{came, WithinOk};
ghost use Rattle.reading.specs.Steps.{read_place};

use crate::draft::{Cursor, Place, Slot};
use crate::drafting::reader::DraftReader;
use crate::fault::ReadFault;
use kinds::kind::Kind;
use records::{MOST_PLACES, MOST_SLOTS};
use tokens::token::{Lexemes, checked_length};
use vocabulary::vocabulary::Vocabulary;

mod describing;
pub(crate) mod lookup;
mod naming;
pub(crate) mod reader;
mod steps;

// Reads the line token by token. The tables have then the draft in their first records.
// Two tables to write to: of a struct of two `&mut` slices, what a call does to a part of one could not be shown of the table.
fn read_within<K: Kind, V: Vocabulary<K>>(
    line: &[u8],
    places: &mut [Place<K>],
    slots: &mut [Slot],
) -> Result<Cursor, ReadFault>
    requires few { (length places.old ≤ 1000) × (length slots.old ≤ 4000) }
    ensures is { came result places.new slots.new ≡ read_place V.Vocabulary.words V.Vocabulary.ranges (length places.old) (length slots.old) line.now }
    ensures within { WithinOk result places.new slots.new }
{
    checked_length(line)?;
    let mut draft = DraftReader::new(places, slots);
    for x in Lexemes::new(line) {
        draft.step::<V>(x?, line)?;
    }
    draft.end(line.len())?;
    Ok(draft.cur)
}

// Reads a line of one place into a draft, which has no more places and slots than the tables, and not more than a sheet can have. The
// tables have then the draft in their first records.
pub fn read_draft<K: Kind, V: Vocabulary<K>>(
    line: &[u8],
    places: &mut [Place<K>],
    slots: &mut [Slot],
) -> Result<Cursor, ReadFault>
    ensures is { came result places.new slots.new ≡ read_place V.Vocabulary.words V.Vocabulary.ranges (min 1000 (length places.old)) (min 4000 (length slots.old)) line.now }
    ensures within { WithinOk result places.new slots.new }
{
    let most_places = MOST_PLACES.min(places.len());
    let most_slots = MOST_SLOTS.min(slots.len());
    read_within::<K, V>(line, &mut places[..most_places], &mut slots[..most_slots])
}
