// Reads a line of one form: its word, its paths, and the draft of its place or kind.
ghost use Rattle.std.specs.Prelude.{◌≡◌, ◌≤◌, length};
ghost use Rattle.reading.specs.Forming.{form_came, FormWithinOk};
ghost use Rattle.reading.specs.Forms.{read_form};

use crate::draft::{Place, Slot};
use crate::drafting::reader::DraftReader;
use crate::fault::ReadFault;
use crate::form::{Form, FormCursor, Stage};
use crate::path::Path;
use kinds::kind::Kind;
use tokens::token::{Lexemes, checked_length};
use vocabulary::vocabulary::Vocabulary;

mod paths;
mod steps;
mod verbs;

// Reads the line token by token. The tables have then the draft of an add in their first records, and the table of one place has
// the kind of a narrow.
// Two tables to write to: of a struct of two `&mut` slices, what a call does to a part of one could not be shown of the table.
pub(crate) fn read_form_draft<K: Kind, V: Vocabulary<K>>(
    line: &[u8],
    places: &mut [Place<K>],
    slots: &mut [Slot],
    one: &mut [Place<K>],
) -> Result<FormCursor, ReadFault>
    requires few { (length places.old ≤ 1000) × ((length slots.old ≤ 4000) × (length one.old ≡ 1)) }
    ensures is { form_came result places.new slots.new one.new ≡ read_form V.Vocabulary.words V.Vocabulary.ranges (length places.old) (length slots.old) line.now }
    ensures within { FormWithinOk result places.new slots.new one.new }
{
    checked_length(line)?;
    let mut place = DraftReader::new(places, slots);
    let mut kind = DraftReader::new(one, &mut []);
    let mut form = Form {
        stage: Stage::Begin,
        first: Path::empty(),
        second: Path::empty(),
    };
    // As a draft's line is read: a trait for both readers would say again in its ghost members all that `step` and `end` ensure.
    for x in Lexemes::new(line) {
        form = form.step::<K, V>(x?, line, &mut place, &mut kind)?;
    }
    form.end(line.len(), &place)?;
    let cur = form.cursor(place.cur, kind.cur);
    Ok(FormCursor { form, cur })
}
