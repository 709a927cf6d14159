// Showing a sheet: its text, as a line that reads back as the same sheet. The text is measured before it is written, so that a
// refusal leaves the output as it was.
//
// fault: why show is refused, with its number. source: what is written, and which places have tags. walk: depth first from the root.
// writing: the output and the pieces of the text.
#![tactic(auto)]

ghost use Rattle.records.specs.Sheets.{sheet_of};
ghost use Rattle.sheets.specs.Refusals.{Answered, refusal};
ghost use Rattle.sheets.specs.Shown.{shown_places, shown_slots};
ghost use Rattle.showing.specs.Faults.{number_of};
ghost use Rattle.showing.specs.Showing.{Leaves, show_checks};
ghost use Rattle.showing.specs.Walking.{OneText};

use crate::fault::ShowFault;
use crate::source::Source;
use crate::walk::Progress;
use kinds::kind::Kind;
use lines::reader::MOST_BYTES;
use sheets::sheet::Sheet;
use vocabulary::vocabulary::Vocabulary;

pub mod fault;
mod source;
mod walk;
mod writing;

// The most places of a shown sheet that have a tag.
const MOST_TAGS: usize = 99;

// Writes the text of a sheet to the output, and answers how long it is.
pub fn show<K: Kind, V: Vocabulary<K>>(
    sheet: &Sheet<'_, K>,
    out: &mut [u8],
) -> Result<usize, ShowFault>
    ensures answer { Answered (show_checks K.Kind.laws V.Vocabulary.texts sheet.now out.old) (refusal number_of result) }
    ensures leaves { Leaves K.Kind.laws V.Vocabulary.texts (sheet_of K.Kind.laws (shown_places sheet.now) (shown_slots sheet.now)) out.old result out.new }
    ensures single { OneText K.Kind.laws V.Vocabulary.texts (sheet_of K.Kind.laws (shown_places sheet.now) (shown_slots sheet.now)) }
{
    if sheet.is_empty() {
        return Err(ShowFault::NoPlace);
    }
    let source = Source::new(sheet.tables());
    if source.count_tags() > MOST_TAGS {
        return Err(ShowFault::TooManyTags);
    }
    let mut progress = Progress::new();
    let length = source.write::<V>(&mut progress, &mut []);
    if length > MOST_BYTES || length > out.len() {
        return Err(ShowFault::TooLong);
    }
    progress.restart();
    Ok(source.write::<V>(&mut progress, out))
}
