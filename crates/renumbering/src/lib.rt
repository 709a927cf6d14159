// Numbering a draft anew: the same graph in canonical numbering, each place a class of its own.
// To read in this order: drafts (whether tables hold a draft), then the numbering here.
#![tactic(auto)]

mod drafts;

ghost use Rattle.std.specs.Prelude.{length, is_some, Decides};
ghost use Rattle.renumbering.specs.Drafts.{DraftWithin, Renumbers};

use drafts::is_draft;
use numbering::number;
use records::{Counts, MOST_PLACES, PlaceRecord, SlotRecord, Tables, own_numbers};

// Writes the graph of a draft in canonical numbering, and answers its counts; or answers none where the tables hold no draft or the
// tables to write to have no room for it, and leaves these as they were.
// Two tables to write to: of a struct of two `&mut` slices, what a call does to a part of one could not be shown of the table.
pub fn renumber<F: Copy>(
    draft: Tables<'_, F>,
    outp: &mut [PlaceRecord<F>],
    outs: &mut [SlotRecord],
) -> Option<Counts>
    ensures answer { Decides (is_some result) (DraftWithin draft.entry.places.now draft.entry.slots.now (length outp.old) (length outs.old)) }
    ensures written { Renumbers draft.entry.places.now draft.entry.slots.now result outp.old outp.new outs.old outs.new }
{
    if outp.len() < draft.places.len() || outs.len() < draft.slots.len() || !is_draft(draft) {
        return None;
    }
    let mut ends = [0u16; MOST_PLACES];
    own_numbers(&mut ends);
    Some(number(draft, &ends, outp, outs))
}
