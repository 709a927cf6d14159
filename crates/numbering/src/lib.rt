// Numbering: the classes of joined places are written into output tables, each class a place, in canonical numbering. (The field
// says quotient graph.) Classes are taken by rising number and their slots by rising name, and a class that a slot leads to for the
// first time gets the next number.
// To read in this order: classes (the places of each class), picking (the slots of a class by name), numbers (the numbers given so
// far), writing.
#![tactic(auto)]

mod classes;
mod numbers;
mod picking;
mod writing;

ghost use Rattle.std.specs.Prelude.{◌≤◌, length, take};
ghost use Rattle.numbering.specs.Quotient.{Quotient, Work, at, Kept};
ghost use Rattle.numbering.specs.Sides.{Assembled, Ready};

use classes::{Classes, list_places};
use records::{Counts, MOST_PLACES, PlaceRecord, SlotRecord, Tables};

// Writes the sheet of the classes, and answers how many places and slots it has. `ends[x]` is a place of the class of `x`, the same
// for the whole class, and the class gets the kind that stands there.
// Two tables to write to: of a struct of two `&mut` slices, what a call does to a part of one could not be shown of the table.
pub fn number<F: Copy>(
    sides: Tables<'_, F>,
    ends: &[u16],
    outp: &mut [PlaceRecord<F>],
    outs: &mut [SlotRecord],
) -> Counts
    requires work { Work sides.places.now sides.slots.now (at ends.now) }
    requires size { (length sides.places.now ≤ length ends.now) × ((length sides.places.now ≤ 1000) × (length sides.slots.now ≤ 65535)) }
    requires output { (length sides.places.now ≤ length outp.old) × (length sides.slots.now ≤ length outs.old) }
    ensures quotient { Quotient sides.entry.places.now sides.entry.slots.now (at ends.now) (take result.places outp.new) (take result.slots outs.new) }
    ensures within { (result.places ≤ length sides.entry.places.now) × (result.slots ≤ length sides.entry.slots.now) }
    ensures kept { (Kept result.places outp.old outp.new) × (Kept result.slots outs.old outs.new) }
{
    let mut last = [None; MOST_PLACES];
    let mut previous = [None; MOST_PLACES];
    list_places(ends, sides.places.len(), &mut last, &mut previous);
    let classes = Classes {
        tables: sides,
        ends,
        last: &last,
        previous: &previous,
    };
    classes.write(outp, outs)
}

// What the merge of two sheets rests on: side by side, with the classes of joined places, they meet what `number` requires, and what
// it writes is their merge but for the kinds.
pub fn sides_stand<K, F>()
    ensures ready { Ready K F }
    ensures assembled { Assembled K F }
{}
