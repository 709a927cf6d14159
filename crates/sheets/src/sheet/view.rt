// The records that a sheet shows.
ghost use Rattle.std.specs.Prelude.{◌≡◌};
ghost use Rattle.sheets.specs.Shown.{shown_places, shown_slots};

use super::Sheet;
use kinds::kind::Kind;
use records::{PlaceRecord, SlotRecord};

impl<'a, K: Kind> Sheet<'a, K> {
    // The records of the places shown.
    pub fn places(&self) -> &'a [PlaceRecord<K::Form>]
        ensures { result.now ≡ shown_places self.now }
    {
        self.tables.places
    }

    // The records of the slots shown.
    pub fn slots(&self) -> &'a [SlotRecord]
        ensures { result.now ≡ shown_slots self.now }
    {
        self.tables.slots
    }
}
