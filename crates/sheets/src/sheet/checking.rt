// A sheet begins as a view of nothing, and a check makes it show a table.
ghost use Rattle.std.specs.Prelude.{◌≡◌, take, is_ok, Decides, MatchBool};
ghost use Rattle.sheets.specs.Checks.{Holds, table_checks};
ghost use Rattle.sheets.specs.Faults.{number_of};
ghost use Rattle.sheets.specs.Refusals.{Answered, after, refusal};
ghost use Rattle.sheets.specs.Shown.{ShowsNothing, ShowsSheet, shown_places, shown_slots};

use super::Sheet;
use crate::fault::SheetFault;
use crate::table::checked;
use kinds::kind::Kind;
use records::{Counts, Tables};

impl<'a, K: Kind> Sheet<'a, K> {
    // A sheet that shows nothing.
    pub fn empty() -> Sheet<'a, K>
        ensures { ShowsNothing result }
    {
        Sheet {
            tables: Tables {
                places: &[],
                slots: &[],
            },
        }
    }

    // Makes the sheet show the first places and slots of the tables, as many as are counted, if they are one, and else leaves it.
    pub fn check(&mut self, tables: Tables<'a, K::Form>, counts: Counts) -> Result<(), SheetFault>
        ensures answer { Answered (table_checks tables.entry.places.now tables.entry.slots.now counts.places counts.slots) (refusal number_of result) }
        ensures accepted { Decides (is_ok result) (Holds tables.entry.places.now tables.entry.slots.now counts.places counts.slots) }
        ensures places { shown_places self.new ≡ after result (take counts.places tables.entry.places.now) (shown_places self.old) }
        ensures slots { shown_slots self.new ≡ after result (take counts.slots tables.entry.slots.now) (shown_slots self.old) }
    {
        self.tables = checked(tables, counts)?;
        Ok(())
    }

    // Whether the sheet shows nothing; else it shows a sheet.
    pub fn is_empty(&self) -> bool
        ensures { MatchBool result (ShowsNothing self.now) (ShowsSheet self.now) }
    {
        self.tables.places.is_empty()
    }
}
