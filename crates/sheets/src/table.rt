// The check of two tables. Each check goes over the whole of both before the next begins.
ghost use Rattle.std.specs.Prelude.{◌≡◌, take, IfOk};
ghost use Rattle.sheets.specs.Checks.{table_checks};
ghost use Rattle.sheets.specs.Faults.{number_of};
ghost use Rattle.sheets.specs.Refusals.{Answered, refusal};

use self::naming::is_named;
use self::numbering::other_numbering;
use crate::fault::SheetFault;
use records::{Counts, MOST_PLACES, MOST_SLOTS, Tables};

mod naming;
mod numbering;

// The first places and slots of the tables, as many as are counted, if they are a sheet, and if not, the first fault.
pub(crate) fn checked<F: Copy>(
    tables: Tables<'_, F>,
    counts: Counts,
) -> Result<Tables<'_, F>, SheetFault>
    ensures answer { Answered (table_checks tables.entry.places.now tables.entry.slots.now counts.places counts.slots) (refusal number_of result) }
    ensures places { IfOk result (λ t. t.places.now ≡ take counts.places tables.entry.places.now) }
    ensures slots { IfOk result (λ t. t.slots.now ≡ take counts.slots tables.entry.slots.now) }
{
    if counts.places == 0 {
        return Err(SheetFault::NoPlace);
    }
    if counts.places > MOST_PLACES
        || counts.places > tables.places.len()
        || counts.slots > MOST_SLOTS
        || counts.slots > tables.slots.len()
    {
        return Err(SheetFault::TooMany);
    }
    let shown = Tables {
        places: &tables.places[..counts.places],
        slots: &tables.slots[..counts.slots],
    };
    if !shown.is_counted() || !shown.is_aimed() {
        return Err(SheetFault::WrongCounts);
    }
    if !is_named(shown.slots) || !shown.is_rising() {
        return Err(SheetFault::WrongNames);
    }
    if other_numbering(shown) {
        return Err(SheetFault::OtherNumbering);
    }
    Ok(shown)
}
