// The names of a table's slots.
ghost use Rattle.std.specs.Prelude.{Decides};
ghost use Rattle.sheets.specs.Checks.{Named};

use names::spelling::of_number::is_name;
use records::SlotRecord;

// Whether every slot has the number of a name.
pub(crate) fn is_named(slots: &[SlotRecord]) -> bool
    ensures { Decides result (Named slots.now) }
{
    slots.iter().all(|slot| is_name(slot.name))
}
