// A draft as it is read into lent tables.
ghost use Rattle.reading.specs.Held.{Held};

use crate::draft::{Cursor, Mode, Place, Slot};
use crate::drafting::lookup::Lookup;

// The tables have what has been read in their first records; the cursor says how far, and the look-up stands for it.
#[derive(Drop)]
pub(crate) struct DraftReader<'a, K: Copy> {
    pub(crate) places: &'a mut [Place<K>],
    pub(crate) slots: &'a mut [Slot],
    pub(crate) cur: Cursor,
    pub(crate) look: Lookup,
    ghost held: { Held cur places.now slots.now look },
}

// Each method ensures `SameTables`: an invariant speaks of one state, and this of two.
impl<'a, K: Copy> DraftReader<'a, K> {
    ghost use Rattle.std.specs.Prelude.{◌≡◌, ◌≤◌, length};
    ghost use Rattle.reading.specs.Drafts.{nothing};
    ghost use Rattle.reading.specs.Readers.{read};

    // Nothing has been read.
    pub(crate) fn new(places: &'a mut [Place<K>], slots: &'a mut [Slot]) -> DraftReader<'a, K>
        requires few { (length places.old ≤ 1000) × (length slots.old ≤ 4000) }
        ensures nothing { read result ≡ nothing }
        ensures places { (result.places.ghost_name ≡ places.entry.ghost_name) × (result.places.now ≡ places.old) }
        ensures slots { (result.slots.ghost_name ≡ slots.entry.ghost_name) × (result.slots.now ≡ slots.old) }
    {
        DraftReader {
            places,
            slots,
            cur: Cursor {
                mode: Mode::Begin,
                top: 0,
                places: 0,
                slots: 0,
            },
            look: Lookup::new(),
        }
    }
}
