// A sheet: a view of two checked tables, or of nothing. Only a check makes it show a table.
ghost use Rattle.std.specs.Prelude.{◌≡◌, ◌<◌, ◌≤◌, length};
ghost use Rattle.sheets.specs.Checks.{IsSheet};

use kinds::kind::Kind;
use records::Tables;

pub mod checking;
pub mod view;

// Where there is no place, nothing is shown. `shown` says what every sheet is: nothing, or tables that hold a sheet.
#[derive(Drop)]
pub struct Sheet<'a, K: Kind> {
    tables: Tables<'a, K::Form>,
    ghost limits: { (length tables.places.now ≤ 1000) × (length tables.slots.now ≤ 4000) },
    ghost shown: { (0 < length tables.places.now → ∥ IsSheet tables.places.now tables.slots.now ∥₁) },
    ghost nothing: { (length tables.places.now ≤ 0 → length tables.slots.now ≤ 0) },
}

impl<'a, K: Kind> Sheet<'a, K> {
    ghost use Rattle.sheets.specs.Shown.{shown_places, shown_slots};

    // The tables that are shown.
    pub fn tables(&self) -> Tables<'a, K::Form>
        ensures places { result.places.now ≡ shown_places self.now }
        ensures slots { result.slots.now ≡ shown_slots self.now }
    {
        self.tables
    }
}
