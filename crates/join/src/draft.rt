// A sheet as it is put together, place by place, with its names given as words.
ghost use Rattle.std.specs.Prelude.{◌≡◌, IfOk, Some};
ghost use Rattle.names.specs.Names.{NumberOf};
ghost use Rattle.sheets.specs.Shown.{shown_places, shown_slots};

use anyhow::{Context, anyhow};
use either_kind::either::{Either, EitherForm};
use kinds::catalogue::Catalogue;
use kinds::kind::Kind;
use names::number::number_of;
use ranges::range::{Range, RangeForm};
use records::{PlaceRecord, SlotRecord, Tables};
use sheets::sheet::Sheet;
use std::alloc::Global;

// The kinds of the program: a kind of the catalogue, a range, or any.
pub(crate) type OrderKind = Either<Catalogue, Range>;

pub(crate) type OrderPlace = PlaceRecord<EitherForm<u8, RangeForm>>;

// The records of the places and of the slots so far.
#[derive(Drop)]
pub(crate) struct Draft {
    places: Vec<OrderPlace>,
    slots: Vec<SlotRecord>,
}

// The number of a name.
fn name_of(word: &str) -> anyhow::Result<u64>
    ensures { IfOk result (λ n. NumberOf word.now (Some n)) }
{
    number_of(word.as_bytes()).context("a word that is no name")
}

// The numbers of the names of a path.
pub(crate) fn path_of(heap: Global, words: &[&str]) -> anyhow::Result<Vec<u64>> {
    let mut path = Vec::new(heap);
    for word in words {
        path.push(name_of(word)?)?;
    }
    Ok(path)
}

impl Draft {
    pub(crate) fn new(heap: Global) -> Draft {
        Draft {
            places: Vec::new(heap),
            slots: Vec::new(heap),
        }
    }

    // A sheet of one place.
    pub(crate) fn of_kind(heap: Global, kind: OrderKind) -> anyhow::Result<Draft> {
        let mut draft = Draft::new(heap);
        draft.leaf(kind)?;
        Ok(draft)
    }

    // Puts the record of a place behind the others; its slots are to follow.
    fn begin(&mut self, kind: OrderKind, slots: usize) -> anyhow::Result<()> {
        let before = u16::try_from(self.slots.len())?;
        let count = u16::try_from(slots)?;
        self.places.push(PlaceRecord {
            kind: kind.store(),
            before,
            count,
        })?;
        Ok(())
    }

    // Puts a place without slots behind the others.
    pub(crate) fn leaf(&mut self, kind: OrderKind) -> anyhow::Result<()> {
        self.begin(kind, 0)
    }

    // Puts a place behind the others. Each slot is a name and the number of the place that it leads to.
    pub(crate) fn place(&mut self, kind: OrderKind, slots: &[(&str, u16)]) -> anyhow::Result<()> {
        self.begin(kind, slots.len())?;
        for (word, target) in slots {
            self.slots.push(SlotRecord {
                name: name_of(word)?,
                target: *target,
            })?;
        }
        Ok(())
    }

    // The sheet that the records are.
    pub(crate) fn sheet(&self) -> anyhow::Result<Sheet<'_, OrderKind>>
        ensures { IfOk result (λ sheet. (shown_places sheet ≡ self.now.places.items) × (shown_slots sheet ≡ self.now.slots.items)) }
    {
        let tables = Tables {
            places: &self.places,
            slots: &self.slots,
        };
        let mut sheet = Sheet::empty();
        sheet
            .check(tables, tables.counts())
            .map_err(|_| anyhow!("a table that is no sheet"))?;
        Ok(sheet)
    }
}
