// The sheets that are measured, of places of the greatest kind.
ghost use Rattle.std.specs.Prelude.{◌≡◌, ◌<◌, ◌≤◌, IfOk, Some};
ghost use Rattle.names.specs.Names.{NumberOf};
ghost use Rattle.sheets.specs.Shown.{shown_places, shown_slots};

use anyhow::{Context, anyhow};
use kinds::catalogue::Catalogue;
use kinds::kind::Kind;
use names::number::number_of;
use records::{PlaceRecord, SlotRecord, Tables};
use sheets::sheet::Sheet;
use std::alloc::Global;

// A sheet as it is put together, place by place. (Its like in the program `join` cannot be shared: library crates have no heap.)
#[derive(Drop)]
pub(crate) struct Table {
    places: Vec<PlaceRecord<u8>>,
    slots: Vec<SlotRecord>,
}

// A slot of a name.
fn slot(word: &str, target: u16) -> anyhow::Result<SlotRecord>
    ensures { IfOk result (λ s. NumberOf word.now (Some s.name) × (s.target ≡ target)) }
{
    let name = number_of(word.as_bytes()).context("a word that is no name")?;
    Ok(SlotRecord { name, target })
}

impl Table {
    fn new(heap: Global) -> Table {
        Table {
            places: Vec::new(heap),
            slots: Vec::new(heap),
        }
    }

    // Puts a place with its slots behind the others.
    fn place(&mut self, slots: &[SlotRecord]) -> anyhow::Result<()> {
        let before = u16::try_from(self.slots.len())?;
        let count = u16::try_from(slots.len())?;
        self.places.push(PlaceRecord {
            kind: Catalogue::greatest().store(),
            before,
            count,
        })?;
        for slot in slots {
            self.slots.push(*slot)?;
        }
        Ok(())
    }

    // The sheet that the records are.
    pub(crate) fn sheet(&self) -> anyhow::Result<Sheet<'_, Catalogue>>
        ensures { IfOk result (λ sheet. (shown_places sheet ≡ self.now.places.items) × (shown_slots sheet ≡ self.now.slots.items)) }
    {
        let tables = Tables {
            places: &self.places,
            slots: &self.slots,
        };
        let mut sheet = Sheet::empty();
        sheet
            .check(tables, tables.counts())
            .map_err(|_| anyhow!("a table that is no sheet"))?;
        Ok(sheet)
    }
}

// The number if it is below `n`, and else the root's.
fn within(number: u16, n: u16) -> u16
    ensures { ((number < n → result ≡ number)) × ((n ≤ number → result ≡ 0)) }
{
    if number < n { number } else { 0 }
}

// Each place leads to two more as long as there are any, and then back to the root; and each leads to itself.
pub(crate) fn tree(heap: Global, n: u16) -> anyhow::Result<Table> {
    let mut table = Table::new(heap);
    for p in 0..n {
        let left = p.saturating_mul(2).saturating_add(1);
        let right = left.saturating_add(1);
        table.place(&[
            slot("a", within(left, n))?,
            slot("b", within(right, n))?,
            slot("c", p)?,
        ])?;
    }
    Ok(table)
}

// Each place leads to the next.
pub(crate) fn chain(heap: Global, n: u16) -> anyhow::Result<Table> {
    let mut table = Table::new(heap);
    for p in 1..n {
        table.place(&[slot("a", p)?])?;
    }
    table.place(&[])?;
    Ok(table)
}

// One place that leads to itself.
pub(crate) fn ring(heap: Global) -> anyhow::Result<Table> {
    let mut table = Table::new(heap);
    table.place(&[slot("a", 0)?])?;
    Ok(table)
}

// Each place leads to the next and to the one before.
pub(crate) fn chain_back(heap: Global, n: u16) -> anyhow::Result<Table> {
    let mut table = Table::new(heap);
    table.place(&[slot("a", 1)?])?;
    for next in 2..n {
        table.place(&[slot("a", next)?, slot("b", next - 2)?])?;
    }
    table.place(&[slot("b", n.saturating_sub(2))?])?;
    Ok(table)
}

// Each place leads to the next, and the last leads back to itself: merged with the chain above, all places fold into one, from the
// last to the first.
pub(crate) fn chain_to_ring(heap: Global, n: u16) -> anyhow::Result<Table> {
    let mut table = Table::new(heap);
    for p in 1..n {
        table.place(&[slot("a", p)?])?;
    }
    table.place(&[slot("b", n.saturating_sub(1))?])?;
    Ok(table)
}
