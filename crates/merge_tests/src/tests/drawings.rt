// Tables of sheets with kinds of the catalogue, drawn by hand or by rule.
use kinds::catalogue::Catalogue;
use kinds::kind::Kind;
use records::{Counts, PlaceRecord, SlotRecord, Tables};
use std::alloc::{AllocError, Global};

// The numbers of the names `a` and `b`.
pub const A: u64 = 238_572_050_223_552_512;

pub const B: u64 = 477_144_100_447_105_024;

// The records of a sheet, not checked yet.
#[derive(Drop)]
pub struct Drawing {
    pub places: Vec<PlaceRecord<u8>>,
    pub slots: Vec<SlotRecord>,
}

impl Drawing {
    pub fn new(
        heap: Global,
        places: &[PlaceRecord<u8>],
        slots: &[SlotRecord],
    ) -> Result<Drawing, AllocError> {
        Ok(Drawing {
            places: places.to_vec(heap)?,
            slots: slots.to_vec(heap)?,
        })
    }

    pub fn tables(&self) -> Tables<'_, u8> {
        Tables {
            places: &self.places,
            slots: &self.slots,
        }
    }

    pub fn counts(&self) -> Counts {
        Counts {
            places: self.places.len(),
            slots: self.slots.len(),
        }
    }
}

// The tables of a sheet of one place.
pub fn alone(place: &[PlaceRecord<u8>; 1]) -> Tables<'_, u8> {
    Tables {
        places: place,
        slots: &[],
    }
}

// How many places and slots are counted.
pub fn counts(places: usize, slots: usize) -> Counts {
    Counts { places, slots }
}

pub fn place(kind: Catalogue, before: u16, count: u16) -> PlaceRecord<u8> {
    PlaceRecord {
        kind: kind.store(),
        before,
        count,
    }
}

pub fn slot(name: u64, target: u16) -> SlotRecord {
    SlotRecord { name, target }
}

// A ring of places, each with a slot `a` to the next.
pub fn ring(heap: Global, length: u16) -> Result<Drawing, AllocError> {
    let mut places = Vec::new(heap);
    let mut slots = Vec::new(heap);
    for p in 0..length {
        places.push(place(Catalogue::Thing, p, 1))?;
        slots.push(slot(A, (p + 1) % length))?;
    }
    Ok(Drawing { places, slots })
}

// A chain of slots `a` from place to place. The last place has the kind, and the others any.
pub fn chain(heap: Global, length: u16, kind: Catalogue) -> Result<Drawing, AllocError> {
    let mut places = Vec::new(heap);
    let mut slots = Vec::new(heap);
    for p in 0..length {
        places.push(place(Catalogue::Thing, p, 1))?;
        slots.push(slot(A, p + 1))?;
    }
    places.push(place(kind, length, 0))?;
    Ok(Drawing { places, slots })
}

// The number of a name of three bytes; a greater index has a greater number.
fn name(index: u16) -> u64 {
    let i = u64::from(index);
    A * (1 + i / 1369) + A / 38 * (1 + i / 37 % 37) + A / 1444 * (1 + i % 37)
}

// A root with slots that lead to as many places of the kind.
pub fn star(heap: Global, slot_count: u16, kind: Catalogue) -> Result<Drawing, AllocError> {
    let mut places = Vec::new(heap);
    let mut slots = Vec::new(heap);
    places.push(place(Catalogue::Thing, 0, slot_count))?;
    for i in 0..slot_count {
        places.push(place(kind, slot_count, 0))?;
        slots.push(slot(name(i), i + 1))?;
    }
    Ok(Drawing { places, slots })
}

// A root with slots of the same names as a star's, which all lead to one place of the kind.
pub fn bundle(heap: Global, slot_count: u16, kind: Catalogue) -> Result<Drawing, AllocError> {
    let mut places = Vec::new(heap);
    let mut slots = Vec::new(heap);
    places.push(place(Catalogue::Thing, 0, slot_count))?;
    places.push(place(kind, slot_count, 0))?;
    for i in 0..slot_count {
        slots.push(slot(name(i), 1))?;
    }
    Ok(Drawing { places, slots })
}
