// The numbering of a table's places.
ghost use Rattle.std.specs.Prelude.{◌≡◌, length, Decides, MatchOption};
ghost use Rattle.records.specs.Checks.{Counted};
ghost use Rattle.sheets.specs.Checks.{OtherNumbering};
ghost use Rattle.sheets.specs.Scans.{Ahead, met_from};

use records::{SlotRecord, Tables};

// Whether the places are numbered otherwise than by the slots in turn.
pub(crate) fn other_numbering<F: Copy>(tables: Tables<'_, F>) -> bool
    requires { Counted tables.places.now tables.slots.now }
    ensures { Decides result (OtherNumbering tables.entry.places.now tables.entry.slots.now) }
{
    let mut next = 1;
    // Not a walk over the records: `p` is a place's number, which is held against `next`, and its slots are asked by it.
    for p in 0..tables.places.len() {
        if p >= next {
            return true;
        }
        let Some(number) = numbered(tables.slots_of(p), next) else {
            return true;
        };
        next = number;
    }
    false
}

// How many places are numbered after these slots, where `next` are before them; none if one of them leads past the next number.
fn numbered(slots: &[SlotRecord], next: usize) -> Option<usize>
    ensures { MatchOption result (Ahead next slots.now) (λ n. (n ≡ met_from next slots.now (length slots.now)) × (Ahead next slots.now → ⊥)) }
{
    let mut next = next;
    for slot in slots {
        let target = slot.target as usize;
        if target > next {
            return None;
        }
        if target == next {
            next += 1;
        }
    }
    Some(next)
}
