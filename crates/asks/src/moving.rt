// Records that stand behind others: the number that each has changes with how many those are.
ghost use Rattle.std.specs.Prelude.{◌≡◌, ℕ, ◌+◌, ◌<◌};
ghost use Rattle.asks.specs.Asks.{moved_place, moved_slot};

use records::{PlaceRecord, SlotRecord};

pub(crate) trait Moved: Copy {
    // The record, behind so many more.
    ghost behind: { ℕ → Self → Self };

    // The number that changes.
    ghost number: { Self → ℕ };

    fn moved(self, by: usize) -> Self
        requires { by + number self < 65536 }
        ensures { result ≡ behind by self };
}

impl<F: Copy> Moved for PlaceRecord<F> {
    ghost behind = { moved_place };

    ghost number = { λ r. r.before };

    fn moved(self, by: usize) -> Self {
        PlaceRecord {
            before: (by + self.before as usize) as u16,
            ..self
        }
    }
}

impl Moved for SlotRecord {
    ghost behind = { moved_slot };

    ghost number = { λ r. r.target };

    fn moved(self, by: usize) -> Self {
        SlotRecord {
            target: (by + self.target as usize) as u16,
            ..self
        }
    }
}
