// The job and what holds of every job between calls. The calls stand in the modules below this one, which see the private fields.
ghost use Rattle.std.specs.Prelude.{◌<◌, ◌≤◌, length};
ghost use Rattle.jobs.specs.Sound.{Sound};

use kinds::kind::Kind;
use records::{Counts, PlaceRecord, SlotRecord};

pub mod adding;
pub mod opening;

// The most records of the shelf that count, however long its tables are.
const MOST_SHELF_PLACES: usize = 8000;

const MOST_SHELF_SLOTS: usize = 32000;

// The numbers of a job: the most places and slots that its sheet can have, and how many its standing sheet has. A job that was
// never opened, or has no room for a place, has a limit of 0 places.
// (One number for both, and no Option: a job that was never opened must behave as one with no room for a place.)
#[derive(Drop)]
pub struct State {
    limits: Counts,
    standing: Counts,
}

// Seven lent tables and the numbers that say how far each is used. The first records of `places` and `slots` are the standing
// sheet; between calls each link holds its own number.
#[derive(Drop)]
pub struct Job<'a, K: Kind> {
    pub places: &'a mut [PlaceRecord<K::Form>],
    pub slots: &'a mut [SlotRecord],
    pub work_places: &'a mut [PlaceRecord<K::Form>],
    pub work_slots: &'a mut [SlotRecord],
    pub links: &'a mut [u16],
    pub shelf_places: &'a mut [PlaceRecord<K::Form>],
    pub shelf_slots: &'a mut [SlotRecord],
    pub state: State,
    ghost place_room: { (state.limits.places ≤ 1000) × (state.limits.places ≤ length places.now) × (state.limits.places ≤ length work_places.now) × (state.limits.places ≤ length links.now) × (state.standing.places ≤ state.limits.places) },
    ghost slot_room: { (state.limits.slots ≤ 4000) × (state.limits.slots ≤ length slots.now) × (state.limits.slots ≤ length work_slots.now) × (state.standing.slots ≤ state.limits.slots) },
    ghost sound: { (0 < state.limits.places → ∥ Sound state places.now slots.now links.now ∥₁) },
}
