// Making and opening a job.
ghost use Rattle.std.specs.Prelude.{◌≡◌, ◌<◌, min};
ghost use Rattle.records.specs.Sheets.{blank_sheet};
ghost use Rattle.jobs.specs.Jobs.{place_room, slot_room, shelf_place_room, shelf_slot_room, place_limit, slot_limit, place_count, slot_count, standing_sheet, Opened, Tidy, SameLoans, SameLengths};

use super::{Job, MOST_SHELF_PLACES, MOST_SHELF_SLOTS, State};
use asks::blank_from;
use kinds::kind::Kind;
use records::{Counts, MOST_PLACES, MOST_SLOTS, no_place, no_slot, own_numbers};

impl State {
    // The numbers of a job that was never opened.
    pub fn closed() -> State
        ensures { (result.limits.places ≡ 0) × (result.limits.slots ≡ 0) × (result.standing.places ≡ 0) × (result.standing.slots ≡ 0) }
    {
        State {
            limits: Counts::default(),
            standing: Counts::default(),
        }
    }

    // The numbers of a job that was just opened: the blank sheet stands, if there is room for it.
    fn opened(limits: Counts) -> State
        ensures limits { (result.limits.places ≡ limits.places) × (result.limits.slots ≡ limits.slots) }
        ensures counts { (result.standing.places ≡ min limits.places 1) × (result.standing.slots ≡ 0) }
    {
        State {
            limits,
            standing: Counts {
                places: limits.places.min(1),
                slots: 0,
            },
        }
    }
}

impl<'a, K: Kind> Job<'a, K> {
    // The most places and slots that a sheet on these tables can have.
    fn room(&self) -> Counts
        ensures places { result.places ≡ place_room self.now }
        ensures slots { result.slots ≡ slot_room self.now }
    {
        let work = self.work_places.len().min(self.links.len());
        Counts {
            places: MOST_PLACES.min(self.places.len().min(work)),
            slots: MOST_SLOTS.min(self.slots.len().min(self.work_slots.len())),
        }
    }

    // How many places and slots of the shelf count.
    fn shelf_room(&self) -> Counts
        ensures places { result.places ≡ shelf_place_room self.now }
        ensures slots { result.slots ≡ shelf_slot_room self.now }
    {
        Counts {
            places: MOST_SHELF_PLACES.min(self.shelf_places.len()),
            slots: MOST_SHELF_SLOTS.min(self.shelf_slots.len()),
        }
    }

    // How many places and slots the standing sheet has; none before a job with room is opened.
    pub fn counts(&self) -> Counts
        ensures places { result.places ≡ place_count self.now }
        ensures slots { result.slots ≡ slot_count self.now }
    {
        self.state.standing
    }

    // Begins a new job on the tables, whatever they held: the blank sheet stands. With no room for a place nothing is written.
    pub fn open(&mut self)
        ensures limits { (place_limit self.new ≡ place_room self.old) × (slot_limit self.new ≡ slot_room self.old) }
        ensures counts { (place_count self.new ≡ min (place_room self.old) 1) × (slot_count self.new ≡ 0) }
        ensures tables { Opened K.Kind.laws self.old self.new }
        ensures sheet { 0 < place_room self.old → standing_sheet K.Kind.laws self.new ≡ blank_sheet K.Kind.laws }
        ensures tidy { Tidy K.Kind.laws self.new }
        ensures loans { SameLoans self.new self.old }
        ensures lengths { SameLengths self.new self.old }
    {
        let limits = self.room();
        let state = State::opened(limits);
        if limits.places == 0 {
            self.state = state;
            return;
        }
        let shelf = self.shelf_room();
        // While the tables are written, the job is a closed one.
        self.state = State::closed();
        blank_from(self.places, 0, limits.places, no_place::<K>());
        blank_from(self.slots, 0, limits.slots, no_slot());
        blank_from(self.work_places, 0, limits.places, no_place::<K>());
        blank_from(self.work_slots, 0, limits.slots, no_slot());
        own_numbers(&mut self.links[..limits.places]);
        blank_from(self.shelf_places, 0, shelf.places, no_place::<K>());
        blank_from(self.shelf_slots, 0, shelf.slots, no_slot());
        self.state = state;
    }
}
