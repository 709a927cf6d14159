// A job: a sheet that is being worked on, in seven tables that its caller lends. A job owns no memory. `job_over!` makes a closed
// job over the caller's tables, and `open` begins it.
#![tactic(auto)]

pub mod fault;
pub mod job;

pub use job::{Job, State};

// A closed job over seven tables.
#[macro_export]
macro_rules! job_over {
    ($places:expr, $slots:expr, $work_places:expr, $work_slots:expr, $links:expr, $shelf_places:expr, $shelf_slots:expr) => {
        $crate::Job {
            places: $places,
            slots: $slots,
            work_places: $work_places,
            work_slots: $work_slots,
            links: $links,
            shelf_places: $shelf_places,
            shelf_slots: $shelf_slots,
            state: $crate::State::closed(),
        }
    };
}
