// Add: the merge of the standing sheet and the add of a sheet at a path is put in the standing sheet's place.
ghost use Rattle.std.specs.Prelude.{◌≡◌, true, is_err, Ok, Decides};
ghost use Rattle.unification.specs.Merge.{Clash};
ghost use Rattle.sheets.specs.Faults.{number_of};
ghost use Rattle.sheets.specs.Refusals.{Answered, refusal};
ghost use Rattle.sheets.specs.Shown.{ShowsSheet};
ghost use Rattle.jobs.specs.Adding.{Nameless, add_checks, path_checks, room_checks, Ready, Added, Unchanged, ask_of, NoSheet};
ghost use Rattle.jobs.specs.Faults.{fault_number};
ghost use Rattle.jobs.specs.Jobs.{standing_sheet, Tidy, SameLoans, SameLengths};

use super::Job;
use crate::fault::JobFault;
use kinds::kind::Kind;
use merging::merge;
use names::spelling::of_number::is_name;
use records::{Counts, MOST_NAMES};
use sheets::fault::SheetFault;
use sheets::sheet::Sheet;

// Whether some number of a path is no name's.
fn nameless(path: &[u64]) -> bool
    ensures { Decides result (Nameless path.now) }
{
    !path.iter().all(|name| is_name(*name))
}

// Whether a sheet can be asked for at a path: it shows something, and the path is one.
fn askable<K: Kind>(path: &[u64], sheet: &Sheet<'_, K>) -> Result<(), SheetFault>
    ensures answer { Answered (path_checks path.now sheet.now) (refusal number_of result) }
    ensures shows { result ≡ Ok tt → ShowsSheet sheet.now }
{
    if sheet.is_empty() {
        return Err(SheetFault::NoPlace);
    }
    if path.len() > MOST_NAMES {
        return Err(SheetFault::LongPath);
    }
    if nameless(path) {
        return Err(SheetFault::WrongNames);
    }
    Ok(())
}

impl<'a, K: Kind> Job<'a, K> {
    // Makes the checks of an add but for the clash.
    fn admit(&self, path: &[u64], sheet: &Sheet<'_, K>) -> Result<(), JobFault>
        ensures answer { Answered (room_checks self.now path.now sheet.now) (refusal fault_number result) }
        ensures ready { result ≡ Ok tt → Ready self.now path.now sheet.now }
    {
        if self.state.limits.places == 0 {
            return Err(JobFault::NoRoom);
        }
        askable(path, sheet)?;
        let standing = self.state.standing;
        let limits = self.state.limits;
        let places = standing.places + path.len() + sheet.places().len();
        let slots = standing.slots + path.len() + sheet.slots().len();
        if places > limits.places || slots > limits.slots {
            return Err(JobFault::TooLarge);
        }
        Ok(())
    }

    // Puts the merge of the standing sheet and the add of a sheet at a path in the standing sheet's place, and answers its counts.
    pub fn add(&mut self, path: &[u64], sheet: &Sheet<'_, K>) -> Result<Counts, JobFault>
        ensures answer { Answered (add_checks self.old path.now sheet.now (Clash K.Kind.laws (standing_sheet K.Kind.laws self.old) (ask_of K.Kind.laws path.now sheet.now))) (refusal fault_number result) }
        ensures clash { Answered (add_checks self.old path.now sheet.now (NoSheet K.Kind.laws (standing_sheet K.Kind.laws self.old) (ask_of K.Kind.laws path.now sheet.now))) (refusal fault_number result) }
        ensures leaves { Added K.Kind.laws self.old path.now sheet.now result self.new }
        ensures refused { Tidy K.Kind.laws self.old → is_err result ≡ true → Unchanged self.old self.new }
        ensures tidy { Tidy K.Kind.laws self.old → Tidy K.Kind.laws self.new }
        ensures loans { SameLoans self.new self.old }
        ensures lengths { SameLengths self.new self.old }
    {
        self.admit(path, sheet)?;
        let counts = merge::<K>(
            self.places,
            self.slots,
            self.state.standing,
            path,
            sheet.tables(),
            self.work_places,
            self.work_slots,
            self.links,
        )?;
        self.state.standing = counts;
        Ok(counts)
    }
}
