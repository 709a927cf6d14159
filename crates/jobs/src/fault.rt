// The faults of the job layer, with their numbers. A job fault carries a sheet fault whole.
ghost use Rattle.std.specs.Prelude.{◌≡◌};
ghost use Rattle.jobs.specs.Faults.{fault_number};
ghost use Rattle.jobs.specs.FaultLaws.{fault_layered};
ghost use Rattle.jobs.specs.declared.fault.JobFault.TheVariants.{Clash, Sheet};

use faults::Fault;
use meets::Clash;
use sheets::fault::SheetFault;

// Why a call of a job was refused.
#[derive(Clone, Copy, PartialEq, Eq, Debug)]
pub enum JobFault {
    // There is no room for a place, or the job was never opened.
    NoRoom,
    // Side by side, the standing sheet and the ask have more places or slots than there is room for.
    TooLarge,
    // The standing sheet and the ask have no merge.
    Clash,
    // A refusal of the sheet layer.
    Sheet(SheetFault),
}

impl From<Clash> for JobFault {
    ghost from_gives = { λ x y. y ≡ Clash };

    fn from(_clash: Clash) -> JobFault {
        Self::Clash
    }
}

impl From<SheetFault> for JobFault {
    ghost from_gives = { λ x y. y ≡ Sheet x };

    fn from(fault: SheetFault) -> JobFault {
        Self::Sheet(fault)
    }
}

impl Fault for JobFault {
    ghost numbers = { fault_number };

    ghost layered = { fault_layered };

    fn number(self) -> u8 {
        match self {
            JobFault::NoRoom => 30,
            JobFault::TooLarge => 31,
            JobFault::Clash => 32,
            JobFault::Sheet(fault) => fault.number(),
        }
    }
}
