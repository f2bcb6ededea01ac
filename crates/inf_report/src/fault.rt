//! Why a report was not written whole.

use inf_base::NoMemory;
use inf_io::WriteFault;
use std::alloc::AllocError;
use std::error::Error;
use std::fmt;

/// Why a report was not written whole.
#[derive(Clone, Copy, Debug, PartialEq, Eq)]
pub enum ReportFault {
    /// The sink failed.
    Write,
    NoMemory,
}

impl fmt::Display for ReportFault {
    fn fmt<W: fmt::Write>(&self, f: &mut fmt::Formatter<W>) -> fmt::Result {
        f.write_str(match self {
            ReportFault::Write => "a write failed",
            ReportFault::NoMemory => "no memory is left",
        })
    }
}

impl Error for ReportFault {}

impl From<WriteFault> for ReportFault {
    ghost use Rattle.std.specs.Prelude.{◌≡◌};
    ghost use Rattle.inf_report.specs.declared.fault.ReportFault.TheVariants as faults;

    ghost from_gives = { λ _ e. e ≡ faults.Write };

    fn from(_error: WriteFault) -> ReportFault {
        ReportFault::Write
    }
}

impl From<NoMemory> for ReportFault {
    ghost use Rattle.std.specs.Prelude.{◌≡◌};
    ghost use Rattle.inf_report.specs.declared.fault.ReportFault.TheVariants as faults;

    ghost from_gives = { λ _ e. e ≡ faults.NoMemory };

    fn from(_error: NoMemory) -> ReportFault {
        ReportFault::NoMemory
    }
}

impl From<AllocError> for ReportFault {
    ghost use Rattle.std.specs.Prelude.{◌≡◌};
    ghost use Rattle.inf_report.specs.declared.fault.ReportFault.TheVariants as faults;

    ghost from_gives = { λ _ e. e ≡ faults.NoMemory };

    fn from(_error: AllocError) -> ReportFault {
        ReportFault::NoMemory
    }
}
