//! Why there was no text, or not all of it.

ghost use Rattle.std.specs.Prelude.{◌≡◌, ◌≢◌, IfOk, IsErr, OnOk};

use pr_basic::ScriptFault;
use pr_capture::CaptureFault;
use pr_input::ReadFault;
use pr_wire::{CheckFault, TraceFault, WaveFault};
use std::alloc::AllocError;
use thiserror::Error;

/// Why pages can not be shown.
#[derive(Clone, Copy, Debug, PartialEq, Eq, Error)]
pub enum PictureFault {
    /// There is no such sheet: the printer's pages have this many.
    #[error("no such sheet")]
    NoSuchSheet(u64),
    /// The document would be longer than a PDF document can be, 9,999,999,999 bytes, or the bitmap higher than 1,000,000 pixels.
    #[error("picture too large")]
    TooLarge,
}

/// Why a run of the program wrote no text, or not all of it.
#[derive(Clone, Copy, Debug, PartialEq, Eq, Error)]
pub enum CliFault {
    /// The script is refused, with its first fault and that fault's line. It is never lack of
    /// memory.
    #[error(transparent)]
    Script(ScriptFault),
    /// The text is no trace text.
    #[error(transparent)]
    Trace(TraceFault),
    /// The edges are no lawful trace.
    #[error(transparent)]
    Wave(WaveFault),
    /// The recording can not be read, with the line where. It is never lack of memory.
    #[error(transparent)]
    Capture(CaptureFault),
    /// The pages can not be shown in this format.
    #[error(transparent)]
    Picture(PictureFault),
    /// The input is larger than the limit.
    #[error("input too large")]
    TooLarge,
    /// Memory was refused.
    #[error("out of memory")]
    NoMemory,
    /// A read of the input failed.
    #[error("read failed")]
    ReadFailed,
    /// A write of the output failed.
    #[error("write failed")]
    WriteFailed,
}

impl From<ScriptFault> for CliFault {
    ghost use Rattle.pr_jobs.specs.Faults.{fault_of_script};

    ghost from_gives = { λ e f. f ≡ fault_of_script e };

    fn from(e: ScriptFault) -> CliFault {
        match e {
            ScriptFault::NoMemory => CliFault::NoMemory,
            refusal => CliFault::Script(refusal),
        }
    }
}

impl From<CheckFault> for CliFault {
    ghost use Rattle.pr_jobs.specs.Faults.{fault_of_check};

    ghost from_gives = { λ e f. f ≡ fault_of_check e };

    fn from(e: CheckFault) -> CliFault {
        match e {
            CheckFault::BadLine(line) => CliFault::Trace(TraceFault::BadLine(line)),
            CheckFault::Unlawful(fault) => CliFault::Wave(fault),
        }
    }
}

impl From<TraceFault> for CliFault {
    ghost use Rattle.pr_jobs.specs.Faults.{fault_of_trace};

    ghost from_gives = { λ e f. f ≡ fault_of_trace e };

    fn from(e: TraceFault) -> CliFault {
        match e {
            TraceFault::NoMemory => CliFault::NoMemory,
            refusal => CliFault::Trace(refusal),
        }
    }
}

impl From<CaptureFault> for CliFault {
    ghost use Rattle.pr_jobs.specs.Faults.{fault_of_capture};

    ghost from_gives = { λ e f. f ≡ fault_of_capture e };

    fn from(e: CaptureFault) -> CliFault {
        match e {
            CaptureFault::NoMemory => CliFault::NoMemory,
            refusal => CliFault::Capture(refusal),
        }
    }
}

impl From<PictureFault> for CliFault {
    ghost use Rattle.pr_jobs.specs.declared.fault.CliFault.TheVariants.{Picture};

    ghost from_gives = { λ e f. f ≡ Picture e };

    fn from(e: PictureFault) -> CliFault {
        CliFault::Picture(e)
    }
}

impl From<AllocError> for CliFault {
    ghost use Rattle.pr_jobs.specs.declared.fault.CliFault.TheVariants.{NoMemory};

    ghost from_gives = { λ _ f. f ≡ NoMemory };

    fn from(_e: AllocError) -> CliFault {
        CliFault::NoMemory
    }
}

impl From<ReadFault> for CliFault {
    ghost use Rattle.pr_jobs.specs.Faults.{fault_of_read};

    ghost from_gives = { λ e f. f ≡ fault_of_read e };

    fn from(e: ReadFault) -> CliFault {
        match e {
            ReadFault::TooLarge => CliFault::TooLarge,
            ReadFault::NoMemory => CliFault::NoMemory,
            ReadFault::ReadFailed => CliFault::ReadFailed,
        }
    }
}

/// Returns a fault as it is, if it is one of an input itself.
///
/// # Errors
///
/// `AllocError` exactly where the fault is [`CliFault::NoMemory`], which is no fault of an input.
pub fn own_fault(fault: CliFault) -> Result<CliFault, AllocError>
    ensures same { IfOk result (λ own. own ≡ fault) }
    ensures own { OnOk result (fault ≢ CliFault.NoMemory) }
    ensures memory { IsErr result → fault ≡ CliFault.NoMemory }
{
    match fault {
        CliFault::NoMemory => Err(AllocError),
        own => Ok(own),
    }
}
