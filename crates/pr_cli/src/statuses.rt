//! How the program ends, and its exit statuses.

ghost use Rattle.std.specs.Prelude.{◌≡◌, ◌==◌, ◌||◌};
ghost use Rattle.pr_cli.specs.Statuses.{basic_status, characters_status, ended_after, ending_end, fault_status, refusal_end, run_ended, status_of, text_status};

use pr_channels::Stop;
use pr_interpreter::BasicError;
use pr_jobs::{CliFault, Ending, RunEnd, ShapesFault};
use pr_listing::TextFault;
use pr_options::JobFault;
use pr_programs::{BasicFault, Ran};

/// How the program ends.
#[derive(Clone, Copy, Debug, PartialEq, Eq)]
pub enum End {
    /// What was asked for is written; so are help and the version.
    Done,
    /// The same of a run that a BASIC error stopped.
    Stopped,
    /// The same of a run that this BASIC error stopped.
    StoppedAt {
        /// The statement that it stopped, counted from 1.
        statement: usize,
        /// The error.
        stop: Stop,
    },
    /// The same of the run of a program that this error of BASIC ended, in this line of it.
    Broken {
        error: BasicError,
        line: u16,
    },
    /// What was asked for is written, and leaves out something of a recording, which was not to be.
    Lacking,
    /// The job has this fault.
    Job(CliFault),
    /// The listing has no text of a script.
    Listing(TextFault),
    /// No script comes of the program.
    Basic(BasicFault),
    /// The file of characters has no shapes.
    Characters(ShapesFault),
    /// The words ask for no task.
    Words,
}

/// The job is done: the run's last statement was performed, the trace is lawful, or the page is
/// written.
const DONE: u8 = 0;

/// A BASIC error ended the run.
const STOPPED: u8 = 1;

/// Something of a recording is left out, which was not to be.
const LACKING: u8 = 1;

/// The command line or the input is refused.
pub const REFUSED: u8 = 2;

/// Memory was refused, or a read or a write failed, or a file cannot be opened.
pub const FAILED: u8 = 3;

impl End {
    /// Returns the exit status: 0 done, 1 stopped or lacking, 2 refused, 3 failed. It takes no memory.
    pub fn status(self) -> u8
        ensures { result ≡ status_of self }
    {
        match self {
            End::Done => DONE,
            End::Stopped | End::StoppedAt { .. } | End::Broken { .. } => STOPPED,
            End::Lacking => LACKING,
            End::Job(fault) => fault_status(fault),
            End::Listing(fault) => text_status(fault),
            End::Basic(fault) => basic_status(fault),
            End::Characters(fault) => characters_status(fault),
            End::Words => REFUSED,
        }
    }

    /// Returns how the program ends after a job that ended so. It takes no memory.
    pub fn of_ending(ending: Ending) -> End
        ensures { result ≡ ending_end ending }
    {
        match ending {
            Ending::Done => End::Done,
            Ending::Stopped => End::Stopped,
        }
    }

    /// Returns how it ends after a run that ended so. It takes no memory.
    pub fn of_run(end: RunEnd) -> End
        ensures { result ≡ run_ended end }
    {
        match end {
            RunEnd::Done => End::Done,
            RunEnd::Stopped { statement, stop } => End::StoppedAt { statement, stop },
        }
    }

    /// Returns how the program ends after a job, whose script came of a run that ended so: what stopped the job's run
    /// came before the end of the program's. It takes no memory.
    pub fn after(self, ran: Ran) -> End
        ensures { result ≡ ended_after ran self }
    {
        match (ran, self) {
            (Ran::Error { error, line }, End::Done) => End::Broken { error, line },
            _ => self,
        }
    }

    /// Returns how it ends where words ask for no job. A request for help or for the version is answered. It takes no memory.
    pub fn of_refusal(fault: &JobFault) -> End
        ensures { result ≡ refusal_end fault.now }
    {
        match fault {
            JobFault::Line(error) => {
                if error.use_stderr() {
                    End::Words
                } else {
                    End::Done
                }
            }
            JobFault::NoMemory => End::Job(CliFault::NoMemory),
            _ => End::Words,
        }
    }
}

/// Returns the exit status of a job that failed so. It takes no memory.
fn fault_status(fault: CliFault) -> u8
    ensures { result ≡ fault_status fault }
{
    match fault {
        CliFault::Script(_)
        | CliFault::Trace(_)
        | CliFault::Wave(_)
        | CliFault::Capture(_)
        | CliFault::Picture(_)
        | CliFault::TooLarge => REFUSED,
        CliFault::NoMemory | CliFault::ReadFailed | CliFault::WriteFailed => FAILED,
    }
}

/// Whether the status is that of a job whose whole text was written.
pub fn is_answered(status: u8) -> bool
    ensures { result ≡ (status == 0 || status == 1) }
{
    status == DONE || status == STOPPED
}

/// Returns the exit status where a listing has no text of a script. It takes no memory.
fn text_status(fault: TextFault) -> u8
    ensures { result ≡ text_status fault }
{
    match fault {
        TextFault::Listing(_) | TextFault::TooLarge => REFUSED,
        TextFault::ReadFailed | TextFault::NoMemory => FAILED,
    }
}

/// Returns the exit status where no script comes of a program. It takes no memory.
fn basic_status(fault: BasicFault) -> u8
    ensures { result ≡ basic_status fault }
{
    match fault {
        BasicFault::Refused { .. } | BasicFault::Listing(_) | BasicFault::TooManySteps(_) =>
            REFUSED,
        BasicFault::NoMemory => FAILED,
    }
}

/// Returns the exit status where a file has no shapes of characters. It takes no memory.
fn characters_status(fault: ShapesFault) -> u8
    ensures { result ≡ characters_status fault }
{
    match fault {
        ShapesFault::Characters(_) | ShapesFault::TooLarge => REFUSED,
        ShapesFault::ReadFailed | ShapesFault::NoMemory => FAILED,
    }
}
