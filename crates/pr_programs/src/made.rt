//! What comes of a program.

ghost use Rattle.std.specs.Prelude.{◌≡◌, IfErr, IfOk, Ok};
ghost use Rattle.pr_programs.specs.Made.{made, made_of, ran_to, reason_of, refused_at, refused_in, unread};
ghost use Rattle.pr_programs.specs.Seen.{FaultsAs};

use crate::fault::{BasicFault, Reason};
use crate::places::row_of;
use crate::scripts::script_text;
use crate::typed::{TypedFault, place_of, typed_text};
use pr_interpreter::{BasicError, ProgramFault, column_of};
use pr_page::Sequence;
use pr_run::{Ending, Outcome, Refusal, program_of, run_program};
use std::alloc::Global;

/// How a run ended of which there is a script.
#[derive(Clone, Copy, Debug, PartialEq, Eq)]
pub enum Ran {
    /// After the last line, or with END.
    Ended,
    /// With STOP, in this line.
    Break(u16),
    /// With an error, in this line.
    Error { error: BasicError, line: u16 },
}

/// What comes of a program.
#[derive(Debug, Drop)]
pub struct Made {
    /// The text of the script.
    pub text: Sequence<u8>,
    /// How the run ended.
    pub ran: Ran,
    /// The number of the line of the first POKE that the run left out, if there was one.
    pub skipped_poke: Option<u16>,
}

/// Returns the fault of what is refused at a place of a text.
fn refused_at(text: &[u8], place: usize, reason: Reason) -> BasicFault
    ensures { result ≡ refused_at text.now place reason }
{
    BasicFault::Refused {
        row: row_of(text, place),
        column: column_of(text, place),
        reason,
    }
}

/// Returns the fault of what is refused at a place of the program that a text makes.
fn refused_in(text: &[u8], made: usize, reason: Reason) -> BasicFault
    ensures { result ≡ refused_in text.now made reason }
{
    refused_at(text, place_of(text, made), reason)
}

/// Returns the fault of a text that is not read as a program.
fn unread(text: &[u8], fault: ProgramFault) -> BasicFault
    ensures { result ≡ unread text.now fault }
{
    match fault {
        ProgramFault::OutOfMemory => BasicFault::NoMemory,
        ProgramFault::NoLineNumber(made) => refused_in(text, made, Reason::NoLineNumber),
        ProgramFault::LargeLineNumber(made) => refused_in(text, made, Reason::LargeLineNumber),
        ProgramFault::NoExpression(made) | ProgramFault::NoStatement(made) => {
            refused_in(text, made, Reason::Syntax)
        }
        ProgramFault::NotTaken(made) => refused_in(text, made, Reason::NotTaken),
    }
}

/// Returns why a statement is not run.
fn reason_of(refusal: Refusal) -> Reason
    ensures { result ≡ reason_of refusal }
{
    match refusal {
        Refusal::NotCertain => Reason::NotCertain,
        Refusal::NotTaken => Reason::NotTaken,
        Refusal::Poke(_) => Reason::Poke,
        Refusal::Device(_) => Reason::Device,
        Refusal::SecondAddress(_) => Reason::SecondAddress,
        Refusal::FileName => Reason::FileName,
        Refusal::LongList => Reason::LongList,
        Refusal::OpenFiles => Reason::OpenFiles,
        Refusal::FullStack => Reason::FullStack,
        Refusal::FullMemory => Reason::FullMemory,
    }
}

/// Returns how a run ended of which there is a script.
fn ran_to(text: &[u8], ending: Ending) -> Result<Ran, BasicFault>
    ensures { result ≡ ran_to text.now ending }
{
    match ending {
        Ending::LastLine | Ending::End(_) => Ok(Ran::Ended),
        Ending::Break(line) => Ok(Ran::Break(line)),
        Ending::Error { error, line } => Ok(Ran::Error { error, line }),
        Ending::Refused { refusal, place } => Err(refused_in(text, place, reason_of(refusal))),
        Ending::TooManySteps(line) => Err(BasicFault::TooManySteps(line)),
        Ending::OutOfMemory => Err(BasicFault::NoMemory),
    }
}

/// Makes what comes of a run of the program of a text.
fn made_of(alloc: Global, text: &[u8], outcome: Outcome) -> Result<Made, BasicFault>
    ensures ok { IfOk result (λ found. made_of text.now outcome ≡ Ok found) }
    ensures err { IfErr result (λ fault. FaultsAs fault (made_of text.now outcome)) }
{
    let ran = ran_to(text, outcome.ending)?;
    let Ok(script) = script_text(alloc, outcome.performed.as_slice()) else {
        return Err(BasicFault::NoMemory);
    };
    Ok(Made {
        text: Sequence::from_vec(script),
        ran,
        skipped_poke: outcome.skipped_poke,
    })
}

/// Reads the program of a text and runs it, for so many steps at most. Returns the script of the output statements that
/// it performs, and how the run ended.
///
/// # Errors
///
/// - [`BasicFault::Refused`]: the text is no program, or has what is not run; of a run what comes first counts, and
///   there is no script of what was performed before.
/// - [`BasicFault::TooManySteps`]: the run does not end within the steps.
/// - [`BasicFault::NoMemory`]: memory was refused.
#[tactic(auto, unfolding(crate::specs::Made::made))]
pub fn made_script(alloc: Global, text: &[u8], steps: u64) -> Result<Made, BasicFault>
    ensures ok { IfOk result (λ found. made steps text.now ≡ Ok found) }
    ensures err { IfErr result (λ fault. FaultsAs fault (made steps text.now)) }
{
    let bytes = match typed_text(alloc, text) {
        Ok(bytes) => bytes,
        Err(TypedFault::At(place, reason)) => return Err(refused_at(text, place, reason)),
        Err(TypedFault::NoMemory) => return Err(BasicFault::NoMemory),
    };
    let program = match program_of(alloc, bytes.as_slice()) {
        Ok(program) => program,
        Err(fault) => return Err(unread(text, fault)),
    };
    let Ok(outcome) = run_program(alloc, &program, steps) else {
        return Err(BasicFault::NoMemory);
    };
    made_of(alloc, text, outcome)
}
