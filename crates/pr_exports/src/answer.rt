//! What a call with numbers answers.

ghost use Rattle.std.specs.Prelude.{◌≡◌, length};
ghost use Rattle.pr_exports.specs.Answers.{answer_of, ended, plain, refusal};
ghost use Rattle.pr_exports.specs.Giving.{FindsText, Gives, is_of_input, made_of};

use crate::faults::numbers_of;
use pr_cli::End;
use pr_jobs::CliFault;

/// What came of a call that gives a text, or numbers.
#[derive(Clone, Copy, Debug, PartialEq, Eq)]
pub enum TextGiven {
    /// The text is at the front of the buffer, and has this many bytes. Of an input that can not be
    /// read to its end it is what comes before the fault, and there is the fault.
    Written(Option<CliFault>, usize),
    /// The text has this many bytes, more than the buffer has room for.
    TooSmall(usize),
    /// There is no text.
    Refused(CliFault),
}

/// What came of a call, as numbers.
#[repr(C)]
#[derive(Clone, Copy, Debug, PartialEq, Eq)]
pub struct Answer {
    /// 0 done, 1 a BASIC error stops the run, 2 refused, 3 out of memory, 4 the buffer is too small.
    pub code: usize,
    /// The number of the fault, as include/print1525.h has them; 20, 24, 28 to 30 and 60 are a number that means no setting or
    /// no input. With code 1 it is 100 and the number of the BASIC error. Else 0.
    pub fault: usize,
    /// The line of the fault, from 1, the index of its edge or of its input, from 0; with 50 how many sheets there are; with
    /// code 1 the statement, from 1; or 0.
    pub place: usize,
    /// The number of the text's bytes, or how many numbers there are; with the faults 63 and 64 the column, from 1; or 0.
    pub length: usize,
}

/// Hands a text or numbers that were made to the caller, also where their input has a fault.
pub fn give<T: Copy>(made: Result<(), CliFault>, items: &[T], out: &mut [T]) -> TextGiven
    ensures gives { Gives made items.now out.old out.new result }
    ensures length { length out.new ≡ length out.old }
{
    let stop = match stop_in(made) {
        Ok(stop) => stop,
        Err(fault) => return TextGiven::Refused(fault),
    };
    let size = items.len();
    if size > out.len() {
        return TextGiven::TooSmall(size);
    }
    out[..size].copy_from_slice(items);
    TextGiven::Written(stop, size)
}

/// An input that was read to its end, or to this fault.
pub fn made_of(fault: Option<CliFault>) -> Result<(), CliFault>
    ensures { result ≡ made_of fault }
{
    match fault {
        None => Ok(()),
        Some(fault) => Err(fault),
    }
}

/// Where the text of an input ends, if it ends before the input; or why there is none.
fn stop_in(made: Result<(), CliFault>) -> Result<Option<CliFault>, CliFault>
    ensures { FindsText made result }
{
    match made {
        Ok(()) => Ok(None),
        Err(fault) if is_of_input(fault) => Ok(Some(fault)),
        Err(fault) => Err(fault),
    }
}

/// Whether a fault is one of the input's content, so that there is a text up to it.
fn is_of_input(fault: CliFault) -> bool
    ensures { result ≡ is_of_input fault }
{
    matches!(
        fault,
        CliFault::Trace(_) | CliFault::Wave(_) | CliFault::Capture(_)
    )
}

/// An answer without a fault.
pub fn plain(code: usize, length: usize) -> Answer
    ensures { result ≡ plain code length }
{
    Answer {
        code,
        fault: 0,
        place: 0,
        length,
    }
}

/// A refusal of a number that means no setting or no input, with its place.
pub fn refused(fault: usize, place: usize) -> Answer
    ensures { result ≡ refusal fault place }
{
    Answer {
        fault,
        place,
        ..plain(2, 0)
    }
}

/// The answer where a task of the program ends so: its exit status, and the numbers of its fault.
pub fn ended(end: End) -> Answer
    ensures { result ≡ ended end }
{
    let (fault, place, column) = numbers_of(end);
    Answer {
        code: usize::from(end.status()),
        fault,
        place,
        length: column,
    }
}

/// The answer, as numbers.
pub fn numbered(told: TextGiven) -> Answer
    ensures { result ≡ answer_of told }
{
    match told {
        TextGiven::Written(None, size) => plain(0, size),
        TextGiven::Written(Some(fault), size) => Answer {
            length: size,
            ..ended(End::Job(fault))
        },
        TextGiven::TooSmall(size) => plain(4, size),
        TextGiven::Refused(fault) => ended(End::Job(fault)),
    }
}
