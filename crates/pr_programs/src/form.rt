//! The forms of what a script is made of.

ghost use Rattle.std.specs.Prelude.{◌↔◌, IfOk, IsTrue};
ghost use Rattle.pr_programs.specs.Forms.{IsRun};

use crate::typed::{TypedFault, typed_text};
use pr_basic::{ScriptFault, read_script};
use pr_interpreter::ProgramFault;
use pr_listing::ListingForm;
use pr_run::program_of;
use std::alloc::{AllocError, Global};

/// The steps that a run has at most, if nobody says otherwise (profile).
pub const STEPS: u64 = 10_000_000;

/// The form of what a script is made of.
#[derive(Clone, Copy, Debug, PartialEq, Eq)]
pub enum Form {
    /// A listing in this form.
    Listing(ListingForm),
    /// A program, which is run for so many steps at most.
    Program { steps: u64 },
    /// The text of a script; or else, where it reads as one, such a program.
    Either { steps: u64 },
}

/// Returns whether a text is no script, and reads as a program.
///
/// # Errors
///
/// Memory was refused.
pub fn is_run(alloc: Global, text: &[u8]) -> Result<bool, AllocError>
    ensures { IfOk result (λ runs. IsTrue runs ↔ IsRun text.now) }
{
    match read_script(alloc, text) {
        Ok(_) => return Ok(false),
        Err(ScriptFault::NoMemory) => return Err(AllocError),
        Err(_) => {}
    }
    let bytes = match typed_text(alloc, text) {
        Ok(bytes) => bytes,
        Err(TypedFault::At(_, _)) => return Ok(false),
        Err(TypedFault::NoMemory) => return Err(AllocError),
    };
    match program_of(alloc, bytes.as_slice()) {
        Ok(_) => Ok(true),
        Err(ProgramFault::OutOfMemory) => Err(AllocError),
        Err(_) => Ok(false),
    }
}
