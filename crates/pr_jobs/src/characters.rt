//! A file of the shapes of characters, from a reader.

ghost use Rattle.std.specs.Prelude.{◌≡◌, ◌↔◌, false, true, IfOk, IfSome, IsErrOf};
ghost use Rattle.std.specs.Io.KnownBytes.{IsAtEnd};
ghost use Rattle.pr_jobs.specs.Characters.{AnswersCharacters};
ghost use Rattle.pr_input.specs.Watched.{has_failed, wrapped};

use pr_characters::{CharactersFault, read_shapes};
use pr_dots::Shapes;
use pr_input::{ReadFault, Watched, read_whole};
use std::alloc::Global;
use std::io::Read;
use thiserror::Error;

/// The longest file of characters, in bytes (profile). A file with all its lines has 14,976.
pub const CHARACTERS_LIMIT: usize = 65_536;

/// Why the shapes of characters cannot be had from a reader.
#[derive(Clone, Copy, Debug, PartialEq, Eq, Error)]
pub enum ShapesFault {
    /// The file has a bad line, or one too few.
    #[error(transparent)]
    Characters(CharactersFault),
    /// The file has more bytes than [`CHARACTERS_LIMIT`].
    #[error("too large for a file of characters")]
    TooLarge,
    /// A read failed.
    #[error("read failed")]
    ReadFailed,
    /// Memory was refused.
    #[error("out of memory")]
    NoMemory,
}

/// Reads a file of the shapes of characters, as [`read_shapes`] takes it, and gives the shapes. The reader has then been read
/// to its end.
///
/// # Errors
///
/// - [`ShapesFault::Characters`]: the file has no shapes, with its first bad line.
/// - [`ShapesFault::TooLarge`]: only if the reader had more than [`CHARACTERS_LIMIT`] bytes left.
/// - [`ShapesFault::ReadFailed`] exactly if a read failed.
/// - [`ShapesFault::NoMemory`]: memory was refused.
///
/// After an error some of the bytes may have been taken from the reader.
pub fn read_characters<R: Read>(
    alloc: Global,
    input: &mut Watched<R>,
) -> Result<Shapes, ShapesFault>
    // the caller's part
    requires fresh { has_failed input.old ≡ false }
    // what it gives
    ensures shapes { IfSome (R.remaining (wrapped input.old)) (λ text. AnswersCharacters text result) }
    ensures at_end { IfOk result (λ _. IsAtEnd (R.remaining (wrapped input.new))) }
    // when it refuses, and what that leaves
    ensures failed { IsErrOf result ShapesFault.ReadFailed ↔ (has_failed input.new ≡ true) }
{
    let text = match read_whole(alloc, input, CHARACTERS_LIMIT) {
        Ok(text) => text,
        Err(ReadFault::TooLarge) => return Err(ShapesFault::TooLarge),
        Err(ReadFault::NoMemory) => return Err(ShapesFault::NoMemory),
        Err(ReadFault::ReadFailed) => return Err(ShapesFault::ReadFailed),
    };
    match read_shapes(&text) {
        Ok(shapes) => Ok(shapes),
        Err(fault) => Err(ShapesFault::Characters(fault)),
    }
}
