//! Listings from a reader.

ghost use Rattle.std.specs.Prelude.{◌≡◌, ◌≤◌, ◌↔◌, length, false, true, IfErr, IfOk, IfSome, IsErrOf};
ghost use Rattle.std.specs.Io.KnownBytes.{IsAtEnd};
ghost use Rattle.pr_input.specs.Watched.{has_failed, wrapped};
ghost use Rattle.pr_listing.specs.Forms.{HasText};
ghost use Rattle.pr_listing.specs.Inputs.{IsTextFault};

use crate::fault::ListingFault;
use crate::form::{ListingForm, script_text};
use pr_input::{ReadFault, Watched, read_whole};
use std::alloc::Global;
use std::io::Read;
use thiserror::Error;

/// Why the text of a listing cannot be had from a reader.
#[derive(Clone, Copy, Debug, PartialEq, Eq, Error)]
pub enum TextFault {
    /// The listing has no text of a script. Never lack of memory.
    #[error("{0}")]
    Listing(ListingFault),
    /// The listing has more bytes than the limit.
    #[error("input too large")]
    TooLarge,
    /// A read failed.
    #[error("read failed")]
    ReadFailed,
    /// Memory was refused.
    #[error("out of memory")]
    NoMemory,
}

/// Reads a listing in this form, at most `limit` bytes, and gives the text of a script that it has.
/// Where it has one, the reader has been read to its end.
///
/// # Errors
///
/// - [`TextFault::Listing`]: the fault of [`script_text`], but for lack of memory.
/// - [`TextFault::TooLarge`]: only if the reader had more than `limit` bytes left.
/// - [`TextFault::ReadFailed`] exactly if a read failed.
/// - [`TextFault::NoMemory`]: memory was refused.
///
/// After an error some of the bytes have been taken from the reader.
pub fn read_text<R: Read>(
    alloc: Global,
    input: &mut Watched<R>,
    form: ListingForm,
    limit: usize,
) -> Result<Vec<u8>, TextFault>
    // the caller's part
    requires fresh { has_failed input.old ≡ false }
    // what it gives
    ensures ok { IfOk result (λ text. IfSome (R.remaining (wrapped input.old)) (λ bytes. HasText form bytes text.items)) }
    ensures at_end { IfOk result (λ _. IsAtEnd (R.remaining (wrapped input.new))) }
    ensures within { IfOk result (λ _. IfSome (R.remaining (wrapped input.old)) (λ bytes. length bytes ≤ limit)) }
    // when it refuses, and what that leaves
    ensures refused { IfErr result (λ fault. IfSome (R.remaining (wrapped input.old)) (λ bytes. IsTextFault form limit bytes fault)) }
    ensures failed { IsErrOf result TextFault.ReadFailed ↔ (has_failed input.new ≡ true) }
{
    let bytes = match read_whole(alloc, input, limit) {
        Ok(bytes) => bytes,
        Err(ReadFault::TooLarge) => return Err(TextFault::TooLarge),
        Err(ReadFault::NoMemory) => return Err(TextFault::NoMemory),
        Err(ReadFault::ReadFailed) => return Err(TextFault::ReadFailed),
    };
    match script_text(alloc, form, bytes) {
        Ok(text) => Ok(text),
        Err(ListingFault::NoMemory) => Err(TextFault::NoMemory),
        Err(fault) => Err(TextFault::Listing(fault)),
    }
}
