//! Input read whole up to a limit, and text written whole.
//!
//! The loops are the crate's own: of `read_to_end` and `write_all` nobody knows here that an error is one
//! that the [`Watched`] has seen.

ghost use Rattle.std.specs.Prelude.{◌≡◌, ◌≤◌, ◌<◌, ◌↔◌, IfSome, IfOk, IsErr, IsErrOf, OnOk, OnErr, false, true, length};
ghost use Rattle.std.specs.Io.KnownBytes.{Appends, IsAtEnd, Keeps};
ghost use Rattle.pr_input.specs.Watched.{has_failed, is_flushed, wrapped};
ghost use Rattle.pr_input.specs.PartlyWritten.{AppendsFront};

use crate::watched::Watched;
use std::alloc::{AllocError, Global};
use std::io::{Read, Write};

/// How many bytes one read of a recording asks for, and a block of a page text has.
pub const BLOCK: usize = 65_536;

/// Why input was not read whole.
#[derive(Clone, Copy, Debug, PartialEq, Eq)]
pub enum ReadFault {
    /// The input has more bytes than the limit.
    TooLarge,
    /// Memory was refused.
    NoMemory,
    /// A read failed.
    ReadFailed,
}

impl From<AllocError> for ReadFault {
    ghost use Rattle.pr_input.specs.declared.read_write.ReadFault.TheVariants.{NoMemory};

    ghost from_gives = { λ _ e. e ≡ NoMemory };

    fn from(_e: AllocError) -> ReadFault {
        ReadFault::NoMemory
    }
}

/// Reads all that the reader has left, at most `limit` bytes.
///
/// # Errors
///
/// `ReadFailed` exactly if a read failed, `TooLarge` only if the reader had more than `limit` bytes
/// left, else `NoMemory`. After an error some of the bytes may have been taken from the reader.
pub fn read_whole<R: Read>(
    alloc: Global,
    input: &mut Watched<R>,
    limit: usize,
) -> Result<Vec<u8>, ReadFault>
    // the caller's part
    requires fresh { has_failed input.old ≡ false }
    // what it gives
    ensures ok { IfOk result (λ v. IfSome (R.remaining (wrapped input.old)) (λ bytes. v.items ≡ bytes)) }
    ensures at_end { IfOk result (λ _. IsAtEnd (R.remaining (wrapped input.new))) }
    ensures within { IfOk result (λ v. length v.items ≤ limit) }
    // when it refuses, and what that leaves
    ensures large { IsErrOf result ReadFault.TooLarge → IfSome (R.remaining (wrapped input.old)) (λ bytes. limit < length bytes) }
    ensures failed { IsErrOf result ReadFault.ReadFailed ↔ (has_failed input.new ≡ true) }
{
    let mut bytes = Vec::new(alloc);
    // Most input that is read whole is short, and each page of the stack that is touched for the first time costs the
    // start of the program a microsecond or two.
    let mut block = [0u8; 8_192];
    'pieces: loop {
        match input.read(&mut block) {
            Err(_) => return Err(ReadFault::ReadFailed),
            Ok(0) => return Ok(bytes),
            Ok(n) => {
                if n > limit - bytes.len() {
                    return Err(ReadFault::TooLarge);
                }
                bytes.extend_from_slice(&block[..n])?;
            }
        }
    }
}

/// A write or a flush failed.
#[derive(Clone, Copy, Debug, PartialEq, Eq)]
pub struct WriteFault;

/// Writes all of the text, and flushes.
///
/// # Errors
///
/// [`WriteFault`] exactly if a write or the flush failed, or a write of bytes took none; a
/// beginning of the text has then been written.
pub fn write_whole<W: Write>(output: &mut Watched<W>, text: &[u8]) -> Result<(), WriteFault>
    requires fresh { has_failed output.old ≡ false }
    ensures ok { OnOk result (Appends (W.contents (wrapped output.old)) (W.contents (wrapped output.new)) text.now) }
    ensures err { OnErr result (AppendsFront (W.contents (wrapped output.old)) (W.contents (wrapped output.new)) text.now) }
    ensures failed { IsErr result ↔ (has_failed output.new ≡ true) }
    ensures flushed { OnOk result (is_flushed output.new ≡ true) }
{
    write_piece(output, text)?;
    flush(output)
}

/// Writes all of a piece of text, and does not flush.
///
/// # Errors
///
/// [`WriteFault`] exactly if a write failed, or a write of bytes took none; a beginning of the piece has
/// then been written.
pub fn write_piece<W: Write>(output: &mut Watched<W>, piece: &[u8]) -> Result<(), WriteFault>
    requires fresh { has_failed output.old ≡ false }
    ensures ok { OnOk result (Appends (W.contents (wrapped output.old)) (W.contents (wrapped output.new)) piece.now) }
    ensures err { OnErr result (AppendsFront (W.contents (wrapped output.old)) (W.contents (wrapped output.new)) piece.now) }
    ensures failed { IsErr result ↔ (has_failed output.new ≡ true) }
{
    let mut rest = piece;
    while !rest.is_empty() {
        match output.write(rest) {
            Err(_) => return Err(WriteFault),
            Ok(0) => return Err(WriteFault),
            Ok(n) => rest = &rest[n..],
        }
    }
    Ok(())
}

/// Flushes the output, and writes nothing.
///
/// # Errors
///
/// [`WriteFault`] exactly if the flush failed.
pub fn flush<W: Write>(output: &mut Watched<W>) -> Result<(), WriteFault>
    requires fresh { has_failed output.old ≡ false }
    ensures kept { Keeps (W.contents (wrapped output.old)) (W.contents (wrapped output.new)) }
    ensures failed { IsErr result ↔ (has_failed output.new ≡ true) }
    ensures flushed { OnOk result (is_flushed output.new ≡ true) }
{
    match output.flush() {
        Ok(()) => Ok(()),
        Err(_) => Err(WriteFault),
    }
}
