//! A text in blocks.
//!
//! A text that is in one piece has to be moved, or to have room for twice its bytes, as it
//! grows. A block stays where it is, and takes the place of what was freed before.
//!
//! The page text and the picture of all pages, the longest texts, are made in blocks; lines, one sheet
//! and files of dots are one piece.

ghost use Rattle.std.specs.Prelude.{◌≡◌, ◌≤◌, ◌++◌, ◌↔◌, [], decimal, false, length, take, true, IfOk, IsErr, OnErr, OnOk};
ghost use Rattle.std.specs.Io.KnownBytes.{Appends};
ghost use Rattle.pr_render.specs.Sheets.{joined};
ghost use Rattle.pr_input.specs.Watched.{has_failed, is_flushed, wrapped};
ghost use Rattle.pr_input.specs.PartlyWritten.{AppendsFront};

use itoa::Buffer;
use pr_input::{BLOCK, Watched, WriteFault, flush, write_piece};
use std::alloc::{AllocError, Global};
use std::io::Write;
use std::marker::Model;
use std::mem;

/// A text in blocks of [`BLOCK`] bytes or a few fewer, or in the blocks or the one piece in which it
/// was given. Contracts see its bytes alone.
#[derive(Drop)]
pub struct Text {
    alloc: Global,
    /// The blocks to which no more is added.
    full: Vec<Vec<u8>>,
    /// The bytes after them.
    last: Vec<u8>,
}

impl Model for Text {
    ghost use Rattle.std.specs.Prelude.{List, ℕ, ◌++◌};
    ghost use Rattle.pr_render.specs.Sheets.{joined};

    ghost Value = { List ℕ };

    ghost view = { λ t. joined t.full.items ++ t.last.items };
}

impl Text {
    /// Makes an empty text. It takes no memory.
    pub fn new(alloc: Global) -> Text
        ensures { result ≡ [] }
    {
        Text {
            alloc,
            full: Vec::new(alloc),
            last: Vec::new(alloc),
        }
    }

    /// Makes a text of a vector's bytes. It takes no memory.
    pub fn from_vec(alloc: Global, bytes: Vec<u8>) -> Text
        ensures { result ≡ bytes.items }
    {
        Text {
            alloc,
            full: Vec::new(alloc),
            last: bytes,
        }
    }

    /// Makes a text of blocks, in order. It takes no memory.
    pub(crate) fn from_blocks(alloc: Global, blocks: Vec<Vec<u8>>) -> Text
        ensures { result ≡ joined blocks.items }
    {
        Text {
            alloc,
            full: blocks,
            last: Vec::new(alloc),
        }
    }

    /// Adds bytes at the end.
    ///
    /// # Errors
    ///
    /// `AllocError` where memory was refused. Nothing is promised of the text then.
    pub fn add(&mut self, bytes: &[u8]) -> Result<(), AllocError>
        ensures { OnOk result (self.new ≡ self.old ++ bytes.now) }
    {
        self.make_room(bytes.len())?;
        self.last.extend_from_slice(bytes)
    }

    /// Adds the first `count` of some bytes at the end. All of them are copied, so a copy of few
    /// bytes whose number is known is a single move.
    ///
    /// # Errors
    ///
    /// As [`Text::add`].
    #[inline(always)]
    pub fn add_front(&mut self, bytes: &[u8], count: usize) -> Result<(), AllocError>
        requires { count ≤ length bytes.now }
        ensures { OnOk result (self.new ≡ self.old ++ take count bytes.now) }
    {
        self.make_room(bytes.len())?;
        let end = self.last.len() + count;
        self.last.extend_from_slice(bytes)?;
        self.last.truncate(end);
        Ok(())
    }

    /// Adds a number in decimal at the end.
    ///
    /// # Errors
    ///
    /// As [`Text::add`].
    pub fn add_number(&mut self, n: u64) -> Result<(), AllocError>
        ensures { OnOk result (self.new ≡ self.old ++ decimal n) }
    {
        let mut buffer = Buffer::new();
        self.add(buffer.format(n).as_bytes())
    }

    /// Begins a block where the last one has no room for this many more bytes.
    #[inline(always)]
    fn make_room(&mut self, count: usize) -> Result<(), AllocError>
        ensures { OnOk result (self.new ≡ self.old) }
    {
        if count <= BLOCK.saturating_sub(self.last.len()) {
            return Ok(());
        }
        self.begin_block()
    }

    /// Begins a block.
    #[inline(never)]
    fn begin_block(&mut self) -> Result<(), AllocError>
        ensures { OnOk result (self.new ≡ self.old) }
    {
        let next = Vec::with_capacity(self.alloc, BLOCK)?;
        self.full.push(mem::replace(&mut self.last, next))?;
        Ok(())
    }

    /// Turns the text into one piece. Each block is freed once it is copied.
    ///
    /// # Errors
    ///
    /// `AllocError` where memory was refused.
    pub fn into_vec(self) -> Result<Vec<u8>, AllocError>
        ensures { IfOk result (λ v. v.items ≡ self) }
    {
        let Text { alloc, full, last } = self;
        let mut whole = Vec::new(alloc);
        for block in full {
            whole.extend_from_slice(&block)?;
        }
        whole.extend_from_slice(&last)?;
        Ok(whole)
    }

    /// Writes all of the text, block by block, and flushes.
    ///
    /// # Errors
    ///
    /// [`WriteFault`] exactly if a write or the flush failed, or a write of bytes took none; a
    /// beginning of the text has then been written.
    pub fn write_to<W: Write>(&self, output: &mut Watched<W>) -> Result<(), WriteFault>
        requires fresh { has_failed output.old ≡ false }
        ensures ok { OnOk result (Appends (W.contents (wrapped output.old)) (W.contents (wrapped output.new)) self.now) }
        ensures err { OnErr result (AppendsFront (W.contents (wrapped output.old)) (W.contents (wrapped output.new)) self.now) }
        ensures failed { IsErr result ↔ (has_failed output.new ≡ true) }
        ensures flushed { OnOk result (is_flushed output.new ≡ true) }
    {
        for block in self.full.as_slice() {
            write_piece(output, block.as_slice())?;
        }
        write_piece(output, self.last.as_slice())?;
        flush(output)
    }
}
