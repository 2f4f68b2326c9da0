//! Reading Value Change Dumps (IEEE 1364, four-state), as simulators and logic analysers write them.

ghost use Rattle.std.specs.Prelude.{◌≡◌, ◌⊎◌, ◌+◌, ◌^◌, ◌<◌, ◌≤◌, ◌∷◌, [], true, None, IfErr, IfOk, length, take};
ghost use Rattle.std.specs.List.{list_all, prefix_len};
ghost use Rattle.pr_capture.specs.declared.fault.CaptureFault.TheVariants.{NoMemory};
ghost use Rattle.pr_capture.specs.Words.{is_space};
ghost use Rattle.pr_capture.specs.VcdReadingLaws.{VcdIsReadBack};
ghost use Rattle.pr_capture.specs.VcdReads.{EndsText, ReadsMore, RefusesDump};
ghost use Rattle.pr_capture.specs.VcdSteps.{is_letter, line_number, word_begun, HasReadDump, HoldsMore, MayEnd, ReadsWords};

use crate::fault::CaptureFault;
use crate::signals::{Signals, is_space};
use crate::vcd_parser::VcdParser;
use pr_wire::Edge;
use std::alloc::Global;

/// How many bytes come before the first white space.
fn word_len(text: &[u8]) -> usize
    ensures len { result ≡ prefix_len is_letter text.now }
    ensures within { result ≤ length text.now }
{
    for (i, b) in text.iter().enumerate() {
        if is_space(*b) {
            return i;
        }
    }
    text.len()
}

/// Reads a Value Change Dump that comes in blocks. It keeps the word that has begun, the words of a section
/// `$timescale`, `$scope` or `$var` or the bits of a value that has begun, the scopes of the header, and the
/// codes of the three wires and of a signal CLK.
#[derive(Drop)]
pub struct VcdReader<'a> {
    signals: Signals<'a>,
    number: usize,
    letters: Vec<u8>,
    progress: VcdParser,
}

impl<'a> VcdReader<'a> {
    /// Makes a reader that has taken nothing of a text. It takes no memory.
    pub fn new(alloc: Global, signals: Signals<'a>) -> VcdReader<'a>
        ensures read { HasReadDump signals.entry [] [] result }
        ensures number { line_number result ≡ 1 }
    {
        VcdReader {
            signals,
            number: 1,
            letters: Vec::new(alloc),
            progress: VcdParser::new(alloc),
        }
    }

    /// Goes on with the word that has begun.
    fn go_on(&mut self, bytes: &[u8]) -> Result<(), CaptureFault>
        requires { list_all is_letter bytes.now ≡ true }
        ensures read { IfOk result (λ _. HoldsMore bytes.now self.old self.new) }
        ensures refused { IfErr result (λ f. f ≡ NoMemory) }
        ensures number { IfOk result (λ _. line_number self.new ≡ line_number self.old) }
    {
        self.letters.extend_from_slice(bytes)?;
        Ok(())
    }

    /// Ends the word that has begun, if one has, and gives its sample, if it has one.
    fn take_letters(&mut self) -> Result<Option<Edge>, CaptureFault>
        ensures read { ReadsWords self.old.signals (word_begun self.old) self.old.progress result self.new.progress }
        ensures end { IfOk result (λ sample. (sample ≡ None) ⊎ MayEnd self.new.progress) }
        ensures letters { IfOk result (λ _. self.new.letters.items ≡ []) }
        ensures number { self.new.number ≡ self.old.number }
        ensures signals { self.new.signals ≡ self.old.signals }
    {
        if self.letters.is_empty() {
            return Ok(None);
        }
        let sample = self
            .progress
            .take_word(&self.signals, self.number, self.letters.as_slice())?;
        self.letters.clear();
        Ok(sample)
    }

    /// Takes white space, which ends the word that has begun, and gives the sample, if there is one.
    fn end_word(&mut self, b: u8) -> Result<Option<Edge>, CaptureFault>
        requires few { line_number self.old + 1 < 2 ^ 64 }
        requires space { is_space b ≡ true }
        ensures read { IfOk result (λ sample. ReadsMore (b ∷ []) sample self.old self.new) }
        ensures refused { IfErr result (λ f. RefusesDump (b ∷ []) self.old f) }
        ensures number { IfOk result (λ sample. line_number self.new ≤ line_number self.old + 1) }
    {
        let sample = self.take_letters()?;
        if b == b'\n' {
            self.number += 1;
        }
        Ok(sample)
    }

    /// Takes bytes from the front of a block: the rest of a word with the byte after it, or else
    /// all of them. Gives how many, at least one, and the sample that the word makes, if it makes
    /// one. However the text is cut into blocks, the samples given are those that it says before
    /// its first fault.
    ///
    /// # Errors
    ///
    /// The first fault of the text, whose word these bytes end; [`CaptureFault::NoMemory`] where
    /// the growth of the word, or of what is kept of a section, was refused. Nothing is promised of
    /// the reader afterwards.
    pub fn take_front(&mut self, block: &[u8]) -> Result<(usize, Option<Edge>), CaptureFault>
        // the caller's part
        requires few { line_number self.old + 1 < 2 ^ 64 }
        requires some { 0 < length block.now }
        // what it gives
        ensures read { IfOk result (λ r. ReadsMore (take r.0 block.now) r.1 self.old self.new) }
        ensures some { IfOk result (λ r. 0 < r.0) }
        ensures within { IfOk result (λ r. r.0 ≤ length block.now) }
        ensures number { IfOk result (λ r. line_number self.new ≤ line_number self.old + 1) }
        // when it refuses, and what that leaves
        ensures refused { IfErr result (λ f. RefusesDump block.now self.old f) }
    {
        let len = word_len(block);
        self.go_on(&block[..len])?;
        if len == block.len() {
            return Ok((len, None));
        }
        let sample = self.end_word(block[len])?;
        Ok((len + 1, sample))
    }

    /// Ends the text, whose last word may end with it, and gives the sample of that word, if it
    /// makes one.
    ///
    /// # Errors
    ///
    /// The fault of the last word; a section without its end, or a value without a code; no
    /// `$enddefinitions`; a wire that never got a level, unless the dump is blank after its header:
    /// no level there, and no moment after 0; [`CaptureFault::NoMemory`] as for
    /// [`VcdReader::take_front`].
    pub fn finish(mut self) -> Result<Option<Edge>, CaptureFault>
        ensures { EndsText self.entry result }
    {
        match self.take_letters()? {
            Some(sample) => Ok(Some(sample)),
            None => self.progress.answer(self.number),
        }
    }
}

/// A law, with nothing to run: what is written of edges, each later than the one before and with
/// other levels, is read back as these edges, without a fault.
pub fn vcd_is_read_back()
    ensures { VcdIsReadBack }
{}
