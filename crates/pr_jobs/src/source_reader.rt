//! Reading a trace in any format.

ghost use Rattle.std.specs.Prelude.{◌≡◌, ◌+◌, ◌^◌, ◌<◌, ◌≤◌, [], length, take, IfErr, IfOk, IfSome, None, OnOk};
ghost use Rattle.pr_jobs.specs.Sources.{EachTextSaysSamples, GivenSamplesComeFirst, HasGiven, lines_read};
ghost use Rattle.pr_jobs.specs.InputReads.{EndsInput, GivesMore, GivesRepeats, RefusesInput};

use crate::fault::CliFault;
use pr_capture::{CsvReader, InputFormat, TraceInput, VcdReader, given_samples_come_first};
use pr_wire::{Edge, Levels, TraceReader, given_edges_come_first, trace_texts};
use std::alloc::Global;

/// Reads a trace that comes in blocks, in any format. A trace text gives edges, a recording samples.
#[derive(Drop)]
pub enum SourceReader<'a> {
    Text(TraceReader),
    Vcd(VcdReader<'a>),
    Csv(CsvReader<'a>),
}

impl<'a> SourceReader<'a> {
    /// Makes a reader that has taken nothing of an input. It takes no memory.
    pub fn new(alloc: Global, input: TraceInput<'a>) -> SourceReader<'a>
        ensures given { HasGiven input.entry [] [] result }
        ensures lines { lines_read result ≤ 1 }
    {
        match input.source {
            InputFormat::Text => SourceReader::Text(TraceReader::new()),
            InputFormat::Vcd => SourceReader::Vcd(VcdReader::new(alloc, input.signals)),
            InputFormat::Csv => SourceReader::Csv(CsvReader::new(alloc, input.signals, input.rate)),
        }
    }

    /// Takes bytes from the front of a block. Gives how many, at least one, and the edge or the sample
    /// that they end, if they end one.
    ///
    /// # Errors
    ///
    /// The first fault of the input, where these bytes end it, or [`CliFault::NoMemory`]; both come
    /// as with the reader of this format. Nothing is promised of the reader afterwards.
    #[inline(always)]
    pub fn take_front(&mut self, block: &[u8]) -> Result<(usize, Option<Edge>), CliFault>
        // the caller's part
        requires few { lines_read self.old + 1 < 2 ^ 64 }
        requires some { 0 < length block.now }
        // what it gives
        ensures given { IfOk result (λ r. GivesMore (take r.0 block.now) r.1 self.old self.new) }
        ensures some { IfOk result (λ r. 0 < r.0) }
        ensures within { IfOk result (λ r. r.0 ≤ length block.now) }
        ensures lines { OnOk result (lines_read self.new ≤ lines_read self.old + 1) }
        // when it refuses, and what that leaves
        ensures refused { IfErr result (λ f. RefusesInput block.now self.old f) }
    {
        match self {
            SourceReader::Text(reader) => Ok(reader.take_front(block)?),
            SourceReader::Vcd(reader) => Ok(reader.take_front(block)?),
            SourceReader::Csv(reader) => Ok(reader.take_front(block)?),
        }
    }

    /// Takes the rows in front of a block that go on as the last row of a table does, if that has these levels, as
    /// [`CsvReader::take_repeats`]. Gives how many bytes, at least one, and the last of their samples; None where
    /// there is no such row, and in the other formats. It takes no memory.
    #[inline(always)]
    pub fn take_repeats(&mut self, block: &[u8], levels: Levels) -> Option<(usize, Edge)>
        // the caller's part
        requires few { lines_read self.old + length block.now + 1 < 2 ^ 64 }
        // what it gives
        ensures given { IfSome result (λ r. GivesRepeats (take r.0 block.now) r.1 self.old self.new) }
        ensures levels { IfSome result (λ r. r.1.levels ≡ levels) }
        ensures some { IfSome result (λ r. 0 < r.0) }
        ensures within { IfSome result (λ r. r.0 ≤ length block.now) }
        ensures lines { IfSome result (λ r. lines_read self.new ≤ lines_read self.old + r.0) }
        // what it leaves where it gives nothing
        ensures same { result ≡ None → self.new ≡ self.old }
    {
        match self {
            SourceReader::Csv(reader) => reader.take_repeats(block, levels),
            SourceReader::Text(_) | SourceReader::Vcd(_) => None,
        }
    }

    /// Ends the input, and gives the edge or the sample that this ends, if it ends one.
    ///
    /// # Errors
    ///
    /// The first fault of the input, or [`CliFault::NoMemory`]; both come as with the reader of
    /// this format.
    pub fn finish(self) -> Result<Option<Edge>, CliFault>
        requires few { lines_read self + 1 < 2 ^ 64 }
        ensures { EndsInput self.entry result }
    {
        match self {
            SourceReader::Text(reader) => Ok(reader.finish()?),
            SourceReader::Vcd(reader) => Ok(reader.finish()?),
            SourceReader::Csv(reader) => Ok(reader.finish()?),
        }
    }
}

/// Laws, with nothing to run: whatever follows the bytes that a reader has taken, the samples that it has
/// given are the first that the text says; and each text says samples in each format, up to its fault if
/// it has one.
pub fn texts_say_samples()
    ensures first { GivenSamplesComeFirst }
    ensures some { EachTextSaysSamples }
{
    given_edges_come_first();
    given_samples_come_first();
    trace_texts();
}
