//! The edges of an input in any format, read block by block.

ghost use Rattle.std.specs.Prelude.{◌≡◌, ◌+◌, ◌^◌, ◌<◌, ◌≤◌, ◌↔◌, ℕ, List, Option, [], false, true, length, IfErr, IfOk, IsErrOf, None, OnOk, Some};
ghost use Rattle.pr_jobs.specs.Inputs.{EachTextSaysEdges, HasReadEdges, ReadEdgesComeFirst, bytes_left, edges_read, fault_read, lines_ahead};
ghost use Rattle.pr_jobs.specs.InputReads.{EndsInputs, IsTooLong, ReadsEdges, StopsWell};
ghost use Rattle.pr_jobs.specs.Report.{IsNoReading};
ghost use Rattle.pr_input.specs.Watched.{has_failed, wrapped};

use crate::edge_maker::made_edges_come_first;
use crate::edge_reader::{EdgeReader, LastEdges};
use crate::fault::CliFault;
use crate::source_reader::texts_say_samples;
use pr_capture::TraceInput;
use pr_input::Watched;
use pr_wire::Edge;
use std::alloc::{AllocError, Global};
use std::io::Read;

/// Reads an input of at most a limit of bytes, in any format, and gives its edges block by block.
///
/// Call [`read_block`](InputReader::read_block) until it answers false, and take the
/// [`edges`](InputReader::edges) of each block for which it answers true; the last come with
/// [`finish`](InputReader::finish).
///
/// The edges of a block are a list, 16 bytes each. A trait for whoever takes the edges would save
/// the list, but what callers do without memory, their counts and when they write differ.
#[derive(Drop)]
pub struct InputReader<'a> {
    edges: EdgeReader<'a>,
    /// How many bytes may still come.
    left: usize,
}

impl<'a> InputReader<'a> {
    /// Makes a reader that has read nothing of an input. It takes no memory.
    pub fn new(alloc: Global, trace: TraceInput<'a>, limit: usize) -> InputReader<'a>
        ensures read { (start : Option (List ℕ)) → HasReadEdges limit start start trace.entry [] result }
        ensures edges { edges_read result ≡ [] }
        ensures open { fault_read result ≡ None }
        ensures left { bytes_left result ≡ limit }
        ensures lines { lines_ahead result ≤ limit + 1 }
    {
        InputReader {
            edges: EdgeReader::new(alloc, trace),
            left: limit,
        }
    }

    /// Returns the edges of the last block.
    pub fn edges(&self) -> &[Edge]
        ensures { result.now ≡ edges_read self.now }
    {
        self.edges.edges()
    }

    /// Reads the next bytes of the input, as many as `block` has room for at most: the edges that are
    /// known by them take the place of those of the block before. Returns whether the input goes on: false
    /// at its end, and where its first fault is in this block, which is no error:
    /// [`finish`](InputReader::finish) gives it.
    ///
    /// # Errors
    ///
    /// Some bytes of the input may have been taken then.
    ///
    /// - [`CliFault::ReadFailed`] exactly if the read has failed.
    /// - [`CliFault::TooLarge`]: only if the input has more bytes than the limit.
    /// - [`CliFault::NoMemory`]: memory was refused. The reader then has this fault, and reads no other block.
    pub fn read_block<R: Read>(
        &mut self,
        input: &mut Watched<R>,
        block: &mut [u8],
    ) -> Result<bool, CliFault>
        requires fresh { has_failed input.old ≡ false }
        requires open { fault_read self.old ≡ None }
        requires some { 0 < length block.old }
        requires lines { lines_ahead self.old + 1 < 2 ^ 64 }
        // what was read
        ensures read { OnOk result (ReadsEdges (R.remaining (wrapped input.old)) (R.remaining (wrapped input.new)) self.old self.new) }
        ensures stops { IfOk result (λ goes_on. StopsWell goes_on (R.remaining (wrapped input.new)) self.new) }
        // how much may still come
        ensures lines { OnOk result (lines_ahead self.new ≤ lines_ahead self.old) }
        ensures few { OnOk result (length (edges_read self.new) + bytes_left self.new ≤ bytes_left self.old) }
        ensures less { IfOk result (λ goes_on. goes_on ≡ true → bytes_left self.new < bytes_left self.old) }
        ensures room { length block.new ≡ length block.old }
        // when it refuses, and what that leaves
        ensures own { IfErr result IsNoReading }
        ensures large { IsErrOf result CliFault.TooLarge → IsTooLong (R.remaining (wrapped input.old)) self.old }
        ensures failed { IsErrOf result CliFault.ReadFailed ↔ (has_failed input.new ≡ true) }
        ensures refused { IsErrOf result CliFault.NoMemory → fault_read self.new ≡ Some CliFault.NoMemory }
    {
        match input.read(block) {
            Err(_) => Err(CliFault::ReadFailed),
            Ok(0) => {
                self.edges.clear();
                Ok(false)
            }
            Ok(n) => {
                if n > self.left {
                    return Err(CliFault::TooLarge);
                }
                self.left -= n;
                Ok(self.edges.take_block(&block[..n])?)
            }
        }
    }

    /// Ends the input, and gives the edges of the last block, with the last of the input after
    /// them, at most 18, and the input's fault, if it has one: such a fault is no error.
    ///
    /// # Errors
    ///
    /// `AllocError` where memory was refused.
    pub fn finish(self) -> Result<LastEdges, AllocError>
        requires lines { lines_ahead self + 1 < 2 ^ 64 }
        ensures ends { IfOk result (λ last. EndsInputs self.entry last) }
        ensures few { IfOk result (λ last. length last.edges.items ≤ length (edges_read self.entry) + 18) }
    {
        self.edges.finish()
    }
}

/// Laws, with nothing to run: whatever follows what a reader has read of an input, the edges that
/// the reader has given are the first that the input says; and each text says edges in each format,
/// up to its fault if it has one.
pub fn read_edges_come_first()
    ensures first { ReadEdgesComeFirst }
    ensures some { EachTextSaysEdges }
{
    texts_say_samples();
    made_edges_come_first();
}
