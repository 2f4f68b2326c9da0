//! The edges of an input in any format, block by block.

ghost use Rattle.std.specs.Prelude.{◌≡◌, ◌+◌, ◌^◌, ◌<◌, ◌≤◌, [], length, is_none, take, IfOk, None, OnErr, OnOk, Some};
ghost use Rattle.pr_jobs.specs.Inputs.{AddsSample, EndsSource, GivesBlock, HasEdges, SkipsFront, edges_in, fault_in, lines_taken};
ghost use Rattle.pr_jobs.specs.InputReads.{GivesEdges, SaysAll};
ghost use Rattle.pr_jobs.specs.Sources.{lines_read};
ghost use Rattle.pr_jobs.specs.declared.source_reader.SourceReader.TheVariants.{Text};
ghost use Rattle.pr_wire.specs.TraceReading.{edge_count};

use crate::edge_maker::EdgeMaker;
use crate::fault::{CliFault, own_fault};
use crate::source_reader::SourceReader;
use pr_capture::TraceInput;
use pr_wire::{Edge, TraceReader};
use std::alloc::{AllocError, Global};

/// The last edges of an input, and its fault, if it has one.
#[derive(Drop)]
pub struct LastEdges {
    /// The edges that were not given before.
    pub edges: Vec<Edge>,
    /// The first fault of the input itself.
    pub fault: Option<CliFault>,
}

/// Reads the edges of an input that comes in blocks, in any format.
///
/// The first fault of the input ends it. Until then each block may be followed by another, and
/// [`finish`](EdgeReader::finish) ends the input.
#[derive(Drop)]
pub struct EdgeReader<'a> {
    reader: SourceReader<'a>,
    maker: EdgeMaker,
    /// The edges of the last block.
    edges: Vec<Edge>,
    /// The first fault of the input, once it has come.
    fault: Option<CliFault>,
}

impl<'a> EdgeReader<'a> {
    /// Makes a reader that has taken nothing of an input. It takes no memory.
    pub fn new(alloc: Global, input: TraceInput<'a>) -> EdgeReader<'a>
        ensures known { HasEdges input.entry [] [] result }
        ensures edges { edges_in result ≡ [] }
        ensures fault { fault_in result ≡ None }
        ensures lines { lines_taken result ≤ 1 }
    {
        EdgeReader {
            reader: SourceReader::new(alloc, input),
            maker: EdgeMaker::new(alloc, input),
            edges: Vec::new(alloc),
            fault: None,
        }
    }

    /// Returns the edges of the last block.
    pub fn edges(&self) -> &[Edge]
        ensures { result.now ≡ edges_in self.now }
    {
        self.edges.as_slice()
    }

    /// Forgets the edges of the last block.
    pub fn clear(&mut self)
        ensures known { GivesEdges [] self.old self.new }
        ensures edges { edges_in self.new ≡ [] }
        ensures fault { fault_in self.new ≡ fault_in self.old }
        ensures lines { lines_taken self.new ≡ lines_taken self.old }
    {
        self.edges.clear();
    }

    /// Takes the next block: the edges that are known by it take the place of those of the block before.
    /// Returns whether the input goes on: false where its first fault is in this block.
    ///
    /// # Errors
    ///
    /// `AllocError` where memory was refused. The reader then has no edges, and takes no other block: its fault
    /// is [`CliFault::NoMemory`].
    pub fn take_block(&mut self, block: &[u8]) -> Result<bool, AllocError>
        // the caller's part
        requires open { fault_in self.old ≡ None }
        requires lines { lines_taken self.old + length block.now + 1 < 2 ^ 64 }
        // what it gives
        ensures known { OnOk result (GivesEdges block.now self.old self.new) }
        ensures goes_on { IfOk result (λ goes_on. goes_on ≡ is_none (fault_in self.new)) }
        ensures lines { OnOk result (lines_taken self.new ≤ lines_taken self.old + length block.now) }
        ensures few { OnOk result (length (edges_in self.new) ≤ length block.now) }
        // what a refusal leaves
        ensures refused { OnErr result (fault_in self.new ≡ Some CliFault.NoMemory) }
        ensures none { OnErr result (edges_in self.new ≡ []) }
    {
        self.edges.clear();
        match take_samples(&mut self.reader, &mut self.maker, block, &mut self.edges) {
            Ok(fault) => {
                self.fault = fault;
                Ok(self.fault.is_none())
            }
            Err(refused) => {
                self.edges.clear();
                self.fault = Some(CliFault::NoMemory);
                Err(refused)
            }
        }
    }

    /// Ends the input, and gives the edges of the last block, with the last of the input after
    /// them, at most 18, and the input's fault, if it has one: such a fault is no error.
    ///
    /// # Errors
    ///
    /// `AllocError` where memory was refused.
    pub fn finish(self) -> Result<LastEdges, AllocError>
        requires lines { lines_taken self + 1 < 2 ^ 64 }
        ensures says { IfOk result (λ last. SaysAll self.entry last) }
        ensures fault { IfOk result (λ last. last.fault ≡ None → fault_in self.entry ≡ None) }
        ensures few { IfOk result (λ last. length last.edges.items ≤ length (edges_in self.entry) + 18) }
    {
        let EdgeReader {
            reader,
            maker,
            mut edges,
            fault,
        } = self;
        match fault {
            Some(_) => {
                maker.finish(&mut edges)?;
                Ok(LastEdges { edges, fault })
            }
            None => {
                let fault = end_source(reader, maker, &mut edges)?;
                Ok(LastEdges { edges, fault })
            }
        }
    }
}

/// Adds the edges that are known by a block. Returns the input's fault, where it is in the block.
fn take_samples(
    reader: &mut SourceReader<'_>,
    maker: &mut EdgeMaker,
    block: &[u8],
    edges: &mut Vec<Edge>,
) -> Result<Option<CliFault>, AllocError>
    requires lines { lines_read reader.old + length block.now + 1 < 2 ^ 64 }
    ensures known { IfOk result (λ fault. GivesBlock block.now edges.old.items reader.old maker.old fault
        edges.new.items reader.new maker.new) }
    ensures lines { IfOk result (λ fault. fault ≡ None → lines_read reader.new ≤ lines_read reader.old + length block.now) }
    ensures few { OnOk result (length edges.new.items ≤ length edges.old.items + length block.now) }
{
    match reader {
        SourceReader::Text(text) => take_text(text, maker, block, edges),
        SourceReader::Vcd(_) | SourceReader::Csv(_) => take_rows(reader, maker, block, edges),
    }
}

/// Adds the edges of a block of a trace text, as [`take_rows`] would: its reader alone is asked, line by line.
fn take_text(
    reader: &mut TraceReader,
    maker: &mut EdgeMaker,
    block: &[u8],
    edges: &mut Vec<Edge>,
) -> Result<Option<CliFault>, AllocError>
    requires lines { edge_count reader.old + length block.now + 1 < 2 ^ 64 }
    ensures known { IfOk result (λ fault. GivesBlock block.now edges.old.items (Text reader.old) maker.old fault
        edges.new.items (Text reader.new) maker.new) }
    ensures lines { IfOk result (λ fault. fault ≡ None → edge_count reader.new ≤ edge_count reader.old + length block.now) }
    ensures few { OnOk result (length edges.new.items ≤ length edges.old.items + length block.now) }
{
    let mut rest = block;
    while !rest.is_empty() {
        match reader.take_front(rest) {
            Ok((len, sample)) => {
                push_sample(edges, maker, sample)?;
                rest = &rest[len..];
            }
            Err(fault) => return Ok(Some(own_fault(CliFault::from(fault))?)),
        }
    }
    Ok(None)
}

/// Adds the edges that are known by a block in any format, tables of samples above all: rows that repeat the last one
/// are taken at once.
fn take_rows(
    reader: &mut SourceReader<'_>,
    maker: &mut EdgeMaker,
    block: &[u8],
    edges: &mut Vec<Edge>,
) -> Result<Option<CliFault>, AllocError>
    requires lines { lines_read reader.old + length block.now + 1 < 2 ^ 64 }
    ensures known { IfOk result (λ fault. GivesBlock block.now edges.old.items reader.old maker.old fault
        edges.new.items reader.new maker.new) }
    ensures lines { IfOk result (λ fault. fault ≡ None → lines_read reader.new ≤ lines_read reader.old + length block.now) }
    ensures few { OnOk result (length edges.new.items ≤ length edges.old.items + length block.now) }
{
    let mut rest = block;
    while !rest.is_empty() {
        let len = skip_repeats(reader, maker, rest);
        if len > 0 {
            rest = &rest[len..];
            continue;
        }
        match reader.take_front(rest) {
            Ok((len, sample)) => {
                push_sample(edges, maker, sample)?;
                rest = &rest[len..];
            }
            Err(fault) => return Ok(Some(own_fault(fault)?)),
        }
    }
    Ok(None)
}

/// Takes what is in front of a block and has the levels of the last sample, so that it makes no edge. Gives how
/// many bytes, which may be none: it is a quick way through tables in which nothing changes.
#[inline(always)]
fn skip_repeats(reader: &mut SourceReader<'_>, maker: &mut EdgeMaker, block: &[u8]) -> usize
    requires lines { lines_read reader.old + length block.now + 1 < 2 ^ 64 }
    ensures known { SkipsFront (take result block.now) reader.old maker.old reader.new maker.new }
    ensures lines { lines_read reader.new ≤ lines_read reader.old + result }
    ensures within { result ≤ length block.now }
{
    let Some(levels) = maker.settled() else {
        return 0;
    };
    let Some((len, last)) = reader.take_repeats(block, levels) else {
        return 0;
    };
    maker.skip(last);
    len
}

/// Adds the edge that is known by a sample, if there is a sample and it makes one known.
#[inline(always)]
fn push_sample(
    edges: &mut Vec<Edge>,
    maker: &mut EdgeMaker,
    sample: Option<Edge>,
) -> Result<(), AllocError>
    ensures known { OnOk result (AddsSample sample edges.old.items maker.old edges.new.items maker.new) }
    ensures few { OnOk result (length edges.new.items ≤ length edges.old.items + 1) }
{
    let Some(sample) = sample else {
        return Ok(());
    };
    let known = maker.take(sample)?;
    if let Some(edge) = known {
        // As `push`, which would also hand the edge back where memory is refused.
        edges.reserve(1)?;
        edges.push_reserved(edge);
    }
    Ok(())
}

/// Ends an input that has had no fault so far.
fn end_source(
    reader: SourceReader<'_>,
    mut maker: EdgeMaker,
    edges: &mut Vec<Edge>,
) -> Result<Option<CliFault>, AllocError>
    requires lines { lines_read reader + 1 < 2 ^ 64 }
    ensures says { IfOk result (λ fault. EndsSource reader.entry maker edges.old.items edges.new.items fault) }
    ensures few { OnOk result (length edges.new.items ≤ length edges.old.items + 18) }
{
    match reader.finish() {
        Ok(sample) => {
            push_sample(edges, &mut maker, sample)?;
            maker.finish(edges)?;
            Ok(None)
        }
        Err(fault) => {
            let own = own_fault(fault)?;
            maker.finish(edges)?;
            Ok(Some(own))
        }
    }
}
