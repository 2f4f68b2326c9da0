//! Reading trace texts that come in blocks, edge by edge: whole lines at once, the rest byte by
//! byte, as `checker` does.

ghost use Rattle.std.specs.Prelude.{◌≡◌, ◌≢◌, ◌+◌, ◌^◌, ◌<◌, ◌≤◌, ◌∷◌, [], true, length, take, Some, IfErr, IfOk, IfSome, None, OnOk};
ghost use Rattle.pr_wire.specs.LineParts.{is_nothing};
ghost use Rattle.pr_wire.specs.TraceReading.{GivenEdgesComeFirst, HasReadTrace, edge_count};
ghost use Rattle.pr_wire.specs.TraceReads.{EndsText, FaultsIn, ReadsMore};

use crate::Edge;
use crate::line::EdgeLine;
use crate::line_part::LinePart;
use crate::text::TraceFault;
use crate::time_prefix::{TimePrefix, read_next};

/// Reads a trace text that comes in blocks, and gives its edges one by one. It keeps neither the text
/// nor its edges, so it needs no memory however long the text is.
#[derive(Drop)]
pub struct TraceReader {
    part: LinePart,
    /// How many lines have spelled an edge.
    count: usize,
    /// What the last lines begin with, but for the last three digits of their times.
    front: Option<TimePrefix>,
}

impl TraceReader {
    /// Makes a reader that has taken no byte of a text. It takes no memory.
    pub fn new() -> TraceReader
        ensures read { HasReadTrace [] [] result }
        ensures count { edge_count result ≡ 0 }
    {
        TraceReader {
            part: LinePart::Nothing,
            count: 0,
            front: None,
        }
    }

    /// Ends the line that has begun, and gives its edge.
    fn end_line(&mut self) -> Result<Edge, TraceFault>
        // the caller's part
        requires few { edge_count self.old + 1 < 2 ^ 64 }
        // what it gives
        ensures read { IfOk result (λ edge. ReadsMore (10 ∷ []) (Some edge) self.old self.new) }
        ensures count { OnOk result (edge_count self.new ≡ edge_count self.old + 1) }
        ensures part { OnOk result (is_nothing self.new.part ≡ true) }
        // when it refuses, and what that leaves
        ensures refused { IfErr result (λ fault. FaultsIn (10 ∷ []) self.old fault) }
        ensures memory { IfErr result (λ fault. fault ≢ TraceFault.NoMemory) }
    {
        let Some(edge) = self.part.edge() else {
            return Err(TraceFault::BadLine(self.count + 1));
        };
        self.part = LinePart::Nothing;
        self.count += 1;
        Ok(edge)
    }

    /// Takes the line in front of a block, if no line has begun and the block has one that spells an edge
    /// and ends with byte 10 alone.
    #[inline(always)]
    fn take_line(&mut self, block: &[u8]) -> Option<EdgeLine>
        requires few { edge_count self.old + 1 < 2 ^ 64 }
        ensures read { IfSome result (λ line. ReadsMore (take line.len block.now) (Some line.edge) self.old self.new) }
        ensures some { IfSome result (λ line. 0 < line.len) }
        ensures within { IfSome result (λ line. line.len ≤ length block.now) }
        ensures count { IfSome result (λ _. edge_count self.new ≡ edge_count self.old + 1) }
        ensures stays { result ≡ None → (self.new.part ≡ self.old.part) × (self.new.count ≡ self.old.count) }
    {
        if !self.part.is_nothing() {
            return None;
        }
        let line = read_next(&mut self.front, block)?;
        self.count += 1;
        Some(line)
    }

    /// Takes bytes from the front of a block: a whole line, where the block begins with one that
    /// spells an edge, or else one byte. Gives how many, at least one, and the edge of the line
    /// that they end. However the text is cut into blocks, the edges given are those that it says.
    /// It takes no memory.
    ///
    /// # Errors
    ///
    /// [`TraceFault::BadLine`] with the number of the line that these bytes end, counted from 1,
    /// where it spells no edge: it is the first such line of the text. Nothing is promised of the
    /// reader afterwards. It is never [`TraceFault::NoMemory`].
    #[inline(always)]
    pub fn take_front(&mut self, block: &[u8]) -> Result<(usize, Option<Edge>), TraceFault>
        requires few { edge_count self.old + 1 < 2 ^ 64 }
        requires some { 0 < length block.now }
        // what it gives
        ensures read { IfOk result (λ r. ReadsMore (take r.0 block.now) r.1 self.old self.new) }
        ensures some { IfOk result (λ r. 0 < r.0) }
        ensures within { IfOk result (λ r. r.0 ≤ length block.now) }
        ensures count { OnOk result (edge_count self.new ≤ edge_count self.old + 1) }
        // when it refuses
        ensures refused { IfErr result (λ fault. FaultsIn block.now self.old fault) }
        ensures memory { IfErr result (λ fault. fault ≢ TraceFault.NoMemory) }
    {
        if let Some(line) = self.take_line(block) {
            return Ok((line.len, Some(line.edge)));
        }
        if block[0] == b'\n' {
            let edge = self.end_line()?;
            return Ok((1, Some(edge)));
        }
        self.part = self.part.after(block[0]);
        Ok((1, None))
    }

    /// Ends the text, whose last line may lack its end, and gives the edge of that line. It takes no
    /// memory.
    ///
    /// # Errors
    ///
    /// [`TraceFault::BadLine`] with the number of the last line, where it spells no edge; never
    /// [`TraceFault::NoMemory`].
    pub fn finish(mut self) -> Result<Option<Edge>, TraceFault>
        requires few { edge_count self + 1 < 2 ^ 64 }
        ensures ends { EndsText self result }
        ensures memory { IfErr result (λ fault. fault ≢ TraceFault.NoMemory) }
    {
        if self.part.is_nothing() {
            return Ok(None);
        }
        let edge = self.end_line()?;
        Ok(Some(edge))
    }
}

/// A law, with nothing to run: whatever follows the bytes that a reader has taken, the edges that
/// it has given are the first that the text says.
pub fn given_edges_come_first()
    ensures { GivenEdgesComeFirst }
{}
