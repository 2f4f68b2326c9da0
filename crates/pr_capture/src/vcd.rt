//! Writing Value Change Dumps (IEEE 1364, four-state).

ghost use Rattle.std.specs.Prelude.{◌≡◌, ◌++◌, Some, None, decimal, OnOk, IfOk};
ghost use Rattle.pr_wire.specs.TraceText.{level_digit};
ghost use Rattle.pr_capture.specs.Vcd.{change, change_if, edge_changes, head, last_edge, levels_changes, stamp, vcd_changes, vcd_end, vcd_of};
ghost use Rattle.pr_capture.specs.VcdLaws.{VcdAddsUp};
ghost use Rattle.pr_capture.specs.VcdWriting.{last_written};

use itoa::Buffer;
use pr_wire::{Edge, Levels, NoMemory};
use std::alloc::Global;

/// How long after the last edge the last time stamp is, in microseconds (profile).
const END: u128 = 1000;

/// What comes before the changes.
#[tactic(auto, unfolding(crate::specs::Vcd::head))]
fn head() -> &'static [u8]
    ensures { result.now ≡ head }
{
    b"$timescale 1 us $end\n$scope module bus $end\n$var wire 1 A ATN $end\n$var wire 1 C CLOCK $end\n$var wire 1 D DATA $end\n$upscope $end\n$enddefinitions $end\n"
}

/// Adds the header of a Value Change Dump to a text: the unit of time is a microsecond, and the
/// wires are ATN (`A`), CLOCK (`C`) and DATA (`D`).
///
/// # Errors
///
/// [`NoMemory`] where a growth of the text was refused. Nothing is promised of the text then.
pub fn push_vcd_head(text: &mut Vec<u8>) -> Result<(), NoMemory>
    ensures { OnOk result (text.new.items ≡ text.old.items ++ head) }
{
    text.extend_from_slice(head())
}

/// Adds a number in decimal.
fn push_number(text: &mut Vec<u8>, n: u128) -> Result<(), NoMemory>
    ensures { OnOk result (text.new.items ≡ text.old.items ++ decimal n) }
{
    let mut buffer = Buffer::new();
    text.extend_from_slice(buffer.format(n).as_bytes())
}

/// Adds a time stamp: a moment in microseconds.
#[tactic(auto, unfolding(crate::specs::Vcd::stamp))]
fn push_stamp(text: &mut Vec<u8>, time: u128) -> Result<(), NoMemory>
    ensures { OnOk result (text.new.items ≡ text.old.items ++ stamp time) }
{
    text.push(b'#')?;
    push_number(text, time)?;
    text.push(b'\n')?;
    Ok(())
}

/// The digit of a level: 1 is released.
fn level_digit(level: bool) -> u8
    ensures { result ≡ level_digit level }
{
    if level { b'1' } else { b'0' }
}

/// Adds the new level of a wire.
#[tactic(auto, unfolding(crate::specs::Vcd::change))]
fn push_change(text: &mut Vec<u8>, wire: u8, level: bool) -> Result<(), NoMemory>
    ensures { OnOk result (text.new.items ≡ text.old.items ++ change wire level) }
{
    text.extend_from_slice(&[level_digit(level), wire, b'\n'])
}

/// Adds the new level of a wire where it is another than before.
fn push_change_if(text: &mut Vec<u8>, wire: u8, before: bool, level: bool) -> Result<(), NoMemory>
    ensures { OnOk result (text.new.items ≡ text.old.items ++ change_if wire before level) }
{
    match (before, level) {
        (true, true) => Ok(()),
        (false, false) => Ok(()),
        (true, false) => push_change(text, wire, false),
        (false, true) => push_change(text, wire, true),
    }
}

/// Adds the levels that differ from those of the edge before; where there is none before, all three.
fn push_levels(text: &mut Vec<u8>, before: Option<Edge>, levels: Levels) -> Result<(), NoMemory>
    ensures { OnOk result (text.new.items ≡ text.old.items ++ levels_changes before levels) }
{
    match before {
        None => {
            push_change(text, b'A', levels.atn)?;
            push_change(text, b'C', levels.clock)?;
            push_change(text, b'D', levels.line)
        }
        Some(before) => {
            push_change_if(text, b'A', before.levels.atn, levels.atn)?;
            push_change_if(text, b'C', before.levels.clock, levels.clock)?;
            push_change_if(text, b'D', before.levels.line, levels.line)
        }
    }
}

/// Writes a trace as a Value Change Dump, edges after edges.
#[derive(Drop)]
pub struct VcdWriter {
    last: Option<Edge>,
}

impl VcdWriter {
    /// Makes a writer that has written no edge. It takes no memory.
    pub fn new() -> VcdWriter
        ensures { last_written result ≡ None }
    {
        VcdWriter { last: None }
    }

    /// Adds the time stamp of an edge and the levels that it changes.
    #[tactic(auto, unfolding(crate::specs::Vcd::edge_changes))]
    fn push_edge(&mut self, text: &mut Vec<u8>, edge: Edge) -> Result<(), NoMemory>
        ensures text { OnOk result (text.new.items ≡ text.old.items ++ edge_changes (last_written self.old) edge) }
        ensures last { OnOk result (last_written self.new ≡ Some edge) }
    {
        push_stamp(text, u128::from(edge.time))?;
        push_levels(text, self.last, edge.levels)?;
        self.last = Some(edge);
        Ok(())
    }

    /// Adds edges to a text: each has one time stamp, in microseconds, and a line for each wire whose
    /// level it changes; the first edge of all has a line for each wire. 1 is released.
    ///
    /// # Errors
    ///
    /// [`NoMemory`] where a growth of the text was refused. Nothing is promised of the text then.
    pub fn push_edges(&mut self, text: &mut Vec<u8>, edges: &[Edge]) -> Result<(), NoMemory>
        ensures text { OnOk result (text.new.items ≡ text.old.items ++ vcd_changes (last_written self.old) edges.now) }
        ensures last { OnOk result (last_written self.new ≡ last_edge (last_written self.old) edges.now) }
    {
        for edge in edges {
            self.push_edge(text, *edge)?;
        }
        Ok(())
    }

    /// Ends a text: adds a time stamp 1000 microseconds after the last edge, so that viewers show
    /// the last levels. Where no edge was written it adds nothing.
    ///
    /// # Errors
    ///
    /// [`NoMemory`] where a growth of the text was refused. Nothing is promised of the text then.
    pub fn push_end(self, text: &mut Vec<u8>) -> Result<(), NoMemory>
        ensures { OnOk result (text.new.items ≡ text.old.items ++ vcd_end (last_written self)) }
    {
        match self.last {
            None => Ok(()),
            Some(last) => push_stamp(text, u128::from(last.time) + END),
        }
    }
}

/// Writes a list of edges as a Value Change Dump.
///
/// # Errors
///
/// [`NoMemory`] where a growth of the text was refused.
#[tactic(auto, unfolding(crate::specs::Vcd::vcd_of))]
pub fn write_vcd(alloc: Global, edges: &[Edge]) -> Result<Vec<u8>, NoMemory>
    ensures { IfOk result (λ text. text.items ≡ vcd_of edges.now) }
{
    let mut writer = VcdWriter::new();
    let mut text = Vec::new(alloc);
    push_vcd_head(&mut text)?;
    writer.push_edges(&mut text, edges)?;
    writer.push_end(&mut text)?;
    Ok(text)
}

/// A law, with nothing to run: what is written of edges in several parts is what is written of them
/// at once.
pub fn vcd_adds_up()
    ensures { VcdAddsUp }
{}
