//! Traces as text: one line an edge (profile).

ghost use Rattle.std.specs.Prelude.{◌≡◌, ◌≢◌, List, IfOk, IfErr};
ghost use Rattle.pr_wire.specs.declared.Edge.{Edge};
ghost use Rattle.pr_wire.specs.Checking.{IsTraceFault};
ghost use Rattle.pr_wire.specs.TraceText.{trace_text, IsTraceText};
ghost use Rattle.pr_wire.specs.TextLaws.{TextIsReadBack, TextSaysSomething, TextSpellsOnce};

use crate::line::read_line;
use crate::line_writer::Writer;
use crate::{Edge, NoMemory};
use std::alloc::{AllocFailed, Global};
use thiserror::Error;

/// Why a text is no trace text.
#[derive(Clone, Copy, Debug, Drop, Error, PartialEq, Eq)]
pub enum TraceFault {
    /// The first line that spells no edge, counted from 1.
    #[error("line {0}: bad trace line")]
    BadLine(usize),
    /// Memory was refused.
    #[error("out of memory")]
    NoMemory,
}

impl<T: Drop> From<AllocFailed<T>> for TraceFault {
    ghost use Rattle.pr_wire.specs.declared.text.TraceFault.TheVariants.{NoMemory};

    ghost from_gives = { λ _ e. e ≡ NoMemory };

    fn from(_e: AllocFailed<T>) -> TraceFault {
        TraceFault::NoMemory
    }
}

/// Reads the edges that a text spells, one a line: the time in decimal (leading zeros are allowed),
/// a space, three digits for ATN, CLOCK and DATA (1 released), and byte 10. A byte 13 directly
/// before byte 10 is allowed, and the last line may lack byte 10, with or without a byte 13 at its
/// end. The empty text has no edges. The order of times is not looked at.
///
/// # Errors
///
/// [`TraceFault::BadLine`] with the number of the first line of another form, a blank one too, or
/// with a time of 2^64 or more: then the text spells no edges. [`TraceFault::NoMemory`] where a
/// growth of the list was refused.
pub fn read_trace(alloc: Global, text: &[u8]) -> Result<Vec<Edge>, TraceFault>
    ensures ok { IfOk result (λ edges. IsTraceText text.now edges.items) }
    ensures err { IfErr result (λ fault. IsTraceFault text.now fault) }
    ensures not_text { IfErr result (λ fault. fault ≢ TraceFault.NoMemory → (edges : List Edge) → IsTraceText text.now edges → ⊥) }
{
    let mut edges = Vec::new(alloc);
    let mut rest = text;
    while !rest.is_empty() {
        let Some(line) = read_line(rest) else {
            return Err(TraceFault::BadLine(edges.len() + 1));
        };
        edges.push(line.edge)?;
        rest = &rest[line.len..];
    }
    Ok(edges)
}

/// Writes a list of edges as text, one line each: the time in decimal without leading zeros, a
/// space, three digits for ATN, CLOCK and DATA (1 released), and byte 10.
///
/// # Errors
///
/// [`NoMemory`] where a growth of the text was refused.
pub fn write_trace(alloc: Global, edges: &[Edge]) -> Result<Vec<u8>, NoMemory>
    ensures { IfOk result (λ text. text.items ≡ trace_text edges.now) }
{
    let mut writer = Writer::new();
    let mut text = Vec::new(alloc);
    writer.push_edges(&mut text, edges)?;
    Ok(text)
}

/// Laws, with nothing to run: the text of edges is read back as these edges, a text spells at most
/// one list of edges, and says exactly one list up to its first bad line.
pub fn trace_texts()
    ensures read_back { TextIsReadBack }
    ensures once { TextSpellsOnce }
    ensures some { TextSaysSomething }
{}
