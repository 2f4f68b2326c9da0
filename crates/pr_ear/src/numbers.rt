//! Edges and truth values in plain numbers, which a caller of another language can own.

ghost use Rattle.std.specs.Prelude.{◌≡◌};
ghost use Rattle.pr_ear.specs.Hearing.{bit_of};
ghost use Rattle.pr_ear.specs.Numbers.{wire_of};

use crate::WireEdge;
use pr_wire::Edge;

/// A truth value as a number.
pub fn bit(value: bool) -> u8
    ensures { result ≡ bit_of value }
{
    if value { 1 } else { 0 }
}

/// The numbers of no edge.
pub const NO_EDGE: WireEdge = WireEdge {
    time: 0,
    atn: 0,
    clock: 0,
    data: 0,
};

/// An edge in a caller's numbers.
pub fn wire_for(edge: Edge) -> WireEdge
    ensures { result ≡ wire_of edge }
{
    WireEdge {
        time: edge.time,
        atn: bit(edge.levels.atn),
        clock: bit(edge.levels.clock),
        data: bit(edge.levels.line),
    }
}
