//! What is kept of the edges of lines.

use pr_wire::{Edge, Levels};

/// How many edges have come, and a number that they and their order make (as FNV-1a does of bytes).
#[derive(Clone, Copy, Debug, PartialEq, Eq)]
pub struct Sum {
    pub count: u32,
    value: u64,
}

/// The sum of no edges.
const NOTHING: Sum = Sum {
    count: 0,
    value: 0xcbf2_9ce4_8422_2325,
};

/// One number for the levels of the lines.
fn number_of(levels: Levels) -> u64 {
    let atn: u64 = if levels.atn { 1 } else { 0 };
    let clock: u64 = if levels.clock { 2 } else { 0 };
    let line: u64 = if levels.line { 4 } else { 0 };
    atn | clock | line
}

impl Sum {
    /// One more number.
    fn with(self, number: u64) -> Sum {
        Sum {
            count: self.count,
            value: (self.value ^ number).wrapping_mul(0x0100_0000_01b3),
        }
    }

    /// One more edge.
    pub fn after(self, edge: Edge) -> Sum {
        let sum = self.with(edge.time).with(number_of(edge.levels));
        Sum {
            count: sum.count.saturating_add(1),
            value: sum.value,
        }
    }
}

/// The sum of edges.
pub fn sum_of(edges: &[Edge]) -> Sum {
    let mut sum = NOTHING;
    for edge in edges {
        sum = sum.after(*edge);
    }
    sum
}

/// The edges of lines that change: those that are over, and the last one, which other acts of its microsecond may change.
#[derive(Clone, Copy, Debug, PartialEq, Eq)]
pub struct Record {
    over: Sum,
    last: Edge,
}

impl Record {
    /// All lines are released.
    pub fn new() -> Record {
        Record {
            over: NOTHING,
            last: Edge {
                time: 0,
                levels: Levels {
                    atn: true,
                    clock: true,
                    line: true,
                },
            },
        }
    }

    /// The lines come to levels at a moment.
    pub fn after(self, edge: Edge) -> Record {
        if self.last.levels == edge.levels {
            return self;
        }
        let over = if self.last.time == edge.time {
            self.over
        } else {
            self.over.after(self.last)
        };
        Record { over, last: edge }
    }

    /// The sum of all edges.
    pub fn sum(self) -> Sum {
        self.over.after(self.last)
    }
}
