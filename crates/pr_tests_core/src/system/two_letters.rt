//! What the tests of two letters on printer 4 share.

ghost use Rattle.std.specs.Prelude.{◌≤◌, length};
ghost use Rattle.pr_basic.specs.Limits.{statement_limit};

use pr_basic::{Statement, read_script};
use pr_bus::Delays;
use pr_channels::Stop;
use pr_page::{Mark, Paper, Placed};
use pr_serial::Present;
use pr_system::Outcome;
use pr_wire::example::TRACE_TEXT;
use pr_wire::{Choices, Edge, write_trace};
use std::alloc::Global;
use std::process::Abort;

pub const BOTH: Present = Present {
    four: true,
    five: true,
};

/// The marks of the two letters.
pub const LETTERS: [Placed; 2] = [
    Placed {
        x: 0,
        mark: Mark::Cell {
            code: 72,
            lower: false,
            reverse: false,
            wide: false,
        },
    },
    Placed {
        x: 6,
        mark: Mark::Cell {
            code: 73,
            lower: false,
            reverse: false,
            wide: false,
        },
    },
];

/// Delays that are all typical.
pub fn typical(alloc: Global) -> Delays {
    Delays {
        computer: Choices::new(Vec::new(alloc)),
        four: Choices::new(Vec::new(alloc)),
        five: Choices::new(Vec::new(alloc)),
    }
}

/// The statements of a script.
pub fn statements_of(rt: &(impl Abort + AllocGlobal), script: &[u8]) -> Vec<Statement>
    ensures { length result.items ≤ statement_limit }
{
    read_script(rt.alloc(), script).expect(rt, "a script")
}

/// Whether the paper has one row with these marks, or nothing where there are none.
pub fn is_page(paper: &Paper, marks: &[Placed]) -> bool {
    let is_row = match paper.rows.as_slice() {
        [] => marks.is_empty(),
        [row] => row.y == 0 && !marks.is_empty() && row.marks.as_slice() == marks,
        _ => false,
    };
    is_row && paper.held.is_empty()
}

/// Whether printer 4 printed the two letters alone and printer 5 nothing, with these statuses, this
/// stop, these bytes on the screen and this many edges.
pub fn is_outcome(
    outcome: &Outcome,
    statuses: &[u8],
    stop: Option<(usize, Stop)>,
    screen: &[u8],
    edges: usize,
) -> bool {
    is_page(&outcome.paper4, &LETTERS)
        && is_page(&outcome.paper5, &[])
        && outcome.statuses.as_slice() == statuses
        && outcome.stop == stop
        && outcome.screen.as_slice() == screen
        && outcome.trace.len() == edges
}

/// Whether these are the edges of the example trace.
pub fn are_the_example(rt: &(impl Abort + AllocGlobal), edges: &[Edge]) -> bool {
    let text = write_trace(rt.alloc(), edges).expect(rt, "memory");
    text.as_slice() == TRACE_TEXT.as_bytes()
}
