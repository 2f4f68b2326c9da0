//! The state of a run.

ghost use Rattle.std.specs.Prelude.{◌≡◌, ◌<◌, ◌-◌, ◌^◌};
ghost use Rattle.pr_run.specs.Seen.{state_of};
ghost use Rattle.pr_run.specs.States.{cleared, first_state, next_line};

use crate::opened::Open;
use crate::place::Place;
use pr_interpreter::{Arrays, Function, Variable};
use std::alloc::Global;

/// The state of a run.
#[derive(Drop)]
pub struct Run {
    /// The place of the next statement.
    pub place: Place,
    pub variables: Vec<Variable>,
    pub arrays: Arrays,
    pub functions: Vec<Function>,
    /// How many bytes the strings of variables and elements take.
    pub strings: u16,
    /// The loops and calls that are open, the last at the end.
    pub opened: Vec<Open>,
    /// How many items of DATA were read.
    pub items_read: usize,
    /// The numbers of the open files.
    pub files: Vec<u8>,
    /// The number of the file that has the output; 0 for the screen.
    pub channel: u8,
    /// Whether all that is on the screen ends with a return.
    pub at_left: bool,
    /// Whether something was sent to a file.
    pub has_sent: bool,
    /// The number of the line of the first POKE that was left out.
    pub skipped_poke: Option<u16>,
}

impl Run {
    /// Begins a run.
    pub fn new(alloc: Global) -> Run
        ensures { state_of result ≡ first_state }
    {
        Run {
            place: Place {
                line: 0,
                statement: 0,
            },
            variables: Vec::new(alloc),
            arrays: Arrays::new(alloc),
            functions: Vec::new(alloc),
            strings: 0,
            opened: Vec::new(alloc),
            items_read: 0,
            files: Vec::new(alloc),
            channel: 0,
            at_left: true,
            has_sent: false,
            skipped_poke: None,
        }
    }

    /// Forgets the variables, the arrays, the functions, what is open, and which items were read.
    pub fn clear(&mut self, alloc: Global)
        ensures { state_of self.new ≡ cleared (state_of self.old) }
    {
        self.variables.clear();
        self.arrays = Arrays::new(alloc);
        self.functions.clear();
        self.strings = 0;
        self.opened.clear();
        self.items_read = 0;
    }

    /// Goes on with the next line.
    pub fn go_to_next_line(&mut self)
        requires { self.old.place.line < 2 ^ 64 - 1 }
        ensures { state_of self.new ≡ next_line (state_of self.old) }
    {
        self.place = Place {
            line: self.place.line + 1,
            statement: 0,
        };
    }
}
