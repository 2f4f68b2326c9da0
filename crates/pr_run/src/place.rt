//! Where a run is in a program.

ghost use Rattle.std.specs.Prelude.{◌≡◌};
ghost use Rattle.pr_run.specs.Places.{beginning};

use pr_interpreter::ProgramLine;

/// A place in a program: a line, and a statement in it, both counted from 0. The place after a line's last statement
/// is the end of the line.
#[derive(Clone, Copy, Debug, PartialEq, Eq)]
pub struct Place {
    pub line: usize,
    pub statement: usize,
}

/// Returns where the line of a number begins.
#[tactic(auto, unfolding(crate::specs::Places::beginning))]
pub fn beginning(number: u16, lines: &[ProgramLine]) -> Option<Place>
    ensures { result ≡ beginning number lines.now }
{
    for (line, read) in lines.iter().enumerate() {
        if read.number == number {
            return Some(Place { line, statement: 0 });
        }
    }
    None
}
