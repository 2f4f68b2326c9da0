//! How a run begins, and how it ends.

ghost use Rattle.std.specs.Prelude.{◌≡◌, length, nat_lt};
ghost use Rattle.pr_jobs.specs.Runs.{ending_at, held_marks, pages_end, paper_end, run_end};
ghost use Rattle.pr_render.specs.Svg.{all_zero};

use crate::format::has_rows;
use pr_basic::StatusMode;
use pr_bus::Delays;
use pr_channels::Stop;
use pr_page::{Mark, Paper, Placed};
use pr_serial::Present;
use pr_system::Outcome;

/// How a run begins.
#[derive(Drop)]
pub struct Start {
    /// The printers that are connected.
    pub present: Present,
    /// The delay numbers of the computer and of both printers.
    pub delays: Delays,
    /// How the status goes on from statement to statement.
    pub mode: StatusMode,
}

/// Whether a BASIC error stopped a run.
#[derive(Clone, Copy, Debug, PartialEq, Eq)]
pub enum Ending {
    /// Every statement was performed.
    Done,
    /// A BASIC error stopped the run.
    Stopped,
}

/// How a run ended: which BASIC error stopped it, and where.
#[derive(Clone, Copy, Debug, PartialEq, Eq)]
pub enum RunEnd {
    /// Every statement was performed.
    Done,
    /// A BASIC error stopped the run.
    Stopped {
        /// The statement that it stopped, counted from 1.
        statement: usize,
        /// The error.
        stop: Stop,
    },
}

impl RunEnd {
    /// Returns the end of a run that this error stopped at this statement, or that none stopped.
    pub fn of(stop: Option<(usize, Stop)>) -> RunEnd
        ensures { result ≡ run_end stop }
    {
        match stop {
            None => RunEnd::Done,
            Some((statement, stop)) => RunEnd::Stopped { statement, stop },
        }
    }

    /// Returns whether an error stopped the run.
    pub fn ending(self) -> Ending
        ensures { result ≡ ending_at self }
    {
        match self {
            RunEnd::Done => Ending::Done,
            RunEnd::Stopped { .. } => Ending::Stopped,
        }
    }
}

/// The marks of a printer's line that has not ended: how many of each kind it holds.
#[derive(Clone, Copy, Debug, PartialEq, Eq)]
pub struct HeldMarks {
    /// Characters.
    pub characters: usize,
    /// Columns of dots, of graphic mode.
    pub columns: usize,
}

impl HeldMarks {
    /// Returns how many of these marks are of each kind. It takes no memory.
    pub fn of(marks: &[Placed]) -> HeldMarks
        ensures { result ≡ held_marks marks.now }
    {
        let mut characters: usize = 0;
        let mut columns: usize = 0;
        for placed in marks {
            match placed.mark {
                Mark::Cell { .. } => characters += 1,
                Mark::Dots(_) => columns += 1,
            }
        }
        HeldMarks {
            characters,
            columns,
        }
    }
}

/// What a printer has printed, and what it holds that was not printed.
#[derive(Clone, Copy, Debug, PartialEq, Eq)]
pub struct PaperEnd {
    /// It has printed a row.
    pub is_printed: bool,
    /// What it holds.
    pub held: HeldMarks,
}

impl PaperEnd {
    /// Returns the end of this paper. It takes no memory.
    pub fn of(paper: &Paper) -> PaperEnd
        ensures { result ≡ paper_end paper.now }
    {
        PaperEnd {
            is_printed: has_rows(paper),
            held: HeldMarks::of(paper.held.as_slice()),
        }
    }
}

/// Whether each device that statements with these statuses called has answered.
fn all_zero(statuses: &[u8]) -> bool
    ensures { result ≡ all_zero statuses.now }
{
    statuses.iter().all(|status| *status == 0)
}

/// Whether a byte went to the screen.
fn has_screen(outcome: &Outcome) -> bool
    ensures { result ≡ nat_lt 0 (length outcome.now.screen) }
{
    !outcome.screen.is_empty()
}

/// How a run ended whose pages were written, what its printers have printed and hold, and where else its output went.
#[derive(Clone, Copy, Debug, PartialEq, Eq)]
pub struct PagesEnd {
    /// How the run ended.
    pub run: RunEnd,
    /// The paper of printer 4.
    pub four: PaperEnd,
    /// The paper of printer 5.
    pub five: PaperEnd,
    /// A byte went to the screen.
    pub has_screen: bool,
    /// A statement called a device that did not answer.
    pub has_unanswered: bool,
}

impl PagesEnd {
    /// Returns the end of the pages of this outcome. It takes no memory.
    pub fn of(outcome: &Outcome) -> PagesEnd
        ensures { result ≡ pages_end outcome.now }
    {
        PagesEnd {
            run: RunEnd::of(outcome.stop),
            four: PaperEnd::of(&outcome.paper4),
            five: PaperEnd::of(&outcome.paper5),
            has_screen: has_screen(outcome),
            has_unanswered: !all_zero(outcome.statuses.as_slice()),
        }
    }
}
