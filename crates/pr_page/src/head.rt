//! The print head: all that a printer keeps besides its paper.

ghost use Rattle.std.specs.Prelude.{◌≡◌, ◌*◌, ◌+◌, ◌^◌, ◌<◌, ◌≤◌, [], ◌∷◌, ◌++◌, Bool, List, length};
ghost use Rattle.pr_page.specs.Lines.{line_dots};
ghost use Rattle.pr_page.specs.Marks.{marks_made};
ghost use Rattle.pr_page.specs.Making.{HasMade, HeadsMakePages, NextRowsAreAtHeads};
ghost use Rattle.pr_page.specs.Striking.{head_of, IsInLine, IsWithin, StepsWith};
ghost use Rattle.pr_page.specs.declared.carriage.MarkOnPaper.{MarkOnPaper};
ghost use Rattle.pr_page.specs.declared.input.Input.{Input};

use crate::carriage::{Carriage, Made};
use crate::input::Input;
use crate::pending::Pending;
use crate::settings::{FIRST_SETTINGS, Settings};
use crate::state::leaves_settings;
use crate::work::Work;

/// The greatest distance from the top at which a head takes an input, in 1/126 inch.
pub const LAST_LINE: u64 = 1 << 63;

/// A printer's head and modes, without its paper: what each input makes is returned, and kept by nobody. It is plain
/// numbers, takes no memory, and can be copied.
///
/// Its contracts say "the head has taken these inputs and has made these marks": so of the empty lists after
/// [`Head::new`], and of the longer ones after each [`Head::take`]. [`heads_make_pages`] says that the marks are those
/// of the page of the inputs.
#[derive(Clone, Copy, Debug, PartialEq, Eq)]
pub struct Head {
    pub settings: Settings,
    /// The last selection (true: lower/upper case).
    pub lower: bool,
    pub pending: Pending,
    pub carriage: Carriage,
}

impl Head {
    /// Makes the head of a printer that has taken nothing: character mode, standard width, reverse off, the
    /// graphic/upper case set, at dot 0 of the first line.
    pub fn new() -> Head
        ensures made { HasMade [] [] result }
    {
        Head {
            settings: FIRST_SETTINGS,
            lower: false,
            pending: Pending::Idle,
            carriage: Carriage { y: 0, position: 0 },
        }
    }

    /// Takes a byte. One that leaves the settings goes straight to the carriage: most bytes do.
    #[inline(always)]
    fn take_byte(&mut self, b: u8) -> Made
        requires y { self.old.carriage.y ≤ 2 ^ 63 }
        requires position { self.old.carriage.position ≤ line_dots }
        ensures prints { StepsWith (Input.Byte b) self.old self.new (marks_made result) }
        ensures within { IsWithin self.old.carriage self.new.carriage }
        ensures in_line { IsInLine result }
    {
        if leaves_settings(b) && matches!(self.pending, Pending::Idle) {
            let plain = Work::of_plain(self.settings, self.lower, b);
            return self.carriage.perform(self.settings.graphic, plain);
        }
        let work = Work::of_byte(self.pending, self.settings, self.lower, b);
        let made = self.carriage.perform(self.settings.graphic, work);
        self.settings = self.settings.after_byte(self.pending, b);
        self.pending = self.pending.after(b);
        made
    }

    /// Takes one more input, of any kind, and returns the marks that it makes: at most 255 of a byte, and none of a
    /// selection. A line that ends makes no mark.
    #[inline(always)]
    #[tactic(auto, using(crate::proofs::Striking::few_marks))]
    pub fn take(&mut self, input: Input) -> Made
        // the caller's part
        requires y { self.old.carriage.y ≤ 2 ^ 63 }
        requires position { self.old.carriage.position ≤ line_dots }
        // what it makes
        ensures made { (inputs : List Input) (marks : List MarkOnPaper) → HasMade inputs marks self.old
            → HasMade (inputs ++ input ∷ []) (marks ++ marks_made result) self.new }
        ensures selects { (lower : Bool) → input ≡ Input.Select lower → marks_made result ≡ [] }
        ensures few { length (marks_made result) ≤ 255 }
        ensures within { IsWithin self.old.carriage self.new.carriage }
        ensures in_line { IsInLine result }
    {
        match input {
            Input::Select(lower) => {
                self.lower = lower;
                Made::nothing()
            }
            Input::Byte(b) => self.take_byte(b),
        }
    }
}

/// A law, with nothing to run: the marks that a head has made are those of the page of the inputs that it has taken,
/// each with its row's distance from the top, and then those of the line that has not ended, at the head's own; and
/// the next row to end is at the head's.
pub fn heads_make_pages()
    ensures pages { HeadsMakePages }
    ensures next { NextRowsAreAtHeads }
{}
