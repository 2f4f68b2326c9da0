//! All that a printer keeps of what it has taken.

ghost use Rattle.std.specs.Prelude.{◌≡◌, ◌^◌, ◌<◌, ◌≤◌, [], ◌∷◌, Bool, OnOk, OnErr, IsOk, IsTrue};
ghost use Rattle.pr_page.specs.Codes.{code_of};
ghost use Rattle.pr_page.specs.Token.{Plain};
ghost use Rattle.pr_page.specs.Lines.{line_dots};
ghost use Rattle.pr_page.specs.declared.settings.Settings.{Settings};
ghost use Rattle.pr_page.specs.Steps.{begun_by, completed_by, tokens_by, state_after_tokens, step, start, GoesOn, IsInRange};

use crate::input::Input;
use crate::paper::{Paper, Sequence};
use crate::pending::Pending;
use crate::settings::{FIRST_SETTINGS, Settings};
use crate::sheet::Sheet;
use crate::work::Work;
use std::alloc::{AllocError, Global};

/// All that the inputs taken have left.
#[derive(Drop)]
pub struct PrinterState {
    pub settings: Settings,
    /// The last selection (true: lower/upper case).
    pub lower: bool,
    pub pending: Pending,
    pub sheet: Sheet,
    /// The number of inputs taken.
    pub taken: u64,
}

/// Whether a code leaves the settings and begins no command.
#[inline(always)]
#[tactic(auto, unfolding(crate::specs::Codes::code_of))]
pub(crate) fn leaves_settings(b: u8) -> bool
    ensures begun { IsTrue result → begun_by b ≡ Pending.Idle }
    ensures settings { IsTrue result → (s : Settings) → (code_of b).sets s ≡ s }
    ensures completed { IsTrue result → (lower : Bool) → completed_by lower b ≡ Plain lower b ∷ [] }
{
    b >= 160 || b >= 32 && b < 128
}

impl PrinterState {
    /// Nothing has been taken.
    pub fn new(alloc: Global) -> PrinterState
        ensures { result ≡ start }
    {
        PrinterState {
            settings: FIRST_SETTINGS,
            lower: false,
            pending: Pending::Idle,
            sheet: Sheet {
                y: 0,
                position: 0,
                paper: Paper {
                    rows: Sequence::new(alloc),
                    held: Sequence::new(alloc),
                },
            },
            taken: 0,
        }
    }

    /// Does what the tokens do that a byte completes.
    #[inline(never)]
    fn take_tokens(&mut self, alloc: Global, b: u8) -> Result<(), AllocError>
        requires y { self.old.sheet.y < 2 ^ 60 }
        requires position { self.old.sheet.position ≤ line_dots }
        ensures ok { OnOk result (self.new ≡ state_after_tokens self.old (tokens_by self.old.pending self.old.lower b)) }
        ensures range { OnOk result (GoesOn self.old.sheet self.new.sheet) }
        ensures err { OnErr result (self.new ≡ self.old) }
    {
        let work = Work::of_byte(self.pending, self.settings, self.lower, b);
        self.sheet.perform(alloc, self.settings.graphic, work)?;
        self.settings = self.settings.after_byte(self.pending, b);
        Ok(())
    }

    /// Takes an input. Refused, it leaves all as it was.
    ///
    /// A byte that leaves the settings goes straight to the sheet: most bytes do, and this halves
    /// the time that they take.
    #[inline(always)]
    pub fn take(&mut self, alloc: Global, x: Input) -> Result<(), AllocError>
        // the caller's part
        requires range { IsInRange self.old }
        requires room { self.old.taken < 2 ^ 32 }
        // what it does
        ensures ok { OnOk result (self.new ≡ step self.old x) }
        ensures selects { (lower : Bool) → x ≡ Input.Select lower → IsOk result }
        ensures range { IsInRange self.new }
        // what a refusal leaves
        ensures err { OnErr result (self.new ≡ self.old) }
    {
        match x {
            Input::Select(lower) => self.lower = lower,
            Input::Byte(b) if leaves_settings(b) && matches!(self.pending, Pending::Idle) => {
                let work = Work::of_plain(self.settings, self.lower, b);
                self.sheet.perform(alloc, self.settings.graphic, work)?;
            }
            Input::Byte(b) => {
                self.take_tokens(alloc, b)?;
                self.pending = self.pending.after(b);
            }
        }
        self.taken += 1;
        Ok(())
    }
}
