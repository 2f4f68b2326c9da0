//! What the codes so far have set.

ghost use Rattle.std.specs.Prelude.{◌≡◌, Bool};
ghost use Rattle.pr_page.specs.Codes.{code_of};
ghost use Rattle.pr_page.specs.ModeLaws.{ModesLookBack};
ghost use Rattle.pr_page.specs.Steps.{settings_of_tokens, tokens_by};

use crate::codes::{
    CARRIAGE_RETURN, DOUBLE_WIDTH, GRAPHIC_MODE, LOWER_CASE, REVERSE_OFF, REVERSE_ON,
    STANDARD_WIDTH, UPPER_CASE,
};
use crate::pending::{Pending, begins_command};

/// Modes that last from byte to byte.
#[derive(Clone, Copy, Debug, PartialEq, Eq)]
pub struct Settings {
    /// Graphic mode, else character mode.
    pub graphic: bool,
    /// Cells of double width.
    pub wide: bool,
    /// Reverse printing.
    pub reverse: bool,
    /// The character set that overrides the selected one (true: lower/upper case).
    pub override_set: Option<bool>,
}

/// The modes of a printer that has taken nothing.
pub const FIRST_SETTINGS: Settings = Settings {
    graphic: false,
    wide: false,
    reverse: false,
    override_set: None,
};

impl Settings {
    /// The settings after a byte by itself.
    #[inline(always)]
    #[tactic(auto, unfolding(crate::specs::Codes::code_of))]
    pub fn after(mut self, b: u8) -> Settings
        ensures { result ≡ (code_of b).sets self }
    {
        match b {
            GRAPHIC_MODE => self.graphic = true,
            CARRIAGE_RETURN => {
                self.reverse = false;
                self.override_set = None;
            }
            DOUBLE_WIDTH | STANDARD_WIDTH => {
                self.graphic = false;
                self.wide = b == DOUBLE_WIDTH;
            }
            LOWER_CASE => self.override_set = Some(true),
            REVERSE_ON => self.reverse = true,
            UPPER_CASE if !self.graphic => self.override_set = Some(false),
            REVERSE_OFF if !self.graphic => self.reverse = false,
            _ => {}
        }
        self
    }

    /// The settings after a byte that comes after the bytes of a command that are pending.
    #[inline(always)]
    pub fn after_byte(self, pending: Pending, b: u8) -> Settings
        ensures { (lower : Bool) → result ≡ settings_of_tokens self (tokens_by pending lower b) }
    {
        match pending {
            Pending::Idle | Pending::EscapeCode if !begins_command(b) => self.after(b),
            Pending::Idle
            | Pending::EscapeCode
            | Pending::ColumnCode
            | Pending::ColumnTens(_)
            | Pending::RepeatCode
            | Pending::RepeatCount(_)
            | Pending::AddressCode
            | Pending::AddressHigh(_) => self,
        }
    }
}

/// A law, with nothing to run: the modes at a byte are those that the last codes before it have set.
#[tactic(auto, using(crate::proofs::LookingBack::looks_back))]
pub fn modes_look_back()
    ensures { ModesLookBack }
{}
