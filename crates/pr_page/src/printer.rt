//! The printer.

ghost use Rattle.std.specs.Prelude.{◌≡◌, ◌+◌, ◌^◌, ◌<◌, Bool, List, [], ◌∷◌, ◌++◌, length, IsOk, OnOk, OnErr};
ghost use Rattle.pr_page.specs.declared.input.Input.{Input};
ghost use Rattle.pr_page.specs.declared.paper.Paper.{Paper};
ghost use Rattle.pr_page.specs.Page.{IsPage};
ghost use Rattle.pr_page.specs.Evaluator.{page_of};
ghost use Rattle.pr_page.specs.Taken.{HasTaken, number_taken};

use crate::NoMemory;
use crate::input::Input;
use crate::paper::Paper;
use crate::state::PrinterState;
use std::alloc::Global;
use std::marker::Model;

/// A VIC-1525 Graphic Printer, by what it has taken.
///
/// It stores the paper and the modes, not the inputs. Its contracts say "the printer has taken
/// this list": so of the empty list after [`Printer::new`], of the longer list after each
/// [`Printer::take`], and [`Printer::paper`] answers with the page of every list of which it can
/// be said.
#[derive(Drop)]
pub struct Printer {
    alloc: Global,
    state: PrinterState,
}

impl Model for Printer {
    ghost use Rattle.pr_page.specs.declared.state.PrinterState.{PrinterState};
    ghost use Rattle.pr_page.specs.Steps.{IsInRange};

    ghost Value = { PrinterState };

    ghost view = { λ p. p.state };

    ghost invariant = { λ p. IsInRange p.state };
}

impl Printer {
    /// Makes a printer that has taken nothing: character mode, standard width, reverse off, the
    /// graphic/upper case set, at dot 0 of an empty paper. It takes no memory.
    pub fn new(alloc: Global) -> Printer
        ensures inputs { HasTaken [] result }
        ensures count { number_taken result ≡ 0 }
    {
        Printer {
            alloc,
            state: PrinterState::new(alloc),
        }
    }

    /// Takes one more input, of any kind. Fewer than 2^32 inputs were taken before.
    ///
    /// # Errors
    ///
    /// [`NoMemory`] where a growth of the paper was refused; the printer is then as it was, and the
    /// input can be given again. An [`Input::Select`] never fails.
    #[inline(always)]
    pub fn take(&mut self, input: Input) -> Result<(), NoMemory>
        requires { number_taken self.old < 2 ^ 32 }
        ensures ok { OnOk result ((inputs : List Input) → HasTaken inputs self.old → HasTaken (inputs ++ input ∷ []) self.new) }
        ensures count { OnOk result (number_taken self.new ≡ number_taken self.old + 1) }
        ensures selects { (lower : Bool) → input ≡ Input.Select lower → IsOk result }
        ensures err { OnErr result (self.new ≡ self.old) }
    {
        self.state.take(self.alloc, input)
    }

    /// Returns the paper: the page of all inputs taken.
    pub fn paper(&self) -> &Paper
        ensures page { (inputs : List Input) → HasTaken inputs self.now → IsPage inputs result.now }
        ensures value { (inputs : List Input) → HasTaken inputs self.now → result.now ≡ page_of inputs }
    {
        &self.state.sheet.paper
    }

    /// Turns the printer into its paper: the page of all inputs taken. It takes no memory.
    pub fn into_paper(self) -> Paper
        ensures page { (inputs : List Input) → HasTaken inputs self → IsPage inputs result }
        ensures value { (inputs : List Input) → HasTaken inputs self → result ≡ page_of inputs }
    {
        self.state.sheet.paper
    }

    /// Returns the number of inputs taken.
    pub fn taken(&self) -> u64
        ensures value { result ≡ number_taken self.now }
        ensures inputs { (inputs : List Input) → HasTaken inputs self.now → result ≡ length inputs }
    {
        self.state.taken
    }
}

/// A law, with nothing to run: each list of inputs has exactly one page, and `page_of` computes it.
pub fn each_list_has_one_page()
    ensures page { (inputs : List Input) → IsPage inputs (page_of inputs) }
    ensures only { (inputs : List Input) (paper : Paper) → IsPage inputs paper → paper ≡ page_of inputs }
{}
