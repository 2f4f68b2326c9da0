//! Both printers over the readings of a recording.

ghost use Rattle.std.specs.Prelude.{◌≡◌, ◌+◌, ◌^◌, ◌<◌, ◌≤◌, ◌++◌, ◌∷◌, [], max, length, false, true, List, OnErr, OnOk};
ghost use Rattle.pr_decode.specs.declared.reading.Reading.{Reading};
ghost use Rattle.pr_wire.specs.declared.Frame.{Frame};
ghost use Rattle.pr_recording.specs.PrintedPages.{ArePapers, heard_in};
ghost use Rattle.pr_recording.specs.Taking.{HasPrinted, HasReprinted, HaveListened, has_failed, number_taken};

use crate::bus_printer::BusPrinter;
use crate::tape::Takes;
use pr_base::{FIRST_PRINTER, SECOND_PRINTER};
use pr_decode::{Reading, acknowledged_frame};
use pr_page::{NoMemory, Paper};
use pr_serial::Present;
use pr_wire::Frame;
use std::alloc::{AllocError, Global};
use std::marker::Model;

/// What printers 4 and 5 print of a recording.
#[derive(Debug, Drop, PartialEq)]
pub struct PrintedPages {
    /// The paper of printer 4.
    pub paper4: Paper,
    /// The paper of printer 5.
    pub paper5: Paper,
    /// Which of them heard a byte. A call alone counts for nothing, since a printer that is not there is
    /// called too.
    pub present: Present,
}

/// Both printers, and whether one of them was refused memory.
#[derive(Drop)]
pub struct BusPrinters {
    pub four: BusPrinter,
    pub five: BusPrinter,
    pub failed: bool,
}

impl BusPrinters {
    /// Lets both printers hear a frame.
    fn hear(&mut self, frame: Frame) -> Result<(), NoMemory>
        // the caller's part
        requires listened { HaveListened self.old }
        requires room { number_taken self.old < 2 ^ 32 }
        // what it gives
        ensures four { OnOk result ((frames : List Frame) → HasPrinted 4 frames self.old.four →
            HasPrinted 4 (frames ++ frame ∷ []) self.new.four) }
        ensures five { OnOk result ((frames : List Frame) → HasPrinted 5 frames self.old.five →
            HasPrinted 5 (frames ++ frame ∷ []) self.new.five) }
        ensures listened { HaveListened self.new }
        ensures count { number_taken self.new ≤ number_taken self.old + 1 }
        // when it refuses, and what that leaves
        ensures failed { self.new.failed ≡ self.old.failed }
    {
        self.four.hear(frame)?;
        self.five.hear(frame)
    }
}

/// Prints what printers 4 and 5 hear of a recording, reading by reading.
///
/// It keeps both papers, not the readings. Its contracts say "these readings were taken": so of the
/// empty list after [`PrinterPair::new`], and of the longer list after each [`PrinterPair::take`];
/// [`PrinterPair::finish`] answers with the papers of every list of which it can be said.
#[derive(Drop)]
pub struct PrinterPair {
    printers: BusPrinters,
}

impl Model for PrinterPair {
    ghost use Rattle.pr_recording.specs.declared.printer_pair.BusPrinters.{BusPrinters};
    ghost use Rattle.pr_recording.specs.Taking.{HaveListened};

    ghost Value = { BusPrinters };

    ghost view = { λ r. r.printers };

    ghost invariant = { λ r. HaveListened r.printers };
}

impl PrinterPair {
    /// Makes both printers, with empty papers; neither listens. It takes no memory.
    pub fn new(alloc: Global) -> PrinterPair
        ensures taken { HasReprinted [] result }
        ensures count { number_taken result ≡ 0 }
    {
        PrinterPair {
            printers: BusPrinters {
                four: BusPrinter::new(alloc, FIRST_PRINTER),
                five: BusPrinter::new(alloc, SECOND_PRINTER),
                failed: false,
            },
        }
    }

    /// Takes the next reading of a recording: each printer hears it, if it is a byte that was
    /// acknowledged, and prints what it then has for it. A printer takes at most 2^32 inputs: fewer
    /// than that were taken before ([`PrinterPair::taken`]), and this call adds at most one.
    ///
    /// # Errors
    ///
    /// [`NoMemory`] where a growth of a paper was refused, in this call or in an earlier one. Each
    /// later call is then refused too, and nothing else is said of the papers.
    pub fn take(&mut self, reading: Reading) -> Result<(), NoMemory>
        requires room { number_taken self.old < 2 ^ 32 }
        // what it does
        ensures taken { OnOk result ((readings : List Reading) → HasReprinted readings self.old →
            HasReprinted (readings ++ reading ∷ []) self.new) }
        ensures count { number_taken self.new ≤ number_taken self.old + 1 }
        // when it is refused, and what that leaves
        ensures works { OnOk result (has_failed self.old ≡ false) }
        ensures err { OnErr result (has_failed self.new ≡ true) }
    {
        if self.printers.failed {
            return Err(AllocError);
        }
        let Some(frame) = acknowledged_frame(reading) else {
            return Ok(());
        };
        let answer = self.printers.hear(frame);
        self.printers.failed = answer.is_err();
        answer
    }

    /// Returns the number of inputs that the printers have taken, of the printer that has taken
    /// more.
    pub fn taken(&self) -> u64
        ensures value { result ≡ number_taken self.now }
        ensures inputs { (readings : List Reading) → HasReprinted readings self.now →
            result ≡ max (length (heard_in 4 readings)) (length (heard_in 5 readings)) }
    {
        let four = self.printers.four.printer.taken();
        let five = self.printers.five.printer.taken();
        four.max(five)
    }

    /// Ends the recording and returns the papers: the pages of what the printers hear of all
    /// readings taken, and which of them heard a byte. It takes no memory.
    pub fn finish(self) -> PrintedPages
        ensures { (readings : List Reading) → HasReprinted readings self → ArePapers readings result }
    {
        let present = Present {
            four: self.printers.four.got_byte,
            five: self.printers.five.got_byte,
        };
        PrintedPages {
            paper4: self.printers.four.printer.into_paper(),
            paper5: self.printers.five.printer.into_paper(),
            present,
        }
    }
}

impl Takes for PrinterPair {
    ghost use Rattle.pr_recording.specs.Adds.{Adds, adds_both, adds_none, fewer_fit};
    ghost use Rattle.pr_recording.specs.Taking.{HasReprinted, number_taken};

    ghost takes = { Adds HasReprinted };

    ghost may_take = { λ n p. number_taken p + n ≤ 2 ^ 32 };

    ghost takes_none = { adds_none HasReprinted };

    ghost takes_both = { adds_both HasReprinted };

    ghost takes_fewer = { λ k n p. fewer_fit k n (number_taken p) (2 ^ 32) };

    fn take_reading(&mut self, reading: &Reading) -> Result<(), NoMemory> {
        self.take(*reading)
    }
}
