//! A printer that can be watched: the marks that each byte makes, between calls in the caller's memory.

ghost use Rattle.std.specs.Prelude.{◌≡◌, ◌==◌, ◌+◌, ◌<◌, ◌≤◌, ◌^◌, ◌++◌, ◌∷◌, [], IsTrue, List, length};
ghost use Rattle.pr_page.specs.Marks.{marks_made};
ghost use Rattle.pr_page.specs.Striking.{IsInLine};
ghost use Rattle.pr_page.specs.declared.carriage.MarkOnPaper.{MarkOnPaper};
ghost use Rattle.pr_page.specs.declared.input.Input.{Input};
ghost use Rattle.pr_ear.specs.declared.printing.Printed.{Printed};
ghost use Rattle.pr_ear.specs.declared.printer_numbers.WireMark.{WireMark};
ghost use Rattle.pr_ear.specs.Printing.{ArePrinted, HasPrinted, IsAnyPrinted, IsLaid, IsPrinted, NextRowsAreAtPrinters, PrintersPrintPages, printed_answer, set_answer};
ghost use Rattle.pr_ear.specs.PrintingSteps.{LeavesSettings, PrintsAt};

use crate::printer_numbers::{WireMark, WirePrinter, numbers_of_mark, restore, store};
use crate::{Answer, plain, refused};
use pr_page::{Head, Input, Made, MarkOnPaper, heads_make_pages};

/// What came of a byte that a printer was given.
#[derive(Clone, Copy, Debug, PartialEq, Eq)]
pub enum Printed {
    /// The byte was taken, and the marks that it makes, this many, were put into the buffer.
    Marks(usize),
    /// The byte makes this many marks, more than the buffer has room for: it was not taken.
    TooSmall(usize),
}

/// What came of some bytes that a printer was given.
#[repr(C)]
#[derive(Clone, Copy, Debug, PartialEq, Eq)]
pub struct Run {
    /// How many of the bytes were taken, from the front.
    pub taken: usize,
    /// How many marks they make.
    pub marks: usize,
}

/// Selects a character set of a printer: the lower/upper case set, or else the graphic/upper case set. It makes no
/// mark.
pub fn select_set(printer: &mut WirePrinter, lower: bool)
    ensures { (inputs : List Input) (marks : List MarkOnPaper) → length inputs < 2 ^ 58 → HasPrinted inputs marks printer.old
        → HasPrinted (inputs ++ Input.Select lower ∷ []) marks printer.new }
{
    let mut head = restore(printer);
    let _nothing = head.take(Input::Select(lower));
    *printer = store(&head);
}

/// Puts marks after those that the buffer has at its front, which has room for them.
fn put(out: &mut [WireMark], at: usize, made: &Made)
    requires line { IsInLine made.now }
    requires room { at + length (marks_made made.now) ≤ length out.old }
    ensures laid { (marks : List MarkOnPaper) (first : List WireMark) → at ≡ length marks → IsLaid marks first out.old
        → IsLaid (marks ++ marks_made made.now) first out.new }
{
    if made.len() == 0 {
        return;
    }
    if made.count == 1 && made.next_count == 0 {
        out[at] = numbers_of_mark(MarkOnPaper {
            y: made.y,
            x: made.x,
            mark: made.mark,
        });
        return;
    }
    for index in 0..made.len() {
        if let Some(mark) = made.get(index) {
            out[at + usize::from(index)] = numbers_of_mark(mark);
        }
    }
}

/// Whether a code leaves the settings and begins no command.
#[inline(always)]
#[tactic(auto, unfolding(pr_page::specs::Codes::code_of))]
fn leaves_settings(byte: u8) -> bool
    ensures { IsTrue result → LeavesSettings byte }
{
    byte >= 160 || byte >= 32 && byte < 128
}

/// Whether a byte leaves the settings and begins no command, and nothing is pending. Most bytes do.
#[inline(always)]
fn is_plain(printer: &WirePrinter, byte: u8) -> bool
    ensures idle { IsTrue result → printer.now.pending ≡ 0 }
    ensures plain { IsTrue result → LeavesSettings byte }
{
    printer.pending == 0 && leaves_settings(byte)
}

/// Gives a printer such a byte in graphic mode, or not: then only its place changes.
#[inline(always)]
fn print_in_mode(
    printer: &mut WirePrinter,
    graphic: bool,
    byte: u8,
    out: &mut [WireMark],
    at: usize,
) -> Printed
    requires room { at ≤ length out.old }
    requires idle { printer.old.pending ≡ 0 }
    requires plain { LeavesSettings byte }
    requires mode { graphic ≡ (printer.old.graphic == 1) }
    ensures printed { PrintsAt byte at result printer.old printer.new out.old out.new }
    ensures any { IsAnyPrinted at result printer.old printer.new out.old out.new }
{
    let mut head = restore(printer);
    head.settings.graphic = graphic;
    let made = head.take(Input::Byte(byte));
    let count = usize::from(made.len());
    if out.len() - at < count {
        return Printed::TooSmall(count);
    }
    put(out, at, &made);
    printer.y = head.carriage.y;
    printer.x = head.carriage.position;
    Printed::Marks(count)
}

/// Gives a printer such a byte. In each mode the compiler knows which kind of mark the byte makes.
#[inline(always)]
fn print_plain(printer: &mut WirePrinter, byte: u8, out: &mut [WireMark], at: usize) -> Printed
    requires room { at ≤ length out.old }
    requires idle { printer.old.pending ≡ 0 }
    requires plain { LeavesSettings byte }
    ensures printed { PrintsAt byte at result printer.old printer.new out.old out.new }
    ensures any { IsAnyPrinted at result printer.old printer.new out.old out.new }
{
    if printer.graphic == 1 {
        print_in_mode(printer, true, byte, out, at)
    } else {
        print_in_mode(printer, false, byte, out, at)
    }
}

/// Gives a printer any byte.
#[inline(never)]
fn print_any(printer: &mut WirePrinter, byte: u8, out: &mut [WireMark], at: usize) -> Printed
    requires { at ≤ length out.old }
    ensures printed { PrintsAt byte at result printer.old printer.new out.old out.new }
    ensures any { IsAnyPrinted at result printer.old printer.new out.old out.new }
{
    let mut head = restore(printer);
    let made = head.take(Input::Byte(byte));
    let count = usize::from(made.len());
    if out.len() - at < count {
        return Printed::TooSmall(count);
    }
    put(out, at, &made);
    *printer = store(&head);
    Printed::Marks(count)
}

/// Gives a printer a byte, and puts the marks that it makes after those that the buffer has at its front.
#[inline(always)]
fn print_at(printer: &mut WirePrinter, byte: u8, out: &mut [WireMark], at: usize) -> Printed
    requires { at ≤ length out.old }
    ensures printed { PrintsAt byte at result printer.old printer.new out.old out.new }
    ensures any { IsAnyPrinted at result printer.old printer.new out.old out.new }
{
    if is_plain(printer, byte) {
        print_plain(printer, byte, out, at)
    } else {
        print_any(printer, byte, out, at)
    }
}

/// Gives a printer a byte, and puts the marks that it makes at the front of a buffer: at most 255. If they have no room
/// there, the byte is not taken, and all is as it was. It takes no memory.
#[inline(always)]
pub fn print_byte(printer: &mut WirePrinter, byte: u8, out: &mut [WireMark]) -> Printed
    ensures printed { (inputs : List Input) (marks : List MarkOnPaper) → length inputs < 2 ^ 58
        → HasPrinted inputs marks printer.old → IsPrinted inputs marks byte result printer.old printer.new out.old out.new }
    ensures any { IsAnyPrinted 0 result printer.old printer.new out.old out.new }
{
    print_at(printer, byte, out, 0)
}

/// Gives a printer bytes, and puts the marks that they make at the front of a buffer, until the marks of one more byte
/// have no room there. A buffer of 255 marks has room for those of one byte at least. It takes no memory.
pub fn print_bytes(printer: &mut WirePrinter, bytes: &[u8], out: &mut [WireMark]) -> Run
    ensures printed { (inputs : List Input) (marks : List MarkOnPaper) → length inputs + length bytes.now < 2 ^ 58
        → HasPrinted inputs marks printer.old → ArePrinted inputs marks bytes.now result printer.new out.old out.new }
    ensures taken { result.taken ≤ length bytes.now }
    ensures marks { result.marks ≤ length out.old }
{
    let mut run = Run { taken: 0, marks: 0 };
    for byte in bytes {
        match print_at(printer, *byte, out, run.marks) {
            Printed::Marks(count) => {
                run.marks += count;
                run.taken += 1;
            }
            Printed::TooSmall(_) => return run,
        }
    }
    run
}

/// A law: the marks that a printer makes are those of the page of its inputs, and the next row to end is at its place.
pub fn printers_print_pages()
    ensures pages { PrintersPrintPages }
    ensures next { NextRowsAreAtPrinters }
{
    heads_make_pages();
}

/// The answer to a byte, as numbers.
fn printed_answer(printed: Printed) -> Answer
    ensures { result ≡ printed_answer printed }
{
    match printed {
        Printed::Marks(count) => plain(0, count),
        Printed::TooSmall(count) => plain(4, count),
    }
}

/// Begins a printer that has taken nothing: at dot 0 of the first line, in character mode with the graphic/upper case
/// set. It takes no memory.
#[unsafe(no_mangle)]
pub extern "C" fn print1525_printer_begin(printer: &mut WirePrinter)
    ensures { HasPrinted [] [] printer.new }
{
    *printer = store(&Head::new());
}

/// Selects a character set of a printer: 0 the graphic/upper case set, 1 the lower/upper case set. Any other number is
/// refused, and the printer is then as it was.
#[unsafe(no_mangle)]
pub extern "C" fn print1525_printer_select(printer: &mut WirePrinter, set: u8, answer: &mut Answer)
    ensures selected { (inputs : List Input) (marks : List MarkOnPaper) → length inputs < 2 ^ 58 → HasPrinted inputs marks printer.old
        → set < 2 → HasPrinted (inputs ++ Input.Select (set == 1) ∷ []) marks printer.new }
    ensures no_set { (set < 2 → ⊥) → printer.new ≡ printer.old }
    ensures answer { answer.new ≡ set_answer set }
{
    if set < 2 {
        select_set(printer, set == 1);
        *answer = plain(0, 0);
    } else {
        *answer = refused(25, 0);
    }
}

/// Gives a printer any byte, and answers.
#[inline(never)]
fn answer_any(printer: &mut WirePrinter, byte: u8, out: &mut [WireMark], answer: &mut Answer)
    ensures printed { (inputs : List Input) (marks : List MarkOnPaper) → length inputs < 2 ^ 58 → HasPrinted inputs marks printer.old
        → (printed : Printed) × IsPrinted inputs marks byte printed printer.old printer.new out.old out.new
        × (answer.new ≡ printed_answer printed) }
    ensures any { (printed : Printed) × IsAnyPrinted 0 printed printer.old printer.new out.old out.new
        × (answer.new ≡ printed_answer printed) }
{
    *answer = printed_answer(print_any(printer, byte, out, 0));
}

/// Gives a printer a byte, and puts the marks that it makes at the front of a buffer. The answer is that of
/// [`print_byte`], in plain numbers. Whatever numbers the printer has, they mean some printer. It takes no memory.
#[unsafe(no_mangle)]
pub extern "C" fn print1525_printer_byte(
    printer: &mut WirePrinter,
    byte: u8,
    out: &mut [WireMark],
    answer: &mut Answer,
)
    ensures printed { (inputs : List Input) (marks : List MarkOnPaper) → length inputs < 2 ^ 58 → HasPrinted inputs marks printer.old
        → (printed : Printed) × IsPrinted inputs marks byte printed printer.old printer.new out.old out.new
        × (answer.new ≡ printed_answer printed) }
    ensures any { (printed : Printed) × IsAnyPrinted 0 printed printer.old printer.new out.old out.new
        × (answer.new ≡ printed_answer printed) }
{
    if is_plain(printer, byte) {
        *answer = printed_answer(print_byte(printer, byte, out));
    } else {
        answer_any(printer, byte, out, answer);
    }
}

/// Gives a printer bytes, and puts the marks that they make at the front of a buffer, until those of one more byte have
/// no room there. `run` says how many bytes were taken and how many marks they make. Whatever numbers the printer has,
/// they mean some printer. It takes no memory.
#[unsafe(no_mangle)]
pub extern "C" fn print1525_printer_bytes(
    printer: &mut WirePrinter,
    bytes: &[u8],
    out: &mut [WireMark],
    run: &mut Run,
)
    ensures printed { (inputs : List Input) (marks : List MarkOnPaper) → length inputs + length bytes.now < 2 ^ 58
        → HasPrinted inputs marks printer.old → ArePrinted inputs marks bytes.now run.new printer.new out.old out.new }
    ensures taken { run.new.taken ≤ length bytes.now }
    ensures marks { run.new.marks ≤ length out.old }
{
    *run = print_bytes(printer, bytes, out);
}
