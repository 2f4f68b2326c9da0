//! How a printer's head and the marks that it makes are held in plain numbers, which a caller of another language can
//! own.

ghost use Rattle.std.specs.Prelude.{◌≡◌, ◌≤◌, ◌^◌, Bool, Option};
ghost use Rattle.pr_page.specs.declared.pending.Pending.{Pending};
ghost use Rattle.pr_ear.specs.MarkNumbers.{mark_by, mark_numbers};
ghost use Rattle.pr_ear.specs.PrinterNumbers.{PrintersComeBack, head_by, override_by, override_number, parameter_of, pending_by, pending_number, stored};

use crate::numbers::bit;
use pr_page::{Carriage, Head, LAST_LINE, LINE_DOTS, Mark, MarkOnPaper, Pending, Settings};

/// A mark on the paper. All numbers mean some mark: a `kind` that is not 1 is a cell, and a flag that is not 1 is 0.
#[repr(C)]
#[derive(Clone, Copy, Debug, PartialEq, Eq)]
pub struct WireMark {
    /// The distance of its row from the top, in 1/126 inch.
    pub y: u64,
    /// The dot column at which it begins.
    pub x: u16,
    /// 0: a cell; 1: a column of dots.
    pub kind: u8,
    /// The code of a cell, or the dots of a column: bit 0 is the top dot, bit 6 the bottom one.
    pub value: u8,
    /// 1: of the lower/upper case set, else of the graphic/upper case set.
    pub lower: u8,
    /// 1: white on black.
    pub reverse: u8,
    /// 1: double width.
    pub wide: u8,
}

/// What a caller keeps of a printer between two bytes. The numbers are this library's: a caller writes none of them.
/// All numbers mean some printer: an `x` above 480 is 480, a `y` above 2^63 is 2^63, and a number that means nothing is
/// 0.
#[repr(C)]
#[derive(Clone, Copy, Debug, PartialEq, Eq)]
pub struct WirePrinter {
    /// The distance of the line from the top, in 1/126 inch.
    pub y: u64,
    /// The dot column to which the next mark goes, at most 480.
    pub x: u16,
    /// 1: graphic mode.
    pub graphic: u8,
    /// 1: double width.
    pub wide: u8,
    /// 1: reverse printing.
    pub reverse: u8,
    /// The character set that overrides the selected one: 0 none, 1 graphic/upper case, 2 lower/upper case.
    pub override_set: u8,
    /// 1: the lower/upper case set is selected.
    pub lower: u8,
    /// What has come of a command with parameters: 0 nothing, 1 the code 16, 2 and its first digit, 3 the code 26, 4
    /// and its count, 5 the code 27, 6 and the code 16, 7 and the first byte of the address.
    pub pending: u8,
    /// With 2, 4 and 7 the parameter that has come, else 0.
    pub parameter: u8,
}

/// A mark as numbers.
pub fn numbers_of_mark(mark: MarkOnPaper) -> WireMark
    ensures { result ≡ mark_numbers mark }
{
    let MarkOnPaper { y, x, mark } = mark;
    match mark {
        Mark::Cell {
            code,
            lower,
            reverse,
            wide,
        } => WireMark {
            y,
            x,
            kind: 0,
            value: code,
            lower: bit(lower),
            reverse: bit(reverse),
            wide: bit(wide),
        },
        Mark::Dots(dots) => WireMark {
            y,
            x,
            kind: 1,
            value: dots,
            lower: 0,
            reverse: 0,
            wide: 0,
        },
    }
}

/// The mark that numbers mean.
pub fn mark_for(numbers: &WireMark) -> MarkOnPaper
    ensures { result ≡ mark_by numbers.now }
{
    MarkOnPaper {
        y: numbers.y,
        x: numbers.x,
        mark: if numbers.kind == 1 {
            Mark::Dots(numbers.value)
        } else {
            Mark::Cell {
                code: numbers.value,
                lower: numbers.lower == 1,
                reverse: numbers.reverse == 1,
                wide: numbers.wide == 1,
            }
        },
    }
}

/// The number of an overriding set.
fn number_of_override(set: Option<bool>) -> u8
    ensures { result ≡ override_number set }
{
    match set {
        None => 0,
        Some(false) => 1,
        Some(true) => 2,
    }
}

/// The overriding set that a number means.
fn override_for(number: u8) -> Option<bool>
    ensures { result ≡ override_by number }
{
    match number {
        1 => Some(false),
        2 => Some(true),
        _ => None,
    }
}

/// The number of what is pending, and its parameter.
fn numbers_of_pending(pending: Pending) -> (u8, u8)
    ensures { result ≡ (pending_number pending, parameter_of pending) }
{
    match pending {
        Pending::Idle => (0, 0),
        Pending::ColumnCode => (1, 0),
        Pending::ColumnTens(tens) => (2, tens),
        Pending::RepeatCode => (3, 0),
        Pending::RepeatCount(count) => (4, count),
        Pending::EscapeCode => (5, 0),
        Pending::AddressCode => (6, 0),
        Pending::AddressHigh(high) => (7, high),
    }
}

/// What numbers mean that is pending.
fn pending_for(number: u8, parameter: u8) -> Pending
    ensures { result ≡ pending_by number parameter }
{
    match number {
        1 => Pending::ColumnCode,
        2 => Pending::ColumnTens(parameter),
        3 => Pending::RepeatCode,
        4 => Pending::RepeatCount(parameter),
        5 => Pending::EscapeCode,
        6 => Pending::AddressCode,
        7 => Pending::AddressHigh(parameter),
        _ => Pending::Idle,
    }
}

/// The numbers of a head.
pub fn store(head: &Head) -> WirePrinter
    ensures { result ≡ stored head.now }
{
    let (pending, parameter) = numbers_of_pending(head.pending);
    WirePrinter {
        y: head.carriage.y,
        x: head.carriage.position,
        graphic: bit(head.settings.graphic),
        wide: bit(head.settings.wide),
        reverse: bit(head.settings.reverse),
        override_set: number_of_override(head.settings.override_set),
        lower: bit(head.lower),
        pending,
        parameter,
    }
}

/// The head that numbers mean.
pub fn restore(printer: &WirePrinter) -> Head
    ensures value { result ≡ head_by printer.now }
    ensures y { result.carriage.y ≤ 2 ^ 63 }
    ensures position { result.carriage.position ≤ 480 }
{
    Head {
        settings: Settings {
            graphic: printer.graphic == 1,
            wide: printer.wide == 1,
            reverse: printer.reverse == 1,
            override_set: override_for(printer.override_set),
        },
        lower: printer.lower == 1,
        pending: pending_for(printer.pending, printer.parameter),
        carriage: Carriage {
            y: printer.y.min(LAST_LINE),
            position: printer.x.min(LINE_DOTS),
        },
    }
}

/// A law: the head that is restored is the one that was stored.
pub fn printers_come_back()
    ensures { PrintersComeBack }
{}
