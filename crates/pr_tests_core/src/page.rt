//! Growths of a printer's paper. The pages of inputs are cases (cases/page, tests/rows) and rows of tests/c/library.

use pr_page::Input::{self, Byte, Select};
use pr_page::{Printer, Sequence};
use pr_refusals::most_refusals;
use std::process::Abort;
use std::test::Fail;

/// Bytes under which the lists of a page grow in each way, among them those of the worked pages.
static LINES: [&[u8]; 21] = [
    // A repeat of a column, and two rows.
    &[8, 255, 26, 3, 193, 13, 15, 65, 13],
    // A wide cell wraps, and fits.
    &[16, 55, 57, 14, 65, 13],
    &[16, 55, 56, 14, 65, 13],
    // Addresses of dots and of cells, the last and past it.
    &[8, 27, 16, 1, 223, 255, 13],
    &[8, 27, 16, 1, 224, 255, 27, 16, 0, 13, 255, 13],
    &[16, 56, 48, 65, 13],
    // A mark to the left.
    &[65, 66, 16, 48, 48, 67, 13],
    // Styles that end with the line.
    &[17, 65, 18, 66, 13, 67, 13],
    // Escapes, and an address that does not end.
    &[27, 65, 13],
    &[27, 27, 16, 0, 6, 65, 13],
    &[65, 16, 13],
    // Repeats: in character mode, over the edge, and of none.
    &[26, 3, 65, 66, 13],
    &[8, 27, 16, 1, 222, 26, 3, 255, 13],
    &[8, 26, 0, 255, 145, 13],
    // A letter after an address.
    &[16, 48, 50, 65, 13],
    // A line ends: the marks are copied, and the row is added.
    &[65, 66, 13],
    // A single mark wraps: a list for the new line is made, and the full row is added.
    &[8, 27, 16, 1, 223, 255, 254],
    // A wide cell wraps where nothing stands before it: the list of the new line grows with it.
    &[16, 55, 57, 14, 65],
    // A repeat within the line: the list grows while the columns are added.
    &[8, 26, 5, 193],
    // A repeat over the edge: both lists grow while the columns are added, and the full row is added.
    &[8, 27, 16, 1, 214, 255, 26, 14, 193],
    // A selection alone makes nothing grow.
    &[],
];

/// Those, for callers whose proofs do not read them.
fn lines() -> &'static [&'static [u8]] {
    &LINES
}

/// Gives a printer an input, and returns whether it was refused: it is then taken when it is given
/// again, and until then the printer is as `same`, where that one is given.
fn is_refused(
    rt: &impl Abort,
    printer: &mut Printer,
    input: Input,
    same: Option<&Printer>,
) -> bool {
    assert!(rt; printer.taken() < 1000);
    if printer.take(input).is_ok() {
        return false;
    }
    let stays = match same {
        Some(same) => printer.taken() == same.taken() && printer.paper() == same.paper(),
        None => true,
    };
    assert!(rt; stays && printer.take(input).is_ok());
    true
}

/// Gives a selection and then bytes to a printer and to another, which is one input after, and returns how many were
/// refused. The other printer has the paper of one whose input is refused.
fn feeds(rt: &impl Abort, printer: &mut Printer, behind: &mut Printer, line: &[u8]) -> usize {
    let selects = is_refused(rt, printer, Select(true), Some(&*behind));
    let mut refused = usize::from(selects)
        + usize::from(is_refused(rt, behind, Select(true), None));
    for &byte in line {
        let first = is_refused(rt, printer, Byte(byte), Some(&*behind));
        let second = is_refused(rt, behind, Byte(byte), None);
        refused = refused.saturating_add(usize::from(first) + usize::from(second));
    }
    refused
}

/// Whether a printer has taken so many inputs and has the paper of another.
fn has_paper(printer: Printer, other: &Printer, taken: u64) -> bool {
    printer.taken() == taken
        && printer.paper() == other.paper()
        && printer.into_paper() == *other.paper()
}

/// Prints a line on both printers, which have the same paper then, and returns how many inputs were refused.
fn refusals(rt: &(impl Abort + AllocGlobal), line: &[u8]) -> usize {
    let mut printer = Printer::new(rt.alloc());
    let mut behind = Printer::new(rt.alloc());
    let refused = feeds(rt, &mut printer, &mut behind, line);
    assert!(rt; has_paper(printer, &behind, (line.len() as u64).saturating_add(1)));
    refused
}

/// `tests/rows/growths` runs this with each allocation refused in turn: at most one input is then
/// refused, and with no growth refused none is. Each printer is new, so that its first row makes the
/// list of rows grow.
#[test]
fn refused_take_changes_nothing(rt: HostRuntime) {
    let mut refused: usize = 0;
    for &line in lines() {
        refused = refused.saturating_add(refusals(&rt, line));
    }
    assert!(rt; refused <= most_refusals(&rt));
}

#[test]
fn list_made_from_a_vector(rt: HostRuntime) -> Result<(), Fail> {
    let list = Sequence::from_vec([1u8, 2, 3].to_vec(rt.alloc())?);
    let is_counted = list.len() == 3 && !list.is_empty();
    let is_given_back = list.into_vec().as_slice() == [1, 2, 3].as_slice();
    let is_new_one_empty = Sequence::<u8>::new(rt.alloc()).is_empty();
    assert!(rt; is_counted && is_given_back && is_new_one_empty);
    Ok(())
}
