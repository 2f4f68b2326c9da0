//! The names of sheets and their bookmarks, where both printers have printed.

ghost use Rattle.std.specs.Prelude.{◌≡◌, ◌+◌, ◌^◌, ◌<◌, ◌≤◌, ◌++◌, decimal, OnOk};
ghost use Rattle.pr_pdf.specs.Parts.{bookmark_begin, bookmark_sheet};
ghost use Rattle.pr_pdf.specs.Pdf.{are_two, bookmark_pdf, bookmarks_pdf, labels_pdf, neighbour_pdf, printer_of, sheet_of};

use crate::adding::push_between;
use crate::parts::{
    bookmark_after, bookmark_before, bookmark_begin, bookmark_end, bookmark_fit, bookmark_parent,
    bookmark_place, bookmark_sheet, bookmarks_begin, bookmarks_count, bookmarks_end,
    bookmarks_last, labels_begin, labels_end, reference,
};
use pr_render::push_small;
use std::alloc::AllocError;

/// Whether both printers have sheets.
pub fn are_two(count4: u64, count5: u64) -> bool
    ensures { result ≡ are_two count4 count5 }
{
    0 < count4 && 0 < count5
}

/// Adds the names of this many sheets of each printer, and the object of their bookmarks, if both have some.
#[tactic(auto, unfolding(crate::specs::Pdf::labels_pdf))]
pub fn push_labels(
    text: &mut Vec<u8>,
    pages: u64,
    count4: u64,
    count5: u64,
) -> Result<(), AllocError>
    requires { pages < 2 ^ 60 }
    ensures { OnOk result (text.new.items ≡ text.old.items ++ labels_pdf pages count4 count5) }
{
    if !are_two(count4, count5) {
        return Ok(());
    }
    push_between(text, labels_begin(), count4, labels_end())?;
    push_between(text, b"", pages + 2, reference())
}

/// Adds the object of this many bookmarks, which come after it.
#[tactic(auto, unfolding(crate::specs::Pdf::bookmarks_pdf))]
pub fn push_bookmarks(text: &mut Vec<u8>, root: u64, count: u64) -> Result<(), AllocError>
    requires root { root < 2 ^ 61 }
    requires count { count < 2 ^ 61 }
    ensures { OnOk result (text.new.items ≡ text.old.items ++ bookmarks_pdf root count) }
{
    push_between(text, bookmarks_begin(), root + 1, bookmarks_last())?;
    push_between(text, b"", root + count, bookmarks_count())?;
    push_between(text, b"", count, bookmarks_end())
}

/// The printer of a sheet in the document, counted from 0.
fn printer_of(count4: u64, index: u64) -> u64
    ensures { result ≡ printer_of count4 index }
{
    if index < count4 { 4 } else { 5 }
}

/// The number of a sheet in the document among its printer's, from 1.
fn sheet_of(count4: u64, index: u64) -> u64
    requires { index < 2 ^ 61 }
    ensures { result ≡ sheet_of count4 index }
{
    if index < count4 {
        index + 1
    } else {
        index + 1 - count4
    }
}

/// Adds what a bookmark is called.
fn push_title(text: &mut Vec<u8>, count4: u64, index: u64) -> Result<(), AllocError>
    requires { index < 2 ^ 61 }
    ensures { OnOk result (text.new.items ≡ text.old.items ++ (bookmark_begin ++ decimal (printer_of count4 index) ++ bookmark_sheet ++ decimal (sheet_of count4 index))) }
{
    push_between(
        text,
        bookmark_begin(),
        printer_of(count4, index),
        bookmark_sheet(),
    )?;
    push_small(text, sheet_of(count4, index))
}

/// Adds the number of another bookmark, if there is one.
fn push_neighbour(
    text: &mut Vec<u8>,
    is_there: bool,
    name: &[u8],
    number: u64,
) -> Result<(), AllocError>
    ensures { OnOk result (text.new.items ≡ text.old.items ++ neighbour_pdf is_there name.now number) }
{
    if !is_there {
        return Ok(());
    }
    push_between(text, name, number, bookmark_end())
}

/// Adds a bookmark.
#[tactic(auto, unfolding(crate::specs::Pdf::bookmark_pdf))]
pub fn push_bookmark(
    text: &mut Vec<u8>,
    root: u64,
    first: u64,
    count4: u64,
    count: u64,
    index: u64,
) -> Result<(), AllocError>
    requires root { root < 2 ^ 61 }
    requires first { first < 2 ^ 61 }
    requires index { index < 2 ^ 61 }
    ensures { OnOk result (text.new.items ≡ text.old.items ++ bookmark_pdf root first count4 count index) }
{
    push_title(text, count4, index)?;
    push_between(text, bookmark_parent(), root, bookmark_place())?;
    push_between(text, b"", first + 2 * index, bookmark_fit())?;
    push_neighbour(text, 0 < index, bookmark_before(), root + index)?;
    push_neighbour(text, index + 1 < count, bookmark_after(), root + index + 2)?;
    text.extend_from_slice(bookmarks_end())
}
