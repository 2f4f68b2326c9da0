//! Papers as a document.

ghost use Rattle.std.specs.Prelude.{◌≡◌, ◌+◌, ◌*◌, ◌^◌, ◌≤◌, ◌<◌, true, ◌∷◌, ◌++◌, [], flat_map, length, map, IfErr, IfOk, OnOk};
ghost use Rattle.pr_pdf.specs.Fonts.{encoding_pdf, font_pdf, glyph_object, resources_pdf, used_among, used_of, widths_pdf, characters_pdf};
ghost use Rattle.pr_dots.specs.Sheets.{lowered, lowered_rows, sheet_count};
ghost use Rattle.pr_pdf.specs.Sheets.{sheet_pdf, sheet_texts};
ghost use Rattle.pr_pdf.specs.Pdf.{bookmark_bodies, bookmark_pdf, bookmarks_pdf, catalog_pdf, file_limit, first_bodies, glyph_body, kid_pdf, marks_of, or_empty, page_pdf, pages_pdf, pdf_of, rows_if, rows_pdf, sheet_bodies, stream_pdf};
ghost use Rattle.pr_pdf.specs.Parts.{frame};
ghost use Rattle.pr_pdf.specs.Words.{numbers_from};
ghost use Rattle.pr_pdf.specs.Linked.{Adds, HasBodies, ascend, bodies_before};

use crate::adding::push_between;
use crate::bookmarks::{are_two, push_bookmark, push_bookmarks, push_labels};
use crate::document::Document;
use crate::fault::PdfFault;
use crate::fonts::{push_characters, push_encoding, push_resources, push_widths};
use crate::glyphs::{push_font, push_glyph};
use crate::marks::FONTS;
use crate::parts::{
    catalog_begin, catalog_pages, list_end, page_begin, page_content, page_end, pages_begin,
    pages_kids, push_frame, reference, reference_end,
};
use crate::sheets::{are_ascending, push_sheet, rows_from, skip_before};
use crate::used::{GLYPHS, Used};
use pr_dots::{Shapes, sheet_count};
use pr_page::{Paper, Row};
use pr_render::{Layout, Size, push_small};
use pr_serial::Present;
use std::alloc::{AllocError, Global};

/// The most bytes of a document, whose table has ten digits for each place.
pub const LIMIT: u64 = 9_999_999_999;

/// The number of the first glyph's object.
const FIRST_GLYPH: u64 = 19;

/// Adds the object that begins the document.
#[tactic(auto, unfolding(crate::specs::Pdf::catalog_pdf))]
fn add_catalog(
    document: &mut Document,
    alloc: Global,
    pages: u64,
    count4: u64,
    count5: u64,
) -> Result<(), AllocError>
    requires { pages < 2 ^ 60 }
    ensures { OnOk result (Adds (catalog_pdf pages count4 count5 ∷ []) document.old document.new) }
{
    let mut text = Vec::new(alloc);
    text.extend_from_slice(catalog_begin())?;
    push_labels(&mut text, pages, count4, count5)?;
    push_between(&mut text, catalog_pages(), pages, reference_end())?;
    document.add(&text)
}

/// Adds the fonts' names.
fn add_resources(document: &mut Document, alloc: Global) -> Result<(), AllocError>
    ensures { OnOk result (Adds (resources_pdf ∷ []) document.old document.new) }
{
    let mut resources = Vec::new(alloc);
    push_resources(&mut resources)?;
    document.add(&resources)
}

/// Adds the fonts' encoding.
fn add_encoding(document: &mut Document, alloc: Global) -> Result<(), AllocError>
    ensures { OnOk result (Adds (encoding_pdf ∷ []) document.old document.new) }
{
    let mut encoding = Vec::new(alloc);
    push_encoding(&mut encoding)?;
    document.add(&encoding)
}

/// Adds the widths of glyphs of this many dot columns.
fn add_widths(document: &mut Document, alloc: Global, columns: u64) -> Result<(), AllocError>
    requires { columns ≤ 12 }
    ensures { OnOk result (Adds (widths_pdf columns ∷ []) document.old document.new) }
{
    let mut widths = Vec::new(alloc);
    push_widths(&mut widths, columns)?;
    document.add(&widths)
}

/// Adds the characters of a set.
fn add_characters(document: &mut Document, alloc: Global, set: u64) -> Result<(), AllocError>
    ensures { OnOk result (Adds (stream_pdf (characters_pdf set) ∷ []) document.old document.new) }
{
    let mut characters = Vec::new(alloc);
    push_characters(&mut characters, set)?;
    document.add_stream(&characters)
}

/// Adds the objects that all documents have.
fn add_first(
    document: &mut Document,
    alloc: Global,
    pages: u64,
    count4: u64,
    count5: u64,
) -> Result<(), AllocError>
    requires { pages < 2 ^ 60 }
    ensures { OnOk result (Adds (first_bodies pages count4 count5) document.old document.new) }
{
    add_catalog(document, alloc, pages, count4, count5)?;
    add_resources(document, alloc)?;
    add_encoding(document, alloc)?;
    add_widths(document, alloc, 6)?;
    add_widths(document, alloc, 12)?;
    add_widths(document, alloc, 1)?;
    add_characters(document, alloc, 0)?;
    add_characters(document, alloc, 1)?;
    add_characters(document, alloc, 2)
}

/// Adds a font, and gives the next glyph's object.
fn add_font(
    document: &mut Document,
    alloc: Global,
    used: &Used,
    font: usize,
    object: u64,
) -> Result<u64, AllocError>
    requires font { font < 9 }
    requires object { object ≡ glyph_object used.now (256 * font) }
    ensures font { OnOk result (Adds (font_pdf used.now font ∷ []) document.old document.new) }
    ensures next { IfOk result (λ next. next ≡ glyph_object used.now (256 * font + 256)) }
{
    let mut text = Vec::new(alloc);
    let next = push_font(&mut text, used, font, object)?;
    document.add(&text)?;
    Ok(next)
}

/// Adds the fonts.
fn add_fonts(document: &mut Document, alloc: Global, used: &Used) -> Result<(), AllocError>
    ensures { OnOk result (Adds (map (font_pdf used.now) (numbers_from 0 9)) document.old document.new) }
{
    let mut object = FIRST_GLYPH;
    for font in 0..FONTS {
        object = add_font(document, alloc, used, font, object)?;
    }
    Ok(())
}

/// Adds a number's glyph, if it is used.
fn add_glyph(
    document: &mut Document,
    alloc: Global,
    shapes: &Shapes,
    used: &Used,
    number: usize,
) -> Result<(), AllocError>
    ensures { OnOk result (Adds (map (glyph_body shapes.now) (used_among used.now number 1)) document.old document.new) }
{
    if !used.has(number) {
        return Ok(());
    }
    let mut text = Vec::new(alloc);
    push_glyph(&mut text, shapes, number / 256, (number % 256) as u8)?;
    document.add_stream(&text)?;
    Ok(())
}

/// Adds the glyphs before a number that are used.
fn add_glyphs(
    document: &mut Document,
    alloc: Global,
    shapes: &Shapes,
    used: &Used,
    end: usize,
) -> Result<(), AllocError>
    ensures { OnOk result (Adds (map (glyph_body shapes.now) (used_among used.now 0 end)) document.old document.new) }
{
    for number in 0..end {
        add_glyph(document, alloc, shapes, used, number)?;
    }
    Ok(())
}

/// Adds a sheet's two objects, of which the first has a number.
#[tactic(auto, unfolding(crate::specs::Pdf::page_pdf))]
fn add_sheet(
    document: &mut Document,
    alloc: Global,
    pages: u64,
    number: u64,
    sheet: &[u8],
) -> Result<(), AllocError>
    requires pages { pages < 18446744073709551615 }
    requires number { number < 18446744073709551615 }
    ensures { OnOk result (Adds (page_pdf pages (number + 1) ∷ stream_pdf sheet.now ∷ []) document.old document.new) }
{
    let mut page = Vec::new(alloc);
    push_between(&mut page, page_begin(), pages, page_content())?;
    push_between(&mut page, b"", pages + 1, reference())?;
    push_between(&mut page, b"", number + 1, page_end())?;
    document.add(&page)?;
    document.add_stream(sheet)
}

/// Adds the sheet of rows with a number.
fn add_sheet_of(
    document: &mut Document,
    alloc: Global,
    pages: u64,
    number: u64,
    top: u8,
    sheet: u64,
    rows: &[Row],
    ascending: bool,
) -> Result<(), AllocError>
    requires pages { pages < 18446744073709551615 }
    requires number { number < 18446744073709551615 }
    requires ascending { ascending ≡ true → ascend 0 rows.now ≡ true }
    ensures { OnOk result (Adds (sheet_bodies pages number (sheet_pdf (lowered_rows top rows.now) sheet ∷ [])) document.old document.new) }
{
    let mut text = Vec::new(alloc);
    push_sheet(&mut text, top, sheet, rows, ascending)?;
    add_sheet(document, alloc, pages, number, &text)
}

/// Adds the sheets of rows, of which the first has a number, and gives the number after them.
fn add_sheets(
    document: &mut Document,
    alloc: Global,
    pages: u64,
    first: u64,
    top: u8,
    rows: &[Row],
) -> Result<u64, AllocError>
    requires pages { pages < 2 ^ 60 }
    requires first { first < 2 ^ 60 }
    ensures sheets { OnOk result (Adds (sheet_bodies pages first (sheet_texts (lowered_rows top rows.now))) document.old document.new) }
    ensures next { IfOk result (λ next. next ≡ first + 2 * sheet_count (lowered_rows top rows.now)) }
    ensures within { IfOk result (λ next. next ≤ first + 2 ^ 55) }
{
    let ascending = are_ascending(rows);
    let mut number = first;
    let mut before = 0;
    for sheet in 0..sheet_count(top, rows) {
        before = skip_before(rows, top, before, sheet);
        let rest = rows_from(rows, before);
        add_sheet_of(document, alloc, pages, number, top, sheet, rest, ascending)?;
        number += 2;
    }
    Ok(number)
}

/// Adds the numbers of sheets.
#[tactic(auto, unfolding(crate::specs::Pdf::kid_pdf))]
fn push_kids(text: &mut Vec<u8>, first: u64, count: u64) -> Result<(), AllocError>
    requires { first + 2 * count < 2 ^ 64 }
    ensures { OnOk result (text.new.items ≡ text.old.items ++ flat_map (kid_pdf first) (numbers_from 0 count)) }
{
    for sheet in 0..count {
        push_small(text, first + 2 * sheet)?;
        text.extend_from_slice(reference())?;
    }
    Ok(())
}

/// Adds the object that has the sheets, on paper of a size.
#[tactic(auto, unfolding(crate::specs::Pdf::pages_pdf))]
fn add_pages(
    document: &mut Document,
    alloc: Global,
    size: Size,
    first: u64,
    count: u64,
) -> Result<(), AllocError>
    requires { first + 2 * count < 2 ^ 64 }
    ensures { OnOk result (Adds (pages_pdf size first count ∷ []) document.old document.new) }
{
    let mut text = Vec::new(alloc);
    push_between(&mut text, pages_begin(size), count, pages_kids())?;
    push_kids(&mut text, first, count)?;
    text.extend_from_slice(list_end())?;
    document.add(&text)
}

/// Adds what is drawn first on every sheet.
fn add_frame(document: &mut Document, alloc: Global, layout: Layout) -> Result<(), AllocError>
    ensures { OnOk result (Adds (stream_pdf (frame layout.size layout.holes) ∷ []) document.old document.new) }
{
    let mut text = Vec::new(alloc);
    push_frame(&mut text, layout.size, layout.holes)?;
    document.add_stream(&text)
}

/// Adds the object of this many bookmarks.
fn add_root(document: &mut Document, alloc: Global, root: u64, count: u64) -> Result<(), AllocError>
    requires root { root < 2 ^ 61 }
    requires count { count < 2 ^ 61 }
    ensures { OnOk result (Adds (bookmarks_pdf root count ∷ []) document.old document.new) }
{
    let mut text = Vec::new(alloc);
    push_bookmarks(&mut text, root, count)?;
    document.add(&text)
}

/// Adds a bookmark.
fn add_bookmark(
    document: &mut Document,
    alloc: Global,
    root: u64,
    first: u64,
    count4: u64,
    count: u64,
    index: u64,
) -> Result<(), AllocError>
    requires root { root < 2 ^ 61 }
    requires first { first < 2 ^ 61 }
    requires index { index < 2 ^ 61 }
    ensures { OnOk result (Adds (bookmark_pdf root first count4 count index ∷ []) document.old document.new) }
{
    let mut text = Vec::new(alloc);
    push_bookmark(&mut text, root, first, count4, count, index)?;
    document.add(&text)
}

/// Adds all bookmarks.
fn add_each(
    document: &mut Document,
    alloc: Global,
    root: u64,
    first: u64,
    count4: u64,
    count: u64,
) -> Result<(), AllocError>
    requires root { root < 2 ^ 61 }
    requires first { first < 2 ^ 61 }
    requires count { count < 2 ^ 61 }
    ensures { OnOk result (Adds (map (bookmark_pdf root first count4 count) (numbers_from 0 count)) document.old document.new) }
{
    for index in 0..count {
        add_bookmark(document, alloc, root, first, count4, count, index)?;
    }
    Ok(())
}

/// Adds the bookmarks of this many sheets of each printer, if both have some.
fn add_bookmarks(
    document: &mut Document,
    alloc: Global,
    root: u64,
    first: u64,
    count4: u64,
    count5: u64,
) -> Result<(), AllocError>
    requires root { root < 2 ^ 61 }
    requires first { first < 2 ^ 61 }
    requires count4 { count4 < 2 ^ 60 }
    requires count5 { count5 < 2 ^ 60 }
    ensures { OnOk result (Adds (bookmark_bodies root first count4 count5) document.old document.new) }
{
    if !are_two(count4, count5) {
        return Ok(());
    }
    add_root(document, alloc, root, count4 + count5)?;
    add_each(document, alloc, root, first, count4, count4 + count5)
}

/// Which glyphs the marks of rows of both printers use.
fn used_by(alloc: Global, rows4: &[Row], rows5: &[Row]) -> Result<Used, AllocError>
    ensures { IfOk result (λ used. used ≡ used_of (marks_of rows4.now ++ marks_of rows5.now)) }
{
    let mut used = Used::new(alloc)?;
    used.see_rows(rows4);
    used.see_rows(rows5);
    Ok(used)
}

/// A document with all objects before the sheets.
fn begun(
    alloc: Global,
    shapes: &Shapes,
    used: &Used,
    pages: u64,
    count4: u64,
    count5: u64,
) -> Result<Document, AllocError>
    requires { pages < 2 ^ 60 }
    ensures { IfOk result (λ d. HasBodies (bodies_before shapes.now pages count4 count5 used.now) d) }
{
    let mut document = Document::new(alloc)?;
    add_first(&mut document, alloc, pages, count4, count5)?;
    add_fonts(&mut document, alloc, used)?;
    add_glyphs(&mut document, alloc, shapes, used, GLYPHS)?;
    Ok(document)
}

/// Adds the sheets of rows of both printers, or an empty one.
fn add_all_sheets(
    document: &mut Document,
    alloc: Global,
    pages: u64,
    first: u64,
    top: u8,
    rows4: &[Row],
    rows5: &[Row],
) -> Result<(), AllocError>
    requires pages { pages < 2 ^ 60 }
    requires first { first < 2 ^ 50 }
    ensures { OnOk result (Adds (sheet_bodies pages first (or_empty (sheet_texts (lowered_rows top rows4.now) ++ sheet_texts (lowered_rows top rows5.now)))) document.old document.new) }
{
    let second = add_sheets(document, alloc, pages, first, top, rows4)?;
    let end = add_sheets(document, alloc, pages, second, top, rows5)?;
    if end == first {
        add_sheet_of(document, alloc, pages, first, top, 0, &[], true)?;
    }
    Ok(())
}

/// How many sheets the rows of both printers take, or 1 for an empty one.
#[tactic(auto, using(crate::proofs::SheetBySheet::count_none, crate::proofs::SheetBySheet::count_some))]
fn all_sheet_count(top: u8, rows4: &[Row], rows5: &[Row]) -> u64
    ensures count { result ≡ length (or_empty (sheet_texts (lowered_rows top rows4.now) ++ sheet_texts (lowered_rows top rows5.now))) }
    ensures within { result ≤ 2 ^ 55 }
{
    let drawn = sheet_count(top, rows4) + sheet_count(top, rows5);
    if drawn == 0 { 1 } else { drawn }
}

/// The document of rows of both printers.
fn draw(
    alloc: Global,
    shapes: &Shapes,
    layout: Layout,
    rows4: &[Row],
    rows5: &[Row],
) -> Result<Vec<u8>, AllocError>
    ensures { IfOk result (λ file. file.items ≡ rows_pdf shapes.now layout.size layout.holes (lowered_rows layout.top rows4.now) (lowered_rows layout.top rows5.now)) }
{
    let top = layout.top;
    let used = used_by(alloc, rows4, rows5)?;
    let count = all_sheet_count(top, rows4, rows5);
    let glyphs = used.before(GLYPHS);
    let first = FIRST_GLYPH + glyphs;
    let pages = first + 2 * count;
    let count4 = sheet_count(top, rows4);
    let count5 = sheet_count(top, rows5);
    let mut document = begun(alloc, shapes, &used, pages, count4, count5)?;
    add_all_sheets(&mut document, alloc, pages, first, top, rows4, rows5)?;
    add_pages(&mut document, alloc, layout.size, first, count)?;
    add_frame(&mut document, alloc, layout)?;
    add_bookmarks(&mut document, alloc, pages + 2, first, count4, count5)?;
    let file = document.finish()?;
    Ok(file)
}

/// The rows of a paper, if its printer is drawn.
fn rows_if(drawn: bool, paper: &Paper) -> &[Row]
    ensures { result.now ≡ rows_if drawn paper.now }
{
    if drawn { paper.rows.as_slice() } else { &[] }
}

/// The papers of the printers that are drawn, printed in these shapes, as a PDF document. Printer 4's sheets come first, then
/// printer 5's; if neither printed, there is one empty sheet, and if both did, each sheet has a name, as `printer 4, sheet 1`,
/// and a bookmark with that name.
///
/// A sheet is 9.5 by 11 inches, with the 480 dot columns in the middle, on paper of the layout's size; the first row is as many
/// lines of 1/6 inch below the upper edge of the first as the layout says. Each dot is a disc at its place, and a row that straddles a fold is on both sheets. Characters can be found and copied as
/// text. Marks that are held are left out. Equal papers make equal documents (ISO 32000-1).
///
/// # Errors
///
/// - [`PdfFault::TooLarge`]: the document has more than [`LIMIT`] bytes.
/// - [`PdfFault::NoMemory`]: memory was refused.
#[tactic(auto, unfolding(crate::specs::Pdf::pdf_of), using(crate::proofs::Sheeted::rows_lowered))]
pub fn pdf(
    alloc: Global,
    shapes: &Shapes,
    paper4: &Paper,
    paper5: &Paper,
    layout: Layout,
    drawn: Present,
) -> Result<Vec<u8>, PdfFault>
    ensures file { IfOk result (λ file. file.items ≡ pdf_of shapes.now layout.size layout.holes (lowered layout.top paper4.now) (lowered layout.top paper5.now) drawn) }
    ensures within { IfOk result (λ file. length file.items ≤ file_limit) }
    ensures too_large { IfErr result (λ fault. fault ≡ PdfFault.TooLarge → file_limit < length (pdf_of shapes.now layout.size layout.holes (lowered layout.top paper4.now) (lowered layout.top paper5.now) drawn)) }
{
    let rows4 = rows_if(drawn.four, paper4);
    let rows5 = rows_if(drawn.five, paper5);
    let file = draw(alloc, shapes, layout, rows4, rows5)?;
    if LIMIT < file.len() as u64 {
        return Err(PdfFault::TooLarge);
    }
    Ok(file)
}
