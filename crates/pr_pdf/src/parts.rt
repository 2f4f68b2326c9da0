//! The fixed parts of the document.

ghost use Rattle.std.specs.Prelude.{◌≡◌, ◌++◌, [], if◌then◌else◌, OnOk};
ghost use Rattle.pr_pdf.specs.Parts.{header, object_begin, object_end, reference, reference_end, dictionary_end, list_end, stream_begin, stream_bytes, stream_end, bookmark_after, bookmark_before, bookmark_begin, bookmark_end, bookmark_fit, bookmark_parent, bookmark_place, bookmark_sheet, bookmarks_begin, bookmarks_count, bookmarks_end, bookmarks_last, catalog_begin, catalog_pages, labels_begin, labels_end, fonts_begin, encoding_begin, characters_begin, characters_end, font_begin, font_characters, font_glyphs, frame, glyph_box, glyph_strokes, page_begin, page_content, page_end, pages_begin, pages_kids, sheet_begin, sheet_end, size_frame, strips, run_place, run_codes, run_end, disc_move, disc_stroke, table_begin, table_free, place_end, trailer_begin, trailer_root, trailer_end};

use pr_render::Size;
use std::alloc::AllocError;

/// The first line.
#[tactic(auto, unfolding(crate::specs::Parts::header))]
pub fn header() -> &'static [u8]
    ensures { result.now ≡ header }
{
    b"%PDF-1.6\n"
}

/// After an object's number.
#[tactic(auto, unfolding(crate::specs::Parts::object_begin))]
pub fn object_begin() -> &'static [u8]
    ensures { result.now ≡ object_begin }
{
    b" 0 obj\n"
}

/// The end of an object.
#[tactic(auto, unfolding(crate::specs::Parts::object_end))]
pub fn object_end() -> &'static [u8]
    ensures { result.now ≡ object_end }
{
    b"\nendobj\n"
}

/// After the number of an object that is named.
#[tactic(auto, unfolding(crate::specs::Parts::reference))]
pub fn reference() -> &'static [u8]
    ensures { result.now ≡ reference }
{
    b" 0 R "
}

/// The same at the end of a dictionary.
#[tactic(auto, unfolding(crate::specs::Parts::reference_end))]
pub fn reference_end() -> &'static [u8]
    ensures { result.now ≡ reference_end }
{
    b" 0 R >>"
}

/// The end of a dictionary in a dictionary.
#[tactic(auto, unfolding(crate::specs::Parts::dictionary_end))]
pub fn dictionary_end() -> &'static [u8]
    ensures { result.now ≡ dictionary_end }
{
    b">> >>"
}

/// The end of a list in a dictionary.
#[tactic(auto, unfolding(crate::specs::Parts::list_end))]
pub fn list_end() -> &'static [u8]
    ensures { result.now ≡ list_end }
{
    b"] >>"
}

/// A stream, up to its length.
#[tactic(auto, unfolding(crate::specs::Parts::stream_begin))]
pub fn stream_begin() -> &'static [u8]
    ensures { result.now ≡ stream_begin }
{
    b"<< /Length "
}

/// Up to its bytes.
#[tactic(auto, unfolding(crate::specs::Parts::stream_bytes))]
pub fn stream_bytes() -> &'static [u8]
    ensures { result.now ≡ stream_bytes }
{
    b" >>\nstream\n"
}

/// And after them.
#[tactic(auto, unfolding(crate::specs::Parts::stream_end))]
pub fn stream_end() -> &'static [u8]
    ensures { result.now ≡ stream_end }
{
    b"\nendstream"
}

/// The object that begins the document: viewers are not to scale its sheets for printing.
#[tactic(auto, unfolding(crate::specs::Parts::catalog_begin))]
pub fn catalog_begin() -> &'static [u8]
    ensures { result.now ≡ catalog_begin }
{
    b"<< /Type /Catalog /ViewerPreferences << /PrintScaling /None >> "
}

/// Up to the object that has its sheets.
#[tactic(auto, unfolding(crate::specs::Parts::catalog_pages))]
pub fn catalog_pages() -> &'static [u8]
    ensures { result.now ≡ catalog_pages }
{
    b"/Pages "
}

/// The names of sheets: those of printer 4, up to how many they are.
#[tactic(auto, unfolding(crate::specs::Parts::labels_begin))]
pub fn labels_begin() -> &'static [u8]
    ensures { result.now ≡ labels_begin }
{
    b"/PageLabels << /Nums [ 0 << /P (printer 4, sheet ) /S /D >> "
}

/// Those of printer 5, and up to the object that has the bookmarks.
#[tactic(auto, unfolding(crate::specs::Parts::labels_end))]
pub fn labels_end() -> &'static [u8]
    ensures { result.now ≡ labels_end }
{
    b" << /P (printer 5, sheet ) /S /D >> ] >> /Outlines "
}

/// The bookmarks, up to the first.
#[tactic(auto, unfolding(crate::specs::Parts::bookmarks_begin))]
pub fn bookmarks_begin() -> &'static [u8]
    ensures { result.now ≡ bookmarks_begin }
{
    b"<< /Type /Outlines /First "
}

/// Up to the last.
#[tactic(auto, unfolding(crate::specs::Parts::bookmarks_last))]
pub fn bookmarks_last() -> &'static [u8]
    ensures { result.now ≡ bookmarks_last }
{
    b" 0 R /Last "
}

/// Up to how many they are.
#[tactic(auto, unfolding(crate::specs::Parts::bookmarks_count))]
pub fn bookmarks_count() -> &'static [u8]
    ensures { result.now ≡ bookmarks_count }
{
    b" 0 R /Count "
}

/// Their end, and that of one.
#[tactic(auto, unfolding(crate::specs::Parts::bookmarks_end))]
pub fn bookmarks_end() -> &'static [u8]
    ensures { result.now ≡ bookmarks_end }
{
    b" >>"
}

/// A bookmark, up to its printer.
#[tactic(auto, unfolding(crate::specs::Parts::bookmark_begin))]
pub fn bookmark_begin() -> &'static [u8]
    ensures { result.now ≡ bookmark_begin }
{
    b"<< /Title (printer "
}

/// Up to its sheet.
#[tactic(auto, unfolding(crate::specs::Parts::bookmark_sheet))]
pub fn bookmark_sheet() -> &'static [u8]
    ensures { result.now ≡ bookmark_sheet }
{
    b", sheet "
}

/// Up to the object of all bookmarks.
#[tactic(auto, unfolding(crate::specs::Parts::bookmark_parent))]
pub fn bookmark_parent() -> &'static [u8]
    ensures { result.now ≡ bookmark_parent }
{
    b") /Parent "
}

/// Up to the sheet's object.
#[tactic(auto, unfolding(crate::specs::Parts::bookmark_place))]
pub fn bookmark_place() -> &'static [u8]
    ensures { result.now ≡ bookmark_place }
{
    b" 0 R /Dest [ "
}

/// After it.
#[tactic(auto, unfolding(crate::specs::Parts::bookmark_fit))]
pub fn bookmark_fit() -> &'static [u8]
    ensures { result.now ≡ bookmark_fit }
{
    b" 0 R /Fit ]"
}

/// The bookmark before it.
#[tactic(auto, unfolding(crate::specs::Parts::bookmark_before))]
pub fn bookmark_before() -> &'static [u8]
    ensures { result.now ≡ bookmark_before }
{
    b" /Prev "
}

/// The one after it.
#[tactic(auto, unfolding(crate::specs::Parts::bookmark_after))]
pub fn bookmark_after() -> &'static [u8]
    ensures { result.now ≡ bookmark_after }
{
    b" /Next "
}

/// After the number of such a bookmark.
#[tactic(auto, unfolding(crate::specs::Parts::bookmark_end))]
pub fn bookmark_end() -> &'static [u8]
    ensures { result.now ≡ bookmark_end }
{
    b" 0 R"
}

/// The fonts by their names.
#[tactic(auto, unfolding(crate::specs::Parts::fonts_begin))]
pub fn fonts_begin() -> &'static [u8]
    ensures { result.now ≡ fonts_begin }
{
    b"<< /Font << "
}

/// The encoding of all fonts.
#[tactic(auto, unfolding(crate::specs::Parts::encoding_begin))]
pub fn encoding_begin() -> &'static [u8]
    ensures { result.now ≡ encoding_begin }
{
    b"<< /Type /Encoding /Differences [0 "
}

/// A set's characters: one range of 256 codes, up to the character of code 0.
#[tactic(auto, unfolding(crate::specs::Parts::characters_begin))]
pub fn characters_begin() -> &'static [u8]
    ensures { result.now ≡ characters_begin }
{
    b"/CIDInit /ProcSet findresource begin\n12 dict begin\nbegincmap\n/CIDSystemInfo << /Registry (Adobe) /Ordering (UCS) /Supplement 0 >> def\n/CMapName /Adobe-Identity-UCS def\n/CMapType 2 def\n1 begincodespacerange\n<00> <ff>\nendcodespacerange\n1 beginbfrange\n<00> <ff> ["
}

/// After the last character.
#[tactic(auto, unfolding(crate::specs::Parts::characters_end))]
pub fn characters_end() -> &'static [u8]
    ensures { result.now ≡ characters_end }
{
    b"]\nendbfrange\nendcmap\nCMapName currentdict /CMap defineresource pop\nend\nend"
}

/// A font, up to its widths: its box holds the discs of all glyphs.
#[tactic(auto, unfolding(crate::specs::Parts::font_begin))]
pub fn font_begin() -> &'static [u8]
    ensures { result.now ≡ font_begin }
{
    b"<< /Type /Font /Subtype /Type3 /FontBBox [-8 -29 512 269] /FontMatrix [1 0 0 1 0 0] /FirstChar 0 /LastChar 255 /Encoding 3 0 R /Resources << >> /Widths "
}

/// Up to its codes' characters.
#[tactic(auto, unfolding(crate::specs::Parts::font_characters))]
pub fn font_characters() -> &'static [u8]
    ensures { result.now ≡ font_characters }
{
    b" 0 R /ToUnicode "
}

/// Up to its glyphs.
#[tactic(auto, unfolding(crate::specs::Parts::font_glyphs))]
pub fn font_glyphs() -> &'static [u8]
    ensures { result.now ≡ font_glyphs }
{
    b" 0 R /CharProcs << "
}

/// After a glyph's width: the box that holds its discs, up to its right edge.
#[tactic(auto, unfolding(crate::specs::Parts::glyph_box))]
pub fn glyph_box() -> &'static [u8]
    ensures { result.now ≡ glyph_box }
{
    b" 0 -8 -29 "
}

/// The box is as high as seven dots; strokes are 58 units wide, as far as the place of a dot, 42 by 40, reaches from corner to corner,
/// with round ends.
#[tactic(auto, unfolding(crate::specs::Parts::glyph_strokes))]
pub fn glyph_strokes() -> &'static [u8]
    ensures { result.now ≡ glyph_strokes }
{
    b" 269 d1\n58 w 1 J\n"
}

/// A sheet, up to the object that has the sheets.
#[tactic(auto, unfolding(crate::specs::Parts::page_begin))]
pub fn page_begin() -> &'static [u8]
    ensures { result.now ≡ page_begin }
{
    b"<< /Type /Page /Parent "
}

/// Up to what is drawn first on every sheet.
#[tactic(auto, unfolding(crate::specs::Parts::page_content))]
pub fn page_content() -> &'static [u8]
    ensures { result.now ≡ page_content }
{
    b" 0 R /Contents [ "
}

/// After what it draws itself.
#[tactic(auto, unfolding(crate::specs::Parts::page_end))]
pub fn page_end() -> &'static [u8]
    ensures { result.now ≡ page_end }
{
    b" 0 R ] >>"
}

/// The sheets on paper of a size, up to their count.
#[tactic(auto, unfolding(crate::specs::Parts::pages_begin))]
pub fn pages_begin(size: Size) -> &'static [u8]
    ensures { result.now ≡ pages_begin size }
{
    match size {
        Size::Continuous => b"<< /Type /Pages /MediaBox [0 0 684 792] /Resources 2 0 R /Count ",
        Size::A4 => b"<< /Type /Pages /MediaBox [0 0 595.276 841.89] /Resources 2 0 R /Count ",
        Size::Letter => b"<< /Type /Pages /MediaBox [0 0 612 792] /Resources 2 0 R /Count ",
    }
}

/// Where the 9.5 by 11 inches of a sheet are on the paper, of which only they are drawn.
#[tactic(auto, unfolding(crate::specs::Parts::size_frame))]
fn size_frame(size: Size) -> &'static [u8]
    ensures { result.now ≡ size_frame size }
{
    match size {
        Size::Continuous => b"",
        Size::A4 => b"1 0 0 1 -44.362 24.945 cm\n0 0 684 792 re W n\n",
        Size::Letter => b".95 0 0 .95 -18.9 19.8 cm\n0 0 684 792 re W n\n",
    }
}

/// The strips of a sheet: 22 holes in each, half an inch apart, the lines at which they tear off, and the folds.
#[tactic(auto, unfolding(crate::specs::Parts::strips))]
fn strips() -> &'static [u8]
    ensures { result.now ≡ strips }
{
    b"q .8 G 11.4 w 1 J [.01 35.99] 0 d 18 18 m 18 774.1 l 666 18 m 666 774.1 l S\n0 J .5 w [2] 0 d 36 0 m 36 792 l 648 0 m 648 792 l 0 .25 m 684 .25 l 0 791.75 m 684 791.75 l S Q\n"
}

/// The strips, if they are wanted.
fn strips_if(holes: bool) -> &'static [u8]
    ensures { result.now ≡ (if holes then strips else []) }
{
    if holes { strips() } else { b"" }
}

/// Adds what is drawn first on every sheet.
#[tactic(auto, unfolding(crate::specs::Parts::frame))]
pub fn push_frame(text: &mut Vec<u8>, size: Size, holes: bool) -> Result<(), AllocError>
    ensures { OnOk result (text.new.items ≡ text.old.items ++ frame size holes) }
{
    text.extend_from_slice(size_frame(size))?;
    text.extend_from_slice(strips_if(holes))
}

/// Up to the first sheet.
#[tactic(auto, unfolding(crate::specs::Parts::pages_kids))]
pub fn pages_kids() -> &'static [u8]
    ensures { result.now ≡ pages_kids }
{
    b" /Kids [ "
}

/// What a sheet draws: 1/35 point a unit (a little more across and a little less up, so that a viewer
/// that rounds down to whole pixels does not lose one), from 3/4 inch from the left and 8 points
/// below the lower edge.
#[tactic(auto, unfolding(crate::specs::Parts::sheet_begin))]
pub fn sheet_begin() -> &'static [u8]
    ensures { result.now ≡ sheet_begin }
{
    b".0285714286 0 0 .0285714285 54 -8 cm\nBT\n"
}

/// And its end.
#[tactic(auto, unfolding(crate::specs::Parts::sheet_end))]
pub fn sheet_end() -> &'static [u8]
    ensures { result.now ≡ sheet_end }
{
    b"ET\n"
}

/// After a font's name: a run's place.
#[tactic(auto, unfolding(crate::specs::Parts::run_place))]
pub fn run_place() -> &'static [u8]
    ensures { result.now ≡ run_place }
{
    b" 1 Tf 1 0 0 1 "
}

/// Up to its codes.
#[tactic(auto, unfolding(crate::specs::Parts::run_codes))]
pub fn run_codes() -> &'static [u8]
    ensures { result.now ≡ run_codes }
{
    b" Tm <"
}

/// After them.
#[tactic(auto, unfolding(crate::specs::Parts::run_end))]
pub fn run_end() -> &'static [u8]
    ensures { result.now ≡ run_end }
{
    b"> Tj\n"
}

/// From where a disc's stroke begins.
#[tactic(auto, unfolding(crate::specs::Parts::disc_move))]
pub fn disc_move() -> &'static [u8]
    ensures { result.now ≡ disc_move }
{
    b" m "
}

/// To the same place, and the stroke is drawn.
#[tactic(auto, unfolding(crate::specs::Parts::disc_stroke))]
pub fn disc_stroke() -> &'static [u8]
    ensures { result.now ≡ disc_stroke }
{
    b" l S\n"
}

/// The table of places, up to their count.
#[tactic(auto, unfolding(crate::specs::Parts::table_begin))]
pub fn table_begin() -> &'static [u8]
    ensures { result.now ≡ table_begin }
{
    b"xref\n0 "
}

/// The place that is no object's.
#[tactic(auto, unfolding(crate::specs::Parts::table_free))]
pub fn table_free() -> &'static [u8]
    ensures { result.now ≡ table_free }
{
    b"\n0000000000 65535 f \n"
}

/// After a place.
#[tactic(auto, unfolding(crate::specs::Parts::place_end))]
pub fn place_end() -> &'static [u8]
    ensures { result.now ≡ place_end }
{
    b" 00000 n \n"
}

/// The trailer, up to the count of places.
#[tactic(auto, unfolding(crate::specs::Parts::trailer_begin))]
pub fn trailer_begin() -> &'static [u8]
    ensures { result.now ≡ trailer_begin }
{
    b"trailer\n<< /Size "
}

/// Up to where the table begins.
#[tactic(auto, unfolding(crate::specs::Parts::trailer_root))]
pub fn trailer_root() -> &'static [u8]
    ensures { result.now ≡ trailer_root }
{
    b" /Root 1 0 R >>\nstartxref\n"
}

/// And the last line.
#[tactic(auto, unfolding(crate::specs::Parts::trailer_end))]
pub fn trailer_end() -> &'static [u8]
    ensures { result.now ≡ trailer_end }
{
    b"\n%%EOF\n"
}
