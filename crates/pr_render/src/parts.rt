//! The fixed parts of the picture.
//!
//! They are functions with twins in `specs/Parts.antt`: constants that the specification imports
//! are unfolded in every goal, and two proofs then find no way through. The paper is a pattern half
//! an inch long, so its size does not grow with the page.

ghost use Rattle.std.specs.Prelude.{◌≡◌, ◌≤◌, length};
ghost use Rattle.pr_render.specs.Parts.{definitions_begin, definitions_end, desk, document_about, document_begin, held_begin, held_note, ink_begin, letters_fitted, letters_width, mark_begin, mark_path, notes_begin, paper_folds, paper_piece, row_begin, sheet_begin, sheet_end, sheet_marks, sheet_name, sheet_paper, single_begin, single_end, single_marks, single_paper, single_size, status_begin, stop_begin, text_end, units_begin, use_begin, use_end, use_place};

/// The document's first tag, 11 inches wide, up to its height in picas.
#[tactic(auto, unfolding(crate::specs::Parts::document_begin))]
pub fn document_begin() -> &'static [u8]
    ensures { result.now ≡ document_begin }
{
    b"<svg xmlns=\"http://www.w3.org/2000/svg\" version=\"1.1\" width=\"66pc\" height=\""
}

/// Between its height in picas and its height in units.
#[tactic(auto, unfolding(crate::specs::Parts::units_begin))]
pub fn units_begin() -> &'static [u8]
    ensures { result.now ≡ units_begin }
{
    b"pc\" viewBox=\"0 0 13860 "
}

/// The rest of that tag, and what the picture shows.
#[tactic(auto, unfolding(crate::specs::Parts::document_about))]
pub fn document_about() -> &'static [u8]
    ensures { result.now ≡ document_about }
{
    b"\">\n<desc>Pages of VIC-1525 printers. Each dot is where the hammer strikes.</desc>\n"
}

/// Half an inch of continuous paper, with a hole in each edge and the lines at which the edges tear off; and the fold at the end of 11 inches.
#[tactic(auto, unfolding(crate::specs::Parts::paper_piece))]
pub fn paper_piece() -> &'static [u8]
    ensures { result.now ≡ paper_piece }
{
    b"<pattern id=\"paper\" width=\"12600\" height=\"630\" patternUnits=\"userSpaceOnUse\"><rect width=\"12600\" height=\"630\" fill=\"#fff\"/><g fill=\"#e9e6df\" stroke=\"#b4afa2\" stroke-width=\"10\"><circle cx=\"315\" cy=\"315\" r=\"100\"/><circle cx=\"12285\" cy=\"315\" r=\"100\"/><path stroke-dasharray=\"35\" d=\"M630 0v630M11970 0v630\"/></g></pattern>\n<pattern id=\"folds\" y=\"6930\" width=\"12600\" height=\"13860\" patternUnits=\"userSpaceOnUse\"><path stroke=\"#b4afa2\" stroke-width=\"10\" stroke-dasharray=\"70\" d=\"M0 6930h12600\"/></pattern>\n"
}

/// The desk under the sheets.
#[tactic(auto, unfolding(crate::specs::Parts::desk))]
pub fn desk() -> &'static [u8]
    ensures { result.now ≡ desk }
{
    b"<rect width=\"100%\" height=\"100%\" fill=\"#e9e6df\"/>\n"
}

/// The definitions of marks.
#[tactic(auto, unfolding(crate::specs::Parts::definitions_begin))]
pub fn definitions_begin() -> &'static [u8]
    ensures { result.now ≡ definitions_begin }
{
    b"<defs>\n"
}

/// Their end.
#[tactic(auto, unfolding(crate::specs::Parts::definitions_end))]
pub fn definitions_end() -> &'static [u8]
    ensures { result.now ≡ definitions_end }
{
    b"</defs>\n"
}

/// A sheet's place, half an inch from the left, up to its distance from the top.
#[tactic(auto, unfolding(crate::specs::Parts::sheet_begin))]
pub fn sheet_begin() -> &'static [u8]
    ensures { result.now ≡ sheet_begin }
{
    b"<g transform=\"translate(630 "
}

/// A sheet's name, up to the printer's number.
#[tactic(auto, unfolding(crate::specs::Parts::sheet_name))]
pub fn sheet_name() -> &'static [u8]
    ensures { result.now ≡ sheet_name }
{
    b")\">\n<text font-size=\"210\" fill=\"#555\" y=\"-210\">Printer "
}

/// A sheet's paper, up to its height.
#[tactic(auto, unfolding(crate::specs::Parts::sheet_paper))]
pub fn sheet_paper() -> &'static [u8]
    ensures { result.now ≡ sheet_paper }
{
    b"</text>\n<rect width=\"12600\" height=\""
}

/// The rest of the paper, and its folds from 1 inch below the upper edge on, up to their height.
#[tactic(auto, unfolding(crate::specs::Parts::paper_folds))]
pub fn paper_folds() -> &'static [u8]
    ensures { result.now ≡ paper_folds }
{
    b"\" fill=\"url(#paper)\" stroke=\"#b4afa2\" stroke-width=\"10\"/>\n<rect y=\"1260\" width=\"12600\" height=\""
}

/// The rest of the folds, and the group of the sheet's marks, up to its distance.
#[tactic(auto, unfolding(crate::specs::Parts::sheet_marks))]
pub fn sheet_marks() -> &'static [u8]
    ensures { result.now ≡ sheet_marks }
{
    b"\" fill=\"url(#folds)\"/>\n<g transform=\"translate(1260 "
}

/// The marks of a sheet: strokes 29 units wide, as far as the place of a dot, 21 by 20, reaches from corner to corner; and letters
/// that are not seen.
#[tactic(auto, unfolding(crate::specs::Parts::ink_begin))]
pub fn ink_begin() -> &'static [u8]
    ensures { result.now ≡ ink_begin }
{
    b"<g stroke-width=\"29\" stroke-linecap=\"round\" fill-opacity=\"0\" font-size=\"140\">\n"
}

/// A group at a distance.
#[tactic(auto, unfolding(crate::specs::Parts::row_begin))]
pub fn row_begin() -> &'static [u8]
    ensures { result.now ≡ row_begin }
{
    b"<g transform=\"translate(0 "
}

/// A pale group at a distance.
#[tactic(auto, unfolding(crate::specs::Parts::held_begin))]
pub fn held_begin() -> &'static [u8]
    ensures { result.now ≡ held_begin }
{
    b"<g opacity=\".4\" transform=\"translate(0 "
}

/// The use of a mark, up to its name.
#[tactic(auto, unfolding(crate::specs::Parts::use_begin))]
pub fn use_begin() -> &'static [u8]
    ensures text { result.now ≡ use_begin }
    ensures short { length result.now ≤ 12 }
{
    b"<use href=\"#"
}

/// Between its name and its place.
#[tactic(auto, unfolding(crate::specs::Parts::use_place))]
pub fn use_place() -> &'static [u8]
    ensures text { result.now ≡ use_place }
    ensures short { length result.now ≤ 5 }
{
    b"\" x=\""
}

/// The end of a use or of a definition.
#[tactic(auto, unfolding(crate::specs::Parts::use_end))]
pub fn use_end() -> &'static [u8]
    ensures text { result.now ≡ use_end }
    ensures short { length result.now ≤ 4 }
{
    b"\"/>\n"
}

/// Between a definition's name and its path.
#[tactic(auto, unfolding(crate::specs::Parts::mark_path))]
pub fn mark_path() -> &'static [u8]
    ensures { result.now ≡ mark_path }
{
    b"\" d=\""
}

/// A mark's definition, up to its name.
#[tactic(auto, unfolding(crate::specs::Parts::mark_begin))]
pub fn mark_begin() -> &'static [u8]
    ensures { result.now ≡ mark_begin }
{
    b"<path stroke=\"#222\" id=\""
}

/// Between the place of a strip and its width: its base line is seven dots down.
#[tactic(auto, unfolding(crate::specs::Parts::letters_width))]
pub fn letters_width() -> &'static [u8]
    ensures { result.now ≡ letters_width }
{
    b"\" y=\"140\" textLength=\""
}

/// After the width of a strip, to which the characters of any font are drawn out, and blanks stay.
#[tactic(auto, unfolding(crate::specs::Parts::letters_fitted))]
pub fn letters_fitted() -> &'static [u8]
    ensures { result.now ≡ letters_fitted }
{
    b"\" lengthAdjust=\"spacingAndGlyphs\" xml:space=\"preserve\">"
}

/// After the distance of the marks held: a dashed rule, and a line that says what they are.
#[tactic(auto, unfolding(crate::specs::Parts::held_note))]
pub fn held_note() -> &'static [u8]
    ensures { result.now ≡ held_note }
{
    b")\">\n<path stroke=\"#a33\" stroke-width=\"20\" stroke-dasharray=\"126\" d=\"M0 60h10080\"/>\n<text font-size=\"120\" fill=\"#a33\" x=\"7350\" y=\"200\">held by the printer, not yet printed</text>\n</g>\n"
}

/// The end of a sheet.
#[tactic(auto, unfolding(crate::specs::Parts::sheet_end))]
pub fn sheet_end() -> &'static [u8]
    ensures { result.now ≡ sheet_end }
{
    b"</g>\n</g>\n"
}

/// The text below the sheets, up to its distance.
#[tactic(auto, unfolding(crate::specs::Parts::notes_begin))]
pub fn notes_begin() -> &'static [u8]
    ensures { result.now ≡ notes_begin }
{
    b"<text font-size=\"210\" fill=\"#555\" transform=\"translate(630 "
}

/// The line of a stop.
#[tactic(auto, unfolding(crate::specs::Parts::stop_begin))]
pub fn stop_begin() -> &'static [u8]
    ensures { result.now ≡ stop_begin }
{
    b"<tspan x=\"0\" dy=\"210\" fill=\"#a33\">"
}

/// The line of the statuses.
#[tactic(auto, unfolding(crate::specs::Parts::status_begin))]
pub fn status_begin() -> &'static [u8]
    ensures { result.now ≡ status_begin }
{
    b"<tspan x=\"0\" dy=\"210\">Status "
}

/// The end of a text.
#[tactic(auto, unfolding(crate::specs::Parts::text_end))]
pub fn text_end() -> &'static [u8]
    ensures { result.now ≡ text_end }
{
    b"</text>\n"
}

/// One sheet: its document's first tag, 10 inches by 11, up to where the sheet begins.
#[tactic(auto, unfolding(crate::specs::Parts::single_begin))]
pub fn single_begin() -> &'static [u8]
    ensures { result.now ≡ single_begin }
{
    b"<svg xmlns=\"http://www.w3.org/2000/svg\" version=\"1.1\" width=\"60pc\" height=\"66pc\" viewBox=\"0 "
}

/// The sheet's size in units.
#[tactic(auto, unfolding(crate::specs::Parts::single_size))]
pub fn single_size() -> &'static [u8]
    ensures { result.now ≡ single_size }
{
    b" 12600 13860"
}

/// The sheet's paper, up to where it begins.
#[tactic(auto, unfolding(crate::specs::Parts::single_paper))]
pub fn single_paper() -> &'static [u8]
    ensures { result.now ≡ single_paper }
{
    b"<rect y=\""
}

/// The rest of the paper, and the group of the sheet's marks.
#[tactic(auto, unfolding(crate::specs::Parts::single_marks))]
pub fn single_marks() -> &'static [u8]
    ensures { result.now ≡ single_marks }
{
    b"\" width=\"12600\" height=\"13860\" fill=\"url(#paper)\"/>\n<g transform=\"translate(1260 630)\">\n"
}

/// The end of the document.
#[tactic(auto, unfolding(crate::specs::Parts::single_end))]
pub fn single_end() -> &'static [u8]
    ensures { result.now ≡ single_end }
{
    b"</svg>\n"
}
