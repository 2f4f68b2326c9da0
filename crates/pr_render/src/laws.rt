//! Laws of the definitions, with nothing to run.

ghost use Rattle.pr_render.specs.Laws.{DiscsAreLowered, DiscsAreTheDots, ElementsTellRows, LinesShowEachCell, NamesTellMarks, PicturesTellPapers, SheetsTellRows, WideCellsShowABlank};

/// A law: what a picture draws of a paper's rows is a disc at each dot of the paper, and no other.
/// An element draws what is defined under its name, moved to the element's place; each mark in the
/// definitions is defined there once. Measured from the upper edge of the paper, these are the discs of the lowered paper, of which
/// sheets and bitmaps are drawn.
pub fn discs_are_the_dots()
    ensures dots { DiscsAreTheDots }
    ensures lowered { DiscsAreLowered }
{}

/// A law: different marks have different names, so the elements of a row determine its marks.
pub fn names_tell_marks()
    ensures { NamesTellMarks }
{}

/// A law: the list of a page's rows can be had back from its picture. Rows whose elements have the same text are the
/// same rows: each at its distance, with the same marks at the same places.
pub fn elements_tell_rows()
    ensures { ElementsTellRows }
{}

/// A law: the pages can be had back from the whole document. Outcomes with the same document have the same printers in it,
/// each with the same rows and the same marks held; whatever else differs, as statuses or the shapes of characters.
pub fn pictures_tell_papers()
    ensures { PicturesTellPapers }
{}

/// A law: the rows on a sheet can be had back from the document of that sheet.
pub fn sheets_tell_rows()
    ensures { SheetsTellRows }
{}

/// Laws: in the line of its row a cell shows its character at the column of its place, and a wide cell a blank at the next one, if
/// no later mark of its row reaches that column. A reversed cell shows both in the terminal's reverse video; in lines without it
/// a reversed blank shows full blocks. The line is the row's own: one for each row above it, and one for each line of text for which there is
/// room above a row, come before it. Held marks show so in the line under their heading.
pub fn lines_show_each_cell()
    ensures cells { LinesShowEachCell }
    ensures wide { WideCellsShowABlank }
{}
