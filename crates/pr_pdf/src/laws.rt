//! Laws of the definitions, with nothing to run.

ghost use Rattle.pr_pdf.specs.Laws.{DrawsDots, DrawsPaper};

/// A law: a sheet draws a disc for each dot of the rows that are on it, and no other disc. The glyphs
/// of a string are side by side.
pub fn sheets_draw_dots()
    ensures { DrawsDots }
{}

/// A law: a place of a paper has a disc on its sheet exactly if the paper has a dot there.
pub fn sheets_draw_papers()
    ensures { DrawsPaper }
{}
