//! Laws, with nothing to run.

ghost use Rattle.pr_png.specs.Laws.{FileShowsLines, PaperHasAllDots, PixelsTellDots};

/// A law, with nothing to run: where the rows of a paper are at least 14/126 inch apart, as a
/// printer's are, and the place of a dot has two pixels or more, the pixels show which dots there are.
pub fn pixels_tell_dots()
    ensures { PixelsTellDots }
{}

/// A law, with nothing to run: the data of a file hold the lines of pixels of its picture, so each
/// reader that inflates them (RFC 1950 and 1951) finds these and no others.
pub fn file_shows_lines()
    ensures { FileShowsLines }
{}

/// A law, with nothing to run: the picture of a paper ends below all of its dots.
pub fn paper_has_all_dots()
    ensures { PaperHasAllDots }
{}
