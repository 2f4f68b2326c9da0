//! Laws, with nothing to run.

ghost use Rattle.pr_dots.specs.Laws.{LowersDots};

/// A law, with nothing to run: where the first row of a paper is some lines below the paper's upper edge, each dot is that
/// much farther down.
pub fn lowered_paper_lowers_dots()
    ensures { LowersDots }
{}
