//! A law, with nothing to run.

ghost use Rattle.pr_characters.specs.Laws.{HasOneAnswer};

/// A law, with nothing to run: each text has at most one answer. It is the file of no other shapes, and has no other first
/// bad line.
pub fn texts_have_one_answer()
    ensures { HasOneAnswer }
{}
