//! Which glyphs marks use.

ghost use Rattle.std.specs.Prelude.{◌≡◌, ◌≤◌, ◌∷◌, ◌++◌, [], length, slice_index_or, false, map, IfOk};
ghost use Rattle.pr_pdf.specs.Fonts.{used_before, used_of};
ghost use Rattle.pr_pdf.specs.Pdf.{marks_of};
ghost use Rattle.pr_pdf.specs.Linked.{HasSeen};

use crate::marks::number_of;
use pr_page::{Mark, Placed, Row};
use std::alloc::{AllocError, Global};
use std::marker::Model;

/// How many glyphs the fonts have.
pub const GLYPHS: usize = 2304;

/// Whether each glyph is used, by its number.
#[derive(Drop)]
pub struct Used {
    glyphs: Vec<bool>,
}

impl Model for Used {
    ghost use Rattle.std.specs.Prelude.{◌≡◌, Bool, List, length};

    ghost Value = { List Bool };

    ghost view = { λ u. u.glyphs.items };

    ghost invariant = { λ u. length u.glyphs.items ≡ 2304 };
}

impl Used {
    /// None is.
    #[tactic(auto, using(crate::proofs::Using::none_used))]
    pub fn new(alloc: Global) -> Result<Used, AllocError>
        ensures { IfOk result (λ u. u ≡ used_of []) }
    {
        let glyphs = Vec::from_elem(alloc, false, GLYPHS)?;
        Ok(Used { glyphs })
    }

    /// Whether a glyph is used.
    pub fn has(&self, number: usize) -> bool
        ensures { result ≡ slice_index_or self.now number false }
    {
        number < GLYPHS && self.glyphs[number]
    }

    /// Takes a mark's glyph as used.
    fn see(&mut self, mark: Mark)
        ensures { HasSeen (mark ∷ []) self.old self.new }
    {
        self.glyphs[number_of(mark)] = true;
    }

    /// The same of the marks of a row.
    fn see_all(&mut self, marks: &[Placed])
        ensures { HasSeen (map (λ p. p.mark) marks.now) self.old self.new }
    {
        for placed in marks {
            self.see(placed.mark);
        }
    }

    /// The same of the marks of rows.
    pub fn see_rows(&mut self, rows: &[Row])
        ensures { HasSeen (marks_of rows.now) self.old self.new }
    {
        for row in rows {
            self.see_all(row.marks.as_slice());
        }
    }

    /// How many glyphs before a number are used.
    pub fn before(&self, end: usize) -> u64
        ensures count { result ≡ used_before self.now end }
        ensures within { result ≤ end }
    {
        let mut count = 0;
        for number in 0..end {
            if self.has(number) {
                count += 1;
            }
        }
        count
    }
}
