//! Which marks have been defined.

ghost use Rattle.std.specs.Prelude.{◌≡◌, false, ◌∷◌, [], flat_map, if◌then◌else◌, replicate, IfOk, OnOk};
ghost use Rattle.pr_dots.specs.Sheets.{is_on, lowered_row, lowered_rows, rows_on};
ghost use Rattle.pr_render.specs.Defined.{HasDefined, marks_on};
ghost use Rattle.pr_render.specs.Svg.{marks_of};

use crate::uses::{number_of, push_definition};
use pr_dots::{Shapes, is_on};
use pr_page::{Mark, Paper, Placed, Row};
use std::alloc::{AllocError, Global};
use std::marker::Model;

/// How many marks there are.
const MARKS: usize = 2304;

/// Whether each mark has been defined, by its number.
#[derive(Drop)]
pub struct Defined {
    marks: Vec<bool>,
}

impl Model for Defined {
    ghost use Rattle.std.specs.Prelude.{◌≡◌, Bool, List, length};

    ghost Value = { List Bool };

    ghost view = { λ d. d.marks.items };

    ghost invariant = { λ d. length d.marks.items ≡ 2304 };
}

impl Defined {
    /// None has been.
    pub fn new(alloc: Global) -> Result<Defined, AllocError>
        ensures { IfOk result (λ d. d ≡ replicate 2304 false) }
    {
        let marks = Vec::from_elem(alloc, false, MARKS)?;
        Ok(Defined { marks })
    }

    /// Adds the definition of a mark, unless it has been defined.
    #[tactic(auto, using(crate::proofs::Defining::defined_already))]
    fn define(&mut self, text: &mut Vec<u8>, shapes: &Shapes, mark: Mark) -> Result<(), AllocError>
        ensures { OnOk result (HasDefined shapes.now (mark ∷ []) text.old.items self.old text.new.items self.new) }
    {
        let number = number_of(mark);
        if self.marks[number] {
            return Ok(());
        }
        push_definition(text, shapes, mark)?;
        self.marks[number] = true;
        Ok(())
    }

    /// Adds the definitions of marks that have not been defined.
    fn define_all(
        &mut self,
        text: &mut Vec<u8>,
        shapes: &Shapes,
        marks: &[Placed],
    ) -> Result<(), AllocError>
        ensures { OnOk result (HasDefined shapes.now (marks_on marks.now) text.old.items self.old text.new.items self.new) }
    {
        for placed in marks {
            self.define(text, shapes, placed.mark)?;
        }
        Ok(())
    }

    /// The same of the marks of rows.
    fn define_rows(
        &mut self,
        text: &mut Vec<u8>,
        shapes: &Shapes,
        rows: &[Row],
    ) -> Result<(), AllocError>
        ensures { OnOk result (HasDefined shapes.now (marks_on (flat_map (λ r. r.marks) rows.now)) text.old.items self.old text.new.items self.new) }
    {
        for row in rows {
            self.define_all(text, shapes, row.marks.as_slice())?;
        }
        Ok(())
    }

    /// The same of the marks of a row, if it is on a sheet.
    fn define_row(
        &mut self,
        text: &mut Vec<u8>,
        shapes: &Shapes,
        above: u8,
        sheet: u64,
        row: &Row,
    ) -> Result<(), AllocError>
        ensures { OnOk result (HasDefined shapes.now (if is_on sheet (lowered_row above row.now) then marks_on row.now.marks else []) text.old.items self.old text.new.items self.new) }
    {
        if !is_on(above, sheet, row) {
            return Ok(());
        }
        self.define_all(text, shapes, row.marks.as_slice())
    }

    /// The same of the marks of the rows on a sheet.
    #[tactic(auto, using(crate::proofs::Defining::marks_of_more))]
    pub fn define_sheet(
        &mut self,
        text: &mut Vec<u8>,
        shapes: &Shapes,
        above: u8,
        sheet: u64,
        rows: &[Row],
    ) -> Result<(), AllocError>
        ensures { OnOk result (HasDefined shapes.now (marks_on (flat_map (λ r. r.marks) (rows_on sheet (lowered_rows above rows.now)))) text.old.items self.old text.new.items self.new) }
    {
        for row in rows {
            self.define_row(text, shapes, above, sheet, row)?;
        }
        Ok(())
    }

    /// The same of the marks of a paper, if it is drawn.
    pub fn define_paper(
        &mut self,
        text: &mut Vec<u8>,
        shapes: &Shapes,
        drawn: bool,
        paper: &Paper,
    ) -> Result<(), AllocError>
        ensures { OnOk result (HasDefined shapes.now (if drawn then marks_of paper.now else []) text.old.items self.old text.new.items self.new) }
    {
        if !drawn {
            return Ok(());
        }
        self.define_rows(text, shapes, paper.rows.as_slice())?;
        self.define_all(text, shapes, paper.held.as_slice())
    }
}
