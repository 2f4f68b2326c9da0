//! The strings of a row.

ghost use Rattle.std.specs.Prelude.{◌≡◌, ◌<◌, ◌++◌, flat_map, OnOk};
ghost use Rattle.pr_pdf.specs.Sheets.{end_of, run_begin, run_pdf, runs_of};
ghost use Rattle.pr_pdf.specs.Linked.{close_pdf};

use crate::adding::{push_between, push_hex_2};
use crate::marks::{FONTS, code_of, font_columns, font_name, font_of};
use crate::parts::{run_codes, run_end, run_place};
use pr_page::Placed;
use pr_render::push_small;
use std::alloc::AllocError;

/// Begins a run.
#[tactic(auto, unfolding(crate::specs::Sheets::run_begin))]
fn push_begin(text: &mut Vec<u8>, height: u64, font: usize, x: u16) -> Result<(), AllocError>
    requires { font < 9 }
    ensures { OnOk result (text.new.items ≡ text.old.items ++ run_begin height font x) }
{
    text.push(b'/')?;
    text.extend_from_slice(font_name(font))?;
    push_between(text, run_place(), 42 * u64::from(x), b" ")?;
    push_small(text, height)?;
    text.extend_from_slice(run_codes())
}

/// Ends the run of a font, or nothing where no run has begun.
fn push_close(text: &mut Vec<u8>, font: usize) -> Result<(), AllocError>
    ensures { OnOk result (text.new.items ≡ text.old.items ++ close_pdf font) }
{
    if font < FONTS {
        text.extend_from_slice(run_end())?;
    }
    Ok(())
}

/// Adds the runs of marks on a base line at a height.
#[tactic(auto, using(crate::proofs::RunByRun::runs_are))]
pub fn push_runs(text: &mut Vec<u8>, height: u64, marks: &[Placed]) -> Result<(), AllocError>
    ensures { OnOk result (text.new.items ≡ text.old.items ++ flat_map (run_pdf height) (runs_of marks.now)) }
{
    let mut open = FONTS;
    let mut end = 0;
    for placed in marks {
        let font = font_of(placed.mark);
        if font != open || end != u64::from(placed.x) {
            push_close(text, open)?;
            push_begin(text, height, font, placed.x)?;
        }
        push_hex_2(text, code_of(placed.mark))?;
        open = font;
        end = u64::from(placed.x) + font_columns(font);
    }
    push_close(text, open)
}
