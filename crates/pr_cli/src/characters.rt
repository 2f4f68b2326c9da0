//! The shapes in which a task draws characters.

ghost use Rattle.std.specs.Prelude.{◌≡◌, None, Ok, IfSome, option_map};
ghost use Rattle.pr_dots.specs.Shapes.{own_shapes};
ghost use Rattle.pr_jobs.specs.Characters.{AnswersCharacters};
ghost use Rattle.pr_cli.specs.Characters.{GivenShapes};

use crate::outside::Outside;
use crate::shown::Shown;
use pr_dots::Shapes;
use pr_files::Noting;
use pr_jobs::{ShapesFault, Watched, read_characters};
use std::fs::{File, Files};
use std::io::{Error, Read};

/// Returns the shapes of the file of this name, or this project's own where there is none. A file without shapes is
/// reported in one line on standard error, and so is one that cannot be opened.
pub fn shapes_for(
    rt: &(impl Files + Eprint + AllocGlobal),
    name: Option<&str>,
) -> Result<Shapes, ShapesFault>
    ensures own { name.entry ≡ None → result ≡ Ok own_shapes }
{
    let Some(name) = name else {
        return Ok(Shapes::own());
    };
    match File::open(rt, name) {
        Ok(file) => shapes_from(rt, file, name),
        Err(error) => {
            rt.tell_error(name, &error);
            Err(ShapesFault::ReadFailed)
        }
    }
}

/// Returns the shapes that a file in memory has, where a task names one, or this project's own.
pub fn shapes_given(
    rt: &(impl Outside + Eprint + AllocGlobal),
    name: Option<&str>,
    file: &[u8],
) -> Result<Shapes, ShapesFault>
    ensures { GivenShapes (option_map (λ name. name.now) name.entry) file.now result }
{
    match name {
        None => Ok(Shapes::own()),
        Some(name) => shapes_from(rt, file, name),
    }
}

/// Reads the shapes of a file of this name. It has a frame of its own, so a task without a file is spared the room for the
/// block that it reads into.
#[inline(never)]
fn shapes_from<R: Read + Drop>(
    rt: &(impl Outside + Eprint + AllocGlobal),
    file: R,
    name: &str,
) -> Result<Shapes, ShapesFault>
    ensures { IfSome (R.remaining file) (λ text. AnswersCharacters text result) }
{
    let mut input = Watched::new(Noting::new(file));
    match read_characters(rt.alloc(), &mut input) {
        Ok(shapes) => Ok(shapes),
        Err(fault) => {
            refuse_characters(rt, fault, name, input.into_inner().error());
            Err(fault)
        }
    }
}

/// Reports in one line on standard error why a file has no shapes.
fn refuse_characters(
    rt: &(impl Outside + Eprint),
    fault: ShapesFault,
    name: &str,
    error: Option<Error>,
) {
    match (fault, error) {
        (ShapesFault::ReadFailed, Some(error)) => rt.tell_error(name, &error),
        (ShapesFault::Characters(_) | ShapesFault::TooLarge, _) => {
            let name = Shown(name);
            let _ = rt.eprintln(format_args!("print1525: {name}: {fault}"));
        }
        _ => {
            let _ = rt.eprintln(format_args!("print1525: {fault}"));
        }
    }
}
