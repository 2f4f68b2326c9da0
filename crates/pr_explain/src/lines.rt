//! The lines of a script, one after another, each with how many statements it has.

ghost use Rattle.std.specs.Prelude.{◌≡◌, List, ◌∷◌, [], ℕ, ◌<◌, length, IfOk};
ghost use Rattle.pr_base.specs.Lines.{lines_of};
ghost use Rattle.pr_basic.specs.Grammar.{IsScript};
ghost use Rattle.pr_basic.specs.declared.statement.Statement.{Statement};
ghost use Rattle.pr_explain.specs.FirstLines.{CountsFirst};

use pr_basic::{ScriptFault, cut_line, read_script};
use pr_wire::NoMemory;
use std::alloc::{AllocError, Global};

/// The first line of a text.
#[derive(Clone, Copy)]
pub struct FirstLine<'a> {
    /// Its bytes, without the byte 10 that ends it.
    pub bytes: &'a [u8],
    /// What follows it.
    pub rest: &'a [u8],
    /// How many statements it has.
    pub count: usize,
}

/// Returns the first line of a text, with how many statements it has. It is for a text whose lines are those of a
/// script, or the last of them: of others the count says nothing.
///
/// # Errors
///
/// [`NoMemory`] where memory was refused.
pub fn first_line(alloc: Global, text: &[u8]) -> Result<FirstLine<'_>, NoMemory>
    requires { 0 < length text.now }
    ensures lines { IfOk result (λ first. lines_of text.now ≡ first.bytes.now ∷ lines_of first.rest.now) }
    ensures count { IfOk result (λ first. CountsFirst first.bytes.now first.rest.now first.count) }
    ensures less { IfOk result (λ first. length first.rest.now < length text.now) }
{
    let (bytes, rest) = cut_line(text);
    let count = statement_count(alloc, alone(bytes))?;
    Ok(FirstLine { bytes, rest, count })
}

/// A line as a text of its own: with its end, if it is empty.
fn alone(line: &[u8]) -> &[u8]
    ensures { (text : List ℕ) (more : List (List ℕ)) → lines_of text ≡ line.now ∷ more → lines_of result.now ≡ line.now ∷ [] }
{
    if line.is_empty() { b"\n" } else { line }
}

/// How many statements a line has that is given as a text of its own.
fn statement_count(alloc: Global, line: &[u8]) -> Result<usize, NoMemory>
    ensures { (statements : List Statement) → IsScript line.now statements → IfOk result (λ count. count ≡ length statements) }
{
    match read_script(alloc, line) {
        Ok(statements) => Ok(statements.len()),
        Err(ScriptFault::NoMemory) => Err(AllocError),
        Err(_) => Ok(0),
    }
}
