//! Laws of the definitions, with nothing to run.

ghost use Rattle.pr_programs.specs.ScriptLaws.{ScriptsReadBack};

/// A law: the script of what is performed is read as exactly these statements, if they are within the bounds that a
/// script has.
pub fn scripts_read_back()
    ensures { ScriptsReadBack }
{}
