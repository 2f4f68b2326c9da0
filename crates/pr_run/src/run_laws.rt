//! Laws of the definitions, with nothing to run.

ghost use Rattle.pr_run.specs.Plain.{CharactersAreConstant, DigitsAreNumbers, PlainRuns, StringsAreConstant};
ghost use Rattle.pr_run.specs.RunLaws.{AllComeFrom, LimitsAgree, LimitsGoOn, StringsAreCounted};
ghost use Rattle.pr_run.specs.ScriptTexts.{ScriptsRun, TextsSayTheSame};
ghost use Rattle.pr_run.specs.Spelled.{LinesAreRead};

use pr_basic::laws::lexemes_are_found;

/// A law: a greater limit of steps changes no run that does not use up a smaller one, and what is performed within a
/// smaller one is performed first within a greater one.
pub fn limits_agree()
    ensures same { LimitsAgree }
    ensures first { LimitsGoOn }
{}

/// A law: each output statement that a run performs comes from a statement of its kind, in the line of its number.
pub fn statements_come_from_their_lines()
    ensures { AllComeFrom }
{}

/// A law: in each state that a run comes to, the bytes that are counted for strings are exactly those of the strings
/// that variables and elements of arrays hold.
pub fn strings_are_counted()
    ensures { StringsAreCounted }
{}

/// A law: digits of at most 255, a string between quotes, and CHR$ of such digits are constants.
pub fn literals_are_constant()
    ensures digits { DigitsAreNumbers }
    ensures strings { StringsAreConstant }
    ensures characters { CharactersAreConstant }
{}

/// A law: a program of OPEN, CMD, PRINT, PRINT#, CLOSE and REM alone, with constants, performs these statements in
/// order, up to the first that has an error.
pub fn plain_programs_run_in_order()
    ensures { PlainRuns }
{}

/// A law: the lexemes of a line of OPEN, CMD, PRINT, PRINT#, CLOSE and REM, with constants, as scripts spell them, are
/// read as statements that say them.
pub fn script_lines_are_read()
    ensures { LinesAreRead }
{}

/// A law: a script whose lines are numbered in ascending order is a program of the same statements, and performs them
/// in order, up to the first that has an error. A line may not have a tab between its lexemes, a carriage return before
/// its end or a number of more than 255 digits.
pub fn numbered_scripts_are_programs()
    ensures same { TextsSayTheSame }
    ensures runs { ScriptsRun }
{
    lexemes_are_found();
}
