//! Why a command line is refused, on standard error; help and the version on standard output.

ghost use Rattle.std.specs.Prelude.{◌≡◌, ◌⊎◌, IfOk};
ghost use Rattle.pr_cli.specs.Statuses.{refusal_end};
ghost use Rattle.pr_cli.specs.declared.statuses.End.TheVariants as end;

use crate::answers::tell;
use crate::shown::{Shown, is_hidden};
use crate::statuses::End;
use crate::told::{say, show_hint};
use clap::error::{Error as UsageError, ErrorKind as UsageKind};
use pr_jobs::CliFault;
use pr_options::{JobFault, Opt, bad_value, read_task};
use std::alloc::{AllocError, Global};

/// What is said of a word that is no argument and no command, which may be a file's name.
const FILE_USAGE: &str =
    "A file is named after a command, as in `print1525 pages FILE`; without one, standard input is read.";

/// What is said of a second file.
const OUTPUT_USAGE: &str =
    "One file is read; -o names the file that is written, as in `print1525 pages FILE -o OUTPUT`.";

/// How a program comes out of an image of a disk.
pub const DISK: &str = "this is an image of a disk: VICE's c1541 takes a program out of it, as in \
     c1541 -attach IMAGE -read NAME name.prg";

/// The same of a tape.
pub const TAPE: &str =
    "this is an image of a tape: an emulator loads the program, and saves it as name.prg";

/// What is said of a sequential file behind a header, and of others.
const SEQUENTIAL: &str =
    "this is a sequential file, which has data, or a listing as text, behind a header of 26 bytes";

const USER: &str =
    "this is a user file, which has data and no program, behind a header of 26 bytes";

const RELATIVE: &str =
    "this is a relative file, which has data and no program, behind a header of 26 bytes";

/// The same of a cartridge.
pub const CARTRIDGE: &str = "this is an image of a cartridge, which has no listing";

/// What is done with an archive.
const ARCHIVE: &str = "unpack the file first";

/// What reads a recording.
const RECORDING: &str = "this is a recording: print1525 decode reads one";

/// How a dump of another form becomes one that is read.
const DUMP: &str = "make a Value Change Dump of it first: fst2vcd does so with FST, \
     and ghdl writes one with --vcd=FILE";

/// What is said of an output whose name's ending gives a value that is no format.
const OUTPUT_ENDING: &str =
    "the ending of the output's name says no format of this command; --as FORMAT chooses one";

/// How a value is given that begins with a minus.
const MINUS: &str = "a value that begins with a minus follows =, as in --from-time=-500";

/// Reports why the words ask for no task, and gives how the program ends.
pub fn refuse_task(
    rt: &(impl Print + Eprint + AllocGlobal),
    words: &[&str],
    fault: JobFault,
    is_explained: bool,
) -> Result<End, AllocError>
    ensures { IfOk result (λ how. (how ≡ refusal_end fault) ⊎ (how ≡ end.Job CliFault.WriteFailed)) }
{
    if matches!(&fault, JobFault::Line(_)) && have_control(words) {
        let end = End::of_refusal(&fault);
        return Ok(match refuse_shown(rt, words)? {
            End::Job(_) => End::Job(CliFault::WriteFailed),
            _ => end,
        });
    }
    let value = bad_value(rt.alloc(), words, &fault);
    let hint = if is_explained {
        foreign_hint(words, &fault, value)
    } else {
        None
    };
    Ok(refuse_line(rt, fault, value, hint, is_explained))
}

/// Reports that a word is not UTF-8.
pub fn refuse_word(rt: &impl Eprint, word: &[u8]) {
    let shown = word.escape_ascii();
    let _ = rt.eprintln(format_args!("print1525: {shown}: not UTF-8"));
}

/// Reports why the command line is refused, and gives how the program ends. A request for help or for the
/// version is answered; where that can not be written, it ends with a failed write.
fn refuse_line(
    rt: &(impl Print + Eprint + AllocGlobal),
    fault: JobFault,
    value: Option<&str>,
    hint: Option<&'static str>,
    is_explained: bool,
) -> End
    ensures { (result ≡ refusal_end fault) ⊎ (result ≡ end.Job CliFault.WriteFailed) }
{
    let end = End::of_refusal(&fault);
    if let JobFault::Line(error) = fault {
        if error.use_stderr() {
            show_error(rt, &error);
        } else if error.print(rt).is_err() {
            return tell(rt, CliFault::WriteFailed);
        }
        return end;
    }
    show_fault(rt, &fault, value);
    show_hint(rt, hint);
    if is_explained {
        show_value(rt, &fault, value);
        show_values(rt, &fault);
    }
    end
}

/// Reports which value is bad, where the line of the fault does not have it.
fn show_value(rt: &impl Eprint, fault: &JobFault, value: Option<&str>) {
    if let (Some(value), None) = (value, fault.good_values()) {
        let value = Shown(value);
        let _ = rt.eprintln(format_args!("  \"{value}\" is none of its values"));
    }
}

/// Reports which values are good.
fn show_values(rt: &impl Eprint, fault: &JobFault) {
    if let Some(values) = fault.values() {
        for line in values.lines() {
            let _ = rt.eprintln(format_args!("  {line}"));
        }
    }
}

/// Reports why clap refuses the words, and what they were meant for, as it seems.
fn show_error(rt: &(impl Print + Eprint + AllocGlobal), error: &UsageError) {
    let Ok(text) = format!(in rt.alloc(); "{error}") else {
        let _ = error.print(rt);
        return;
    };
    let word = quoted(text.as_str());
    if error.kind() == UsageKind::UnknownArgument && is_negative(word) && is_timed(text.as_str()) {
        show_without_tip(rt, text.as_str());
        let _ = rt.eprintln(format_args!("{MINUS}"));
        return;
    }
    let _ = error.print(rt);
    match error.kind() {
        UsageKind::InvalidSubcommand if may_be_file(word, text.as_str()) => {
            let _ = rt.eprintln(format_args!("{FILE_USAGE}"));
        }
        UsageKind::UnknownArgument if word == "-" || !word.starts_with('-') => {
            let _ = rt.eprintln(format_args!("{OUTPUT_USAGE}"));
        }
        _ => {}
    }
}

/// Reports a text of clap's without its tip and the empty line behind that.
fn show_without_tip(rt: &impl Eprint, text: &str) {
    let mut is_behind = false;
    for line in text.lines() {
        if line.starts_with("  tip: ") {
            is_behind = true;
        } else if is_behind && line.is_empty() {
            is_behind = false;
        } else {
            let _ = rt.eprintln(format_args!("{line}"));
        }
    }
}

/// Whether a text of clap's is on a subcommand that has `--from-time`.
fn is_timed(text: &str) -> bool {
    text.contains("print1525 check ") || text.contains("print1525 decode ")
}

/// The first text in quotation marks; empty where there is none.
fn quoted(text: &str) -> &str {
    match text.split_once('\'') {
        Some((_, rest)) => match rest.split_once('\'') {
            Some((word, _)) => word,
            None => rest,
        },
        None => "",
    }
}

/// Whether a word that stands where a command is wanted may be a file's name, and no command that is spelled wrong.
fn may_be_file(word: &str, text: &str) -> bool {
    word.contains('.') || word.contains('/') || !text.contains("similar subcommand")
}

/// Whether a word is a minus with a digit behind it.
fn is_negative(word: &str) -> bool {
    match word.as_bytes() {
        [b'-', digit, ..] => digit.is_ascii_digit(),
        _ => false,
    }
}

/// What to do with a file whose name has an ending that gives a bad value, where no word gives it.
fn foreign_hint(words: &[&str], fault: &JobFault, value: Option<&str>) -> Option<&'static str> {
    match fault {
        JobFault::Bad(Opt::ListingFrom | Opt::From | Opt::ReadingFrom) if !say(words, "--from") => {
            input_hint(value?)
        }
        JobFault::Bad(Opt::PageAs | Opt::RawAs | Opt::TraceAs | Opt::ReportAs | Opt::ReadingAs)
            if !say(words, "--as") => Some(OUTPUT_ENDING),
        _ => None,
    }
}

/// What to do with an input whose name's ending gives this value.
fn input_hint(value: &str) -> Option<&'static str> {
    match value {
        "d64" | "d71" | "d80" | "d81" | "d82" | "g64" | "g71" | "nib" => Some(DISK),
        "tap" => Some(TAPE),
        "s00" => Some(SEQUENTIAL),
        "u00" => Some(USER),
        "r00" => Some(RELATIVE),
        "crt" => Some(CARTRIDGE),
        "gz" | "zip" | "xz" | "7z" | "rar" | "lnx" => Some(ARCHIVE),
        "vcd" => Some(RECORDING),
        "fst" | "ghw" | "lxt" => Some(DUMP),
        _ => None,
    }
}

/// Reports a fault of the command line in one line on standard error: with the bad value and the good
/// ones, where they are listed.
fn show_fault(rt: &impl Eprint, fault: &JobFault, value: Option<&str>) {
    let _ = match (value, fault.good_values()) {
        (Some(value), Some(good)) => {
            let value = Shown(value);
            rt.eprintln(format_args!("print1525: {fault} {value}: {good}"))
        }
        _ => rt.eprintln(format_args!("print1525: {fault}")),
    };
}

/// Whether a word has a character that is shown escaped.
fn have_control(words: &[&str]) -> bool {
    for word in words {
        if has_control(*word) {
            return true;
        }
    }
    false
}

/// Whether a text has such a character.
fn has_control(text: &str) -> bool {
    for c in text.chars() {
        if is_hidden(c) {
            return true;
        }
    }
    false
}

/// Reports why clap refuses words of which one has characters that are shown escaped.
fn refuse_shown(
    rt: &(impl Print + Eprint + AllocGlobal),
    words: &[&str],
) -> Result<End, AllocError> {
    let mut shown = Vec::new(rt.alloc());
    for word in words {
        let word = Shown(*word);
        shown.push(format!(in rt.alloc(); "{word}")?)?;
    }
    let mut texts = Vec::new(rt.alloc());
    for word in shown.as_slice() {
        texts.push(word.as_str())?;
    }
    match read_task(rt.alloc(), texts.as_slice()) {
        Err(fault) => Ok(refuse_line(rt, fault, None, None, false)),
        Ok(_task) => Ok(refuse(rt, "bad arguments")),
    }
}

/// Reports in one line on standard error why the command line is refused, and gives how the program ends.
pub fn refuse(rt: &impl Eprint, reason: &str) -> End
    ensures { result ≡ end.Words }
{
    let _ = rt.eprintln(format_args!("print1525: {reason}"));
    End::Words
}

/// Reports that a file that is read is also the one that is to be written, and gives how the program ends.
pub fn refuse_same(rt: &impl Eprint, name: &str) -> End
    ensures { result ≡ end.Words }
{
    let name = Shown(name);
    let _ = rt.eprintln(format_args!(
        "print1525: {name}: this file is read, and --output names it too"
    ));
    End::Words
}
