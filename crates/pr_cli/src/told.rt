//! What more there is to say of a job's input, on standard error.

use crate::kinds::other_kind;
use crate::lacking::BOTH;
use crate::notes::{
    address_note, is_script, is_typed, listing_text, note_brief, note_bytes, note_misread,
    note_repeats, note_script, note_threshold, note_unit,
};
use crate::script_lines::is_continued;
use crate::still::{EACH_SAMPLE, WrongByte, changes_always, line_note, still_note, wrong_byte};
use pr_basic::{ScriptFault, StatusMode, cut_line};
use pr_capture::{InputFormat, OutputFormat, TraceInput};
use pr_explain::{
    Explanation, ScriptPlace, explain_letter, explain_line, explain_reading, explain_script,
    explain_stop, explain_trace, html_instead, read_input, remark_on,
};
use pr_jobs::{CliFault, PictureFault, RunEnd};
use pr_listing::{
    ListingFault, ListingForm, TextFault, begins_with_heading, found_form, is_p00, is_t64,
    long_token_name, looks_like_text, plain_form, program_byte, token_name,
};
use pr_options::{CheckOutput, DecodeOutput, Job, PagesOutput, Task};
use pr_programs::Form;
use pr_recording::Heard;
use pr_render::Format;
use pr_report::{Oddities, Report, push_oddities};
use pr_serial::Present;
use pr_wire::Edge;
use std::alloc::{AllocError, Global};

/// What is said of a refused script that looks like a saved program.
const SAVED_PROGRAM: &str = "this looks like a saved program: --from prg reads one";

/// What is said of a saved program that has the letters of a keyword.
const LETTERS: &str =
    "letters spell no keyword in a saved program: its keywords are bytes from 128 on";

/// What is said of a refused script whose strings have them too, or that begins with petcat's heading.
const PETCAT_TEXT: &str = "this may be petcat's text: --from petcat reads it";

/// What is said of a script that is refused for what a whole program may have, and how its explanation says that.
const PROGRAM: &str =
    "--from basic runs a whole program, with variables and loops, or says why it does not";

const UNSUPPORTED: &[u8] = b" supported";

/// What is said of a refused script with two bytes a letter.
const WIDE_SCRIPT: &str = "this is text in UTF-16; save it as ASCII or UTF-8";

/// What is said of a refused script with a byte 26 at the end of the refused line.
const END_MARK: &str = "the byte 26 is an end mark of old systems; save the listing without it";

/// What is said of a refused script whose line before the refused one ends within a string.
const WRAPPED: &str =
    "the line before ends within a string: if an editor has wrapped a longer line there, join the two";

/// The same where mail has done so.
const SOFT_BREAK: &str =
    "the line before ends with =, by which mail breaks long lines: join the two without it, or save the listing as plain text";

/// What is said of a saved program without its load address, or that ends within a line.
const PROGRAM_FORM: &str = "a saved program is a load address of two bytes, then lines: \
     a link and a number of two bytes each, the line's bytes and 0; a link of 0 ends it";

/// What is said of a P00 file without one.
const P00_FORM: &str =
    "this is a P00 file, whose name says by its ending what follows its header of 26 bytes: \
     .p00 to .p99 a program, .s00, .u00 and .r00 data";

/// What is said of a T64 file without one.
const T64_FORM: &str =
    "the directory of this T64 file has no BASIC program, or says wrongly where it begins or ends; \
     load it in an emulator, and save it as name.prg";

/// What is said of one that looks like a text.
const PLAIN_TEXT: &str = "this looks like text: --from text or petcat reads one";

/// What is said of petcat's text with an unknown name.
const PETCAT_NAMES: &str =
    "in a string { begins a name of petcat's and } ends it, as {down}, {3 down} \
     or {$8e}; a count is 1 to 255";

/// What is said of a magazine's listing with an unknown name.
const MAGAZINE_NAMES: &str = "in a string { begins a name of a key and } ends it, as {CLR}, \
     {5 SPACES}, {SHIFT-A} or {$A0}; [<A>] is A with the Commodore key; a count is 1 to 255";

/// What is said of a magazine's listing with an unknown key.
const MAGAZINE_KEYS: &str =
    "in a string [< begins a key that is typed with the Commodore key and >] ends it: a letter, 1 to 8, \
     or one of @ + - *, as in [<A>], [<5>] or [<3 A>]; a count is 1 to 255";

/// What is said of a magazine's listing with a byte that its strings never have.
const MAGAZINE_BYTES: &str = "a string of a magazine's listing has capitals, digits and signs: \
     the bytes 32 to 95; --from petcat reads small letters";

/// What is said of a magazine's listing with a key in square brackets that is typed with shift.
const MAGAZINE_SHIFT: &str = "a key that is typed with shift has a name in braces, as {SHIFT-A}";

/// Pi, as UTF-8 has it, and what is said of it in a string of a typed listing.
const PI: &[u8] = b"\xcf\x80";

const PI_NAME: &str = "this is pi, which is {$de} in the strings of such a listing";

/// What is said of petcat's text with a byte that it never has.
const PETCAT_BYTES: &str =
    "a string of petcat's text has letters, digits and signs: the bytes 32 to 95 and small letters";

/// What is said of bytes that come in the lower/upper case set.
const LOWER_SET: &str = "the bytes are for the lower case set: raw --set lower prints them";

/// What is said of bytes that come in both sets, the first one in the graphic/upper case set.
const BOTH_SETS: &str =
    "the character set changes after the first byte: raw prints all bytes in one set; \
     --as text prints both";

/// The same where the first one comes in the lower/upper case set.
const BOTH_SETS_LOWER: &str =
    "the character set changes after the first byte: raw prints all bytes in one set, \
     with --set lower in that of the first byte; --as text prints both";

/// What is noted of an output whose name has an ending that says no format.
const OTHER_ENDING: &str =
    "no format has the ending of the output's name, so the output is in the default format: \
     --as FORMAT chooses another";

/// The endings that this project's own texts of the default formats have.
const OWN_ENDINGS: [&str; 4] = [".page", ".trace", ".frames", ".txt"];

/// What is noted of the name of a task's output: nothing where the words or its ending say the format.
pub fn ending_note(words: &[&str], task: &Task<'_>) -> Option<&'static str> {
    match task.output {
        Some(name) if is_default(&task.job) && !say(words, "--as") && has_other_ending(name) => {
            Some(OTHER_ENDING)
        }
        _ => None,
    }
}

/// Whether a job writes the format that it has where nothing says one. No ending says that format.
fn is_default(job: &Job<'_>) -> bool {
    match job {
        Job::Pages(_, _, _, _, output) => *output == PagesOutput::Pages(Format::List),
        Job::Bus(_, _, _, _, format) => *format == OutputFormat::Text,
        Job::Script(_) => false,
        Job::Check { output, .. } => *output == CheckOutput::Report(Report::Frames),
        Job::Decode { output, .. } => matches!(output, DecodeOutput::Readings(_)),
        Job::Raw { format, .. } => *format == Format::List,
    }
}

/// Whether one of the words is this option, with a value behind it or in the next word.
pub fn say(words: &[&str], option: &str) -> bool {
    for word in words {
        if let Some(rest) = word.strip_prefix(option) {
            if rest.is_empty() || rest.starts_with('=') {
                return true;
            }
        }
    }
    false
}

/// Whether the name of a file has an ending that none of this project's own texts has.
fn has_other_ending(name: &str) -> bool {
    for ending in OWN_ENDINGS {
        if name.ends_with(ending) {
            return false;
        }
    }
    let file = match name.rsplit_once('/') {
        Some((_, file)) => file,
        None => name,
    };
    match file.rsplit_once('.') {
        Some((front, ending)) => !front.is_empty() && !ending.is_empty(),
        None => false,
    }
}

/// Notes what the bytes of a printer do not say, if there is anything.
pub fn tell_heard(rt: &impl Eprint, heard: Heard) {
    if let Some(line) = heard_told(heard) {
        let _ = rt.eprintln(format_args!("print1525: note: {line}"));
    }
}

/// What the bytes of a printer do not say, and what to do about it.
fn heard_told(heard: Heard) -> Option<&'static str> {
    match (heard.reselected, heard.lower) {
        (false, false) => None,
        (false, true) => Some(LOWER_SET),
        (true, false) => Some(BOTH_SETS),
        (true, true) => Some(BOTH_SETS_LOWER),
    }
}

/// Writes what more there is to say of an input, by the answer of its job: a script may be made of a listing.
pub fn tell_more(
    rt: &(impl Eprint + AllocGlobal),
    bytes: &[u8],
    listing: Option<Listing<'_>>,
    subject: Subject<'_>,
    answer: Result<RunEnd, CliFault>,
) {
    let told = told(rt, bytes, listing, subject, answer);
    let is_program = may_be_program(bytes, subject, answer) && is_unsupported(&told);
    show(rt, told);
    let hint = hint_of(bytes, listing, subject, answer);
    show_hint(rt, hint);
    if is_program && hint.is_none() {
        show_hint(rt, Some(PROGRAM));
    }
}

/// Writes what is to be noted of an input whose job is answered, by all of its bytes, or of a recording by its first ones.
pub fn tell_notes(
    rt: &(impl Eprint + AllocGlobal),
    bytes: &[u8],
    is_whole: bool,
    subject: Subject<'_>,
) {
    match subject {
        Subject::Script(job) => note_script(rt, bytes, job.form),
        Subject::Bytes => note_bytes(rt, bytes),
        Subject::Trace(input) | Subject::Recording(input) => {
            note_threshold(rt, input.signals.probes.threshold);
            let has_unit = note_unit(rt, bytes, input);
            let has_repeats = note_repeats(rt, bytes, input);
            let is_misread = note_misread(rt, bytes, input);
            if is_whole && !has_unit && !has_repeats && !is_misread {
                note_edges(rt, bytes, input);
            }
        }
    }
}

/// Writes what is to be noted of the edges of a whole recording, which can be read to its end.
fn note_edges(rt: &(impl Eprint + AllocGlobal), recording: &[u8], input: TraceInput<'_>) {
    let Ok(said) = read_input(rt.alloc(), recording, input) else {
        return;
    };
    if said.fault.is_some() {
        return;
    }
    match said.edges.as_slice() {
        [] => {}
        [_] => {
            if let Ok(note) = still_note(rt.alloc(), recording, input) {
                show_note(rt, note);
            }
        }
        [first, rest @ ..] if input.signals.probes.threshold.is_some() => {
            show_note(rt, line_note(*first, rest));
        }
        edges if changes_always(input.source, edges) => show_note(rt, Some(EACH_SAMPLE)),
        edges => note_wrong(rt, edges),
    }
}

/// Notes with which byte something is wrong, as it seems.
fn note_wrong(rt: &(impl Eprint + AllocGlobal), edges: &[Edge]) {
    let _ = match wrong_byte(rt.alloc(), edges) {
        Ok(Some(WrongByte::Lost(time))) => rt.eprintln(format_args!(
            "print1525: note: a byte may be lost at {time} us, where CLOCK goes up and down and no byte begins: lines that change \
             in one sample hide its beginning, and so does a row that is missing; record faster"
        )),
        Ok(Some(WrongByte::Changed(time))) => rt.eprintln(format_args!(
            "print1525: note: DATA changes at {time} us within a bit, while CLOCK is up, so the byte may be another one: \
             --glitch TIME leaves out shorter pulses"
        )),
        Ok(None) | Err(_) => return,
    };
}

/// Whether an input is kept for notes: of a trace or a recording there are some only where it is a file, or is kept for
/// an explanation.
pub fn has_notes(subject: Subject<'_>) -> bool {
    matches!(subject, Subject::Script(_) | Subject::Bytes)
}

/// Whether there may be notes of an input whose job has this fault, or none: of a trace also where its edges are refused.
pub fn is_notable(subject: Subject<'_>, fault: Option<CliFault>) -> bool {
    match (subject, fault) {
        (Subject::Script(_) | Subject::Bytes, None) => true,
        (Subject::Trace(input), None | Some(CliFault::Wave(_)))
        | (Subject::Recording(input), None) => input.source != InputFormat::Text,
        _ => false,
    }
}

/// Whether more can be said of a job's fault than its one line.
pub fn has_more(fault: CliFault) -> bool {
    matches!(fault, CliFault::Script(_)) || is_of_input(fault)
}

/// A run of a script, but for its delays and what it writes.
#[derive(Clone, Copy)]
pub struct ScriptRun {
    /// The form of the listing that was given.
    form: ListingForm,
    present: Present,
    mode: StatusMode,
}

/// A listing that is no script's text.
#[derive(Clone, Copy)]
pub struct Listing<'a> {
    /// Its form, which is known.
    pub form: ListingForm,
    pub bytes: &'a [u8],
}

/// The listing in a form that was kept, if it was.
pub fn listing_of(form: ListingForm, kept: Option<&[u8]>) -> Option<Listing<'_>> {
    let bytes = kept?;
    let form = plain_form(form, bytes);
    Some(Listing { form, bytes })
}

/// The input of which more can be said.
#[derive(Clone, Copy)]
pub enum Subject<'a> {
    Script(ScriptRun),
    Trace(TraceInput<'a>),
    Recording(TraceInput<'a>),
    Bytes,
}

/// The form of a listing; what a program prints has that of a script.
fn listing_in(form: Form) -> ListingForm {
    match form {
        Form::Listing(listing) => listing,
        Form::Program { .. } | Form::Either { .. } => ListingForm::Text,
    }
}

/// The input of a job.
pub fn subject_of<'a>(job: &Job<'a>) -> Subject<'a> {
    match job {
        Job::Pages(form, present, _, mode, _) => Subject::Script(ScriptRun {
            form: listing_in(*form),
            present: *present,
            mode: *mode,
        }),
        Job::Bus(form, present, _, mode, _) => Subject::Script(ScriptRun {
            form: listing_in(*form),
            present: *present,
            mode: *mode,
        }),
        Job::Script(form) => Subject::Script(ScriptRun {
            form: listing_in(*form),
            present: BOTH,
            mode: StatusMode::Each,
        }),
        Job::Check { input, .. } => Subject::Trace(*input),
        Job::Decode { input, .. } => Subject::Recording(*input),
        Job::Raw { .. } => Subject::Bytes,
    }
}

/// What more there is to say of an input, by the answer of its job.
fn told(
    rt: &impl AllocGlobal,
    bytes: &[u8],
    listing: Option<Listing<'_>>,
    subject: Subject<'_>,
    answer: Result<RunEnd, CliFault>,
) -> Result<String, AllocError> {
    match (subject, answer) {
        (Subject::Script(job), _) => run_told(rt, bytes, listing, job, answer),
        (Subject::Trace(trace), _) => trace_told(rt, bytes, trace, answer),
        (Subject::Recording(trace), Err(fault)) => reading_told(rt, bytes, trace, fault),
        (Subject::Bytes, _) | (_, Ok(_)) => Ok(String::new(rt.alloc())),
    }
}

/// Says how a picture that is too large gets smaller.
pub fn tell_picture(rt: &impl Eprint, fault: PictureFault) {
    show_hint(rt, picture_hint(fault));
}

/// What to do about pages that are not shown. Of a sheet past the end the line of the fault has all.
fn picture_hint(fault: PictureFault) -> Option<&'static str> {
    match fault {
        PictureFault::NoSuchSheet(_) => None,
        PictureFault::TooLarge => Some("try --scale 1, or --sheet for one sheet"),
    }
}

/// What an input may be meant for, by the answer of its job.
fn hint_of(
    bytes: &[u8],
    listing: Option<Listing<'_>>,
    subject: Subject<'_>,
    answer: Result<RunEnd, CliFault>,
) -> Option<&'static str> {
    match (subject, answer) {
        (_, Err(CliFault::Picture(fault))) => picture_hint(fault),
        (Subject::Script(job), _) => script_hint(bytes, listing, job.form, answer),
        _ => None,
    }
}

/// What a script's text may be meant for, which was made of a listing in this form. That of a saved program begins with a
/// digit.
fn script_hint(
    script: &[u8],
    listing: Option<Listing<'_>>,
    form: ListingForm,
    answer: Result<RunEnd, CliFault>,
) -> Option<&'static str> {
    let Err(CliFault::Script(fault)) = answer else {
        return None;
    };
    let file = file_of(script, listing);
    let kind = other_kind(file);
    let address = listing_text(address_note(file));
    if kind.is_some() {
        kind
    } else if found_form(script) == ListingForm::Program {
        Some(SAVED_PROGRAM)
    } else if address.is_some() {
        address
    } else if is_wide(script) {
        Some(WIDE_SCRIPT)
    } else if ends_with_mark(script, fault) {
        Some(END_MARK)
    } else if (is_script(form) || form == ListingForm::Magazine)
        && may_be_petcat(script)
        && !is_letter(script, fault)
    {
        Some(PETCAT_TEXT)
    } else {
        wrapped_hint(script, fault)
    }
}

/// Whether a script is refused for a word in a line that has a number, and was not made of a typed listing.
fn may_be_program(script: &[u8], subject: Subject<'_>, answer: Result<RunEnd, CliFault>) -> bool {
    match (subject, answer) {
        (Subject::Script(job), Err(CliFault::Script(ScriptFault::UnknownWord(number)))) => {
            (is_script(job.form) || job.form == ListingForm::Program)
                && matches!(line_numbered(script, number), [b'0'..=b'9', ..])
        }
        _ => false,
    }
}

/// Whether an explanation says that something is not supported.
fn is_unsupported(told: &Result<String, AllocError>) -> bool {
    let Ok(text) = told else {
        return false;
    };
    let bytes = text.as_bytes();
    for at in 0..bytes.len() {
        if bytes[at..].starts_with(UNSUPPORTED) {
            return true;
        }
    }
    false
}

/// The file of a script's text, which may be made of a listing.
fn file_of<'a>(script: &'a [u8], listing: Option<Listing<'a>>) -> &'a [u8] {
    match listing {
        Some(listing) => listing.bytes,
        None => script,
    }
}

/// What is said of a script that is refused for a line that seems to be the rest of the one before it.
fn wrapped_hint(script: &[u8], fault: ScriptFault) -> Option<&'static str> {
    let number = line_number(fault)?;
    if number < 2 {
        return None;
    }
    let before = line_numbered(script, number.saturating_sub(1));
    if !is_continued(before, line_numbered(script, number)) {
        None
    } else if before.ends_with(b"=") {
        Some(SOFT_BREAK)
    } else {
        Some(WRAPPED)
    }
}

/// Whether a script has two bytes a letter: a mark says so in front, or two letters do.
fn is_wide(script: &[u8]) -> bool {
    matches!(
        script,
        [0xff, 0xfe, ..]
            | [0xfe, 0xff, ..]
            | [1..=255, 0, 1..=255, 0, ..]
            | [0, 1..=255, 0, 1..=255, ..]
    )
}

/// Whether the refused line of a script ends with a byte 26.
fn ends_with_mark(script: &[u8], fault: ScriptFault) -> bool {
    match line_number(fault) {
        Some(number) => matches!(line_numbered(script, number), [.., 26]),
        None => false,
    }
}

/// Whether a script is refused for a letter of another language in a string, or another byte that petcat's text has
/// neither: the first byte of its line that is none of ASCII's visible ones is above them.
fn is_letter(script: &[u8], fault: ScriptFault) -> bool {
    let ScriptFault::BadByte(number) = fault else {
        return false;
    };
    for byte in line_numbered(script, number) {
        if !matches!(*byte, b'\t' | b' '..=b'~') {
            return *byte > b'~';
        }
    }
    false
}

/// Whether a script that is refused may be petcat's text: its heading is a line that begins with `;`.
fn may_be_petcat(script: &[u8]) -> bool {
    is_typed(script) || begins_with_heading(script)
}

/// Writes what more there is to say of a listing that has no text, on standard error.
pub fn tell_listing(
    rt: &(impl Eprint + AllocGlobal),
    bytes: &[u8],
    form: ListingForm,
    fault: TextFault,
) {
    let form = plain_form(form, bytes);
    let kind = other_kind(bytes);
    match fault {
        TextFault::Listing(_) if kind.is_some() => show_hint(rt, kind),
        TextFault::Listing(
            ListingFault::NoAddress | ListingFault::CutOff(_) | ListingFault::NoLine,
        ) => {
            show_hint(rt, Some(program_form(bytes)));
            if looks_like_text(bytes) {
                show_hint(rt, Some(PLAIN_TEXT));
            }
        }
        TextFault::Listing(ListingFault::UnknownName(number, column)) => {
            let line = line_numbered(bytes, number);
            show_hint(rt, Some(names_in(form, line.get(column.saturating_sub(1)))));
        }
        TextFault::Listing(ListingFault::BadByte(number, column)) => {
            tell_byte(
                rt,
                form,
                line_numbered(bytes, number),
                column.saturating_sub(1),
            );
        }
        _ => {}
    }
}

/// What is said of a file without a saved program.
fn program_form(bytes: &[u8]) -> &'static str {
    if let Some(text) = listing_text(address_note(bytes)) {
        text
    } else if is_p00(bytes) {
        P00_FORM
    } else if is_t64(bytes) {
        T64_FORM
    } else {
        PROGRAM_FORM
    }
}

/// What is said of a listing in a form with an unknown name, whose brackets begin with this byte.
fn names_in(form: ListingForm, bracket: Option<&u8>) -> &'static str {
    match (form, bracket) {
        (ListingForm::Magazine, Some(b'[')) => MAGAZINE_KEYS,
        (ListingForm::Magazine, _) => MAGAZINE_NAMES,
        _ => PETCAT_NAMES,
    }
}

/// Writes what more there is to say of a line of a listing in a form that has, behind so many bytes, a byte that its
/// strings never have.
fn tell_byte(rt: &(impl Eprint + AllocGlobal), form: ListingForm, line: &[u8], before: usize) {
    let at = before.min(line.len());
    let (front, rest) = line.split_at(at);
    if rest.starts_with(PI) {
        show_hint(rt, Some(PI_NAME));
    } else {
        show(rt, explain_letter(rt.alloc(), rest));
    }
    let html = html_instead(&line[at.saturating_sub(1)..]);
    show_hint(rt, Some(html.unwrap_or(bytes_in(form, front, rest))));
}

/// What is said of a listing in a form with a byte that its strings never have, in front of `rest`.
fn bytes_in(form: ListingForm, front: &[u8], rest: &[u8]) -> &'static str {
    match (form, front, rest) {
        (ListingForm::Magazine, [.., b'['], [b's', ..]) => MAGAZINE_SHIFT,
        (ListingForm::Magazine, _, _) => MAGAZINE_BYTES,
        _ => PETCAT_BYTES,
    }
}

/// Writes a note on standard error, if there is one.
pub fn show_note(rt: &impl Eprint, note: Option<&'static str>) {
    if let Some(note) = note {
        let _ = rt.eprintln(format_args!("print1525: note: {note}"));
    }
}

/// Writes a hint on standard error, if there is one.
pub fn show_hint(rt: &impl Eprint, hint: Option<&'static str>) {
    if let Some(hint) = hint {
        let _ = rt.eprintln(format_args!("  {hint}"));
    }
}

/// What more there is to say of a run of a script. The lines of a file of another kind say nothing.
fn run_told(
    rt: &impl AllocGlobal,
    script: &[u8],
    listing: Option<Listing<'_>>,
    job: ScriptRun,
    answer: Result<RunEnd, CliFault>,
) -> Result<String, AllocError> {
    match answer {
        Ok(RunEnd::Stopped { statement, stop }) => {
            let told = explain_stop(rt.alloc(), script, job.mode, stop, statement, job.present)?;
            Ok(told.text)
        }
        Err(CliFault::Script(fault)) if other_kind(file_of(script, listing)).is_none() => {
            script_told(rt.alloc(), script, listing, fault)
        }
        Ok(RunEnd::Done) | Err(_) => Ok(String::new(rt.alloc())),
    }
}

/// Why a script is refused, which may be made of a listing.
fn script_told(
    alloc: Global,
    script: &[u8],
    listing: Option<Listing<'_>>,
    fault: ScriptFault,
) -> Result<String, AllocError> {
    let told = refusal_told(alloc, script, fault)?;
    match (listing, told.place) {
        (Some(listing), Some(place)) => {
            let line = line_numbered(script, place.line);
            listing_told(alloc, told.text, line, listing, place)
        }
        _ => Ok(told.text),
    }
}

/// Why a script is refused, by the line of its first fault alone where that is enough.
fn refusal_told(
    alloc: Global,
    script: &[u8],
    fault: ScriptFault,
) -> Result<Explanation<Option<ScriptPlace>>, AllocError> {
    if let Some(number) = line_number(fault) {
        let told = explain_line(alloc, line_numbered(script, number), number)?;
        if told.place.is_some() {
            return Ok(told);
        }
    }
    explain_script(alloc, script)
}

/// Why a script is refused that is made of a listing, by its line with the fault: a saved program's byte that the script
/// has as `?` has its own name in the last line, its letters are no keyword with spaces, and of a typed listing it is said
/// of which text the column is.
fn listing_told(
    alloc: Global,
    text: String,
    line: &[u8],
    listing: Listing<'_>,
    place: ScriptPlace,
) -> Result<String, AllocError> {
    let before = place.column.saturating_sub(1);
    match listing.form {
        ListingForm::Program if matches!(line.get(before), Some(b'?')) => {
            byte_told(alloc, text, listing.bytes, place)
        }
        ListingForm::Program if text.as_str().ends_with(" without spaces\n") => {
            let front = without_last_line(text.as_str());
            format!(in alloc; "{front}\n  {LETTERS}\n")
        }
        ListingForm::Petcat | ListingForm::Magazine => {
            format!(in alloc; "{text}  the column is of the script made of it\n")
        }
        ListingForm::Program | ListingForm::Text | ListingForm::Auto => Ok(text),
    }
}

/// Why a saved program is refused for a byte that the script has as `?`: its name instead of what is said of `?` in the
/// last line.
fn byte_told(
    alloc: Global,
    text: String,
    program: &[u8],
    place: ScriptPlace,
) -> Result<String, AllocError> {
    let before = place.column.saturating_sub(1);
    let byte = match program_byte(program, place.line, before) {
        Some(byte) if byte != b'?' => byte,
        _ => return Ok(text),
    };
    let next = program_byte(program, place.line, place.column).unwrap_or(0);
    let front = without_last_line(&text);
    match str::from_utf8(byte_name(byte, next)) {
        Ok(name) if !name.is_empty() => {
            format!(in alloc; "{front}\n  {name} is not supported\n")
        }
        _ => format!(in alloc; "{front}\n  the byte {byte} is no token of the C64\n"),
    }
}

/// What is before the last line of a text, without the end of the line before it.
fn without_last_line(text: &str) -> &str {
    let lines = match text.strip_suffix('\n') {
        Some(lines) => lines,
        None => text,
    };
    match lines.rsplit_once('\n') {
        Some((front, _)) => front,
        None => "",
    }
}

/// The name of a byte outside strings that is no token of a script, with the byte after it: that of a token of the
/// Commodore 128, or pi.
fn byte_name(byte: u8, next: u8) -> &'static [u8] {
    match byte {
        206 | 254 => long_token_name(byte, next),
        255 => b"pi",
        _ => token_name(byte),
    }
}

/// The number of the line that alone has a fault, from 1.
fn line_number(fault: ScriptFault) -> Option<usize> {
    match fault {
        ScriptFault::UnknownWord(number)
        | ScriptFault::BadNumber(number)
        | ScriptFault::BadDevice(number)
        | ScriptFault::BadSecond(number)
        | ScriptFault::BadByte(number)
        | ScriptFault::TooLong(number) => Some(number),
        ScriptFault::TooMany(_) | ScriptFault::NoMemory => None,
    }
}

/// The line of a script with this number, from 1, without its end; empty where there is none.
fn line_numbered(script: &[u8], number: usize) -> &[u8] {
    let mut rest = script;
    let mut left = number;
    while !rest.is_empty() {
        let (line, more) = cut_line(rest);
        if left <= 1 {
            return line;
        }
        left -= 1;
        rest = more;
    }
    rest
}

/// Writes further lines on standard error. Where there was no memory for them there are none, and
/// the exit status is that of the refusal all the same.
fn show(rt: &impl Eprint, lines: Result<String, AllocError>) {
    if let Ok(lines) = lines {
        let _ = rt.eprint(format_args!("{lines}"));
    }
}

/// What more there is to say of a trace: why it is refused, if it is; of a recording where its trace begins, if that is later
/// than asked for; and what is odd about it.
fn trace_told(
    rt: &impl AllocGlobal,
    bytes: &[u8],
    trace: TraceInput<'_>,
    answer: Result<RunEnd, CliFault>,
) -> Result<String, AllocError> {
    let alloc = rt.alloc();
    let refusal = match answer {
        Ok(_) => String::new(alloc),
        Err(fault) if is_of_input(fault) => explain_trace(alloc, bytes, trace)?.text,
        Err(_) => return Ok(String::new(alloc)),
    };
    let remarks = remark_on(alloc, bytes, trace)?;
    let mut text = String::new(alloc);
    if remarks.later > 0 && trace.source != InputFormat::Text {
        let begins = trace.start.saturating_add(remarks.later);
        write!(
            text,
            "  the trace begins at microsecond {begins} of the recording, "
        )?;
        write!(
            text,
            "where the levels of all three lines are first known\n"
        )?;
    }
    write!(text, "{refusal}")?;
    push_indented(&mut text, remarks.oddities.as_slice())?;
    Ok(text)
}

/// Writes what is odd about a recording, and what to try, on standard error: the last lines of its list, each after two
/// blanks. Then it notes how many pulses are brief.
pub fn show_oddities(rt: &(impl Eprint + AllocGlobal), subject: Subject<'_>, odd: Oddities) {
    if let Subject::Recording(trace) = subject {
        show(rt, odd_lines(rt.alloc(), trace, odd));
    }
    show_brief(rt, subject, odd);
}

/// Notes how many pulses of a recording are brief, if there are any.
pub fn show_brief(rt: &impl Eprint, subject: Subject<'_>, odd: Oddities) {
    if let Subject::Recording(trace) = subject {
        note_brief(rt, odd.brief, trace.source);
    }
}

/// What is odd about a recording that is read so, and what to try.
fn odd_lines(alloc: Global, trace: TraceInput<'_>, odd: Oddities) -> Result<String, AllocError> {
    let mut lines = Vec::new(alloc);
    push_oddities(&mut lines, trace, odd)?;
    let mut text = String::new(alloc);
    push_indented(&mut text, lines.as_slice())?;
    Ok(text)
}

/// Adds lines, each after two blanks.
fn push_indented(text: &mut String, lines: &[u8]) -> Result<(), AllocError> {
    if let Ok(lines) = str::from_utf8(lines) {
        for line in lines.lines() {
            write!(text, "  {line}\n")?;
        }
    }
    Ok(())
}

/// Whether a fault is one of what the input says, so that there is more to say of it.
fn is_of_input(fault: CliFault) -> bool {
    matches!(
        fault,
        CliFault::Trace(_) | CliFault::Wave(_) | CliFault::Capture(_)
    )
}

/// What more there is to say of a recording that can not be read to its end.
fn reading_told(
    rt: &impl AllocGlobal,
    bytes: &[u8],
    trace: TraceInput<'_>,
    fault: CliFault,
) -> Result<String, AllocError> {
    if is_of_input(fault) {
        Ok(explain_reading(rt.alloc(), bytes, trace)?.text)
    } else {
        Ok(String::new(rt.alloc()))
    }
}
