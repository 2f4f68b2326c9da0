//! A task done: its files opened, its job done over them, and what there is to say on standard error.

ghost use Rattle.std.specs.Prelude.{◌≡◌, None, take, IfErr, IfOk, IfSome};
ghost use Rattle.std.specs.Io.KnownBytes.{Consumes};
ghost use Rattle.pr_input.specs.Watched.{wrapped};
ghost use Rattle.pr_cli.specs.Answered.{EndsTask};
ghost use Rattle.pr_cli.specs.Jobs.{EndsEither, EndsInput, EndsJob, EndsListing, EndsProgram, EndsRecording, EndsRun, EndsWhole, EndsWork, IsReadWhole, finds_format, first_bytes, form_of, found_job, started_job, strict_of};
ghost use Rattle.pr_cli.specs.Statuses.{answer_end, fault_status, job_end, status_of, strict_end};
ghost use Rattle.pr_cli.specs.declared.statuses.End.TheVariants as end;

use crate::characters::{shapes_for, shapes_given};
use crate::command::Terminals;
use crate::jobs::{JobEnd, do_job, found_job, seen_job};
use crate::lacking::strict_of;
use crate::notes::{
    ListingNote, View, blank_reason, note_listing, note_overheard, note_pages, note_reprinted,
    note_stop, petcat_note, program_note, text_note, view_of,
};
use crate::outside::Outside;
use crate::programs::{is_explainable, tell_basic, tell_ran};
use crate::progress::{Progress, clear};
use crate::refusals::{refuse, refuse_same};
use crate::shown::Shown;
use crate::starts::started_job;
use crate::statuses::{End, FAILED, is_answered};
use crate::told::{
    Listing, Subject, has_more, has_notes, is_notable, listing_of, show_brief, show_oddities,
    subject_of, tell_heard, tell_listing, tell_more, tell_notes, tell_picture,
};
use pr_dots::Shapes;
use pr_files::{Noting, Unsaved, save};
use pr_jobs::{CliFault, PictureFault, RunEnd, SCRIPT_LIMIT, TeeReader, Watched, read_whole};
use pr_listing::{ListingForm, TextFault, plain_form, read_text};
use pr_options::{DecodeOutput, Job, PagesOutput, Task};
use pr_programs::{Form, is_run, made_script, typed_program};
use pr_render::Format;
use pr_serial::Present;
use std::alloc::Global;
use std::cell::Cell;
use std::fs::{File, Files, Metadata, OpenFile};
use std::io::{Error, ErrorKind, Read, Write};
use std::os::unix::fs::MetadataExt;
use std::time::Clock;
use std::{fs, io};

/// The name of standard input.
const STANDARD_INPUT: &str = "/dev/stdin";

/// Why a picture is not written to a terminal.
const FOR_A_FILE: &str = "PNG and PDF are not written to a terminal: -o FILE writes a file";

/// How many bytes of a recording show its format, at most.
const FIRST: usize = 4096;

/// How many bytes of a recording that is a file are read again for notes, at most.
const NOTED: u64 = 1 << 20;

/// The names of a task's files; None of standard input and of standard output.
#[derive(Clone, Copy)]
struct Names<'a> {
    input: Option<&'a str>,
    output: Option<&'a str>,
}

/// A job, and the shapes in which it draws characters.
#[derive(Drop)]
struct Work<'a> {
    job: Job<'a>,
    /// How long before its recording's own moment 0 the trace starts, if it does, in microseconds.
    before: Option<u64>,
    shapes: &'a Shapes,
    /// The answer of a run says which error stopped it, and where.
    is_located: bool,
}

/// Where a task is done, and what it says beside its answer.
#[derive(Clone, Copy)]
pub struct Surroundings {
    /// An explanation follows a refusal or an error.
    pub is_explained: bool,
    /// Nothing is said but faults and explanations.
    pub is_quiet: bool,
    pub terminals: Terminals,
    /// Standard output is a terminal, and shows reverse in its reverse video.
    pub is_reversing: bool,
}

/// What is said of a task over memory beside a fault.
#[derive(Clone, Copy)]
pub struct Telling {
    /// An explanation follows a refusal or an error.
    pub is_explained: bool,
    /// Nothing is said but faults and explanations.
    pub is_quiet: bool,
}

/// What goes to standard error beside a fault.
#[derive(Clone, Copy)]
struct Reporting<'a> {
    /// An explanation follows a refusal or an error.
    is_explained: bool,
    /// A line follows a refusal that says how to get its explanation.
    is_advised: bool,
    /// Notes on the input are written.
    is_noted: bool,
    /// Nothing is said but faults and explanations.
    is_quiet: bool,
    /// What is to be noted of the listing of which a script was made.
    note: ListingNote,
    /// The script came of a program, so its lines are not the user's.
    is_made: bool,
    /// The input can be read a second time for that: it is a file by name, and no pipe or device. Any other is kept.
    is_file: bool,
    /// How many bytes have come of the input.
    count: &'a Cell<u64>,
    /// A number of bytes read is on the terminal, to be cleared before anything else is said.
    is_shown: &'a Cell<bool>,
}

/// Opens the files that a task names, does its job and gives the exit status. The file of characters is read first: where it
/// has none, no other file is opened, and nothing is read.
pub fn run_task(
    rt: &(impl Files + Clock + Input + Print + Eprint + AllocGlobal),
    task: Task<'_>,
    around: Surroundings,
) -> u8 {
    let Task {
        job,
        before,
        input,
        output,
        characters,
    } = task;
    if let (Some(read), Some(written)) = (characters, output) {
        if is_output(rt, fs::metadata(rt, read), written) {
            return refuse_same(rt, read).status();
        }
    }
    let shapes = match shapes_for(rt, characters) {
        Ok(shapes) => shapes,
        Err(fault) => return End::Characters(fault).status(),
    };
    let names = Names {
        input,
        output: output.filter(|name| !is_standard_output(name)),
    };
    let job = if around.is_reversing && names.output.is_none() {
        seen_job(job)
    } else {
        job
    };
    let work = Work {
        job,
        before,
        shapes: &shapes,
        is_located: around.is_explained,
    };
    open_input(rt, names, work, around)
}

/// Opens the files of these names, does a job over them and gives the exit status.
fn open_input(
    rt: &(impl Files + Clock + Input + Print + Eprint + AllocGlobal),
    names: Names<'_>,
    work: Work<'_>,
    around: Surroundings,
) -> u8 {
    if names.output.is_none() && around.terminals.output && is_for_a_file(&work.job) {
        return refuse(rt, FOR_A_FILE).status();
    }
    let is_shown = Cell::new(false);
    let count = Cell::new(0);
    let aside = Reporting {
        is_explained: around.is_explained,
        is_advised: around.terminals.error && !around.is_explained && !around.is_quiet,
        is_noted: !around.is_quiet && (around.is_explained || around.terminals.error),
        is_quiet: around.is_quiet,
        note: ListingNote::Nothing,
        is_made: false,
        is_file: false,
        count: &count,
        is_shown: &is_shown,
    };
    let is_apart = around.terminals.error
        && !around.is_quiet
        && (names.output.is_some() || !around.terminals.output);
    let Some(name) = names.input else {
        if around.terminals.input && !around.is_quiet {
            tell_waiting(rt, &work.job);
        }
        if let Some(output) = names.output {
            if is_output(rt, fs::metadata(rt, STANDARD_INPUT), output) {
                return refuse_same(rt, "standard input").status();
            }
        }
        let is_watched = is_apart && !around.terminals.input;
        let reader = Progress::new(rt, rt.reader(), is_watched, &count, &is_shown);
        return open_output(rt, reader, names, work, aside);
    };
    match File::open(rt, name) {
        Ok(file) => {
            if let Some(output) = names.output {
                if is_output(rt, file.metadata(), output) {
                    return refuse_same(rt, name).status();
                }
            }
            let is_file = (aside.is_explained || aside.is_noted) && is_regular(&file);
            let reader = Progress::new(rt, file, is_apart, &count, &is_shown);
            open_output(rt, reader, names, work, Reporting { is_file, ..aside })
        }
        Err(error) => tell_file(rt, name, &error),
    }
}

/// Does a task over an input in memory, with the bytes of the file of characters, where it names one. Gives how it ends
/// and what is written.
pub fn answer_given(
    rt: &(impl Outside + Eprint + AllocGlobal),
    task: Task<'_>,
    telling: Telling,
    input: &[u8],
    characters: &[u8],
) -> (End, Vec<u8>)
    ensures { EndsTask task.entry input.now characters.now result.1.items result.0 }
{
    let writer = Vec::new(rt.alloc());
    let shapes = match shapes_given(rt, task.characters, characters) {
        Ok(shapes) => shapes,
        Err(fault) => return (End::Characters(fault), writer),
    };
    let names = Names {
        input: task.input,
        output: None,
    };
    let work = Work {
        job: task.job,
        before: task.before,
        shapes: &shapes,
        is_located: true,
    };
    let is_shown = Cell::new(false);
    let count = Cell::new(0);
    let aside = Reporting {
        is_explained: telling.is_explained,
        is_advised: false,
        is_noted: telling.is_explained && !telling.is_quiet,
        is_quiet: telling.is_quiet,
        note: ListingNote::Nothing,
        is_made: false,
        is_file: false,
        count: &count,
        is_shown: &is_shown,
    };
    choose_form(rt, input, writer, names, work, aside)
}

/// Whether a job writes a picture or a document of bytes that a terminal does not show.
fn is_for_a_file(job: &Job<'_>) -> bool {
    matches!(
        job,
        Job::Pages(
            _,
            _,
            _,
            _,
            PagesOutput::Pages(Format::Png(_) | Format::Pdf(_, _))
        ) | Job::Decode {
            output: DecodeOutput::Pages(Format::Png(_) | Format::Pdf(_, _), _),
            ..
        } | Job::Raw {
            format: Format::Png(_) | Format::Pdf(_, _),
            ..
        }
    )
}

/// Whether a file that is read is also the one that is to be written, by the numbers that the system gives files. Some systems
/// give none.
fn is_output(rt: &impl Files, read: io::Result<Metadata>, output: &str) -> bool {
    match (read, fs::metadata(rt, output)) {
        (Ok(one), Ok(two)) => {
            one.is_file() && one.ino() != 0 && one.ino() == two.ino() && one.dev() == two.dev()
        }
        _ => false,
    }
}

/// Whether an open file is no pipe, device or the like, so that its bytes can be read again.
fn is_regular(file: &impl OpenFile) -> bool {
    match file.metadata() {
        Ok(metadata) => metadata.is_file(),
        Err(_) => false,
    }
}

/// Whether a file's name is one of standard output's, which is written on: its file is not replaced.
fn is_standard_output(name: &str) -> bool {
    matches!(name, "/dev/stdout" | "/dev/fd/1" | "/proc/self/fd/1")
}

/// Says on standard error what a run waits for whose input comes from a terminal.
pub fn tell_waiting(rt: &impl Eprint, job: &Job<'_>) {
    let input = match job {
        Job::Pages(Form::Program { .. }, _, _, _, _)
        | Job::Bus(Form::Program { .. }, _, _, _, _)
        | Job::Script(Form::Program { .. }) => "a program",
        Job::Pages(..) | Job::Bus(..) | Job::Script(_) => "a script",
        Job::Check { .. } => "a trace",
        Job::Decode { .. } => "a recording",
        Job::Raw { .. } => "a printer's bytes",
    };
    let _ = rt.eprintln(format_args!(
        "print1525: reading {input} from the terminal; Ctrl-D on a new line ends it"
    ));
}

/// Does a job over a reader and gives the exit status. A file that is written is put in its place
/// only where the job is done or a BASIC error stopped it.
fn open_output<R: Read + Drop>(
    rt: &(impl Files + Print + Eprint + AllocGlobal),
    reader: R,
    names: Names<'_>,
    work: Work<'_>,
    aside: Reporting<'_>,
) -> u8 {
    let Some(name) = names.output else {
        let (end, _output) = choose_form(rt, reader, io::writer(rt), names, work, aside);
        return end.status();
    };
    let saving = match save(rt, name) {
        Ok(saving) => saving,
        Err(error) => return tell_file(rt, name, &error),
    };
    let (end, saving) = choose_form(rt, reader, saving, names, work, aside);
    let status = end.status();
    if is_answered(status) {
        match saving.keep() {
            Ok(()) => status,
            Err(unsaved) => tell_unsaved(rt, name, unsaved),
        }
    } else {
        if let Err(unsaved) = saving.discard() {
            let _ = tell_unsaved(rt, name, unsaved);
        }
        status
    }
}

/// Reports in one line on standard error why a text did not get its file's name, or was not taken away again, with the
/// name of the temporary file that is left, and gives the exit status.
fn tell_unsaved(rt: &(impl Outside + Eprint), name: &str, unsaved: Unsaved) -> u8
    ensures { result ≡ 3 }
{
    let Unsaved { error, left } = unsaved;
    let Some(left) = left else {
        return tell_file(rt, name, &error);
    };
    let (name, left) = (Shown(name), Shown(left.as_str()));
    let _ = rt.eprintln(format_args!("print1525: {name}: {error}; the file {left} is left"));
    End::Job(CliFault::WriteFailed).status()
}

/// Does a job over a reader and a writer, and gives how it ends and the writer. A listing in
/// another form is made a script's text first, and a recording's format or own moment 0 is found first.
fn choose_form<R: Read + Drop, W: Write + Drop>(
    rt: &(impl Outside + Eprint + AllocGlobal),
    reader: R,
    writer: W,
    names: Names<'_>,
    work: Work<'_>,
    aside: Reporting<'_>,
) -> (End, W)
    ensures { IfSome (R.remaining reader) (λ bytes. EndsWork work.entry.is_located work.entry.shapes.now work.entry.before work.entry.job bytes
        (W.contents writer) (W.contents result.1) result.0) }
{
    if let Some(_) = work.before {
        return answer_recording(rt, reader, writer, names, work, aside);
    }
    if is_to_find(&work.job) {
        return answer_recording(rt, reader, writer, names, work, aside);
    }
    match form_of(&work.job) {
        Form::Listing(form) => answer_text(rt, reader, writer, names, form, work, aside),
        Form::Program { steps } => answer_program(rt, reader, writer, names, steps, work, aside),
        Form::Either { steps } => answer_either(rt, reader, writer, names, steps, work, aside),
    }
}

/// Does a job over the text of a script, or of a listing in another form.
fn answer_text<R: Read + Drop, W: Write + Drop>(
    rt: &(impl Outside + Eprint + AllocGlobal),
    reader: R,
    writer: W,
    names: Names<'_>,
    form: ListingForm,
    work: Work<'_>,
    aside: Reporting<'_>,
) -> (End, W)
    ensures { IfSome (R.remaining reader) (λ bytes.
        EndsInput work.entry.is_located work.entry.shapes.now work.entry.job (Form.Listing form) bytes
        (W.contents writer) (W.contents result.1) result.0) }
{
    match form {
        ListingForm::Text => run_job(rt, reader, writer, names, None, work, aside),
        ListingForm::Program => {
            answer_listing(rt, reader, writer, names, ListingForm::Program, work, aside)
        }
        ListingForm::Petcat => {
            answer_listing(rt, reader, writer, names, ListingForm::Petcat, work, aside)
        }
        ListingForm::Magazine => {
            answer_listing(
                rt,
                reader,
                writer,
                names,
                ListingForm::Magazine,
                work,
                aside,
            )
        }
        ListingForm::Auto => {
            answer_listing(rt, reader, writer, names, ListingForm::Auto, work, aside)
        }
    }
}

/// Reads an input whole, or says why that is not done, and gives how the program ends.
fn read_bytes<R: Read + Drop>(
    rt: &(impl Outside + Eprint + AllocGlobal),
    reader: R,
    name: Option<&str>,
    is_shown: &Cell<bool>,
) -> Result<Vec<u8>, End>
    ensures { IfSome (R.remaining reader) (λ bytes. IsReadWhole bytes result) }
{
    let mut input = Watched::new(Noting::new(reader));
    match read_whole(rt.alloc(), &mut input, SCRIPT_LIMIT) {
        Ok(bytes) => Ok(bytes),
        Err(fault) => {
            let error = input.into_inner().error();
            clear(rt, is_shown);
            Err(tell_failed(rt, CliFault::from(fault), name, error))
        }
    }
}

/// Does a job over what a program prints.
fn answer_program<R: Read + Drop, W: Write + Drop>(
    rt: &(impl Outside + Eprint + AllocGlobal),
    reader: R,
    writer: W,
    names: Names<'_>,
    steps: u64,
    work: Work<'_>,
    aside: Reporting<'_>,
) -> (End, W)
    ensures { IfSome (R.remaining reader) (λ bytes.
        EndsWhole (λ whole. EndsProgram work.entry.is_located work.entry.shapes.now work.entry.job steps whole
        (W.contents writer) (W.contents result.1) result.0)
        bytes (W.contents writer) (W.contents result.1) result.0) }
{
    match read_bytes(rt, reader, names.input, aside.is_shown) {
        Ok(bytes) => run_program(rt, bytes.as_slice(), writer, names, steps, work, aside),
        Err(end) => (end, writer),
    }
}

/// Does a job over a text that is a script, or else over what it prints as a program, if it is one.
fn answer_either<R: Read + Drop, W: Write + Drop>(
    rt: &(impl Outside + Eprint + AllocGlobal),
    reader: R,
    writer: W,
    names: Names<'_>,
    steps: u64,
    work: Work<'_>,
    aside: Reporting<'_>,
) -> (End, W)
    ensures { IfSome (R.remaining reader) (λ bytes.
        EndsWhole (λ whole. EndsEither work.entry.is_located work.entry.shapes.now work.entry.job steps whole
        (W.contents writer) (W.contents result.1) result.0)
        bytes (W.contents writer) (W.contents result.1) result.0) }
{
    match read_bytes(rt, reader, names.input, aside.is_shown) {
        Ok(bytes) => run_either(rt, bytes.as_slice(), writer, names, steps, work, aside),
        Err(end) => (end, writer),
    }
}

/// Does a job over a text that was read: a script, or else what it prints as a program, if it is one.
fn run_either<W: Write + Drop>(
    rt: &(impl Outside + Eprint + AllocGlobal),
    bytes: &[u8],
    writer: W,
    names: Names<'_>,
    steps: u64,
    work: Work<'_>,
    aside: Reporting<'_>,
) -> (End, W)
    ensures { EndsEither work.entry.is_located work.entry.shapes.now work.entry.job steps bytes.now
        (W.contents writer) (W.contents result.1) result.0 }
{
    match is_run(rt.alloc(), bytes) {
        Ok(false) => {
            let aside = Reporting {
                is_file: false,
                ..aside
            };
            run_job(rt, bytes, writer, names, None, work, aside)
        }
        Ok(true) => {
            let aside = Reporting {
                note: ListingNote::Run,
                ..aside
            };
            run_program(rt, bytes, writer, names, steps, work, aside)
        }
        Err(_) => {
            clear(rt, aside.is_shown);
            (tell(rt, CliFault::NoMemory), writer)
        }
    }
}

/// Runs a program, which may be a saved one, and does a job over the script that comes of it.
fn run_program<W: Write + Drop>(
    rt: &(impl Outside + Eprint + AllocGlobal),
    bytes: &[u8],
    writer: W,
    names: Names<'_>,
    steps: u64,
    work: Work<'_>,
    aside: Reporting<'_>,
) -> (End, W)
    ensures { EndsProgram work.entry.is_located work.entry.shapes.now work.entry.job steps bytes.now
        (W.contents writer) (W.contents result.1) result.0 }
{
    match typed_program(rt.alloc(), bytes) {
        Ok(Some(text)) => run_text(rt, text.as_slice(), writer, names, steps, work, aside),
        Ok(None) => run_text(rt, bytes, writer, names, steps, work, aside),
        Err(fault) => {
            clear(rt, aside.is_shown);
            tell_basic(rt, bytes, fault, aside.is_explained);
            (End::Basic(fault), writer)
        }
    }
}

/// Runs a program that is typed, and does a job over the script that comes of it.
fn run_text<W: Write + Drop>(
    rt: &(impl Outside + Eprint + AllocGlobal),
    bytes: &[u8],
    writer: W,
    names: Names<'_>,
    steps: u64,
    work: Work<'_>,
    aside: Reporting<'_>,
) -> (End, W)
    ensures { EndsRun work.entry.is_located work.entry.shapes.now work.entry.job steps bytes.now
        (W.contents writer) (W.contents result.1) result.0 }
{
    match made_script(rt.alloc(), bytes, steps) {
        Ok(made) => {
            let script = made.text.as_slice();
            let aside = Reporting {
                is_made: true,
                is_file: false,
                ..aside
            };
            let (end, writer) = run_job(rt, script, writer, names, None, work, aside);
            let end = end.after(made.ran);
            tell_ran(rt, bytes, &made, end, aside.is_explained, aside.is_noted);
            (end, writer)
        }
        Err(fault) => {
            clear(rt, aside.is_shown);
            tell_basic(rt, bytes, fault, aside.is_explained);
            if aside.is_noted {
                note_listing(rt, aside.note);
            }
            if aside.is_advised && is_explainable(fault) {
                advise(rt);
            }
            (End::Basic(fault), writer)
        }
    }
}

/// Whether a job has to find the format of its recording.
fn is_to_find(job: &Job<'_>) -> bool
    ensures { result ≡ finds_format job.now }
{
    matches!(
        job,
        Job::Check { is_found: true, .. } | Job::Decode { is_found: true, .. }
    )
}

/// Does a job in the format, and from the moment, that a recording's first bytes show.
fn answer_recording<R: Read + Drop, W: Write + Drop>(
    rt: &(impl Outside + Eprint + AllocGlobal),
    reader: R,
    writer: W,
    names: Names<'_>,
    work: Work<'_>,
    aside: Reporting<'_>,
) -> (End, W)
    ensures { IfSome (R.remaining reader) (λ bytes. EndsRecording work.entry.is_located work.entry.shapes.now work.entry.before work.entry.job bytes
        (W.contents writer) (W.contents result.1) result.0) }
{
    let mut input = Watched::new(Noting::new(reader));
    match found_work(rt.alloc(), work, &mut input) {
        Ok((work, first)) => {
            let whole = first.as_slice().chain(input.into_inner());
            run_job(rt, whole, writer, names, None, work, aside)
        }
        Err(CliFault::ReadFailed) => {
            let error = input.into_inner().error();
            clear(rt, aside.is_shown);
            (
                tell_failed(rt, CliFault::ReadFailed, names.input, error),
                writer,
            )
        }
        Err(fault) => {
            clear(rt, aside.is_shown);
            (tell(rt, fault), writer)
        }
    }
}

/// What to do, by the first bytes of a recording, and these bytes.
fn found_work<'a, R: Read>(
    alloc: Global,
    work: Work<'a>,
    input: &mut Watched<R>,
) -> Result<(Work<'a>, Vec<u8>), CliFault>
    ensures taken { IfOk result (λ found. Consumes (R.remaining (wrapped input.old)) (R.remaining (wrapped input.new)) found.1.items) }
    ensures work { IfOk result (λ found. IfSome (R.remaining (wrapped input.old)) (λ bytes.
        found.0.job ≡ started_job work.entry.before bytes (found_job (take first_bytes bytes) work.entry.job))) }
    ensures shapes { IfOk result (λ found. found.0.shapes ≡ work.entry.shapes) }
    ensures located { IfOk result (λ found. found.0.is_located ≡ work.entry.is_located) }
    ensures refused { IfErr result (λ fault. fault_status fault ≡ 3) }
{
    let Work {
        job,
        before,
        shapes,
        is_located,
    } = work;
    let mut first = read_first(alloc, input)?;
    let job = found_job(job, first.as_slice());
    let job = started_job(alloc, job, input, &mut first, before)?;
    let work = Work {
        job,
        before: None,
        shapes,
        is_located,
    };
    Ok((work, first))
}

/// The first bytes of an input: 4096, or all where there are fewer.
fn read_first<R: Read>(alloc: Global, input: &mut Watched<R>) -> Result<Vec<u8>, CliFault>
    ensures taken { IfOk result (λ first. Consumes (R.remaining (wrapped input.old)) (R.remaining (wrapped input.new)) first.items) }
    ensures front { IfOk result (λ first. IfSome (R.remaining (wrapped input.old)) (λ bytes. first.items ≡ take first_bytes bytes)) }
    ensures refused { IfErr result (λ fault. fault_status fault ≡ 3) }
{
    let mut first = Vec::new(alloc);
    let mut block = [0u8; FIRST];
    'reads: while first.len() < FIRST {
        let wanted = FIRST - first.len();
        match input.read(&mut block[..wanted]) {
            Ok(0) => return Ok(first),
            Ok(n) => {
                if first.extend_from_slice(&block[..n]).is_err() {
                    return Err(CliFault::NoMemory);
                }
            }
            Err(_) => return Err(CliFault::ReadFailed),
        }
    }
    Ok(first)
}

/// Does a job over the text of a listing in another form.
fn answer_listing<R: Read + Drop, W: Write + Drop>(
    rt: &(impl Outside + Eprint + AllocGlobal),
    reader: R,
    writer: W,
    names: Names<'_>,
    form: ListingForm,
    work: Work<'_>,
    aside: Reporting<'_>,
) -> (End, W)
    ensures { IfSome (R.remaining reader) (λ bytes. EndsListing work.entry.is_located work.entry.shapes.now work.entry.job form bytes
        (W.contents writer) (W.contents result.1) result.0) }
{
    let is_kept = aside.is_explained || aside.is_noted;
    let kept = TeeReader::new(rt.alloc(), reader, is_kept);
    let mut input = Watched::new(Noting::new(kept));
    match read_text(rt.alloc(), &mut input, form, SCRIPT_LIMIT) {
        Ok(text) => {
            let kept = input.into_inner().into_inner().into_bytes();
            let listing = listing_of(form, kept.as_deref());
            let aside = Reporting {
                is_file: false,
                note: listing_note(listing),
                ..aside
            };
            run_job(rt, text.as_slice(), writer, names, listing, work, aside)
        }
        Err(fault) => {
            let input = input.into_inner();
            clear(rt, aside.is_shown);
            refuse_listing(rt, fault, names.input, input.error());
            explain_listing(rt, input.into_inner(), form, fault, aside);
            (End::Listing(fault), writer)
        }
    }
}

/// What is to be noted of a listing by its own bytes.
fn listing_note(listing: Option<Listing<'_>>) -> ListingNote {
    let Some(listing) = listing else {
        return ListingNote::Nothing;
    };
    match listing.form {
        ListingForm::Petcat => petcat_note(listing.bytes),
        ListingForm::Program => program_note(listing.bytes),
        ListingForm::Magazine => text_note(listing.bytes),
        ListingForm::Text | ListingForm::Auto => ListingNote::Nothing,
    }
}

/// Writes what more there is to say of a listing without a text, or how to get that.
fn explain_listing<R: Read + Drop>(
    rt: &(impl Eprint + AllocGlobal),
    kept: TeeReader<R>,
    form: ListingForm,
    fault: TextFault,
    aside: Reporting<'_>,
) {
    if aside.is_explained {
        if let Some(bytes) = kept.into_bytes() {
            tell_listing(rt, bytes.as_slice(), form, fault);
        }
    } else if aside.is_advised && matches!(fault, TextFault::Listing(_)) {
        advise(rt);
    }
}

/// Says how to get an explanation of a refusal.
fn advise(rt: &impl Eprint) {
    let _ = rt.eprintln(format_args!("  --explain says more"));
}

/// The form of the listing that a job reads; an input that is no listing is read as it is.
fn form_of(job: &Job<'_>) -> Form
    ensures { result ≡ form_of job.now }
{
    match job {
        Job::Pages(form, _, _, _, _) | Job::Bus(form, _, _, _, _) | Job::Script(form) => *form,
        Job::Check { .. } | Job::Decode { .. } | Job::Raw { .. } => {
            Form::Listing(ListingForm::Text)
        }
    }
}

/// Does a job over a reader and a writer, and gives how it ends and the writer. Where more is to
/// be said, the input is kept, since a trace text's first bad line may be its last; a file is read again instead, when the
/// job has freed what it kept. A script may be made of a listing in another form. For notes alone a script or a printer's bytes are kept, and no other input.
fn run_job<R: Read + Drop, W: Write + Drop>(
    rt: &(impl Outside + Eprint + AllocGlobal),
    reader: R,
    writer: W,
    names: Names<'_>,
    listing: Option<Listing<'_>>,
    work: Work<'_>,
    aside: Reporting<'_>,
) -> (End, W)
    ensures { IfSome (R.remaining reader) (λ text. EndsJob work.entry.is_located work.entry.shapes.now work.entry.job text
        (W.contents writer) (W.contents result.1) result.0) }
{
    let Work {
        job,
        shapes,
        is_located,
        ..
    } = work;
    let subject = subject_of(&job);
    let view = view_of(&job);
    let strict = strict_of(&job);
    let is_kept = !aside.is_file && (aside.is_explained || (aside.is_noted && has_notes(subject)));
    let kept = TeeReader::new(rt.alloc(), reader, is_kept);
    let mut input = Watched::new(Noting::new(kept));
    let mut output = Watched::new(Noting::new(writer));
    let answer = do_job(rt.alloc(), &mut input, &mut output, job, shapes, is_located);
    clear(rt, aside.is_shown);
    let input = input.into_inner();
    let output = output.into_inner();
    let errors = (input.error(), output.error());
    let end = tell_end(rt, subject, names, answer, errors, strict, aside.is_quiet);
    if aside.is_advised {
        advise_on(rt, answer, end);
    }
    let reason = tell_read(
        rt,
        input.into_inner(),
        listing,
        subject,
        names,
        answer,
        aside,
    );
    tell_lacking(rt, view, answer, aside, reason);
    (end, output.into_inner())
}

/// Notes what pages that were drawn have not, or a printer's bytes: of a run's, and of bytes given, what the printers hold,
/// the other printer, and why they are blank, if notes are written; of a recording's, all that is left out, unless it is quiet.
fn tell_lacking(
    rt: &impl Eprint,
    view: View,
    answer: Result<JobEnd, CliFault>,
    aside: Reporting<'_>,
    reason: Option<&'static str>,
) {
    match answer {
        Ok(JobEnd::Printed(pages)) if aside.is_noted => note_pages(rt, pages, view, reason),
        Ok(JobEnd::Reprinted(said)) if !aside.is_quiet => note_reprinted(rt, said, view),
        Ok(JobEnd::Overheard(said)) if !aside.is_quiet => note_overheard(rt, said, view),
        _ => {}
    }
}

/// Says that more can be said of a job that failed, or of a run that a BASIC error stopped, if it can; or at once how a
/// picture gets smaller.
fn advise_on(rt: &impl Eprint, answer: Result<JobEnd, CliFault>, end: End) {
    match answer {
        Ok(_) if matches!(end, End::Stopped | End::StoppedAt { .. }) => note_stop(rt),
        Err(CliFault::Picture(fault)) => tell_picture(rt, fault),
        Err(fault) if has_more(fault) => advise(rt),
        _ => {}
    }
}

/// Says what more there is to say of what a job has read, where that is asked for, and what is to be noted of it. Gives
/// what it shows of a blank page, where it was read for notes.
fn tell_read<R: Read + Drop>(
    rt: &(impl Outside + Eprint + AllocGlobal),
    kept: TeeReader<R>,
    listing: Option<Listing<'_>>,
    subject: Subject<'_>,
    names: Names<'_>,
    answer: Result<JobEnd, CliFault>,
    aside: Reporting<'_>,
) -> Option<&'static str> {
    let is_noted = aside.is_noted && has_answer(subject, answer);
    if !aside.is_explained && !is_noted {
        return None;
    }
    let count = if aside.is_explained || has_notes(subject) {
        aside.count.get()
    } else {
        aside.count.get().min(NOTED)
    };
    let bytes = match names.input {
        Some(name) if aside.is_file => rt.again(name, count),
        _ => kept.into_bytes(),
    };
    match bytes {
        Some(bytes) => tell_bytes(rt, bytes.as_slice(), listing, subject, answer, aside),
        None => None,
    }
}

/// Says the same of the bytes that a job has read.
fn tell_bytes(
    rt: &(impl Outside + Eprint + AllocGlobal),
    bytes: &[u8],
    listing: Option<Listing<'_>>,
    subject: Subject<'_>,
    answer: Result<JobEnd, CliFault>,
    aside: Reporting<'_>,
) -> Option<&'static str> {
    if aside.is_explained {
        let end = run_end_of(answer);
        tell_more(rt, bytes, listing, subject, end);
    }
    if !aside.is_noted || !has_answer(subject, answer) {
        return None;
    }
    note_listing(rt, aside.note);
    let is_whole = aside.is_explained || aside.count.get() <= NOTED;
    if aside.is_made {
        return None;
    }
    tell_notes(rt, bytes, is_whole, subject);
    blank_reason(bytes)
}

/// Whether a job was done, or refused with a fault of which there may be notes.
fn has_answer(subject: Subject<'_>, answer: Result<JobEnd, CliFault>) -> bool {
    match answer {
        Ok(_) => is_notable(subject, None),
        Err(fault) => is_notable(subject, Some(fault)),
    }
}

/// How the run of a job ended that says where, or the job's fault. All other jobs are done.
fn run_end_of(answer: Result<JobEnd, CliFault>) -> Result<RunEnd, CliFault> {
    match answer {
        Ok(JobEnd::Ran(end) | JobEnd::Heard(end, _)) => Ok(end),
        Ok(JobEnd::Printed(pages)) => Ok(pages.run),
        Ok(
            JobEnd::Ended(_)
            | JobEnd::Overheard(_)
            | JobEnd::Reprinted(_)
            | JobEnd::Listed(_)
            | JobEnd::Remarked(_),
        ) => Ok(RunEnd::Done),
        Err(fault) => Err(fault),
    }
}

/// Reports in one line on standard error why a job failed, or what else there is to say of its answer, and gives how it
/// ends. A read that failed did so for the one reason, and a write for the other.
fn tell_end(
    rt: &(impl Outside + Eprint + AllocGlobal),
    subject: Subject<'_>,
    names: Names<'_>,
    answer: Result<JobEnd, CliFault>,
    errors: (Option<Error>, Option<Error>),
    strict: Option<Present>,
    is_quiet: bool,
) -> End
    ensures { result ≡ job_end strict answer }
{
    let (read_error, write_error) = errors;
    match answer {
        Ok(answer) => {
            let end = tell_answer(rt, subject, answer, is_quiet);
            strict_end(strict, answer, end)
        }
        Err(CliFault::ReadFailed) => {
            tell_failed(rt, CliFault::ReadFailed, names.input, read_error)
        }
        Err(CliFault::WriteFailed) => {
            tell_failed(rt, CliFault::WriteFailed, names.output, write_error)
        }
        Err(fault) => tell(rt, fault),
    }
}

/// How a job with this answer ends that is to lack nothing of these printers, where it would end so otherwise.
fn strict_end(strict: Option<Present>, answer: JobEnd, end: End) -> End
    ensures { end ≡ answer_end answer → result ≡ strict_end strict answer }
{
    match strict {
        Some(shown) if answer.lacks(shown) => End::Lacking,
        _ => end,
    }
}

/// Gives how a job with this answer ends, strict or not. Unless it is quiet, it notes first where the bytes of a printer do not say in
/// which character set they are printed, then what is odd about a recording that was not listed, and then how many pulses
/// of any recording are brief.
fn tell_answer(
    rt: &(impl Eprint + AllocGlobal),
    subject: Subject<'_>,
    answer: JobEnd,
    is_quiet: bool,
) -> End
    ensures { result ≡ answer_end answer }
{
    if !is_quiet {
        match answer {
            JobEnd::Heard(_, heard) => tell_heard(rt, heard),
            JobEnd::Overheard(said) => {
                tell_heard(rt, said.heard);
                show_oddities(rt, subject, said.odd);
            }
            JobEnd::Reprinted(said) => show_oddities(rt, subject, said.odd),
            JobEnd::Listed(odd) => show_brief(rt, subject, odd),
            JobEnd::Remarked(odd) => show_oddities(rt, subject, odd),
            JobEnd::Ended(_) | JobEnd::Ran(_) | JobEnd::Printed(_) => {}
        }
    }
    match answer {
        JobEnd::Ended(ending) => End::of_ending(ending),
        JobEnd::Ran(end) | JobEnd::Heard(end, _) => End::of_run(end),
        JobEnd::Printed(pages) => End::of_run(pages.run),
        JobEnd::Overheard(_) | JobEnd::Reprinted(_) | JobEnd::Listed(_) | JobEnd::Remarked(_) =>
            End::Done,
    }
}

/// Reports in one line on standard error why a listing has no text.
fn refuse_listing(
    rt: &(impl Outside + Eprint),
    fault: TextFault,
    name: Option<&str>,
    error: Option<Error>,
) {
    match (fault, name, error) {
        (TextFault::ReadFailed, Some(name), Some(error)) => rt.tell_error(name, &error),
        _ => {
            let _ = rt.eprintln(format_args!("print1525: {fault}"));
        }
    }
}

/// Reports a failed read or write in one line on standard error: of a file by its name and the
/// reason. Gives how the program ends.
fn tell_failed(
    rt: &(impl Outside + Eprint),
    fault: CliFault,
    name: Option<&str>,
    error: Option<Error>,
) -> End
    ensures { result ≡ end.Job fault }
{
    match (fault, name, error) {
        (CliFault::ReadFailed | CliFault::WriteFailed, Some(name), Some(error)) => {
            rt.tell_error(name, &error);
        }
        // (a write to memory fails for no other reason)
        (CliFault::WriteFailed, None, Some(error)) if error.kind() == ErrorKind::OutOfMemory => {
            let _ = tell(rt, CliFault::NoMemory);
        }
        _ => {
            let _ = tell(rt, fault);
        }
    }
    End::Job(fault)
}

/// Reports in one line on standard error why a file cannot be opened, read or written, and gives the
/// exit status.
pub fn tell_file(rt: &impl Outside, name: &str, error: &Error) -> u8
    ensures { result ≡ 3 }
{
    rt.tell_error(name, error);
    FAILED
}

/// Reports a fault in one line on standard error, and gives how the program ends. That of a sheet past the end says how many
/// sheets there are.
pub fn tell(rt: &impl Eprint, fault: CliFault) -> End
    ensures { result ≡ end.Job fault }
{
    let _ = match fault {
        CliFault::Picture(PictureFault::NoSuchSheet(1)) => {
            rt.eprintln(format_args!("print1525: {fault}: the paper has one sheet"))
        }
        CliFault::Picture(PictureFault::NoSuchSheet(sheets)) => {
            rt.eprintln(format_args!("print1525: {fault}: the paper has {sheets} sheets"))
        }
        _ => rt.eprintln(format_args!("print1525: {fault}")),
    };
    End::Job(fault)
}
