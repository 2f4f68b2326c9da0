//! What a command line asks for: the program's job.

ghost use Rattle.std.specs.Prelude.{◌≡◌, ◌==◌, ◌||◌, ◌⊎◌, ◌≤◌, [], Err, Ok, Some, codes, find, length, map, option_map, IfErr, IfOk, IfSome, IsSome, OnOk};
ghost use Rattle.std.specs.List.{list_any, prefix_len};
ghost use Rattle.std.specs.Str.{bytes_eq};
ghost use Rattle.clap.specs.Words.{fault_of, found_of, rows_of, subcommand_rows_of};
ghost use Rattle.pr_options.specs.CommandLine.{print1525};
ghost use Rattle.pr_options.specs.CommandLaws.{NamesOurs};
ghost use Rattle.pr_options.specs.Jobs.{IsRefused, asked, input_view, is_script, job_view, task_view, wanted, wanted_bus, wanted_check, wanted_decode, wanted_form, wanted_input, wanted_pages, wanted_raw, wanted_run};
ghost use Rattle.pr_options.specs.Steps.{IsFaultIn, IsOfClap, IsOwn, job_result, run_view, wanted_of};
ghost use Rattle.pr_options.specs.Given.{begins_with_letter, is_quiet_word, value_in};
ghost use Rattle.pr_options.specs.Values.{bad_value, good_values_of, option_of, value_given, values_of};

use crate::clap_command::make_command;
use crate::delays::{DelayFault, read_delays};
use crate::option_values::{
    read_before, read_decode_output, read_form, read_format, read_found_format, read_from_time,
    read_given_rate, read_glitch, read_inverted, read_pages_output, read_present, read_report,
    read_set, read_status, read_steps, read_threshold, read_trace_format,
};
use crate::options::{INPUT, OUTPUT, Opt};
use crate::outputs::{CheckOutput, DecodeOutput, PagesOutput};
use crate::values_given::{
    characters_in, decode_output_in, file_in, fitting, is_given, pages_output_in, shown_in,
    signals_in, unless_found, value_in,
};
use clap::ArgMatches;
use clap::error::ErrorKind;
use pr_basic::StatusMode;
use pr_bus::Delays;
use pr_capture::{InputFormat, OutputFormat, Probes, Signals, TraceInput};
use pr_programs::Form;
use pr_render::Format;
use pr_serial::Present;
use std::alloc::Global;
use thiserror::Error;

/// What the program is to do.
#[derive(Drop)]
pub enum Job<'a> {
    /// Read a listing or a program in this form and write the pages of its run, or the bytes of a printer, with these
    /// printers present, these delays, and the status going on in this way.
    Pages(Form, Present, Delays, StatusMode, PagesOutput),
    /// Read a listing or a program in this form and write the trace of its run, with these printers present, these
    /// delays, and the status going on in this way, in this format.
    Bus(Form, Present, Delays, StatusMode, OutputFormat),
    /// Read a listing or a program in this form and write the text of the script that comes of it.
    Script(Form),
    /// Read a trace and write what it says.
    Check {
        /// The first bytes of the trace show its format, as [`pr_capture::found_format`] reads them; the format
        /// in `input` is the one where they show none.
        is_found: bool,
        /// How it is read.
        input: TraceInput<'a>,
        /// What is written.
        output: CheckOutput,
    },
    /// Read any recording and write what it says.
    Decode {
        /// The same of the recording.
        is_found: bool,
        /// How it is read.
        input: TraceInput<'a>,
        /// What is written: its readings, the bytes of a printer, or the pages that printers 4 and 5 print.
        output: DecodeOutput,
    },
    /// Read the bytes of a printer and write its page.
    Raw {
        /// The lower/upper case set is selected first, else the graphic/upper case set.
        lower: bool,
        /// The format of the page.
        format: Format,
    },
}

/// A job, and the files that it reads and writes.
#[derive(Drop)]
pub struct Task<'a> {
    pub job: Job<'a>,
    /// How long before its recording's own moment 0 the trace starts, in microseconds; None where it starts at the
    /// moment that the job has, which counts from the recording's first moment.
    pub before: Option<u64>,
    /// The name of the file that is read; None where standard input is.
    pub input: Option<&'a str>,
    /// The name of the file that is written; None where standard output is.
    pub output: Option<&'a str>,
    /// The name of the file that has the shapes of characters; None where the project's own are drawn. Only a job that
    /// draws characters has one.
    pub characters: Option<&'a str>,
}

/// Why a command line asks for nothing.
#[derive(Debug, Drop, Error)]
pub enum JobFault {
    /// clap refuses the words, or they ask for help or the version: the error prints itself.
    #[error(transparent)]
    Line(clap::Error),
    /// The value of `--present` is not `none`, `4`, `5` or `both`.
    #[error("bad --present")]
    BadPresent,
    /// The value of `--delays` is not at most three lists of numbers, as [`read_delays`] reads them.
    #[error("bad --delays")]
    BadDelays,
    /// The value of `--status` is not `each` or `kept`.
    #[error("bad --status")]
    BadStatus,
    /// The value of any other option is none of its values, which [`JobFault::good_values`] has.
    #[error("bad --{0}")]
    Bad(Opt),
    /// `--names`, `--invert`, `--from-time` or `--glitch` is given where the trace is a text.
    #[error("--names, --invert, --from-time and --glitch go with --from vcd or csv")]
    NoRecording,
    /// `--rate` or `--threshold` is given where the trace is a text or a dump.
    #[error("--rate and --threshold go with --from csv")]
    NoTable,
    /// `--device` is given where no picture and no bytes are written, or `--sheet` where no picture of a sheet is.
    #[error("--device goes with --as svg, png, pdf or bytes, --sheet with svg or png")]
    NoPart,
    /// `--characters` or `--top` is given where no picture is written.
    #[error("--characters and --top go with --as svg, png or pdf")]
    NoPicture,
    /// `--paper` is given where no document is written, `--holes` where neither a bitmap nor a document is, or `--scale` where no
    /// bitmap is.
    #[error("--paper goes with --as pdf, --holes with png or pdf, --scale with png")]
    NoPaper,
    /// `--holes` is given with paper that has none.
    #[error("--holes goes with --paper continuous")]
    NoStrips,
    /// `--intervals` or `--bounds` is given where no list of readings is written.
    #[error("--intervals and --bounds go with --as list")]
    NoReadings,
    /// `--listening`, `--set` or `--strict` of `decode` is given where neither pages nor bytes are written.
    #[error("--listening, --set and --strict go with --as text, svg, png, pdf or bytes")]
    NoPages,
    /// `--steps` is given where no program is run.
    #[error("--steps goes with --from basic or bas")]
    NoProgram,
    /// `--set` of `decode` is given where no printer listens at first.
    #[error("--set goes with --listening")]
    NoListener,
    /// Memory was refused.
    #[error("out of memory")]
    NoMemory,
}

impl JobFault {
    /// Returns the values that an option may have, as the help says them, where this fault is a bad
    /// value of it; of `--as` those of the subcommand that was met. None of other faults. It takes
    /// no memory.
    pub fn values(&self) -> Option<&'static str>
        ensures { option_map (λ text. text.now) result ≡ values_of self.now }
    {
        match self.option() {
            Some(opt) => Some(opt.row().help),
            None => None,
        }
    }

    /// Returns the values that the option has of which this is a bad one, in a few words, which the
    /// line of the fault has too. None where that line's text is fixed, and of other faults. It takes
    /// no memory.
    pub fn good_values(&self) -> Option<&'static str>
        ensures { option_map (λ text. text.now) result ≡ good_values_of self.now }
    {
        match self {
            JobFault::Bad(opt) => Some(opt.row().values),
            _ => None,
        }
    }

    /// Returns the option of which this is a bad value.
    fn option(&self) -> Option<Opt>
        ensures { result ≡ option_of self.now }
    {
        match self {
            JobFault::BadPresent => Some(Opt::Present),
            JobFault::BadDelays => Some(Opt::Delays),
            JobFault::BadStatus => Some(Opt::Status),
            JobFault::Bad(opt) => Some(*opt),
            _ => None,
        }
    }
}

impl From<Opt> for JobFault {
    ghost use Rattle.pr_options.specs.Values.{bad};

    ghost from_gives = { λ o f. f ≡ bad o };

    fn from(opt: Opt) -> JobFault {
        match opt {
            Opt::Present => JobFault::BadPresent,
            Opt::Delays => JobFault::BadDelays,
            Opt::Status => JobFault::BadStatus,
            _ => JobFault::Bad(opt),
        }
    }
}

impl From<DelayFault> for JobFault {
    ghost use Rattle.pr_options.specs.Faults.{fault_of_delays};

    ghost from_gives = { λ e f. f ≡ fault_of_delays e };

    fn from(e: DelayFault) -> JobFault {
        match e {
            DelayFault::BadDelays => JobFault::BadDelays,
            DelayFault::NoMemory => JobFault::NoMemory,
        }
    }
}

/// Reads a command line, of which the program's name is the first word, and gives the job that it
/// asks for: that of the subcommand that clap's meaning of the command finds, with the values of
/// its options, defaults included.
///
/// # Errors
///
/// [`JobFault::Line`] only for words that clap's meaning of the command does not take, with one of
/// its reasons against them (a request for help or the version is such a refusal), and
/// [`JobFault::NoMemory`] where memory was refused, by clap too. The other faults come
/// only for words that clap takes, and report the first bad value: of [`JobFault::BadPresent`],
/// [`JobFault::BadDelays`], [`JobFault::BadStatus`] and then of [`JobFault::Bad`], in the order of [`Opt`]. What does
/// not go together comes after the values that it is judged by: [`JobFault::NoRecording`] and [`JobFault::NoTable`]
/// after [`Opt::Threshold`], [`JobFault::NoProgram`] after [`Opt::Steps`],
/// [`JobFault::NoStrips`], [`JobFault::NoPart`], [`JobFault::NoPicture`] and [`JobFault::NoPaper`] after
/// [`Opt::Paper`], [`JobFault::NoReadings`] after [`Opt::Bounds`], and [`JobFault::NoPages`] or
/// [`JobFault::NoListener`] at last.
pub fn read_task<'a>(alloc: Global, words: &'a [&'a str]) -> Result<Task<'a>, JobFault>
    ensures ok { IfOk result (λ task. asked (map (λ s. s.now) words.entry.now) ≡ Some (Ok (task_view task))) }
    ensures taken { OnOk result (fault_of print1525 (map (λ s. s.now) words.entry.now) ≡ []) }
    ensures bad { IfErr result (IsRefused (map (λ s. s.now) words.entry.now)) }
{
    let Ok(command) = make_command(alloc) else {
        return Err(JobFault::NoMemory);
    };
    match command.try_get_matches_from(words) {
        Ok(matches) => task_of(alloc, &matches),
        Err(error) => Err(refused_by_clap(error)),
    }
}

/// Returns the value that words give the option of which the fault says that it is a bad one, where
/// the fault is [`read_task`]'s for these words. None of other faults, and where memory was refused.
pub fn bad_value<'a>(alloc: Global, words: &'a [&'a str], fault: &JobFault) -> Option<&'a str>
    ensures { IfSome result (λ value. bad_value (map (λ s. s.now) words.entry.now) fault.now ≡ Some value.now) }
{
    match fault.option() {
        Some(opt) => given_to(alloc, words, opt),
        None => None,
    }
}

/// The value that words give an option. None where clap refuses them, and where memory was refused.
fn given_to<'a>(alloc: Global, words: &'a [&'a str], opt: Opt) -> Option<&'a str>
    ensures { IfSome result (λ value. value_given (map (λ s. s.now) words.entry.now) opt ≡ Some value.now) }
{
    let Ok(command) = make_command(alloc) else {
        return None;
    };
    match command.try_get_matches_from(words) {
        Ok(matches) => value_of(&matches, opt),
        Err(_error) => None,
    }
}

/// The value of an option of the subcommand that was met.
fn value_of<'a>(matches: &ArgMatches<'a>, opt: Opt) -> Option<&'a str>
    ensures { option_map (λ value. value.now) result ≡ option_map (value_in opt) (option_map (λ met. met.1) (subcommand_rows_of matches.now)) }
{
    match matches.subcommand() {
        Some((_name, options)) => Some(value_in(options, opt)),
        None => None,
    }
}

/// Returns whether a word is `--explain`, which asks for more on a refusal or an error; also on a
/// bad value, where there is no job. No value of an option is that word in a command line that clap
/// takes; a file has that name only after `--`. It takes no memory.
pub fn explains(words: &[&str]) -> bool
    ensures { result ≡ list_any (λ word. bytes_eq word.now (codes "--explain")) words.now }
{
    words.iter().any(|word| *word == "--explain")
}

/// Returns whether a word is `--quiet`, or begins with `-q`: notes and progress are left out then. No value of an option
/// begins so in a command line that clap takes; a file's name does only after `--`. It takes no memory.
pub fn is_quiet(words: &[&str]) -> bool
    ensures { result ≡ list_any (λ word. is_quiet_word word.now) words.now }
{
    words.iter().any(|word| is_quiet_word(*word))
}

/// Whether a word is the flag or its letter, maybe with other letters behind it.
fn is_quiet_word(word: &str) -> bool
    ensures { result ≡ is_quiet_word word.now }
{
    word == "--quiet" || begins_with_letter(word.as_bytes())
}

/// Whether a word begins with the flag's letter.
fn begins_with_letter(word: &[u8]) -> bool
    ensures { result ≡ begins_with_letter word.now }
{
    word.len() >= 2 && word[0] == b'-' && word[1] == b'q'
}

/// A law: words name `pages`, `bus`, `check`, `decode` or `raw`, or no subcommand.
pub fn subcommands_are_these()
    ensures { NamesOurs }
{}

/// How a script is run.
#[derive(Drop)]
struct Run {
    present: Present,
    delays: Delays,
    mode: StatusMode,
}

/// The job that the matches of the words ask for, with its files.
fn task_of<'a>(alloc: Global, matches: &ArgMatches<'a>) -> Result<Task<'a>, JobFault>
    requires { IsSome (subcommand_rows_of matches.now) }
    ensures ok { IfOk result (λ task. wanted_of (subcommand_rows_of matches.now) ≡ Some (Ok (task_view task))) }
    ensures bad { IfErr result (λ f. (f ≡ JobFault.NoMemory) ⊎ (wanted_of (subcommand_rows_of matches.now) ≡ Some (Err f))) }
    ensures own { IfErr result IsOwn }
{
    let Some((name, options)) = matches.subcommand() else {
        unreachable!()
    };
    let job = job_of(alloc, name, options)?;
    Ok(Task {
        job,
        before: read_before(value_in(options, Opt::FromTime)),
        input: file_in(options, INPUT),
        output: file_in(options, OUTPUT),
        characters: characters_in(options),
    })
}

/// The job of a subcommand. The values of a run and `--set` are read whichever it is: an option that
/// the subcommand does not have has its default there.
fn job_of<'a>(alloc: Global, name: &str, options: &ArgMatches<'a>) -> Result<Job<'a>, JobFault>
    ensures ok { IfOk result (λ job. wanted name.now (rows_of (found_of options.now)) ≡ Ok (job_view job)) }
    ensures bad { IfErr result (IsFaultIn (wanted name.now (rows_of (found_of options.now)))) }
    ensures own { IfErr result IsOwn }
{
    let run = run_of(alloc, options)?;
    let lower = read_set(value_in(options, Opt::Set)).ok_or(Opt::Set)?;
    match name {
        "check" => check_job(options),
        "decode" => decode_job(lower, options),
        "bus" => bus_job(run, options),
        "raw" => raw_job(lower, options),
        _ => pages_job(run, options),
    }
}

/// How to run a script.
fn run_of(alloc: Global, options: &ArgMatches<'_>) -> Result<Run, JobFault>
    ensures ok { IfOk result (λ run. wanted_run (rows_of (found_of options.now)) ≡ Ok (run_view run)) }
    ensures bad { IfErr result (IsFaultIn (wanted_run (rows_of (found_of options.now)))) }
    ensures own { IfErr result IsOwn }
{
    let present = read_present(value_in(options, Opt::Present)).ok_or(Opt::Present)?;
    let delays = read_delays(alloc, value_in(options, Opt::Delays))?;
    let mode = read_status(value_in(options, Opt::Status)).ok_or(Opt::Status)?;
    Ok(Run {
        present,
        delays,
        mode,
    })
}

/// How to read a trace or a recording in this format. Whether the options go with the format is judged when
/// all their values are good.
fn input_of<'a>(source: InputFormat, options: &ArgMatches<'a>) -> Result<TraceInput<'a>, JobFault>
    ensures ok { IfOk result (λ input. wanted_input source (rows_of (found_of options.now)) ≡ Ok (input_view input)) }
    ensures bad { IfErr result (λ f. wanted_input source (rows_of (found_of options.now)) ≡ Err f) }
    ensures own { IfErr result IsOwn }
{
    let named = signals_in(options)?;
    let probes = read_inverted(value_in(options, Opt::Invert)).ok_or(Opt::Invert)?;
    let start = read_from_time(value_in(options, Opt::FromTime)).ok_or(Opt::FromTime)?;
    let pulse = read_glitch(value_in(options, Opt::Glitch)).ok_or(Opt::Glitch)?;
    let rate = read_given_rate(value_in(options, Opt::Rate)).ok_or(Opt::Rate)?;
    let threshold = read_threshold(value_in(options, Opt::Threshold)).ok_or(Opt::Threshold)?;
    fitting(source, options)?;
    let signals = Signals {
        probes: Probes {
            threshold,
            ..probes
        },
        ..named
    };
    Ok(TraceInput {
        source,
        signals,
        start,
        pulse,
        rate,
    })
}

/// The form of what a script is made of, with the steps that a run has at most.
fn form_in(options: &ArgMatches<'_>) -> Result<Form, JobFault>
    ensures value { result ≡ wanted_form (rows_of (found_of options.now)) }
    ensures own { IfErr result IsOwn }
{
    let plain = read_form(value_in(options, Opt::ListingFrom)).ok_or(Opt::ListingFrom)?;
    let steps = read_steps(value_in(options, Opt::Steps)).ok_or(Opt::Steps)?;
    match plain {
        Form::Program { .. } => Ok(Form::Program { steps }),
        Form::Either { .. } => Ok(Form::Either { steps }),
        Form::Listing(_) if is_given(options, Opt::Steps) => Err(JobFault::NoProgram),
        Form::Listing(_) => Ok(plain),
    }
}

/// Whether a value of `--as` is that of the script itself.
fn is_script(written: &str) -> bool
    ensures { result ≡ is_script written.now }
{
    written == "script"
}

/// The job of `check`.
fn check_job<'a>(options: &ArgMatches<'a>) -> Result<Job<'a>, JobFault>
    ensures value { job_result result ≡ wanted_check (rows_of (found_of options.now)) }
    ensures own { IfErr result IsOwn }
{
    let source = read_found_format(value_in(options, Opt::From)).ok_or(Opt::From)?;
    let input = input_of(source.unwrap_or(unless_found(options)), options)?;
    let output = read_report(value_in(options, Opt::ReportAs)).ok_or(Opt::ReportAs)?;
    Ok(Job::Check {
        is_found: source.is_none(),
        input,
        output,
    })
}

/// The job of `decode`.
fn decode_job<'a>(lower: bool, options: &ArgMatches<'a>) -> Result<Job<'a>, JobFault>
    ensures value { job_result result ≡ wanted_decode lower (rows_of (found_of options.now)) }
    ensures own { IfErr result IsOwn }
{
    let source = read_found_format(value_in(options, Opt::ReadingFrom)).ok_or(Opt::ReadingFrom)?;
    let input = input_of(source.unwrap_or(unless_found(options)), options)?;
    let plain = read_decode_output(value_in(options, Opt::ReadingAs)).ok_or(Opt::ReadingAs)?;
    let output = decode_output_in(plain, lower, options)?;
    Ok(Job::Decode {
        is_found: source.is_none(),
        input,
        output,
    })
}

/// The job of `bus`.
fn bus_job<'a>(run: Run, options: &ArgMatches<'_>) -> Result<Job<'a>, JobFault>
    ensures value { job_result result ≡ wanted_bus (run_view run) (rows_of (found_of options.now)) }
    ensures own { IfErr result IsOwn }
{
    let form = form_in(options)?;
    let written = value_in(options, Opt::TraceAs);
    if is_script(written) {
        return Ok(Job::Script(form));
    }
    let format = read_trace_format(written).ok_or(Opt::TraceAs)?;
    Ok(Job::Bus(form, run.present, run.delays, run.mode, format))
}

/// The job of `raw`.
fn raw_job<'a>(lower: bool, options: &ArgMatches<'_>) -> Result<Job<'a>, JobFault>
    ensures value { job_result result ≡ wanted_raw lower (rows_of (found_of options.now)) }
    ensures own { IfErr result IsOwn }
{
    let plain = read_format(value_in(options, Opt::RawAs)).ok_or(Opt::RawAs)?;
    let format = shown_in(plain, options)?;
    Ok(Job::Raw { lower, format })
}

/// The job of `pages`.
fn pages_job<'a>(run: Run, options: &ArgMatches<'_>) -> Result<Job<'a>, JobFault>
    ensures value { job_result result ≡ wanted_pages (run_view run) (rows_of (found_of options.now)) }
    ensures own { IfErr result IsOwn }
{
    let form = form_in(options)?;
    let written = value_in(options, Opt::PageAs);
    if is_script(written) {
        shown_in(Format::List, options)?;
        return Ok(Job::Script(form));
    }
    let plain = read_pages_output(written).ok_or(Opt::PageAs)?;
    let output = pages_output_in(plain, options)?;
    Ok(Job::Pages(form, run.present, run.delays, run.mode, output))
}

/// A refusal by clap. Where clap has no memory, the fault is the program's own `NoMemory`.
fn refused_by_clap(error: clap::Error) -> JobFault
    ensures { IsOfClap error result }
{
    if error.kind() == ErrorKind::OutOfMemory {
        JobFault::NoMemory
    } else {
        JobFault::Line(error)
    }
}
