//! Where a trace starts that starts before its recording's own moment 0.

ghost use Rattle.std.specs.Prelude.{◌≡◌, ◌≢◌, ◌+◌, ◌^◌, ◌<◌, ◌≤◌, ◌++◌, ◌∷◌, [], None, Some, drop, false, true, IfErr, IfOk, IfSome, OnOk, length};
ghost use Rattle.std.specs.Io.KnownBytes.{IsAtEnd};
ghost use Rattle.std.specs.List.{prefix_len};
ghost use Rattle.pr_capture.specs.Csv.{is_inner, is_separator};
ghost use Rattle.pr_capture.specs.CsvSteps.{line_number};
ghost use Rattle.pr_capture.specs.Samples.{listed};
ghost use Rattle.pr_capture.specs.declared.fault.CaptureFault.TheVariants.{NoMemory};
ghost use Rattle.pr_input.specs.Watched.{wrapped};
ghost use Rattle.pr_cli.specs.Jobs.{started_job, zero_of_job};
ghost use Rattle.pr_cli.specs.Reading.{ReadsMore};
ghost use Rattle.pr_cli.specs.Starts.{after_time, at_zero, ends_field, has_fraction, is_csv, is_instant, own_zero, same_time, samples_in, table_zero, with_line, with_zeros, zero_by};
ghost use Rattle.pr_cli.specs.StartSteps.{EndsLine, FindsSample, GoesOn, ShowsZero};
ghost use Rattle.pr_cli.specs.Statuses.{fault_status};

use crate::jobs::restarted_job;
use pr_base::digit_count;
use pr_capture::{CaptureFault, CsvReader, InputFormat, TraceInput};
use pr_jobs::{BLOCK, CliFault, Watched};
use pr_options::Job;
use pr_wire::Edge;
use std::alloc::{AllocError, Global};
use std::io::Read;

/// A job whose trace starts so long before its recording's own moment 0, if it is to: the start that a job has counts from the
/// recording's first moment. The first bytes of the input have been read already; where a table's first row does not
/// end in them, more are read after them, until it does. Of a job that reads no recording nothing changes.
///
/// # Errors
///
/// [`CliFault::ReadFailed`] and [`CliFault::NoMemory`].
pub fn started_job<'a, R: Read>(
    alloc: Global,
    job: Job<'a>,
    input: &mut Watched<R>,
    first: &mut Vec<u8>,
    before: Option<u64>,
) -> Result<Job<'a>, CliFault>
    ensures started { IfOk result (λ started. IfSome (R.remaining (wrapped input.old)) (λ left. started ≡ started_job before (first.old.items ++ left) job.entry)) }
    ensures more { IfOk result (λ _. ReadsMore first.old.items first.new.items (R.remaining (wrapped input.old)) (R.remaining (wrapped input.new))) }
    ensures refused { IfErr result (λ fault. fault_status fault ≡ 3) }
{
    let Some(before) = before else {
        return Ok(job);
    };
    let zero = zero_of_job(alloc, &job, input, first)?;
    Ok(restarted_job(job, zero.saturating_sub(before)))
}

/// How long after its first moment a job's recording has its own moment 0, in microseconds; 0 if the job reads none.
fn zero_of_job<R: Read>(
    alloc: Global,
    job: &Job<'_>,
    input: &mut Watched<R>,
    first: &mut Vec<u8>,
) -> Result<u64, CliFault>
    ensures zero { IfOk result (λ zero. IfSome (R.remaining (wrapped input.old)) (λ left. zero ≡ zero_of_job job.now (first.old.items ++ left))) }
    ensures more { IfOk result (λ _. ReadsMore first.old.items first.new.items (R.remaining (wrapped input.old)) (R.remaining (wrapped input.new))) }
    ensures refused { IfErr result (λ fault. fault_status fault ≡ 3) }
{
    match job {
        Job::Check { input: trace, .. } | Job::Decode { input: trace, .. } => {
            own_zero(alloc, *trace, input, first)
        }
        Job::Pages(..) | Job::Bus(..) | Job::Script(_) | Job::Raw { .. } => Ok(0),
    }
}

/// A recording's own moment 0, in microseconds after its first moment: 0 where it does not begin before that, as dumps never
/// do, and where it has no sample.
fn own_zero<R: Read>(
    alloc: Global,
    trace: TraceInput<'_>,
    input: &mut Watched<R>,
    first: &mut Vec<u8>,
) -> Result<u64, CliFault>
    ensures zero { IfOk result (λ zero. IfSome (R.remaining (wrapped input.old)) (λ left. zero ≡ own_zero trace.entry (first.old.items ++ left))) }
    ensures more { IfOk result (λ _. ReadsMore first.old.items first.new.items (R.remaining (wrapped input.old)) (R.remaining (wrapped input.new))) }
    ensures refused { IfErr result (λ fault. fault_status fault ≡ 3) }
{
    if is_csv(trace.source) {
        table_zero(alloc, trace, input, first)
    } else {
        Ok(0)
    }
}

/// Whether a recording is a table.
fn is_csv(source: InputFormat) -> bool
    ensures { result ≡ is_csv source }
{
    matches!(source, InputFormat::Csv)
}

/// The same of a table.
fn table_zero<R: Read>(
    alloc: Global,
    trace: TraceInput<'_>,
    input: &mut Watched<R>,
    first: &mut Vec<u8>,
) -> Result<u64, CliFault>
    ensures zero { IfOk result (λ zero. IfSome (R.remaining (wrapped input.old)) (λ left. zero ≡ table_zero trace.entry (first.old.items ++ left))) }
    ensures more { IfOk result (λ _. ReadsMore first.old.items first.new.items (R.remaining (wrapped input.old)) (R.remaining (wrapped input.new))) }
    ensures refused { IfErr result (λ fault. fault_status fault ≡ 3) }
{
    let mut reader = CsvReader::new(alloc, trace.signals, trace.rate);
    let mut taken = 0;
    'lines: while let Some(len) = line_len(input, first, taken)? {
        let (front, rest) = first.as_slice().split_at(taken);
        if let Some(zero) = zero_shown(alloc, trace, &mut reader, front, &rest[..len])? {
            return Ok(zero);
        }
        taken += len + 1;
    }
    let (front, last) = first.as_slice().split_at(taken);
    if last.is_empty() {
        return Ok(0);
    }
    // The last line may lack its end.
    match zero_shown(alloc, trace, &mut reader, front, last)? {
        Some(zero) => Ok(zero),
        None => Ok(0),
    }
}

/// How many bytes the line has that begins at a place, without its end. Where it does not end in the bytes so far, more are
/// read. None where it does not end at all.
fn line_len<R: Read>(
    input: &mut Watched<R>,
    first: &mut Vec<u8>,
    from: usize,
) -> Result<Option<usize>, CliFault>
    requires within { from ≤ length first.old.items }
    ensures line { IfOk result (λ len. EndsLine (drop from first.new.items) (R.remaining (wrapped input.new)) len) }
    ensures more { IfOk result (λ _. ReadsMore first.old.items first.new.items (R.remaining (wrapped input.old)) (R.remaining (wrapped input.new))) }
    ensures on { IfOk result (λ _. GoesOn first.old.items first.new.items) }
    ensures refused { IfErr result (λ fault. fault_status fault ≡ 3) }
{
    let mut seen = from;
    'blocks: loop {
        if let Some(len) = first_len(&first.as_slice()[seen..]) {
            return Ok(Some(seen - from + len));
        }
        seen = first.len();
        if !read_more(input, first)? {
            return Ok(None);
        }
    }
}

/// Where the first line of some bytes ends, if it ends in them.
fn first_len(bytes: &[u8]) -> Option<usize>
    ensures len { IfSome result (λ len. len ≡ prefix_len is_inner bytes.now) }
    ensures within { IfSome result (λ len. len < length bytes.now) }
    ensures none { result ≡ None → prefix_len is_inner bytes.now ≡ length bytes.now }
{
    for (i, b) in bytes.iter().enumerate() {
        if *b == b'\n' {
            return Some(i);
        }
    }
    None
}

/// Reads a block more of an input, and adds it. Gives whether there was more.
fn read_more<R: Read>(input: &mut Watched<R>, first: &mut Vec<u8>) -> Result<bool, CliFault>
    ensures on { IfOk result (λ _. GoesOn first.old.items first.new.items) }
    ensures longer { IfOk result (λ is_more. is_more ≡ true → length first.old.items < length first.new.items) }
    ensures end { IfOk result (λ is_more. is_more ≡ false → IsAtEnd (R.remaining (wrapped input.new))) }
    ensures same { IfOk result (λ is_more. is_more ≡ false → first.new.items ≡ first.old.items) }
    ensures more { IfOk result (λ _. ReadsMore first.old.items first.new.items (R.remaining (wrapped input.old)) (R.remaining (wrapped input.new))) }
    ensures refused { IfErr result (λ fault. fault_status fault ≡ 3) }
{
    let mut block = [0u8; BLOCK];
    let Ok(n) = input.read(&mut block) else {
        return Err(CliFault::ReadFailed);
    };
    if first.extend_from_slice(&block[..n]).is_err() {
        return Err(CliFault::NoMemory);
    }
    Ok(n > 0)
}

/// A table's moment 0, where this line after its front is its first row or has its first fault; None where it is neither.
fn zero_shown(
    alloc: Global,
    trace: TraceInput<'_>,
    reader: &mut CsvReader<'_>,
    front: &[u8],
    line: &[u8],
) -> Result<Option<u64>, AllocError>
    requires few { line_number reader.old + length line.now + 1 < 2 ^ 64 }
    ensures zero { IfOk result (λ zero. ShowsZero trace.entry front.now line.now zero reader.old reader.new) }
    ensures number { IfOk result (λ zero. zero ≡ None → line_number reader.new ≤ line_number reader.old + length line.now + 1) }
{
    match has_sample(reader, line) {
        Ok(true) => Ok(Some(zero_behind(alloc, trace, front, line)?)),
        Ok(false) => Ok(None),
        Err(fault) => {
            check_memory(fault)?;
            Ok(Some(0))
        }
    }
}

/// Refuses to go on where memory was refused; any other fault is the table's own.
fn check_memory(fault: CaptureFault) -> Result<(), AllocError>
    ensures { OnOk result (fault ≢ NoMemory) }
{
    match fault {
        CaptureFault::NoMemory => Err(AllocError),
        _ => Ok(()),
    }
}

/// Takes a line of a table, and gives whether it has a sample.
fn has_sample(reader: &mut CsvReader<'_>, line: &[u8]) -> Result<bool, CaptureFault>
    requires few { line_number reader.old + length line.now + 1 < 2 ^ 64 }
    ensures found { FindsSample (line.now ++ 10 ∷ []) result reader.old reader.new }
    ensures number { IfOk result (λ _. line_number reader.new ≤ line_number reader.old + length line.now + 1) }
{
    if find_sample(reader, line)? {
        return Ok(true);
    }
    find_sample(reader, b"\n")
}

/// Takes bytes of a table up to a sample, and gives whether there was one.
fn find_sample(reader: &mut CsvReader<'_>, bytes: &[u8]) -> Result<bool, CaptureFault>
    requires few { line_number reader.old + length bytes.now < 2 ^ 64 }
    ensures found { FindsSample bytes.now result reader.old reader.new }
    ensures number { IfOk result (λ _. line_number reader.new ≤ line_number reader.old + length bytes.now) }
{
    let mut rest = bytes;
    while !rest.is_empty() {
        let (len, sample) = reader.take_front(rest)?;
        if sample.is_some() {
            return Ok(true);
        }
        rest = &rest[len..];
    }
    Ok(false)
}

/// The moment 0 of a table whose first row this is, after its front: the time of the same row with 0 for its time.
/// In a table without times a second such row is later. Dates have no moment 0 but the first.
fn zero_behind(
    alloc: Global,
    trace: TraceInput<'_>,
    front: &[u8],
    row: &[u8],
) -> Result<u64, AllocError>
    ensures { IfOk result (λ zero. zero ≡ zero_by row.now (samples_in trace.entry (with_zeros front.now row.now))) }
{
    if is_instant(row) {
        return Ok(0);
    }
    let mut table = Vec::new(alloc);
    table.extend_from_slice(front)?;
    push_line(&mut table, row)?;
    push_at_zero(&mut table, row)?;
    push_at_zero(&mut table, row)?;
    let samples = samples_in(alloc, trace, table.as_slice())?;
    Ok(same_time(samples.as_slice()))
}

/// Adds a line to a text.
fn push_line(text: &mut Vec<u8>, line: &[u8]) -> Result<(), AllocError>
    ensures { IfOk result (λ _. text.new.items ≡ with_line text.old.items line.now) }
{
    text.extend_from_slice(line)?;
    text.push(b'\n')?;
    Ok(())
}

/// Adds a row with 0 for its time.
fn push_at_zero(text: &mut Vec<u8>, row: &[u8]) -> Result<(), AllocError>
    ensures { IfOk result (λ _. text.new.items ≡ with_line text.old.items (at_zero row.now)) }
{
    text.push(b'0')?;
    push_line(text, after_time(row))
}

/// A row from the first comma, semicolon or tab on, but for a comma in a number, as in `0,5;1;1;1`.
fn after_time(row: &[u8]) -> &[u8]
    ensures { result.now ≡ after_time row.now }
{
    for (i, b) in row.iter().enumerate() {
        if is_separator(*b) && !has_fraction(&row[i..]) {
            return &row[i..];
        }
    }
    &[]
}

/// Whether a text begins with a comma that stands in a number: digits follow it, up to a semicolon or a tab.
fn has_fraction(text: &[u8]) -> bool
    ensures { result ≡ has_fraction text.now }
{
    match text {
        [b',', rest @ ..] => ends_field(&rest[digit_count(rest)..]),
        _ => false,
    }
}

/// Whether a text begins with a semicolon or a tab.
fn ends_field(text: &[u8]) -> bool
    ensures { result ≡ ends_field text.now }
{
    matches!(text, [b';' | b'\t', ..])
}

/// Whether a row's time has a colon, as 2024-06-21T14:28:30.5Z. Later fields do not count.
fn is_instant(row: &[u8]) -> bool
    ensures { result ≡ is_instant row.now }
{
    for b in row {
        if is_separator(*b) {
            return false;
        }
        if *b == b':' {
            return true;
        }
    }
    false
}

/// Whether a byte can separate fields.
fn is_separator(b: u8) -> bool
    ensures { result ≡ is_separator b }
{
    matches!(b, b',' | b';' | b'\t')
}

/// The time of the second and the third of three samples, if they have the same and the first an earlier one, or else 0.
fn same_time(samples: &[Edge]) -> u64
    ensures { result ≡ same_time samples.now }
{
    match samples {
        [first, second, third] if second.time == third.time && first.time < second.time => {
            second.time
        }
        _ => 0,
    }
}

/// The samples of a table, up to its first fault.
fn samples_in(alloc: Global, trace: TraceInput<'_>, table: &[u8]) -> Result<Vec<Edge>, AllocError>
    requires few { length table.now + 2 < 2 ^ 64 }
    ensures { IfOk result (λ samples. samples.items ≡ samples_in trace.entry table.now) }
{
    let mut reader = CsvReader::new(alloc, trace.signals, trace.rate);
    let mut samples = Vec::new(alloc);
    let mut rest = table;
    while !rest.is_empty() {
        match reader.take_front(rest) {
            Ok((len, sample)) => {
                push_sample(&mut samples, sample)?;
                rest = &rest[len..];
            }
            Err(fault) => {
                check_memory(fault)?;
                return Ok(samples);
            }
        }
    }
    match reader.finish() {
        Ok(sample) => {
            push_sample(&mut samples, sample)?;
            Ok(samples)
        }
        Err(_) => Ok(samples),
    }
}

/// Adds a sample, if there is one.
fn push_sample(samples: &mut Vec<Edge>, sample: Option<Edge>) -> Result<(), AllocError>
    ensures { IfOk result (λ _. samples.new.items ≡ samples.old.items ++ listed sample) }
{
    if let Some(sample) = sample {
        samples.push(sample)?;
    }
    Ok(())
}
