//! The job that the words of a command line ask for, for callers who open its files themselves.

ghost use Rattle.std.specs.Prelude.{map, IfErr, IfOk};
ghost use Rattle.pr_options.specs.Jobs.{IsRefused};
ghost use Rattle.pr_cli.specs.Words.{IsJobAsked};

use pr_options::{Job, JobFault, read_task};
use std::alloc::Global;

/// Reads a command line, of which the program's name is the first word, and gives the job that it asks for: that of
/// [`read_task`], without the files that the words name. A caller who opens its own files has all else from it but a start
/// before a recording's own moment 0, which is in the task alone.
///
/// # Errors
///
/// Those of [`read_task`].
pub fn read_job<'a>(alloc: Global, words: &'a [&'a str]) -> Result<Job<'a>, JobFault>
    ensures ok { IfOk result (IsJobAsked (map (λ s. s.now) words.entry.now)) }
    ensures bad { IfErr result (IsRefused (map (λ s. s.now) words.entry.now)) }
{
    Ok(read_task(alloc, words)?.job)
}
