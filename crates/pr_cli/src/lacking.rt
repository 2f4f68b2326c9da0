//! What the answer of a job lacks that a recording has, and of which printers nothing is to be lacking.

ghost use Rattle.std.specs.Prelude.{◌≡◌};
ghost use Rattle.pr_cli.specs.Jobs.{shown_in, strict_if, strict_in, strict_of};
ghost use Rattle.pr_cli.specs.Statuses.{hears, hold, holds, lacks, leaves_out};

use crate::jobs::JobEnd;
use pr_jobs::{HeldMarks, PagesEnd, shown_of};
use pr_options::{DecodeOutput, Job};
use pr_recording::LeftOut;
use pr_render::Format;
use pr_serial::Present;

/// Both printers.
pub const BOTH: Present = Present {
    four: true,
    five: true,
};

/// The printers of which nothing is to be left out of a recording, if a job is strict.
pub fn strict_of(job: &Job<'_>) -> Option<Present>
    ensures { result ≡ strict_of job.now }
{
    match job {
        Job::Decode { output, .. } => strict_in(*output),
        Job::Pages(..) | Job::Bus(..) | Job::Script(_) | Job::Check { .. } | Job::Raw { .. } =>
            None,
    }
}

/// The same of what `decode` writes.
fn strict_in(output: DecodeOutput) -> Option<Present>
    ensures { result ≡ strict_in output }
{
    match output {
        DecodeOutput::Bytes(device, hearing) => {
            strict_if(hearing.is_strict, shown_of(Some(device), BOTH))
        }
        DecodeOutput::Pages(format, hearing) => strict_if(hearing.is_strict, shown_in(format)),
        DecodeOutput::Readings(_) | DecodeOutput::Json => None,
    }
}

/// These printers, if a job is strict.
fn strict_if(is_strict: bool, shown: Present) -> Option<Present>
    ensures { result ≡ strict_if is_strict shown }
{
    if is_strict { Some(shown) } else { None }
}

/// The printers whose pages a format shows, of both.
fn shown_in(format: Format) -> Present
    ensures { result ≡ shown_in format }
{
    match format {
        Format::List | Format::Lines(_) => BOTH,
        Format::Svg(part) | Format::Png(part) => shown_of(part.device, BOTH),
        Format::Pdf(device, _) => shown_of(device, BOTH),
    }
}

impl JobEnd {
    /// Whether the pages or bytes of these printers, which were written, lack something that the recording has.
    pub(crate) fn lacks(self, shown: Present) -> bool
        ensures { result ≡ lacks shown self }
    {
        match self {
            JobEnd::Overheard(said) => leaves_out(said.left) || !said.has_byte,
            JobEnd::Reprinted(said) => {
                leaves_out(said.left) || !hears(shown, said.present) || hold(shown, said.end)
            }
            JobEnd::Ended(_)
            | JobEnd::Ran(_)
            | JobEnd::Printed(_)
            | JobEnd::Heard(_, _)
            | JobEnd::Listed(_)
            | JobEnd::Remarked(_) => false,
        }
    }
}

/// Whether bytes of a recording are left out.
fn leaves_out(left: LeftOut) -> bool
    ensures { result ≡ leaves_out left }
{
    left.unacknowledged > 0 || left.incomplete > 0 || left.has_cut || left.early > 0
}

/// Whether one of the printers that are shown hears a byte.
pub fn hears(shown: Present, heard: Present) -> bool
    ensures { result ≡ hears shown heard }
{
    (shown.four && heard.four) || (shown.five && heard.five)
}

/// Whether a printer holds a mark.
pub fn holds(held: HeldMarks) -> bool
    ensures { result ≡ holds held }
{
    held.characters > 0 || held.columns > 0
}

/// Whether one of the printers that are shown holds a mark.
fn hold(shown: Present, pages: PagesEnd) -> bool
    ensures { result ≡ hold shown pages }
{
    (shown.four && holds(pages.four.held)) || (shown.five && holds(pages.five.held))
}
