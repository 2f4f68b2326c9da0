//! The lines of readings, and what they come to.

ghost use Rattle.std.specs.Prelude.{◌≡◌, ◌+◌, ◌-◌, ◌^◌, ◌≤◌, ◌++◌, [], List, ℕ, IfOk, OnOk};
ghost use Rattle.pr_wire.specs.declared.Edge.{Edge};
ghost use Rattle.pr_decode.specs.declared.reading.Reading.{Reading};
ghost use Rattle.pr_report.specs.declared.detail.Bounds.{Bounds};
ghost use Rattle.pr_report.specs.Summary.{summary};
ghost use Rattle.pr_report.specs.Oddities.{oddities_of, oddities_text};
ghost use Rattle.pr_report.specs.Taking.{HasSurveyed};
ghost use Rattle.pr_report.specs.Verdict.{conclusion};
ghost use Rattle.pr_report.specs.JsonText.{json_verdict};
ghost use Rattle.pr_recording.specs.declared.wording.Wording.{Wording};
ghost use Rattle.pr_recording.specs.Decoded.{last_lines, readings_text};
ghost use Rattle.pr_recording.specs.Narrated.{HasAccounted, bounds_in, reading_text, readings_told};

use crate::tape::Takes;
use crate::wording::Wording;
use pr_capture::TraceInput;
use pr_decode::Reading;
use pr_report::{
    Bounds, Context, Oddities, Survey, push_json_reading, push_json_verdict, push_oddities,
    push_reading,
};
use pr_wire::WaveFault;
use std::alloc::{AllocError, Global};

/// The lines of the readings so far that are not written yet, and a survey of all of them.
#[derive(Drop)]
pub struct ReadingLog {
    /// How readings are written.
    wording: Wording,
    /// What comes before the next reading.
    context: Context,
    survey: Survey,
    lines: Vec<u8>,
}

/// The bounds of the intervals and of the verdict; JSON has none.
fn bounds_in(wording: Wording) -> Bounds
    ensures { result ≡ bounds_in wording }
{
    match wording {
        Wording::Lines(detail) => detail.bounds,
        Wording::Json => Bounds::Profile,
    }
}

/// Adds a reading to a text.
fn push_worded(
    text: &mut Vec<u8>,
    wording: Wording,
    context: Context,
    reading: &Reading,
) -> Result<(), AllocError>
    ensures { OnOk result (text.new.items ≡ text.old.items ++ reading_text wording context reading.now) }
{
    match wording {
        Wording::Lines(detail) => push_reading(text, context, reading, detail),
        Wording::Json => push_json_reading(text, reading),
    }
}

/// Adds the summary of all readings, with the table of intervals if it is asked for, the verdict on them, and what is odd.
fn push_summing_up(
    text: &mut Vec<u8>,
    survey: &Survey,
    has_intervals: bool,
    trace: TraceInput<'_>,
    fault: Option<WaveFault>,
    odd: Oddities,
) -> Result<(), AllocError>
    ensures { OnOk result ((bounds : Bounds) (given : List Reading) → HasSurveyed bounds given survey.now → text.new.items
        ≡ text.old.items ++ (summary has_intervals bounds given ++ (conclusion bounds fault given ++ oddities_text trace.entry odd))) }
{
    survey.push_summary(text, has_intervals)?;
    survey.push_conclusion(text, fault)?;
    push_oddities(text, trace, odd)?;
    Ok(())
}

impl ReadingLog {
    /// A log of no reading, which writes readings so.
    pub fn new(alloc: Global, wording: Wording) -> Result<ReadingLog, AllocError>
        ensures accounted { IfOk result (λ log. HasAccounted wording [] [] log) }
        ensures count { IfOk result (λ log. readings_told log ≡ 0) }
    {
        Ok(ReadingLog {
            wording,
            context: Context::new(),
            survey: Survey::new(alloc, bounds_in(wording))?,
            lines: Vec::new(alloc),
        })
    }

    /// The lines that are not written yet.
    pub fn lines(&self) -> &[u8]
        ensures { result.now ≡ self.now.lines.items }
    {
        self.lines.as_slice()
    }

    /// Gives up these lines, once they are written.
    pub fn clear(&mut self)
        ensures cleared { (wording : Wording) (given : List Reading) (written : List ℕ) → HasAccounted wording given written self.old →
            HasAccounted wording given (written ++ self.old.lines.items) self.new }
        ensures count { readings_told self.new ≡ readings_told self.old }
    {
        self.lines.clear();
    }

    /// Gives these lines. It takes no memory.
    pub fn into_lines(self) -> Vec<u8>
        ensures { result ≡ self.lines }
    {
        self.lines
    }

    /// Ends the readings of an input: gives the lines that are not written yet, and what follows them at the end, by
    /// the fault of the edges that were seen, and by what is odd about them.
    pub fn finish(
        self,
        trace: TraceInput<'_>,
        fault: Option<WaveFault>,
        odd: Oddities,
    ) -> Result<Vec<u8>, AllocError>
        ensures { IfOk result (λ text. (wording : Wording) (edges : List Edge) (given : List Reading) (written : List ℕ) →
            odd ≡ oddities_of edges given → HasAccounted wording given written self →
            written ++ text.items ≡ readings_text wording given ++ last_lines wording trace.entry fault edges given) }
    {
        let mut lines = self.lines;
        match self.wording {
            Wording::Lines(detail) => {
                push_summing_up(
                    &mut lines,
                    &self.survey,
                    detail.intervals,
                    trace,
                    fault,
                    odd,
                )?;
                Ok(lines)
            }
            Wording::Json => {
                push_json_verdict(&mut lines, fault)?;
                Ok(lines)
            }
        }
    }
}

impl Takes for ReadingLog {
    ghost use Rattle.pr_recording.specs.Adds.{adds_both, adds_none, fewer_fit};
    ghost use Rattle.pr_recording.specs.Narrated.{AccountsMore, HasAccounted, readings_told};

    ghost takes = { AccountsMore };

    ghost may_take = { λ n log. readings_told log + n ≤ 2 ^ 64 - 1 };

    ghost takes_none = { λ log w given written. adds_none (λ rs l. HasAccounted w rs written l) log given };

    ghost takes_both = { λ xs ys a b c h k w given written. adds_both (λ rs l. HasAccounted w rs written l) xs ys a b c
        (λ rs. h w rs written) (λ rs. k w rs written) given };

    ghost takes_fewer = { λ k n log. fewer_fit k n (readings_told log) (2 ^ 64 - 1) };

    #[inline(always)]
    fn take_reading(&mut self, reading: &Reading) -> Result<(), AllocError> {
        push_worded(&mut self.lines, self.wording, self.context, reading)?;
        self.context = self.context.after(reading);
        self.survey.take(reading);
        Ok(())
    }
}
