//! A survey of readings: how many there are, of each interval how many, the least, the middle, the greatest, and
//! how many lie outside its bounds; the first damaged reading, and the first interval outside the guide's bounds.

ghost use Rattle.std.specs.Prelude.{◌≡◌, ◌+◌, ◌^◌, ◌<◌, ◌++◌, ◌∷◌, [], List, IfOk, OnOk};
ghost use Rattle.pr_decode.specs.declared.reading.Reading.{Reading};
ghost use Rattle.pr_report.specs.declared.detail.Bounds.{Bounds};
ghost use Rattle.pr_report.specs.Intervals.{intervals};
ghost use Rattle.pr_report.specs.Verdict.{conclusion};
ghost use Rattle.pr_report.specs.Summary.{interval_lines, interval_lines_if, summary};
ghost use Rattle.pr_report.specs.Taking.{HasSurveyed, number_taken};

use crate::counts::Counts;
use crate::detail::Bounds;
use crate::interval::Interval;
use crate::outside::{Outside, with_reading};
use crate::tally::Tally;
use crate::verdict::{push_verdict, with_damage};
use pr_decode::Reading;
use pr_wire::{NoMemory, WaveFault};
use std::alloc::Global;

/// A survey of the readings of a recording. It keeps none of them: it takes its 1.3 megabytes of memory when
/// it is made, however long the recording is.
///
/// Its contracts say "these readings were taken", and hold for all lists of readings of which that can be
/// said.
#[derive(Drop)]
pub struct Survey {
    /// How many readings were taken.
    taken: u64,
    /// The bounds that intervals are compared with.
    bounds: Bounds,
    /// The first damaged reading.
    damaged: Option<Reading>,
    /// The first interval outside the guide's bounds.
    outside: Option<Outside>,
    counts: Counts,
    ready: Tally,
    first_pull: Tally,
    answer: Tally,
    answer_length: Tally,
    pull_after_answer: Tally,
    shortest_low: Tally,
    longest_low: Tally,
    shortest_high: Tally,
    longest_high: Tally,
    acknowledgement: Tally,
}

impl Survey {
    /// Makes a survey that has taken no reading, and holds intervals against these bounds. It takes all the memory
    /// that a survey ever needs, 1.3 megabytes.
    ///
    /// # Errors
    ///
    /// [`NoMemory`] where memory was refused.
    pub fn new(alloc: Global, bounds: Bounds) -> Result<Survey, NoMemory>
        ensures taken { IfOk result (λ survey. HasSurveyed bounds [] survey) }
        ensures count { IfOk result (λ survey. number_taken survey ≡ 0) }
    {
        Ok(Survey {
            taken: 0,
            bounds,
            damaged: None,
            outside: None,
            counts: Counts::new(),
            ready: Tally::new(alloc, bounds, Interval::Ready)?,
            first_pull: Tally::new(alloc, bounds, Interval::FirstPull)?,
            answer: Tally::new(alloc, bounds, Interval::Answer)?,
            answer_length: Tally::new(alloc, bounds, Interval::AnswerLength)?,
            pull_after_answer: Tally::new(alloc, bounds, Interval::PullAfterAnswer)?,
            shortest_low: Tally::new(alloc, bounds, Interval::ShortestLow)?,
            longest_low: Tally::new(alloc, bounds, Interval::LongestLow)?,
            shortest_high: Tally::new(alloc, bounds, Interval::ShortestHigh)?,
            longest_high: Tally::new(alloc, bounds, Interval::LongestHigh)?,
            acknowledgement: Tally::new(alloc, bounds, Interval::Acknowledgement)?,
        })
    }

    /// Takes one more reading. It takes no memory. The number of readings stays below 2^64.
    pub fn take(&mut self, reading: &Reading)
        requires room { number_taken self.old + 1 < 2 ^ 64 }
        ensures taken { (bounds : Bounds) (readings : List Reading) → HasSurveyed bounds readings self.old →
            HasSurveyed bounds (readings ++ reading.now ∷ []) self.new }
        ensures count { number_taken self.new ≡ number_taken self.old + 1 }
    {
        self.taken += 1;
        self.damaged = with_damage(self.damaged, reading);
        self.outside = with_reading(self.outside, reading);
        self.counts = self.counts.with(reading);
        self.ready.take(reading);
        self.first_pull.take(reading);
        self.answer.take(reading);
        self.answer_length.take(reading);
        self.pull_after_answer.take(reading);
        self.shortest_low.take(reading);
        self.longest_low.take(reading);
        self.shortest_high.take(reading);
        self.longest_high.take(reading);
        self.acknowledgement.take(reading);
    }

    /// Adds the lines of the intervals.
    fn push_intervals(&self, text: &mut Vec<u8>) -> Result<(), NoMemory>
        ensures { OnOk result ((bounds : Bounds) (readings : List Reading) → HasSurveyed bounds readings self.now →
            text.new.items ≡ text.old.items ++ interval_lines bounds intervals readings) }
    {
        self.ready.push_line(text)?;
        self.first_pull.push_line(text)?;
        self.answer.push_line(text)?;
        self.answer_length.push_line(text)?;
        self.pull_after_answer.push_line(text)?;
        self.shortest_low.push_line(text)?;
        self.longest_low.push_line(text)?;
        self.shortest_high.push_line(text)?;
        self.longest_high.push_line(text)?;
        self.acknowledgement.push_line(text)?;
        Ok(())
    }

    /// Adds the lines of the intervals, if they are asked for.
    fn push_intervals_if(&self, text: &mut Vec<u8>, has_intervals: bool) -> Result<(), NoMemory>
        ensures { OnOk result ((bounds : Bounds) (readings : List Reading) → HasSurveyed bounds readings self.now →
            text.new.items ≡ text.old.items ++ interval_lines_if has_intervals bounds readings) }
    {
        if has_intervals {
            self.push_intervals(text)
        } else {
            Ok(())
        }
    }

    /// Adds the summary of the readings taken to a text: where intervals are asked for, a line for each
    /// with how many readings have it, its least, middle and greatest length in microseconds, and how many
    /// lie outside its bounds; and then the three lines of the counts. The middle is the least length that at
    /// least half of them do not exceed; from 16384 microseconds on it is written as `over 16383`.
    ///
    /// # Errors
    ///
    /// [`NoMemory`] where a growth of the text was refused. Nothing is promised of the text then.
    pub fn push_summary(&self, text: &mut Vec<u8>, has_intervals: bool) -> Result<(), NoMemory>
        ensures { OnOk result ((bounds : Bounds) (readings : List Reading) → HasSurveyed bounds readings self.now →
            text.new.items ≡ text.old.items ++ summary has_intervals bounds readings) }
    {
        self.push_intervals_if(text, has_intervals)?;
        self.counts.push_lines(text)?;
        Ok(())
    }

    /// Adds the line of the verdict on the readings taken to a text, for the first fault of their edges. It names the
    /// first damaged reading: an incomplete byte, or one that the recording's end cuts. By the profile it says whether
    /// the edges have this project's timing; where they have a fault, and by the guide in any case, whether all
    /// intervals lie within the guide's bounds, or else the first outside, in the order of the readings and of their
    /// intervals.
    ///
    /// # Errors
    ///
    /// [`NoMemory`] where a growth of the text was refused. Nothing is promised of the text then.
    pub fn push_conclusion(
        &self,
        text: &mut Vec<u8>,
        fault: Option<WaveFault>,
    ) -> Result<(), NoMemory>
        ensures { OnOk result ((bounds : Bounds) (readings : List Reading) → HasSurveyed bounds readings self.now →
            text.new.items ≡ text.old.items ++ conclusion bounds fault readings) }
    {
        push_verdict(
            text,
            self.bounds,
            fault,
            self.damaged,
            self.taken,
            self.outside,
        )?;
        Ok(())
    }
}
