//! A tally of one interval: how many lengths of it were taken, the least, the middle and the greatest of
//! them, and how many lie outside its bounds. All lengths are in microseconds.

ghost use Rattle.std.specs.Prelude.{◌≡◌, ◌+◌, ◌^◌, ◌<◌, ◌==◌, ◌++◌, ◌∷◌, [], ℕ, List, codes, decimal, get_or, length, min, IfOk, OnOk, if◌then◌else◌};
ghost use Rattle.pr_decode.specs.declared.reading.Reading.{Reading};
ghost use Rattle.pr_report.specs.declared.detail.Bounds.{Bounds};
ghost use Rattle.pr_report.specs.declared.interval.Interval.{Interval};
ghost use Rattle.pr_report.specs.Steps.{Adds, counter_with, first_half, known_text, least_with};
ghost use Rattle.pr_report.specs.Summary.{interval_line, middle_text, outside_count};
ghost use Rattle.pr_report.specs.Taking.{Tallies};

use crate::counts::counted;
use crate::detail::Bounds;
use crate::interval::{Interval, is_beyond};
use crate::numbers::push_numbered;
use pr_decode::Reading;
use pr_wire::NoMemory;
use std::alloc::Global;

/// How many counters a tally has: one for each length below this.
const COUNTERS: usize = 16384;

/// What is known of the lengths of an interval.
#[derive(Drop)]
pub(crate) struct Tally {
    interval: Interval,
    /// The bounds that it is compared with.
    bounds: Bounds,
    /// The least and the greatest length within them, looked up once.
    lowest: u64,
    highest: Option<u64>,
    /// How many there are.
    count: u64,
    /// The least and the greatest; 0 where there is none.
    least: u64,
    greatest: u64,
    /// How many lie outside these bounds.
    outside: u64,
    /// How often each length below [`COUNTERS`] came.
    counters: Vec<u64>,
}

/// `count` counters at 0.
fn zeros(alloc: Global, count: usize) -> Result<Vec<u64>, NoMemory>
    ensures room { IfOk result (λ counters. length counters.items ≡ count) }
    ensures zero { IfOk result (λ counters. (n : ℕ) → n < count → get_or counters.items n 0 ≡ 0) }
{
    let counters = vec![in alloc; 0u64; count]?;
    Ok(counters)
}

/// Counts a length among those that are equal to it, where it has a counter.
fn count_up(counters: &mut Vec<u64>, micros: u64)
    ensures room { length counters.new.items ≡ length counters.old.items }
    ensures counters { (n : ℕ) → n < length counters.old.items →
        get_or counters.new.items n 0 ≡ counter_with micros n (get_or counters.old.items n 0) }
{
    let index = micros as usize;
    if index < counters.len() {
        counters[index] = counters[index].saturating_add(1);
    }
}

/// The least of some lengths and one more, by how many they are and the least of them.
fn least_with(count: u64, least: u64, length: u64) -> u64
    ensures { result ≡ least_with count least length }
{
    if count == 0 {
        length
    } else {
        least.min(length)
    }
}

/// The middle of this many lengths, by their counters: the least that at least half of them do not exceed.
/// None where it has no counter.
fn middle(count: u64, counters: &[u64]) -> Option<u64>
    ensures { result ≡ first_half count 0 0 counters.now }
{
    let mut so_far: u64 = 0;
    for (length, counter) in counters.iter().enumerate() {
        so_far = so_far.saturating_add(*counter);
        if count.saturating_sub(so_far) <= so_far {
            return Some(length as u64);
        }
    }
    None
}

/// Adds a middle.
fn push_middle(text: &mut Vec<u8>, middle: Option<u64>) -> Result<(), NoMemory>
    ensures { OnOk result (text.new.items ≡ text.old.items ++ middle_text middle) }
{
    match middle {
        Some(middle) => push_numbered(text, b", middle ", middle),
        None => text.extend_from_slice(b", middle over 16383"),
    }
}

/// Adds these bounds, and how many lengths lie outside.
fn push_outside_count(
    text: &mut Vec<u8>,
    bounds: Bounds,
    interval: Interval,
    outside: u64,
) -> Result<(), NoMemory>
    ensures { OnOk result (text.new.items ≡ text.old.items ++ outside_count bounds interval outside) }
{
    interval.push_bounds(text, b", outside ", bounds)?;
    push_numbered(text, b": ", outside)
}

impl Tally {
    /// A tally of no length.
    ///
    /// # Errors
    ///
    /// [`NoMemory`] where the counters were refused.
    #[tactic(auto, unfolding(crate::specs::Summary::exact_below))]
    pub fn new(alloc: Global, bounds: Bounds, interval: Interval) -> Result<Tally, NoMemory>
        ensures { IfOk result (λ tally. Tallies bounds interval [] tally) }
    {
        let counters = zeros(alloc, COUNTERS)?;
        Ok(Tally {
            interval,
            bounds,
            lowest: interval.lowest(bounds),
            highest: interval.highest(bounds),
            count: 0,
            least: 0,
            greatest: 0,
            outside: 0,
            counters,
        })
    }

    /// Takes one length more.
    fn add(&mut self, length: u64)
        ensures { Adds length self.old self.new }
    {
        self.least = least_with(self.count, self.least, length);
        self.greatest = self.greatest.max(length);
        let is_outside = is_beyond(length, self.lowest, self.highest);
        self.outside = counted(self.outside, is_outside);
        self.count = self.count.saturating_add(1);
        count_up(&mut self.counters, length);
    }

    /// Takes the interval of a reading, if the reading has it.
    pub fn take(&mut self, reading: &Reading)
        ensures { (bounds : Bounds) (interval : Interval) (readings : List Reading) → length readings + 1 < 2 ^ 64 →
            Tallies bounds interval readings self.old → Tallies bounds interval (readings ++ reading.now ∷ []) self.new }
    {
        let Some(length) = self.interval.length(reading) else {
            return;
        };
        self.add(length);
    }

    /// Adds what is known of the lengths.
    fn push_known(&self, text: &mut Vec<u8>) -> Result<(), NoMemory>
        ensures { OnOk result (text.new.items ≡ text.old.items ++ known_text self.now) }
    {
        if self.count == 0 {
            return text.extend_from_slice(b": none");
        }
        push_numbered(text, b": ", self.count)?;
        push_numbered(text, b", least ", self.least)?;
        push_middle(text, middle(self.count, self.counters.as_slice()))?;
        push_numbered(text, b", greatest ", self.greatest)?;
        push_outside_count(text, self.bounds, self.interval, self.outside)
    }

    /// Adds the line of the interval.
    pub fn push_line(&self, text: &mut Vec<u8>) -> Result<(), NoMemory>
        ensures { OnOk result ((bounds : Bounds) (interval : Interval) (readings : List Reading) → length readings < 2 ^ 64 →
            Tallies bounds interval readings self.now →
            text.new.items ≡ text.old.items ++ interval_line bounds interval readings) }
    {
        text.extend_from_slice(self.interval.name())?;
        self.push_known(text)?;
        text.extend_from_slice(b"\n")?;
        Ok(())
    }
}
