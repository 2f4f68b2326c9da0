//! The intervals of bytes as numbers: how long each is in a reading, and what its lengths come to. All are in
//! microseconds.

ghost use Rattle.std.specs.Prelude.{◌≡◌, ◌++◌, length, true, IfOk, OnOk};
ghost use Rattle.std.specs.List.{count_by};
ghost use Rattle.pr_decode.specs.Readings.{greatest};
ghost use Rattle.pr_report.specs.declared.detail.Bounds.TheVariants.{Profile};
ghost use Rattle.pr_report.specs.Intervals.{intervals, is_outside};
ghost use Rattle.pr_report.specs.Summary.{at_most, is_half, least_of, lengths, middle};
ghost use Rattle.pr_exports.specs.Lengths.{figures, interval_numbers};

use pr_decode::Reading;
use pr_report::{Bounds, INTERVALS, Interval, middles_are_least};
use pr_wire::NoMemory;
use std::alloc::Global;

/// The lengths of an interval in the readings that have it.
fn lengths_of(interval: Interval, alloc: Global, readings: &[Reading]) -> Result<Vec<u64>, NoMemory>
    ensures { IfOk result (λ found. found.items ≡ lengths interval readings.now) }
{
    let mut found = Vec::new(alloc);
    for reading in readings {
        if let Some(length) = interval.length(reading) {
            found.push(length)?;
        }
    }
    Ok(found)
}

/// How many lengths of an interval lie outside its bounds by the profile.
fn outside(interval: Interval, lengths: &[u64]) -> u64
    ensures { result ≡ count_by (is_outside Profile interval) lengths.now }
{
    let mut count: u64 = 0;
    for length in lengths {
        if interval.is_outside(Bounds::Profile, *length) {
            count += 1;
        }
    }
    count
}

/// The least of some lengths, 0 of none.
fn least(lengths: &[u64]) -> u64
    ensures { result ≡ least_of lengths.now }
{
    let [first, rest @ ..] = lengths else {
        return 0;
    };
    let first = *first;
    let mut least = first;
    for length in rest {
        least = least.min(*length);
    }
    least
}

/// The greatest of some lengths, 0 of none.
fn greatest(lengths: &[u64]) -> u64
    ensures { result ≡ greatest 0 lengths.now }
{
    let mut greatest: u64 = 0;
    for length in lengths {
        greatest = greatest.max(*length);
    }
    greatest
}

/// Whether at least half of some lengths do not exceed a number.
fn is_half(lengths: &[u64], number: u64) -> bool
    ensures { result ≡ is_half lengths.now number }
{
    let mut count: usize = 0;
    for length in lengths {
        if *length <= number {
            count += 1;
        }
    }
    lengths.len() - count <= count
}

/// The middle of some lengths, the least number that at least half of them do not exceed; 0 of none. It is sought
/// between 0 and the greatest of them by halves.
fn middle(lengths: &[u64], greatest: u64) -> u64
    requires all { is_half lengths.now greatest ≡ true }
    ensures { result ≡ middle lengths.now }
{
    middles_are_least();
    let mut low: u64 = 0;
    let mut high = greatest;
    while low < high {
        let between = low + (high - low) / 2;
        if is_half(lengths, between) {
            high = between;
        } else {
            low = between + 1;
        }
    }
    low
}

/// Adds what the lengths of an interval come to.
fn push_figures(numbers: &mut Vec<u64>, interval: Interval, lengths: &[u64]) -> Result<(), NoMemory>
    ensures { OnOk result (numbers.new.items ≡ numbers.old.items ++ figures interval lengths.now) }
{
    let greatest = greatest(lengths);
    numbers.extend_from_slice(&[
        lengths.len() as u64,
        least(lengths),
        middle(lengths, greatest),
        greatest,
        interval.lowest(Bounds::Profile),
        interval.profile_greatest(),
        outside(interval, lengths),
    ])
}

/// What the lengths of all intervals come to, over all readings.
pub fn all_figures(alloc: Global, readings: &[Reading]) -> Result<Vec<u64>, NoMemory>
    ensures { IfOk result (λ numbers. numbers.items ≡ interval_numbers intervals readings.now) }
{
    figures_of(alloc, &INTERVALS, readings)
}

/// What the lengths of some intervals come to, over all readings.
fn figures_of(
    alloc: Global,
    intervals: &[Interval],
    readings: &[Reading],
) -> Result<Vec<u64>, NoMemory>
    ensures { IfOk result (λ numbers. numbers.items ≡ interval_numbers intervals.now readings.now) }
{
    let mut numbers = Vec::new(alloc);
    for interval in intervals {
        let lengths = lengths_of(*interval, alloc, readings)?;
        push_figures(&mut numbers, *interval, lengths.as_slice())?;
    }
    Ok(numbers)
}
