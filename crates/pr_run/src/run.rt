//! A run of a program.

ghost use Rattle.std.specs.Prelude.{◌≡◌, ◌++◌, IfOk, OnOk};
ghost use Rattle.std.specs.Option.{option_to_list};
ghost use Rattle.std.specs.List.{slice_get};
ghost use Rattle.pr_run.specs.Runs.{ending_in, run};
ghost use Rattle.pr_run.specs.Endings.{is_memory};
ghost use Rattle.pr_run.specs.Seen.{LeadsOn};

use crate::ending::{Ending, Refusal};
use crate::memory::fits;
use crate::outcome::Outcome;
use crate::performed::Performed;
use crate::programs::Program;
use crate::state::Run;
use crate::steps::step;
use pr_page::Sequence;
use std::alloc::{AllocError, Global};

/// Adds what a step performed.
fn put(performed: &mut Vec<Performed>, done: Option<Performed>) -> Result<(), AllocError>
    ensures { OnOk result (performed.new.items ≡ performed.old.items ++ option_to_list done) }
{
    match done {
        Some(done) => match performed.push(done) {
            Ok(()) => Ok(()),
            Err(_) => Err(AllocError),
        },
        None => Ok(()),
    }
}

/// Returns whether memory ran out.
fn is_memory(ending: Ending) -> bool
    ensures { result ≡ is_memory ending }
{
    match ending {
        Ending::OutOfMemory => true,
        Ending::LastLine
        | Ending::End(_)
        | Ending::Break(_)
        | Ending::Error { .. }
        | Ending::Refused { .. }
        | Ending::TooManySteps(_) => false,
    }
}

/// Does a step, and adds what it performs. Returns how the run ends, if it does.
#[tactic(auto, using(crate::proofs::StepLemmas::step_leads, crate::proofs::StepLemmas::step_stops))]
fn advance(
    alloc: Global,
    program: &Program,
    run: &mut Run,
    performed: &mut Vec<Performed>,
) -> Result<Option<Ending>, AllocError>
    ensures { IfOk result (λ ending. LeadsOn program.now performed.old.items run.old performed.new.items run.new ending) }
{
    match step(alloc, program, run) {
        Ok(done) => {
            put(performed, done.performed)?;
            Ok(done.ending)
        }
        Err(ending) => {
            if is_memory(ending) {
                return Err(AllocError);
            }
            Ok(Some(ending))
        }
    }
}

/// Returns how a run ends that has no step left: in a line the limit is used up; after the last line the run is over.
fn without_steps(program: &Program, run: &Run) -> Ending
    ensures { result ≡ ending_in (slice_get program.now.lines run.now.place.line) }
{
    match program.lines.as_slice().get(run.place.line) {
        Some(line) => Ending::TooManySteps(line.number),
        None => Ending::LastLine,
    }
}

/// Runs a program, for so many steps at most: a step is a statement, or goes from the end of a line to the next one.
/// Returns what it performs, how it ends, and the line of the first POKE that it leaves out. A program for which the
/// machine may not have the memory is refused at its first byte.
///
/// # Errors
///
/// Memory ran out.
#[tactic(auto, using(crate::proofs::StepLemmas::run_begins, crate::proofs::StepLemmas::run_refused, crate::proofs::StepLemmas::runs_on, crate::proofs::StepLemmas::runs_ended, crate::proofs::StepLemmas::runs_out), unfolding(crate::specs::Runs::run))]
pub fn run_program(alloc: Global, program: &Program, limit: u64) -> Result<Outcome, AllocError>
    ensures { IfOk result (λ outcome. outcome ≡ run limit program.now) }
{
    let mut run = Run::new(alloc);
    let mut performed = Vec::new(alloc);
    if !fits(program, &run) {
        return Ok(Outcome {
            performed: Sequence::from_vec(performed),
            ending: Ending::Refused {
                refusal: Refusal::FullMemory,
                place: 0,
            },
            skipped_poke: None,
        });
    }
    let mut left = limit;
    'steps: while 0 < left {
        left -= 1;
        let skipped_poke = run.skipped_poke;
        if let Some(ending) = advance(alloc, program, &mut run, &mut performed)? {
            return Ok(Outcome {
                performed: Sequence::from_vec(performed),
                ending,
                skipped_poke,
            });
        }
    }
    Ok(Outcome {
        performed: Sequence::from_vec(performed),
        ending: without_steps(program, &run),
        skipped_poke: run.skipped_poke,
    })
}
