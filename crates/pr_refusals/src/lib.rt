//! How many refusals of memory a test may meet.
//!
//! Worked tests fail where memory is refused, since they show that calls succeed with ample memory. A run in which
//! `tests/lib/faults.c` refuses a growth is judged by one test of each crate of tests, which allows as many refusals as
//! that run makes; so code that refuses everything fails it.
#![tactic(auto)]

ghost use Rattle.std.specs.Prelude.{◌≤◌};

use std::env::FillError;
use std::rt::Env;

/// How many calls may be refused: one where the environment says which allocation is refused, else none.
pub fn most_refusals(rt: &impl Env) -> usize
    ensures { result ≤ 1 }
{
    match rt.var("FAULT_ALLOC", &mut [0; 8]) {
        Err(FillError::NotPresent) => 0,
        _ => 1,
    }
}
