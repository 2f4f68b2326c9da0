//! Refused memory.

ghost use Rattle.std.specs.Prelude.{◌≡◌, ◌≤◌, false, length, None};
ghost use Rattle.pr_basic.specs.Limits.{statement_limit};

use crate::system::two_letters::{BOTH, is_outcome, typical};
use pr_basic::{Statement, StatusMode, read_script};
use pr_refusals::most_refusals;
use pr_serial::Bus;
use pr_system::{Running, RunningOver, run, without_device};
use std::process::Abort;

/// Performs statements, none of which stops. True if memory is refused: once a step was refused, each
/// later one is.
pub fn are_refused<B: Bus + Drop>(
    rt: &impl Abort,
    running: &mut RunningOver<B>,
    statements: &[Statement],
) -> bool
    requires { running.old.failed ≡ false → running.old.stop ≡ None }
{
    let mut refused = false;
    for statement in statements {
        assert!(rt; running.statuses().len() < 1000);
        match running.step(statement) {
            Ok(stop) => assert!(rt; stop.is_none() && !refused),
            Err(_refused) => refused = true,
        }
    }
    refused
}

/// Performs the statements one by one. True if memory is refused; if not, the outcome is right.
fn steps_are_refused(rt: &(impl Abort + AllocGlobal), statements: &[Statement]) -> bool {
    let Ok(mut running) = Running::new(rt.alloc(), BOTH, typical(rt.alloc()), StatusMode::Each)
    else {
        return true;
    };
    let refused = are_refused(rt, &mut running, statements);
    let outcome = running.finish();
    assert!(rt; refused || is_outcome(&outcome, &[0; 4], None, b"X\r", 0));
    refused
}

/// Runs the statements. True if memory is refused; if not, the outcome is right.
fn run_is_refused(rt: &(impl Abort + AllocGlobal), statements: &[Statement]) -> bool
    requires { length statements.now ≤ statement_limit }
{
    let delays = typical(rt.alloc());
    match run(rt.alloc(), statements, BOTH, delays, StatusMode::Each) {
        Ok(outcome) => {
            assert!(rt; is_outcome(&outcome, &[0; 4], None, b"X\r", 110));
            false
        }
        Err(_refused) => true,
    }
}

/// Leaves printer 4 out of the statements. True if memory is refused; if not, one is left.
fn leaving_out_is_refused(rt: &(impl Abort + AllocGlobal), statements: &[Statement]) -> bool {
    match without_device(rt.alloc(), statements, 4) {
        Ok(rest) => {
            assert!(rt; rest.len() == 1);
            false
        }
        Err(_refused) => true,
    }
}

/// How many calls are refused memory. Each other one gives what it gives with ample memory.
fn refusals(rt: &(impl Abort + AllocGlobal)) -> usize {
    let script = b"OPEN 4,4\nPRINT#4,\"HI\"\nPRINT \"X\"\nCLOSE 4";
    let Ok(statements) = read_script(rt.alloc(), script) else {
        return 1;
    };
    usize::from(steps_are_refused(rt, &statements))
        + usize::from(run_is_refused(rt, &statements))
        + usize::from(leaving_out_is_refused(rt, &statements))
}

/// `make test` runs this with each allocation refused in turn: the call in which it is refused
/// reports lack of memory, and each other call answers as with ample memory. With no allocation
/// refused no call is.
#[test]
fn each_growth_refused(rt: HostRuntime) {
    let refused = refusals(&rt).saturating_add(refusals(&rt));
    assert!(rt; refused <= most_refusals(&rt), "{refused} refusals");
}
