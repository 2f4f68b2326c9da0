//! What is open: loops of FOR, and calls of GOSUB.

ghost use Rattle.std.specs.Prelude.{◌≡◌, ◌<◌, ◌≤◌, ◌+◌, ◌∷◌, None, MatchOption, length, nat_le, reverse};
ghost use Rattle.pr_run.specs.Opened.{caller_of, is_wanted, loop_of, open_size, stack_left, stack_limit, stack_size};
ghost use Rattle.pr_run.specs.Seen.{FindsCaller, FindsLoop};

use crate::place::Place;
use pr_interpreter::{Name, Number, same_name};

/// How many bytes of the machine's stack are surely free for what is open, and for what waits in an expression.
const STACK: usize = 162;

/// How many bytes of it a loop takes.
pub const LOOP: usize = 18;

/// How many bytes of it a call of GOSUB takes.
pub const CALL: usize = 7;

/// Which way a loop goes, by the sign of its step.
#[derive(Clone, Copy)]
pub enum Direction {
    /// The step is above 0: the loop ends when its variable is above the limit.
    Up,
    /// The step is below 0: the loop ends when its variable is below the limit.
    Down,
    /// The step is 0: the loop ends when its variable is the limit.
    Still,
}

/// A loop that FOR began.
#[derive(Clone, Copy)]
pub struct Loop {
    pub variable: Name,
    pub limit: Number,
    pub step: Number,
    pub direction: Direction,
    /// The statement after FOR.
    pub body: Place,
}

/// What is open.
#[derive(Clone, Copy)]
pub enum Open {
    Looping(Loop),
    /// A call of GOSUB, and where RETURN goes on.
    Calling(Place),
}

/// Returns whether a loop's variable is the one of a name, or any.
fn is_wanted(wanted: Option<Name>, name: Name) -> bool
    ensures { result ≡ is_wanted wanted name }
{
    match wanted {
        Some(wanted) => same_name(wanted, name),
        None => true,
    }
}

/// Finds the last loop of a name, or of any, among those since the last GOSUB; what is open is in the order of opening.
/// Returns how many come before it, and the loop.
#[tactic(auto, using(crate::proofs::OpenedLemmas::loop_is, crate::proofs::OpenedLemmas::loop_other, crate::proofs::OpenedLemmas::loop_hidden, crate::proofs::OpenedLemmas::last_first))]
pub fn loop_of(wanted: Option<Name>, opened: &[Open]) -> Option<(usize, Loop)>
    ensures { MatchOption result (loop_of wanted (reverse opened.now) ≡ None) (FindsLoop wanted opened.now) }
{
    let mut count = opened.len();
    while 0 < count {
        count -= 1;
        match opened[count] {
            Open::Looping(current) => {
                if is_wanted(wanted, current.variable) {
                    return Some((count, current));
                }
            }
            Open::Calling(_) => return None,
        }
    }
    None
}

/// Leaves the last call of GOSUB and the loops since then. Returns where it goes on.
#[tactic(auto, using(crate::proofs::OpenedLemmas::caller_is, crate::proofs::OpenedLemmas::caller_before))]
pub fn take_caller(opened: &mut Vec<Open>) -> Option<Place>
    ensures { MatchOption result (caller_of (reverse opened.old.items) ≡ None) (FindsCaller opened.old.items opened.new.items) }
{
    while let Some(last) = opened.pop() {
        match last {
            Open::Looping(_) => {}
            Open::Calling(place) => return Some(place),
        }
    }
    None
}

/// Returns how many bytes of the machine's stack something takes.
fn open_size(open: &Open) -> usize
    ensures { result ≡ open_size open.now }
{
    match open {
        Open::Looping(_) => LOOP,
        Open::Calling(_) => CALL,
    }
}

/// Returns how many bytes of the machine's stack are left for what waits in an expression.
#[tactic(auto, unfolding(crate::specs::Opened::stack_left))]
pub fn stack_left(opened: &[Open]) -> u8
    ensures { result ≡ stack_left (reverse opened.now) }
{
    let mut left = STACK;
    for open in opened {
        left = left.saturating_sub(open_size(open));
    }
    left as u8
}

/// Returns whether the machine's stack surely has room for so many bytes more.
pub fn has_room(opened: &[Open], more: usize) -> bool
    ensures { result ≡ nat_le (more + stack_size (reverse opened.now)) stack_limit }
{
    let mut size = more;
    for open in opened {
        if STACK < size {
            return false;
        }
        size += open_size(open);
    }
    size <= STACK
}
