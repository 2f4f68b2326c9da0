//! What the values of a statement give.

ghost use Rattle.std.specs.Prelude.{◌≡◌, ◌≤◌, IfOk};
ghost use Rattle.pr_run.specs.Uses.{direction_by, ending_of, ends_loop, first_place, halted, is_long, kept, may_end};
ghost use Rattle.pr_run.specs.Uses.{may_go_on, number_of, number_value, place_from, short_of, short_value, truth_of};
ghost use Rattle.pr_run.specs.Uses.{used, whole_of};

use crate::ending::{Ending, Refusal};
use crate::opened::Direction;
use pr_interpreter::{
    BasicError, Halt, Kind, Number, Order, Placed, Stop, Value, Whole, floor, order_of, whole_to,
};

/// Where a value is used.
#[derive(Clone, Copy)]
pub struct Use {
    /// The number of the line.
    pub line: u16,
    /// The place in the text, as the number of bytes before it.
    pub place: usize,
}

/// Returns how the run ends where a use of a value has no answer.
pub fn ending_of(at: Use, stop: Stop) -> Ending
    ensures { result ≡ ending_of at stop }
{
    match stop {
        Stop::NotCertain => Ending::Refused {
            refusal: Refusal::NotCertain,
            place: at.place,
        },
        Stop::Error(error) => Ending::Error {
            error,
            line: at.line,
        },
        Stop::OutOfMemory => Ending::OutOfMemory,
    }
}

/// Returns how the run ends where an expression in a line has no value.
pub fn halted(line: u16, halt: Halt) -> Ending
    ensures { result ≡ halted line halt }
{
    match halt {
        Halt::NotCertain(place) => Ending::Refused {
            refusal: Refusal::NotCertain,
            place,
        },
        Halt::NotTaken(place) => Ending::Refused {
            refusal: Refusal::NotTaken,
            place,
        },
        Halt::FullMemory(place) => Ending::Refused {
            refusal: Refusal::FullMemory,
            place,
        },
        Halt::FullStack(place) => Ending::Refused {
            refusal: Refusal::FullStack,
            place,
        },
        Halt::Error(error) => Ending::Error { error, line },
        Halt::OutOfMemory => Ending::OutOfMemory,
    }
}

/// Returns the first of a place and the places of nodes.
fn place_from(first: usize, nodes: &[Placed]) -> usize
    ensures { result ≡ place_from first nodes.now }
{
    let mut place = first;
    for node in nodes {
        place = place.min(node.place);
    }
    place
}

/// Returns the first place in the text that a node of an expression has.
pub fn first_place(nodes: &[Placed]) -> usize
    ensures { result ≡ first_place nodes.now }
{
    match nodes {
        [first, rest @ ..] => place_from(first.place, rest),
        [] => 0,
    }
}

/// Returns the number that a value has to be.
pub fn number_of(value: Value) -> Result<Number, Stop>
    ensures { result ≡ number_of value }
{
    match value {
        Value::Number(number) => Ok(number),
        Value::Text(_) => Err(Stop::Error(BasicError::TypeMismatch)),
    }
}

/// Returns the whole number, from 0 to a greatest one, that a value has to be.
#[tactic(auto, using(crate::proofs::UseLemmas::whole_fits))]
pub fn whole_of(greatest: u16, value: Value) -> Result<u16, Stop>
    ensures value { result ≡ whole_of greatest value }
    ensures within { IfOk result (λ n. n ≤ greatest) }
{
    match value {
        Value::Number(number) => whole_to(greatest, number),
        Value::Text(_) => Err(Stop::Error(BasicError::TypeMismatch)),
    }
}

/// Returns whether the value of a condition is true: not 0.
pub fn truth_of(value: Value) -> Result<bool, Stop>
    ensures { result ≡ truth_of value }
{
    let Value::Number(number) = value else {
        return Err(Stop::NotCertain);
    };
    if number.is_zero() {
        return Ok(false);
    }
    if order_of(number, Number::zero()).equal {
        return Err(Stop::NotCertain);
    }
    Ok(true)
}

/// Returns whether every value is below -32768, or at least 32768, by the orders to these.
fn is_long(low: Order, high: Order) -> bool
    ensures { result ≡ is_long low high }
{
    low.less && !low.equal && !low.greater || !high.less
}

/// Returns the whole number of a number, from -32768 to 32767.
fn short_of(number: Number, whole: Option<Whole>) -> Result<Number, Stop>
    ensures { result ≡ short_of number whole }
{
    match whole {
        None => {
            let low = order_of(number, Number::whole(true, 32768));
            let high = order_of(number, Number::whole(false, 32768));
            Err(if is_long(low, high) {
                Stop::Error(BasicError::IllegalQuantity)
            } else {
                Stop::NotCertain
            })
        }
        Some(whole) => {
            let greatest = if whole.negative { 32768 } else { 32767 };
            if greatest < whole.magnitude {
                return Err(Stop::Error(BasicError::IllegalQuantity));
            }
            Ok(Number::whole(whole.negative, whole.magnitude as u32))
        }
    }
}

/// Returns what a variable with `%` keeps of a number.
#[tactic(auto, unfolding(crate::specs::Uses::short_value))]
fn short_value(number: Number) -> Result<Value, Stop>
    ensures { result ≡ short_value number }
{
    match short_of(number, floor(number)) {
        Ok(short) => Ok(Value::Number(short)),
        Err(stop) => Err(stop),
    }
}

/// Returns what a variable of a kind keeps of a value.
#[tactic(auto, unfolding(crate::specs::Uses::kept))]
pub fn kept(kind: Kind, value: Value) -> Result<Value, Stop>
    ensures { result ≡ kept kind value }
{
    match (kind, value) {
        (Kind::Number, Value::Number(number)) => Ok(Value::Number(number)),
        (Kind::Whole, Value::Number(number)) => short_value(number),
        (Kind::Text, Value::Text(text)) => Ok(Value::Text(text)),
        (Kind::Number | Kind::Whole, Value::Text(_)) | (Kind::Text, Value::Number(_)) => {
            Err(Stop::Error(BasicError::TypeMismatch))
        }
    }
}

/// Returns the way that a step goes, by its order to 0.
#[tactic(auto, unfolding(crate::specs::Uses::direction_by))]
pub fn direction_by(order: Order) -> Result<Direction, Stop>
    ensures { result ≡ direction_by order }
{
    if order.greater {
        if order.less || order.equal {
            return Err(Stop::NotCertain);
        }
        return Ok(Direction::Up);
    }
    if order.less {
        if order.equal {
            return Err(Stop::NotCertain);
        }
        return Ok(Direction::Down);
    }
    Ok(Direction::Still)
}

/// Returns whether a variable in this order to the limit ends a loop.
fn may_end(direction: Direction, order: Order) -> bool
    ensures { result ≡ may_end direction order }
{
    match direction {
        Direction::Up => order.greater,
        Direction::Down => order.less,
        Direction::Still => order.equal,
    }
}

/// Returns whether a loop goes on with a variable in this order to the limit.
fn may_go_on(direction: Direction, order: Order) -> bool
    ensures { result ≡ may_go_on direction order }
{
    match direction {
        Direction::Up => order.less || order.equal,
        Direction::Down => order.greater || order.equal,
        Direction::Still => order.less || order.greater,
    }
}

/// Returns whether a loop ends, by the order of its variable to the limit.
#[tactic(auto, unfolding(crate::specs::Uses::ends_loop))]
pub fn ends_loop(direction: Direction, order: Order) -> Result<bool, Stop>
    ensures { result ≡ ends_loop direction order }
{
    if !may_end(direction, order) {
        return Ok(false);
    }
    if may_go_on(direction, order) {
        return Err(Stop::NotCertain);
    }
    Ok(true)
}
