//! Values of BASIC, and what operators give of them.

ghost use Rattle.std.specs.Prelude.{◌≡◌, ◌++◌, ◌⊎◌, IfErr, IfOk, Ok, Err};
ghost use Rattle.pr_interpreter.specs.Values.{calculated, from_word, hits, is_above, is_below, is_equal_alone, joined, misses, of_numbers, of_texts, power, powered, stop_of, text_order, truth, word_in, word_of};

use crate::expressions::Operator;
use crate::fault::NumberFault;
use crate::number::{Number, product, quotient};
use crate::orders::{Order, order_of};
use crate::powers::whole_power;
use crate::sums::sum;
use crate::whole_numbers::{Whole, floor};
use pr_page::Sequence;
use std::alloc::{AllocError, Global};

/// A value.
#[derive(Debug, Drop)]
pub enum Value {
    Number(Number),
    /// A string, of at most 255 bytes.
    Text(Sequence<u8>),
}

/// An error that the machine reports.
#[derive(Clone, Copy, Debug, PartialEq, Eq)]
pub enum BasicError {
    Syntax,
    TypeMismatch,
    IllegalQuantity,
    Overflow,
    DivisionByZero,
    StringTooLong,
    FormulaTooComplex,
    BadSubscript,
    RedimensionedArray,
    UndefinedFunction,
    UndefinedStatement,
    OutOfData,
    ReturnWithoutGosub,
    NextWithoutFor,
    FileOpen,
    FileNotOpen,
    NotInputFile,
    TooManyFiles,
}

/// Why there is no value.
#[derive(Clone, Copy, Debug, PartialEq, Eq)]
pub enum Stop {
    /// Memory ran out.
    OutOfMemory,
    /// What the machine would give is not certain.
    NotCertain,
    Error(BasicError),
}

/// Why an expression has no value.
#[derive(Clone, Copy, Debug, PartialEq, Eq)]
pub enum Halt {
    /// Memory ran out.
    OutOfMemory,
    /// The machine reports an error.
    Error(BasicError),
    /// What the machine would give at this place, the number of bytes before it, is not certain.
    NotCertain(usize),
    /// At this place is what a run does not take, as RND or TI.
    NotTaken(usize),
    /// At this place is an array for which the machine may have no memory.
    FullMemory(usize),
    /// At this place is an operand or a call for which the machine's stack may have no room.
    FullStack(usize),
}

/// Returns why there is no value where a calculation has no result.
fn stop_of(fault: NumberFault) -> Stop
    ensures { result ≡ stop_of fault }
{
    match fault {
        NumberFault::NotCertain => Stop::NotCertain,
        NumberFault::Overflow => Stop::Error(BasicError::Overflow),
        NumberFault::DivisionByZero => Stop::Error(BasicError::DivisionByZero),
    }
}

/// Returns the result of a calculation.
pub fn calculated(result_of: Result<Number, NumberFault>) -> Result<Number, Stop>
    ensures { result ≡ calculated result_of }
{
    match result_of {
        Ok(number) => Ok(number),
        Err(fault) => Err(stop_of(fault)),
    }
}

/// Returns whether an order that may be is accepted.
fn hits(wanted: Order, order: Order) -> bool
    ensures { result ≡ hits wanted order }
{
    wanted.less && order.less || wanted.equal && order.equal || wanted.greater && order.greater
}

/// Returns whether an order that may be is not accepted.
fn misses(wanted: Order, order: Order) -> bool
    ensures { result ≡ misses wanted order }
{
    !wanted.less && order.less || !wanted.equal && order.equal || !wanted.greater && order.greater
}

/// Returns what a comparison gives: -1 or 0, if it is so for every order that may be.
#[tactic(auto, unfolding(crate::specs::Values::truth))]
fn truth(wanted: Order, order: Order) -> Result<Number, Stop>
    ensures { result ≡ truth wanted order }
{
    if !hits(wanted, order) {
        return Ok(Number::zero());
    }
    if misses(wanted, order) {
        return Err(Stop::NotCertain);
    }
    Ok(Number::whole(true, 1))
}

/// Returns the 16 binary digits of a whole number from -32768 to 32767.
fn word_in(whole: Option<Whole>) -> Result<u16, Stop>
    ensures { result ≡ word_in whole }
{
    let Some(whole) = whole else {
        return Err(Stop::NotCertain);
    };
    if whole.negative {
        if whole.magnitude <= 32768 {
            Ok(((65536 - whole.magnitude) % 65536) as u16)
        } else {
            Err(Stop::Error(BasicError::IllegalQuantity))
        }
    } else if whole.magnitude <= 32767 {
        Ok(whole.magnitude as u16)
    } else {
        Err(Stop::Error(BasicError::IllegalQuantity))
    }
}

/// Returns the 16 binary digits of the whole number of a number.
#[tactic(auto, unfolding(crate::specs::Values::word_of))]
fn word_of(number: Number) -> Result<u16, Stop>
    ensures { result ≡ word_of number }
{
    word_in(floor(number))
}

/// Returns the number that 16 binary digits are.
fn from_word(word: u16) -> Number
    ensures { result ≡ from_word word }
{
    if word < 32768 {
        Number::whole(false, u32::from(word))
    } else {
        Number::whole(true, 65536 - u32::from(word))
    }
}

/// Returns whether nothing else than equal may be.
fn is_equal_alone(order: Order) -> bool
    ensures { result ≡ is_equal_alone order }
{
    order.equal && !order.less && !order.greater
}

/// Returns whether every value is below what it is compared with.
pub fn is_below(order: Order) -> bool
    ensures { result ≡ is_below order }
{
    order.less && !order.equal && !order.greater
}

/// Returns whether every value is above what it is compared with.
fn is_above(order: Order) -> bool
    ensures { result ≡ is_above order }
{
    order.greater && !order.less && !order.equal
}

/// Returns a power of which this is the whole part of the exponent.
fn powered(a: Number, b: Number, whole: Option<Whole>) -> Result<Number, Stop>
    ensures { result ≡ powered a b whole }
{
    let Some(whole) = whole else {
        return Err(Stop::NotCertain);
    };
    if 255 < whole.magnitude {
        return Err(Stop::NotCertain);
    }
    let exponent = whole.magnitude as u8;
    let order = order_of(b, Number::whole(whole.negative, u32::from(exponent)));
    if is_equal_alone(order) && 0 < exponent {
        return calculated(whole_power(a, whole.negative, exponent));
    }
    if is_below(order_of(a, Number::zero())) && !order.equal {
        return Err(Stop::Error(BasicError::IllegalQuantity));
    }
    Err(Stop::NotCertain)
}

/// Returns a power: those with whole exponents from -255 to 255 are certain, but not exact.
#[tactic(auto, unfolding(crate::specs::Values::power))]
fn power(a: Number, b: Number) -> Result<Number, Stop>
    ensures { result ≡ power a b }
{
    if b.is_zero() {
        return Ok(Number::whole(false, 1));
    }
    if !a.is_zero() {
        return powered(a, b, floor(b));
    }
    if is_above(order_of(b, Number::zero())) {
        return Ok(Number::zero());
    }
    Err(Stop::NotCertain)
}

/// Returns what an operator gives of two numbers; one that takes one number takes the second.
///
/// # Errors
///
/// The error that the machine reports, or that what it gives is not certain.
#[tactic(auto, unfolding(crate::specs::Values::of_numbers))]
pub fn of_numbers(operator: Operator, a: Number, b: Number) -> Result<Number, Stop>
    ensures { result ≡ of_numbers operator a b }
{
    match operator {
        Operator::Plus => calculated(sum(a, b)),
        Operator::Minus => calculated(sum(a, b.negated())),
        Operator::Times => calculated(product(a, b)),
        Operator::Over => calculated(quotient(a, b)),
        Operator::Power => power(a, b),
        Operator::Compare(wanted) => truth(wanted, order_of(a, b)),
        Operator::And => {
            let v = word_of(a)?;
            let w = word_of(b)?;
            Ok(from_word(v & w))
        }
        Operator::Or => {
            let v = word_of(a)?;
            let w = word_of(b)?;
            Ok(from_word(v | w))
        }
        Operator::Negate => Ok(b.negated()),
        Operator::Not => {
            let w = word_of(b)?;
            Ok(from_word(65535 - w))
        }
    }
}

/// The order of a string that is less.
const LESS: Order = Order {
    less: true,
    equal: false,
    greater: false,
};

/// The order of equal strings.
const SAME: Order = Order {
    less: false,
    equal: true,
    greater: false,
};

/// The order of a string that is greater.
const GREATER: Order = Order {
    less: false,
    equal: false,
    greater: true,
};

/// Returns the order of two strings, byte by byte.
#[tactic(auto, using(crate::proofs::ValueLemmas::order_ends, crate::proofs::ValueLemmas::order_less, crate::proofs::ValueLemmas::order_greater, crate::proofs::ValueLemmas::order_more, crate::proofs::ValueLemmas::order_short, crate::proofs::ValueLemmas::order_same))]
fn text_order(a: &[u8], b: &[u8]) -> Order
    ensures { result ≡ text_order a.now b.now }
{
    'bytes: for (i, x) in a.iter().enumerate() {
        if b.len() <= i {
            return GREATER;
        }
        if *x < b[i] {
            return LESS;
        }
        if b[i] < *x {
            return GREATER;
        }
    }
    if a.len() < b.len() { LESS } else { SAME }
}

/// Returns the bytes of two strings, one after the other.
fn both(alloc: Global, a: &[u8], b: &[u8]) -> Result<Vec<u8>, AllocError>
    ensures { IfOk result (λ text. text.items ≡ a.now ++ b.now) }
{
    let mut text = Vec::from_slice(alloc, a)?;
    text.extend_from_slice(b)?;
    Ok(text)
}

/// Returns two strings joined.
fn joined(alloc: Global, a: &[u8], b: &[u8]) -> Result<Value, Stop>
    ensures ok { IfOk result (λ v. joined a.now b.now ≡ Ok v) }
    ensures err { IfErr result (λ stop. (stop ≡ Stop.OutOfMemory) ⊎ (joined a.now b.now ≡ Err stop)) }
{
    if 255 < a.len() || 255 - a.len() < b.len() {
        return Err(Stop::Error(BasicError::StringTooLong));
    }
    match both(alloc, a, b) {
        Ok(text) => Ok(Value::Text(Sequence::from_vec(text))),
        Err(_) => Err(Stop::OutOfMemory),
    }
}

/// Returns what an operator gives of two strings.
///
/// # Errors
///
/// The error that the machine reports, or that memory ran out.
#[tactic(auto, unfolding(crate::specs::Values::of_texts))]
pub fn of_texts(alloc: Global, operator: Operator, a: &[u8], b: &[u8]) -> Result<Value, Stop>
    ensures ok { IfOk result (λ v. of_texts operator a.now b.now ≡ Ok v) }
    ensures err { IfErr result (λ stop. (stop ≡ Stop.OutOfMemory) ⊎ (of_texts operator a.now b.now ≡ Err stop)) }
{
    match operator {
        Operator::Plus => joined(alloc, a, b),
        Operator::Compare(wanted) => {
            let number = truth(wanted, text_order(a, b))?;
            Ok(Value::Number(number))
        }
        Operator::Minus
        | Operator::Times
        | Operator::Over
        | Operator::Power
        | Operator::And
        | Operator::Or
        | Operator::Negate
        | Operator::Not => Err(Stop::Error(BasicError::TypeMismatch)),
    }
}
