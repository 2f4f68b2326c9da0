//! What operators and functions of the language give of their operands.

ghost use Rattle.std.specs.Prelude.{◌≡◌, IfOk};
ghost use Rattle.pr_interpreter.specs.Evaluation.{applied, called, is_not_taken, middle_by, number_in, number_of_number, number_of_string, number_or, of_one_argument, of_strings, of_three_arguments, of_two, of_two_arguments, position_for, refused_for, string_in, string_of_number, string_or, takes_strings, value_or, with_it};
ghost use Rattle.pr_interpreter.specs.Functions.{middle, part_of, with_whole};
ghost use Rattle.pr_interpreter.specs.Values.{of_texts};

use crate::expressions::Operator;
use crate::functions::{
    character, first_byte, integer_part, length_of, middle, number_at_front, number_text, part_of,
    sign_number, square_root, whole_to,
};
use crate::given::{
    Given, MISMATCH, NOTHING, halt_at, made, number_in, number_or, string_in, string_or,
};
use crate::number::Number;
use crate::orders::order_of;
use crate::values::{Halt, Stop, of_numbers, of_texts};
use pr_page::Sequence;
use std::alloc::{AllocError, Global};

/// Returns whether an operator takes two strings.
fn takes_strings(operator: Operator) -> bool
    ensures { result ≡ takes_strings operator }
{
    match operator {
        Operator::Plus | Operator::Compare(_) => true,
        Operator::Power
        | Operator::Negate
        | Operator::Times
        | Operator::Over
        | Operator::Minus
        | Operator::Not
        | Operator::And
        | Operator::Or => false,
    }
}

/// Returns what an operator gives of two strings.
fn of_two_strings(
    alloc: Global,
    operator: Operator,
    place: usize,
    s: &[u8],
    t: &[u8],
) -> Result<Given, AllocError>
    ensures { IfOk result (λ g. g ≡ value_or place (of_texts operator s.now t.now)) }
{
    match of_texts(alloc, operator, s, t) {
        Ok(value) => Ok(made(value)),
        Err(Stop::OutOfMemory) => Err(AllocError),
        Err(Stop::NotCertain) => Ok(Given::Stopped(Halt::NotCertain(place))),
        Err(Stop::Error(error)) => Ok(Given::Stopped(Halt::Error(error))),
    }
}

/// Returns what an operator gives of a string and an operand after it.
fn of_strings(
    alloc: Global,
    operator: Operator,
    place: usize,
    s: &[u8],
    b: &Given,
) -> Result<Given, AllocError>
    ensures { IfOk result (λ g. g ≡ of_strings operator place s.now b.now) }
{
    if !takes_strings(operator) {
        return Ok(Given::Stopped(MISMATCH));
    }
    match string_in(b) {
        Ok(t) => of_two_strings(alloc, operator, place, s, t),
        Err(halt) => Ok(Given::Stopped(halt)),
    }
}

/// Returns what an operator gives of a number and an operand after it.
fn of_number(operator: Operator, place: usize, first: Number, b: &Given) -> Given
    ensures { result ≡ of_two operator place (Given.Number first) b.now }
{
    match number_in(b) {
        Ok(second) => number_or(place, of_numbers(operator, first, second)),
        Err(halt) => Given::Stopped(halt),
    }
}

/// Returns what an operator gives of two operands.
fn of_two(
    alloc: Global,
    operator: Operator,
    place: usize,
    a: &Given,
    b: &Given,
) -> Result<Given, AllocError>
    ensures { IfOk result (λ g. g ≡ of_two operator place a.now b.now) }
{
    match a {
        Given::Number(number) => Ok(of_number(operator, place, *number, b)),
        Given::Made(text) => of_strings(alloc, operator, place, text.as_slice(), b),
        Given::Kept(text) => of_strings(alloc, operator, place, text.as_slice(), b),
        Given::Stopped(halt) => Ok(Given::Stopped(*halt)),
    }
}

/// Returns what an operator gives of its operands.
#[tactic(auto, unfolding(crate::specs::Evaluation::applied))]
pub fn applied(
    alloc: Global,
    operator: Operator,
    place: usize,
    operands: &[Given],
) -> Result<Given, AllocError>
    ensures { IfOk result (λ g. g ≡ applied operator place operands.now) }
{
    match operands {
        [a] => Ok(of_number(operator, place, Number::zero(), a)),
        [a, b] => of_two(alloc, operator, place, a, b),
        _ => Ok(Given::Stopped(NOTHING)),
    }
}

/// Returns whether a function is one that a run does not take: USR, FRE, RND, LOG, EXP, COS, SIN, TAN, ATN, PEEK.
fn is_not_taken(token: u8) -> bool
    ensures { result ≡ is_not_taken token }
{
    token == 183 || token == 184 || 187 <= token && token <= 194
}

/// Returns what SGN, INT, ABS and SQR give.
#[tactic(auto, unfolding(crate::specs::Evaluation::number_of_number))]
fn number_of_number(token: u8, number: Number) -> Result<Number, Stop>
    ensures { result ≡ number_of_number token number }
{
    match token {
        180 => sign_number(order_of(number, Number::zero())),
        181 => integer_part(number),
        182 => Ok(number.absolute()),
        _ => square_root(number),
    }
}

/// Returns what LEN, VAL and ASC give.
#[tactic(auto, unfolding(crate::specs::Evaluation::number_of_string))]
fn number_of_string(
    alloc: Global,
    token: u8,
    text: &[u8],
) -> Result<Result<Number, Stop>, AllocError>
    ensures { IfOk result (λ r. r ≡ number_of_string token text.now) }
{
    match token {
        195 => Ok(length_of(text)),
        197 => number_at_front(alloc, text),
        _ => Ok(first_byte(text)),
    }
}

/// Returns what STR$ and CHR$ give.
#[tactic(auto, unfolding(crate::specs::Evaluation::string_of_number))]
fn string_of_number(
    alloc: Global,
    token: u8,
    number: Number,
) -> Result<Result<Sequence<u8>, Stop>, AllocError>
    ensures { IfOk result (λ r. r ≡ string_of_number token number) }
{
    match token {
        196 => number_text(alloc, number),
        _ => character(alloc, number),
    }
}

/// Returns what POS gives.
fn position_for(place: usize, column: Option<u8>, a: &Given) -> Given
    ensures { result ≡ position_for place column a.now }
{
    match a {
        Given::Number(_) => match column {
            Some(column) => Given::Number(Number::whole(false, u32::from(column))),
            None => Given::Stopped(Halt::NotCertain(place)),
        },
        Given::Made(_) => Given::Stopped(Halt::NotTaken(place)),
        Given::Kept(_) => Given::Stopped(Halt::NotTaken(place)),
        Given::Stopped(halt) => Given::Stopped(*halt),
    }
}

/// Returns what a function gives that a run does not take.
fn refused_for(place: usize, a: &Given) -> Given
    ensures { result ≡ refused_for place a.now }
{
    match a {
        Given::Number(_) => Given::Stopped(Halt::NotTaken(place)),
        Given::Made(_) => Given::Stopped(Halt::NotTaken(place)),
        Given::Kept(_) => Given::Stopped(Halt::NotTaken(place)),
        Given::Stopped(halt) => Given::Stopped(*halt),
    }
}

/// Returns what a function gives that makes a string of a number.
fn string_by_number(alloc: Global, token: u8, place: usize, a: &Given) -> Result<Given, AllocError>
    ensures { IfOk result (λ g. g ≡ with_it (number_in a.now) (λ n. string_or place (string_of_number token n))) }
{
    match number_in(a) {
        Ok(number) => {
            let found = string_of_number(alloc, token, number)?;
            Ok(string_or(place, found))
        }
        Err(halt) => Ok(Given::Stopped(halt)),
    }
}

/// Returns what a function gives that makes a number of a string.
fn number_by_string(alloc: Global, token: u8, place: usize, a: &Given) -> Result<Given, AllocError>
    ensures { IfOk result (λ g. g ≡ with_it (string_in a.now) (λ s. number_or place (number_of_string token s))) }
{
    match string_in(a) {
        Ok(text) => {
            let found = number_of_string(alloc, token, text)?;
            Ok(number_or(place, found))
        }
        Err(halt) => Ok(Given::Stopped(halt)),
    }
}

/// Returns what a function gives that makes a number of a number.
fn number_by_number(token: u8, place: usize, a: &Given) -> Given
    ensures { result ≡ with_it (number_in a.now) (λ n. number_or place (number_of_number token n)) }
{
    match number_in(a) {
        Ok(number) => number_or(place, number_of_number(token, number)),
        Err(halt) => Given::Stopped(halt),
    }
}

/// Returns what a function of one argument gives.
#[tactic(auto, unfolding(crate::specs::Evaluation::of_one_argument))]
fn of_one_argument(
    alloc: Global,
    token: u8,
    place: usize,
    column: Option<u8>,
    a: &Given,
) -> Result<Given, AllocError>
    ensures { IfOk result (λ g. g ≡ of_one_argument token place column a.now) }
{
    if is_not_taken(token) {
        return Ok(refused_for(place, a));
    }
    if token == 185 {
        return Ok(position_for(place, column, a));
    }
    if token <= 186 {
        return Ok(number_by_number(token, place, a));
    }
    if token == 196 || token == 199 {
        string_by_number(alloc, token, place, a)
    } else {
        number_by_string(alloc, token, place, a)
    }
}

/// Returns the part of a string that LEFT$, RIGHT$ or MID$ gives with a number.
fn part_for(
    alloc: Global,
    token: u8,
    place: usize,
    text: &[u8],
    count: Result<u16, Stop>,
) -> Result<Given, AllocError>
    ensures { IfOk result (λ g. g ≡ string_or place (with_whole count (λ k. part_of token text.now k))) }
{
    match count {
        Ok(count) => {
            let part = part_of(alloc, token, text, usize::from(count))?;
            Ok(string_or(place, part))
        }
        Err(stop) => Ok(Given::Stopped(halt_at(place, stop))),
    }
}

/// Returns what LEFT$, RIGHT$ or MID$ gives of two arguments.
#[tactic(auto, unfolding(crate::specs::Evaluation::of_two_arguments))]
fn of_two_arguments(
    alloc: Global,
    token: u8,
    place: usize,
    a: &Given,
    b: &Given,
) -> Result<Given, AllocError>
    ensures { IfOk result (λ g. g ≡ of_two_arguments token place a.now b.now) }
{
    match string_in(a) {
        Ok(text) => match number_in(b) {
            Ok(number) => part_for(alloc, token, place, text, whole_to(255, number)),
            Err(halt) => Ok(Given::Stopped(halt)),
        },
        Err(halt) => Ok(Given::Stopped(halt)),
    }
}

/// Returns the part of a string that MID$ gives with a first place and a count.
fn middle_for(
    alloc: Global,
    place: usize,
    text: &[u8],
    first: u16,
    count: Result<u16, Stop>,
) -> Result<Given, AllocError>
    ensures { IfOk result (λ g. g ≡ string_or place (with_whole count (λ k. middle text.now first k))) }
{
    match count {
        Ok(count) => {
            let part = middle(alloc, text, usize::from(first), usize::from(count))?;
            Ok(string_or(place, part))
        }
        Err(stop) => Ok(Given::Stopped(halt_at(place, stop))),
    }
}

/// Returns what MID$ gives of a string, a first place and a count.
fn middle_by(
    alloc: Global,
    place: usize,
    text: &[u8],
    first: u16,
    c: &Given,
) -> Result<Given, AllocError>
    ensures { IfOk result (λ g. g ≡ middle_by place text.now first c.now) }
{
    match number_in(c) {
        Ok(number) => middle_for(alloc, place, text, first, whole_to(255, number)),
        Err(halt) => Ok(Given::Stopped(halt)),
    }
}

/// Returns what MID$ gives of three arguments.
#[tactic(auto, unfolding(crate::specs::Evaluation::of_three_arguments))]
fn of_three_arguments(
    alloc: Global,
    place: usize,
    a: &Given,
    b: &Given,
    c: &Given,
) -> Result<Given, AllocError>
    ensures { IfOk result (λ g. g ≡ of_three_arguments place a.now b.now c.now) }
{
    match string_in(a) {
        Ok(text) => match number_in(b) {
            Ok(number) => match whole_to(255, number) {
                Ok(first) => middle_by(alloc, place, text, first, c),
                Err(stop) => Ok(Given::Stopped(halt_at(place, stop))),
            },
            Err(halt) => Ok(Given::Stopped(halt)),
        },
        Err(halt) => Ok(Given::Stopped(halt)),
    }
}

/// Returns what a function of the language gives of its arguments.
#[tactic(auto, unfolding(crate::specs::Evaluation::called))]
pub fn called(
    alloc: Global,
    token: u8,
    place: usize,
    column: Option<u8>,
    arguments: &[Given],
) -> Result<Given, AllocError>
    ensures { IfOk result (λ g. g ≡ called token place column arguments.now) }
{
    match arguments {
        [a] => of_one_argument(alloc, token, place, column, a),
        [a, b] => of_two_arguments(alloc, token, place, a, b),
        [a, b, c] => of_three_arguments(alloc, place, a, b, c),
        _ => Ok(Given::Stopped(NOTHING)),
    }
}
