//! The functions of BASIC.

ghost use Rattle.std.specs.Prelude.{◌≡◌, ◌≤◌, ◌∷◌, [], map, IfOk};
ghost use Rattle.std.specs.List.{filter};
ghost use Rattle.pr_interpreter.specs.Functions.{character, constant_in, constant_number, first_byte, front_byte, integer_part, is_large, is_plus, is_solid, length_of, middle, negated_if, number_at_front, number_text, part_of, sign_number, signed_number, square_root, symbol_of, whole_or, whole_to, whole_within, without_sign};

use crate::constants::value_of;
use crate::decimals::decimal_of;
use crate::lexemes::{Word, constant_at};
use crate::number::{Number, Sign};
use crate::orders::{Order, order_of};
use crate::powers::root_of;
use crate::printing::text_of;
use crate::span::bit_length;
use crate::symbols::{Stored, Symbol};
use crate::values::{BasicError, Stop, calculated, is_below};
use crate::whole_numbers::{Whole, floor};
use pr_page::Sequence;
use std::alloc::{AllocError, Global};

/// The token of `LEFT$`.
const LEFT: u8 = 200;

/// The token of `RIGHT$`.
const RIGHT: u8 = 201;

/// What a function gives where the machine reports that a number is not allowed.
const ILLEGAL: Stop = Stop::Error(BasicError::IllegalQuantity);

/// Returns a whole number that is to be at most a greatest one.
fn whole_within(greatest: u16, whole: Option<Whole>) -> Result<u16, Stop>
    ensures value { result ≡ whole_within greatest whole }
    ensures within { IfOk result (λ k. k ≤ greatest) }
{
    let Some(whole) = whole else {
        return Err(Stop::NotCertain);
    };
    if whole.negative {
        return Err(Stop::NotCertain);
    }
    if whole.magnitude <= u128::from(greatest) {
        Ok(whole.magnitude as u16)
    } else {
        Err(ILLEGAL)
    }
}

/// Returns the whole number from 0 to a greatest one that a number gives, as an index, a column or the code of a
/// character.
///
/// # Errors
///
/// ILLEGAL QUANTITY where each value is below 0 or too large; or that it is not the same for all values.
#[tactic(auto, unfolding(crate::specs::Functions::whole_to))]
pub fn whole_to(greatest: u16, number: Number) -> Result<u16, Stop>
    ensures value { result ≡ whole_to greatest number }
    ensures within { IfOk result (λ k. k ≤ greatest) }
{
    let above = Number::whole(false, u32::from(greatest) + 1);
    if is_below(order_of(number, Number::zero())) || !order_of(number, above).less {
        return Err(ILLEGAL);
    }
    whole_within(greatest, floor(number))
}

/// Returns -1, 0 or 1, by how a number compares with 0, as SGN.
#[tactic(auto, unfolding(crate::specs::Functions::sign_number))]
pub fn sign_number(order: Order) -> Result<Number, Stop>
    ensures { result ≡ sign_number order }
{
    if order.less {
        if order.equal || order.greater {
            return Err(Stop::NotCertain);
        }
        return Ok(Number::whole(true, 1));
    }
    if order.greater {
        if order.equal {
            return Err(Stop::NotCertain);
        }
        return Ok(Number::whole(false, 1));
    }
    Ok(Number::zero())
}

/// Returns the number of a whole number below 2 ^ 32.
fn whole_or(whole: Option<Whole>) -> Result<Number, Stop>
    ensures { result ≡ whole_or whole }
{
    let Some(whole) = whole else {
        return Err(Stop::NotCertain);
    };
    if whole.magnitude < 4_294_967_296 {
        Ok(Number::whole(whole.negative, whole.magnitude as u32))
    } else {
        Err(Stop::NotCertain)
    }
}

/// Returns whether a number is one magnitude from 2 ^ 32 on, so that it is whole.
fn is_large(number: Number) -> bool
    ensures { result ≡ is_large number }
{
    let span = number.span();
    span.low == span.high && 288 < bit_length(span.high) + u32::from(span.scale)
}

/// Returns the greatest whole number that is not above a number, as INT.
#[tactic(auto, unfolding(crate::specs::Functions::integer_part))]
pub fn integer_part(number: Number) -> Result<Number, Stop>
    ensures { result ≡ integer_part number }
{
    if is_large(number) {
        return Ok(number);
    }
    whole_or(floor(number))
}

/// Returns whether no value is below 0.
fn is_plus(sign: Sign) -> bool
    ensures { result ≡ is_plus sign }
{
    match sign {
        Sign::Plus => true,
        Sign::Minus | Sign::Either => false,
    }
}

/// Returns the square root of a number, as SQR.
#[tactic(auto, unfolding(crate::specs::Functions::square_root))]
pub fn square_root(number: Number) -> Result<Number, Stop>
    ensures { result ≡ square_root number }
{
    if number.is_zero() {
        return Ok(Number::zero());
    }
    if is_below(order_of(number, Number::zero())) {
        return Err(ILLEGAL);
    }
    if is_plus(number.sign()) {
        return calculated(root_of(number));
    }
    Err(Stop::NotCertain)
}

/// Returns what is printed of a number without what follows it, as STR$.
#[tactic(auto, using(crate::proofs::DecimalOfLemmas::text_some, crate::proofs::DecimalOfLemmas::text_none))]
pub fn number_text(alloc: Global, number: Number) -> Result<Result<Sequence<u8>, Stop>, AllocError>
    ensures { IfOk result (λ r. r ≡ number_text number) }
{
    match decimal_of(number) {
        Some(decimal) => {
            let text = text_of(alloc, decimal)?;
            Ok(Ok(Sequence::from_vec(text)))
        }
        None => Ok(Err(Stop::NotCertain)),
    }
}

/// Returns a string of one byte.
fn one_byte(alloc: Global, byte: u8) -> Result<Sequence<u8>, AllocError>
    ensures { IfOk result (λ s. s ≡ byte ∷ []) }
{
    let mut text = Vec::new(alloc);
    text.push(byte)?;
    Ok(Sequence::from_vec(text))
}

/// Returns the character that a number is the code of, as CHR$.
#[tactic(auto, unfolding(crate::specs::Functions::character))]
pub fn character(alloc: Global, number: Number) -> Result<Result<Sequence<u8>, Stop>, AllocError>
    ensures { IfOk result (λ r. r ≡ character number) }
{
    match whole_to(255, number) {
        Ok(code) => {
            let text = one_byte(alloc, code as u8)?;
            Ok(Ok(text))
        }
        Err(stop) => Ok(Err(stop)),
    }
}

/// Returns how many bytes a string has, as LEN.
pub fn length_of(text: &[u8]) -> Result<Number, Stop>
    ensures { result ≡ length_of text.now }
{
    if text.len() <= 255 {
        Ok(Number::whole(false, text.len() as u32))
    } else {
        Err(Stop::NotCertain)
    }
}

/// Returns the code of a string's first byte, as ASC.
pub fn first_byte(text: &[u8]) -> Result<Number, Stop>
    ensures { result ≡ first_byte text.now }
{
    match text {
        [first, ..] => Ok(Number::whole(false, u32::from(*first))),
        [] => Err(ILLEGAL),
    }
}

/// Returns a byte of a string as a line keeps it: the signs + and - as tokens.
fn symbol_of(byte: u8) -> Symbol
    ensures { result ≡ symbol_of byte }
{
    let code = match byte {
        b'+' => 170,
        b'-' => 171,
        _ => byte,
    };
    Symbol {
        stored: Stored::Code(code),
        place: 0,
    }
}

/// Returns the bytes of a string as a line keeps them.
fn symbols_of(alloc: Global, text: &[u8]) -> Result<Vec<Symbol>, AllocError>
    ensures { IfOk result (λ symbols. symbols.items ≡ map symbol_of text.now) }
{
    text.iter().map(|b| symbol_of(*b)).collect(alloc)
}

/// Returns the constant at the front of a string, and how many bytes it has.
#[tactic(auto, unfolding(crate::specs::Functions::constant_in))]
pub fn constant_in(alloc: Global, text: &[u8]) -> Result<(Word, usize), AllocError>
    ensures { IfOk result (λ found. found ≡ constant_in text.now) }
{
    let symbols = symbols_of(alloc, text)?;
    Ok(constant_at(symbols.as_slice()))
}

/// Returns the number that a constant is.
pub fn constant_number(word: Word) -> Result<Number, Stop>
    ensures { result ≡ constant_number word }
{
    match word {
        Word::Constant(constant) => calculated(value_of(constant)),
        Word::Code(_)
        | Word::Comparison(_)
        | Word::Named(_)
        | Word::Text { .. }
        | Word::Items { .. }
        | Word::Remark => Err(Stop::NotCertain),
    }
}

/// Returns a number, or with the other sign.
fn negated_if(negative: bool, found: Result<Number, Stop>) -> Result<Number, Stop>
    ensures { result ≡ negated_if negative found }
{
    match found {
        Ok(number) => Ok(if negative { number.negated() } else { number }),
        Err(stop) => Err(stop),
    }
}

/// Returns the first byte; 0 if there is none.
pub fn front_byte(text: &[u8]) -> u8
    ensures { result ≡ front_byte text.now }
{
    match text {
        [first, ..] => *first,
        [] => 0,
    }
}

/// Returns bytes without the sign at their front.
pub fn without_sign(text: &[u8]) -> &[u8]
    ensures { result.now ≡ without_sign text.now }
{
    let first = front_byte(text);
    if first == b'+' || first == b'-' {
        &text[1..]
    } else {
        text
    }
}

/// Returns the number at the front of bytes without blanks.
#[tactic(auto, unfolding(crate::specs::Functions::signed_number))]
fn signed_number(alloc: Global, text: &[u8]) -> Result<Result<Number, Stop>, AllocError>
    ensures { IfOk result (λ r. r ≡ signed_number text.now) }
{
    let (word, _) = constant_in(alloc, without_sign(text))?;
    Ok(negated_if(front_byte(text) == b'-', constant_number(word)))
}

/// Returns bytes without the blanks among them.
pub fn solid(alloc: Global, text: &[u8]) -> Result<Vec<u8>, AllocError>
    ensures { IfOk result (λ found. found.items ≡ filter is_solid text.now) }
{
    text.iter().copied().filter(|b| *b != b' ').collect(alloc)
}

/// Returns the number at the front of a string, as VAL: blanks count for nothing.
#[tactic(auto, unfolding(crate::specs::Functions::number_at_front))]
pub fn number_at_front(alloc: Global, text: &[u8]) -> Result<Result<Number, Stop>, AllocError>
    ensures { IfOk result (λ r. r ≡ number_at_front text.now) }
{
    let solid = solid(alloc, text)?;
    signed_number(alloc, solid.as_slice())
}

/// Returns a copy of bytes.
pub fn copied(alloc: Global, text: &[u8]) -> Result<Sequence<u8>, AllocError>
    ensures { IfOk result (λ s. s ≡ text.now) }
{
    Ok(Sequence::from_vec(Vec::from_slice(alloc, text)?))
}

/// Returns a part of a string, as LEFT$, RIGHT$ and MID$ with a number.
#[tactic(auto, unfolding(crate::specs::Functions::part_of))]
pub fn part_of(
    alloc: Global,
    token: u8,
    text: &[u8],
    count: usize,
) -> Result<Result<Sequence<u8>, Stop>, AllocError>
    ensures { IfOk result (λ r. r ≡ part_of token text.now count) }
{
    let part = match token {
        LEFT => &text[..count.min(text.len())],
        RIGHT => &text[text.len().saturating_sub(count)..],
        _ => {
            if count == 0 {
                return Ok(Err(ILLEGAL));
            }
            &text[(count - 1).min(text.len())..]
        }
    };
    let copy = copied(alloc, part)?;
    Ok(Ok(copy))
}

/// Returns so many bytes of a string from a place on that is counted from 1, as MID$ with two numbers.
#[tactic(auto, unfolding(crate::specs::Functions::middle))]
pub fn middle(
    alloc: Global,
    text: &[u8],
    first: usize,
    count: usize,
) -> Result<Result<Sequence<u8>, Stop>, AllocError>
    ensures { IfOk result (λ r. r ≡ middle text.now first count) }
{
    if first == 0 {
        return Ok(Err(ILLEGAL));
    }
    let rest = &text[(first - 1).min(text.len())..];
    let copy = copied(alloc, &rest[..count.min(rest.len())])?;
    Ok(Ok(copy))
}
