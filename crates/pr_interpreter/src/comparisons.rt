//! Comparisons in a line.

ghost use Rattle.std.specs.Prelude.{◌≡◌, ◌<◌, ◌≤◌, length, true};
ghost use Rattle.pr_interpreter.specs.Lexemes.{comparison, comparison_size, is_sign, no_sign, with_sign};
ghost use Rattle.pr_interpreter.specs.Symbols.{first_code};

use crate::orders::Order;
use crate::symbols::Symbol;

/// The tokens of the signs of a comparison.
const GREATER: u8 = 177;

const EQUAL: u8 = 178;

const LESS: u8 = 179;

/// Returns whether a code is a sign of a comparison.
pub fn is_sign(code: u8) -> bool
    ensures { result ≡ is_sign code }
{
    GREATER <= code && code <= LESS
}

/// Returns what a comparison accepts with the sign of a code too; none if the code is no sign, or one that it has.
#[tactic(auto, unfolding(crate::specs::Lexemes::with_sign))]
fn with_sign(order: Order, code: u8) -> Option<Order>
    ensures { result ≡ with_sign order code }
{
    match code {
        GREATER if !order.greater => Some(Order {
            greater: true,
            ..order
        }),
        EQUAL if !order.equal => Some(Order {
            equal: true,
            ..order
        }),
        LESS if !order.less => Some(Order {
            less: true,
            ..order
        }),
        _ => None,
    }
}

/// Returns what the comparison at the front of symbols accepts, and how many symbols it has.
#[tactic(auto, using(crate::proofs::NumeralLemmas::comparison_some))]
pub fn comparison_of(symbols: &[Symbol]) -> (Order, usize)
    requires { is_sign (first_code symbols.now) ≡ true }
    ensures order { result.0 ≡ comparison no_sign symbols.now }
    ensures size { result.1 ≡ comparison_size no_sign symbols.now }
    ensures some { 0 < result.1 }
    ensures within { result.1 ≤ length symbols.now }
{
    let mut order = Order {
        less: false,
        equal: false,
        greater: false,
    };
    for (i, symbol) in symbols.iter().enumerate() {
        match with_sign(order, symbol.code()) {
            Some(more) => order = more,
            None => return (order, i),
        }
    }
    (order, symbols.len())
}
