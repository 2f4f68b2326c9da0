//! Laws of the definitions, with nothing to run.

ghost use Rattle.pr_listing.specs.TokenLaws.{StringsKeepBytes, TokensAreStatements};

use pr_basic::laws::lexemes_are_found;

/// A law: a saved program's text is a script of exactly the statements that its tokens are, and a string
/// of it says its bytes.
pub fn tokens_are_statements()
    ensures statements { TokensAreStatements }
    ensures strings { StringsKeepBytes }
{
    lexemes_are_found();
}
