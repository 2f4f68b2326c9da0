//! Laws of the definitions, with nothing to run.

ghost use Rattle.pr_interpreter.specs.NumberLaws.{FormsAreKept, MagnitudesAreCertain, NegationIsCertain, OrdersAreCertain, PowersAreCertain, ProductsAreCertain, QuotientsAreCertain, RootsAreCertain, SumsAreCertain, WholeNumbersAreExact, WholesAreCertain};
ghost use Rattle.pr_interpreter.specs.Constants.{ConstantsAreCertain};
ghost use Rattle.pr_interpreter.specs.ExpressionLaws.{ExpressionsAreWhole};
ghost use Rattle.pr_interpreter.specs.LexemeLaws.{KeywordsAreFound};
ghost use Rattle.pr_interpreter.specs.LineLaws.{LinesAscend, TypedLinesCount};
ghost use Rattle.pr_interpreter.specs.PrintingLaws.{DigitsAreCertain, WholeNumbersReadBack};

/// A law: whatever the machine may answer to a sum, a product, a quotient, a power or a square root of values that
/// numbers enclose is in the number that is their sum, product, quotient, power or root; their order has what is true of the
/// values, a whole number is that of each value, and
/// an exact result that has the form of the machine's values is kept as it is.
pub fn calculations_are_certain()
    ensures sums { SumsAreCertain }
    ensures products { ProductsAreCertain }
    ensures quotients { QuotientsAreCertain }
    ensures roots { RootsAreCertain }
    ensures powers { PowersAreCertain }
    ensures negation { NegationIsCertain }
    ensures magnitudes { MagnitudesAreCertain }
    ensures exact { WholeNumbersAreExact }
    ensures orders { OrdersAreCertain }
    ensures forms { FormsAreKept }
    ensures wholes { WholesAreCertain }
{}

/// A law: whatever value a number stands for has the digits and the sign that are printed of the number; and a
/// whole number below 1000000000 is printed, as the digits that write it, without a point.
pub fn printing_is_certain()
    ensures digits { DigitsAreCertain }
    ensures whole { WholeNumbersReadBack }
{}

/// A law: whatever the machine may read of a decimal constant is in the number that is its value.
pub fn constants_are_certain()
    ensures { ConstantsAreCertain }
{}

/// A law: the lines of a text are sorted by their numbers, of which no two are equal; a line that is typed takes the
/// place of the line of its number, or deletes it if it has nothing, and leaves all others.
pub fn lines_are_sorted()
    ensures sorted { LinesAscend }
    ensures last { TypedLinesCount }
{}

/// A law: each keyword that is typed is found as itself; none hides behind an earlier one that begins alike.
pub fn keywords_are_found()
    ensures { KeywordsAreFound }
{}

/// A law: worked out from left to right, the nodes of an expression find the values that they take, and leave one.
pub fn expressions_are_whole()
    ensures { ExpressionsAreWhole }
{}
