//! The words of the errors of BASIC.

ghost use Rattle.std.specs.Prelude.{◌≡◌};
ghost use Rattle.pr_programs.specs.Errors.{error_name};

use pr_interpreter::BasicError;

/// Returns what the machine prints of an error, between `?` and `  ERROR`.
pub fn error_name(error: BasicError) -> &'static str
    ensures { result.now ≡ error_name error }
{
    match error {
        BasicError::Syntax => "SYNTAX",
        BasicError::TypeMismatch => "TYPE MISMATCH",
        BasicError::IllegalQuantity => "ILLEGAL QUANTITY",
        BasicError::Overflow => "OVERFLOW",
        BasicError::DivisionByZero => "DIVISION BY ZERO",
        BasicError::StringTooLong => "STRING TOO LONG",
        BasicError::FormulaTooComplex => "FORMULA TOO COMPLEX",
        BasicError::BadSubscript => "BAD SUBSCRIPT",
        BasicError::RedimensionedArray => "REDIM'D ARRAY",
        BasicError::UndefinedFunction => "UNDEF'D FUNCTION",
        BasicError::UndefinedStatement => "UNDEF'D STATEMENT",
        BasicError::OutOfData => "OUT OF DATA",
        BasicError::ReturnWithoutGosub => "RETURN WITHOUT GOSUB",
        BasicError::NextWithoutFor => "NEXT WITHOUT FOR",
        BasicError::FileOpen => "FILE OPEN",
        BasicError::FileNotOpen => "FILE NOT OPEN",
        BasicError::NotInputFile => "NOT INPUT FILE",
        BasicError::TooManyFiles => "TOO MANY FILES",
    }
}
