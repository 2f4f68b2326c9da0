//! The parts of an option's value.

ghost use Rattle.std.specs.Prelude.{◌≡◌, ◌==◌, ◌<◌};
ghost use Rattle.std.specs.List.{after_first, before_first, list_all};
ghost use Rattle.pr_base.specs.Digits.{is_digit};

use pr_base::is_digit;

/// What comes before the first mark, a character of ASCII, and after it; after it nothing, where
/// there is none.
pub fn cut(text: &str, mark: char) -> (&str, &str)
    requires { mark < 128 }
    ensures before { result.0.now ≡ before_first (λ b. b == mark) text.now }
    ensures behind { result.1.now ≡ after_first (λ b. b == mark) text.now }
{
    text.split_once(mark).unwrap_or((text, ""))
}

/// Whether each byte is a digit.
pub fn all_digits(bytes: &[u8]) -> bool
    ensures { result ≡ list_all is_digit bytes.now }
{
    bytes.iter().all(|b| is_digit(*b))
}
