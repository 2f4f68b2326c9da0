//! The words of a Value Change Dump, each for itself.

ghost use Rattle.std.specs.Prelude.{◌≡◌};
ghost use Rattle.std.specs.Str.{bytes_eq};
ghost use Rattle.pr_capture.specs.VcdPieces.{bits_of, entry_of, is_bracket, is_level, is_value, keeps, keyword_entry, keyword_of, level_entry, rest_of};

/// What a section says, by its keyword.
#[derive(Clone, Copy)]
pub enum Keyword {
    /// The unit of all times.
    Timescale,
    /// A scope that begins: the signals up to its end are in it.
    Scope,
    /// A scope that ends.
    Upscope,
    /// A signal.
    Var,
    /// Nothing but that the header ends.
    Definitions,
    /// Nothing but that recording pauses.
    Pause,
    /// Nothing of the bus.
    Other,
}

/// What a word is that is in no section.
#[derive(Clone, Copy)]
pub enum Entry {
    /// The keyword of a section.
    Opens(Keyword),
    /// The keyword of a section whose words count as if it were not there, or an end.
    Silent,
    /// Recording goes on after a pause.
    Resumes,
    /// A time stamp.
    Time,
    /// A level, and the code of its signal.
    Level(u8),
    /// A value of bits, or of another kind; the code of its signal is the next word.
    Value,
    /// Nothing that is known.
    Foreign,
}

/// Whether these letters make this word.
pub fn is_word(letters: &[u8], word: &[u8]) -> bool
    ensures { result ≡ bytes_eq letters.now word.now }
{
    letters == word
}

/// Whether a section with this keyword has changes inside, or it is the end of one.
fn is_bracket(letters: &[u8]) -> bool
    ensures { result ≡ is_bracket letters.now }
{
    is_word(letters, b"$end") || is_word(letters, b"$dumpvars") || is_word(letters, b"$dumpall")
}

/// What a section says that has this keyword.
fn keyword_of(letters: &[u8]) -> Keyword
    ensures { result ≡ keyword_of letters.now }
{
    if is_word(letters, b"$timescale") {
        Keyword::Timescale
    } else if is_word(letters, b"$scope") {
        Keyword::Scope
    } else if is_word(letters, b"$upscope") {
        Keyword::Upscope
    } else if is_word(letters, b"$var") {
        Keyword::Var
    } else if is_word(letters, b"$enddefinitions") {
        Keyword::Definitions
    } else if is_word(letters, b"$dumpoff") {
        Keyword::Pause
    } else {
        Keyword::Other
    }
}

/// What a word is that begins with `$` and is in no section.
fn keyword_entry(letters: &[u8]) -> Entry
    ensures { result ≡ keyword_entry letters.now }
{
    if is_bracket(letters) {
        Entry::Silent
    } else if is_word(letters, b"$dumpon") {
        Entry::Resumes
    } else {
        Entry::Opens(keyword_of(letters))
    }
}

/// Whether a letter is the level of one bit.
fn is_level(b: u8) -> bool
    ensures { result ≡ is_level b }
{
    b"01xXzZuUwWlLhH-".contains(&b)
}

/// Whether a value begins so whose code is the next word.
fn is_value(b: u8) -> bool
    ensures { result ≡ is_value b }
{
    b"bBrRsS".contains(&b)
}

/// The bits of such a value, or the first letter of one of another kind, which is no level.
pub fn bits_of(letters: &[u8]) -> &[u8]
    ensures { result.now ≡ bits_of letters.now }
{
    match letters {
        [] => &[],
        [b, rest @ ..] => {
            if *b == b'b' || *b == b'B' {
                rest
            } else {
                &letters[..1]
            }
        }
    }
}

/// A level, if the code of its signal is after it.
fn level_entry(level: u8, code: &[u8]) -> Entry
    ensures { result ≡ level_entry level code.now }
{
    if code.is_empty() {
        Entry::Foreign
    } else {
        Entry::Level(level)
    }
}

/// What a word is that is in no section.
pub fn entry_of(letters: &[u8]) -> Entry
    ensures { result ≡ entry_of letters.now }
{
    match letters {
        [] => Entry::Silent,
        [b, rest @ ..] => {
            if *b == b'$' {
                keyword_entry(letters)
            } else if *b == b'#' {
                Entry::Time
            } else if is_level(*b) {
                level_entry(*b, rest)
            } else if is_value(*b) {
                Entry::Value
            } else {
                Entry::Foreign
            }
        }
    }
}

/// The letters after the first.
pub fn rest_of(letters: &[u8]) -> &[u8]
    ensures { result.now ≡ rest_of letters.now }
{
    match letters {
        [] => &[],
        [_, rest @ ..] => rest,
    }
}

/// Whether the words of a section are looked at.
pub fn keeps(keyword: Keyword) -> bool
    ensures { result ≡ keeps keyword }
{
    match keyword {
        Keyword::Timescale | Keyword::Scope | Keyword::Var => true,
        Keyword::Upscope | Keyword::Definitions | Keyword::Pause | Keyword::Other => false,
    }
}
