//! Where the character of a code is in tables of characters.

ghost use Rattle.std.specs.Prelude.{◌≡◌, ◌<◌};
ghost use Rattle.pr_dots.specs.Codes.{place_of, printed_as};

/// The code as which a code is printed: some codes are doubles of others (Programmer's Reference
/// Guide, ASCII and CHR$ codes).
fn printed_as(code: u8) -> u8
    ensures printed { result ≡ printed_as code }
    ensures within { result < 224 }
{
    match code {
        0..=95 => code,
        96..=127 => code + 96,
        128..=223 => code,
        224..=254 => code - 64,
        255 => 222,
    }
}

/// Where a printed code is in the tables.
fn place_of(printed: u8) -> usize
    requires { printed < 224 }
    ensures place { result ≡ place_of printed }
    ensures within { result < 128 }
{
    if printed < 96 {
        usize::from(printed.saturating_sub(32))
    } else {
        usize::from(printed - 96)
    }
}

/// Returns where a code's character is in tables of the characters 32 to 95 and 160 to 223, from 0
/// to 127. A code that prints as another one has that one's place.
pub fn place_of_code(code: u8) -> usize
    ensures place { result ≡ place_of (printed_as code) }
    ensures within { result < 128 }
{
    place_of(printed_as(code))
}
