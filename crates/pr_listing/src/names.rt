//! The names of bytes in brackets, as petcat writes them and as magazines print them.

ghost use Rattle.std.specs.Prelude.{◌≡◌, ◌≢◌, ◌≤◌, ◌<◌, None, Some, drop, slice_index_or, IsTrue, MatchOption};
ghost use Rattle.pr_base.specs.Digits.{number_of};
ghost use Rattle.pr_listing.specs.Names.{byte_at, byte_counted, byte_named, bracketed, control_byte, cut_count, has_angles, hex_byte, hex_value, is_hex, is_name, key_byte, keyed, magazine_byte, named, own_byte, own_byte_at, petcat_byte, place_of, singular};

use pr_base::{digit_count, is_digit};
use pr_basic::cut_line;

/// The names of bytes 0 to 31, of bytes 128 to 223, and two of byte 32, in the order of the bytes, each
/// in a line (petcat of VICE, its table for BASIC 2). Where petcat has no name, the byte's number is here.
pub const NAMES: &str = "\
$00\nctrl-a\nctrl-b\nstop\nctrl-d\nwht\nctrl-f\nctrl-g\n\
dish\nensh\nctrl-j\nctrl-k\nctrl-l\n$0d\nswlc\nctrl-o\n\
ctrl-p\ndown\nrvon\nhome\ndel\nctrl-u\nctrl-v\nctrl-w\n\
ctrl-x\nctrl-y\nctrl-z\nesc\nred\nrght\ngrn\nblu\n\
$80\norng\n$82\n$83\n$84\nf1\nf3\nf5\n\
f7\nf2\nf4\nf6\nf8\nsret\nswuc\n$8f\n\
blk\nup\nrvof\nclr\ninst\nbrn\nlred\ngry1\n\
gry2\nlgrn\nlblu\ngry3\npur\nleft\nyel\ncyn\n\
shift-space\ncbm-k\ncbm-i\ncbm-t\ncbm-@\ncbm-g\ncbm-+\ncbm-m\n\
cbm-pound\nshift-pound\ncbm-n\ncbm-q\ncbm-d\ncbm-z\ncbm-s\ncbm-p\n\
cbm-a\ncbm-e\ncbm-r\ncbm-w\ncbm-h\ncbm-j\ncbm-l\ncbm-y\n\
cbm-u\ncbm-o\nshift-@\ncbm-f\ncbm-c\ncbm-x\ncbm-v\ncbm-b\n\
shift-*\nshift-a\nshift-b\nshift-c\nshift-d\nshift-e\nshift-f\nshift-g\n\
shift-h\nshift-i\nshift-j\nshift-k\nshift-l\nshift-m\nshift-n\nshift-o\n\
shift-p\nshift-q\nshift-r\nshift-s\nshift-t\nshift-u\nshift-v\nshift-w\n\
shift-x\nshift-y\nshift-z\nshift-+\ncbm--\nshift--\n$de\ncbm-*\n\
space\nspaces";

/// The names of bytes in magazines that petcat has not, each in a line: those of COMPUTE!'s Gazette, and
/// from `crsr dn` on those of RUN, for which `shft` is the shift key and `comd` the Commodore key.
pub const MAGAZINE_NAMES: &str = "\
rvs\nrvs on\noff\nrvs off\nright\nup arrow\nback arrow\npi\n\
crsr dn\ncrsr up\ncrsr lf\ncrsr rt\nshift clr/home\n\
ctrl 1\nctrl 2\nctrl 3\nctrl 4\nctrl 5\nctrl 6\nctrl 7\nctrl 8\nctrl 9\nctrl 0\n\
comd 1\ncomd 2\ncomd 3\ncomd 4\ncomd 5\ncomd 6\ncomd 7\ncomd 8\n\
shft clr\nshft clr/home\nshft space\nshft *\nshft +\nshft -\nshft @\n\
shft a\nshft b\nshft c\nshft d\nshft e\nshft f\nshft g\nshft h\nshft i\n\
shft j\nshft k\nshft l\nshft m\nshft n\nshft o\nshft p\nshft q\nshft r\n\
shft s\nshft t\nshft u\nshft v\nshft w\nshft x\nshft y\nshft z\n\
comd @\ncomd +\ncomd -\ncomd *\n\
comd a\ncomd b\ncomd c\ncomd d\ncomd e\ncomd f\ncomd g\ncomd h\ncomd i\n\
comd j\ncomd k\ncomd l\ncomd m\ncomd n\ncomd o\ncomd p\ncomd q\ncomd r\n\
comd s\ncomd t\ncomd u\ncomd v\ncomd w\ncomd x\ncomd y\ncomd z";

/// The bytes of [`MAGAZINE_NAMES`], in their order.
pub const MAGAZINE_BYTES: [u8; 94] = [
    18, 18, 146, 146, 29, 94, 95, 222, 17, 145, 157, 29, 147, 144, 5, 28, 159, 156, 30, 31, 158,
    18, 146, 129, 149, 150, 151, 152, 153, 154, 155, 147, 147, 160, 192, 219, 221, 186, 193, 194,
    195, 196, 197, 198, 199, 200, 201, 202, 203, 204, 205, 206, 207, 208, 209, 210, 211, 212, 213,
    214, 215, 216, 217, 218, 164, 166, 220, 223, 176, 191, 188, 172, 177, 187, 165, 180, 162, 181,
    161, 182, 167, 170, 185, 175, 171, 178, 174, 163, 184, 190, 179, 189, 183, 173,
];

/// The most bytes that one name says (profile).
const MOST: u32 = 255;

/// How a typed listing spells the bytes of its strings.
#[derive(Clone, Copy, Debug, PartialEq, Eq)]
pub enum Spelling {
    /// petcat's: small letters are the keys without shift, capitals those with it.
    Petcat,
    /// A magazine's: capitals are the keys without shift, and there are no small letters.
    Magazine,
}

/// The brackets around a name in a string.
#[derive(Clone, Copy, Debug, PartialEq, Eq)]
pub enum Brackets {
    /// `{` and `}`, around a name.
    Curly,
    /// `[` and `]`, around a magazine's `<A>`: a key with the Commodore key.
    Square,
}

/// The byte of the name at a place of [`NAMES`].
fn byte_at(place: usize) -> u8
    ensures { result ≡ byte_at place }
{
    if place < 32 {
        return place as u8;
    }
    if place < 128 {
        return (place + 96) as u8;
    }
    b' '
}

/// The place of a name in a table of names, in either case.
#[tactic(auto, unfolding(crate::specs::Names::place_of))]
fn place_of(table: &str, name: &[u8]) -> Option<usize>
    ensures { result ≡ place_of table.now name.now }
{
    let mut rest = table.as_bytes();
    let mut place = 0;
    while !rest.is_empty() {
        let (known, more) = cut_line(rest);
        if is_name(name, known) {
            return Some(place);
        }
        rest = more;
        place += 1;
    }
    None
}

/// Whether a name is a known one, in either case.
fn is_name(name: &[u8], known: &[u8]) -> bool
    ensures { result ≡ is_name name.now known.now }
{
    known.eq_ignore_ascii_case(name)
}

/// Whether a byte is a hexadecimal digit, in either case.
fn is_hex(b: u8) -> bool
    ensures { result ≡ is_hex b }
{
    is_digit(b) || (b >= b'a' && b <= b'f') || (b >= b'A' && b <= b'F')
}

/// What a hexadecimal digit stands for.
fn hex_value(b: u8) -> u8
    requires { IsTrue (is_hex b) }
    ensures value { result ≡ hex_value b }
    ensures small { result ≤ 15 }
{
    if is_digit(b) {
        return b - b'0';
    }
    if b <= b'F' {
        return b - b'7';
    }
    b - b'W'
}

/// The byte whose number is a name: `$` and two hexadecimal digits.
fn hex_byte(name: &[u8]) -> Option<u8>
    ensures { result ≡ hex_byte name.now }
{
    if name.len() == 3 && name[0] == b'$' && is_hex(name[1]) && is_hex(name[2]) {
        return Some(16 * hex_value(name[1]) + hex_value(name[2]));
    }
    None
}

/// The byte of petcat's name.
#[tactic(auto, unfolding(crate::specs::Names::petcat_byte))]
fn petcat_byte(name: &[u8]) -> Option<u8>
    ensures { result ≡ petcat_byte name.now }
{
    if let Some(b) = hex_byte(name) {
        return Some(b);
    }
    let place = place_of(NAMES, name)?;
    Some(byte_at(place))
}

/// The byte that a letter is with the control key: a letter alone is its name in a magazine.
fn control_byte(name: &[u8]) -> Option<u8>
    ensures { result ≡ control_byte name.now }
{
    if name.len() == 1 && name[0].is_ascii_alphabetic() {
        return Some(name[0].to_ascii_lowercase() - 96);
    }
    None
}

/// The byte of the name at a place of [`MAGAZINE_NAMES`].
fn own_byte_at(place: usize) -> u8
    ensures { result ≡ own_byte_at place }
{
    if place < MAGAZINE_BYTES.len() {
        return MAGAZINE_BYTES[place];
    }
    0
}

/// The byte of a name of [`MAGAZINE_NAMES`].
fn own_byte(name: &[u8]) -> Option<u8>
    ensures { result ≡ own_byte name.now }
{
    let place = place_of(MAGAZINE_NAMES, name)?;
    Some(own_byte_at(place))
}

/// The byte of a name in a magazine: petcat's names, letters alone, and the magazine's own names.
#[tactic(auto, unfolding(crate::specs::Names::magazine_byte))]
fn magazine_byte(name: &[u8]) -> Option<u8>
    ensures { result ≡ magazine_byte name.now }
{
    if let Some(b) = petcat_byte(name) {
        return Some(b);
    }
    if let Some(b) = control_byte(name) {
        return Some(b);
    }
    own_byte(name)
}

/// The byte of a name without a count.
#[tactic(auto, unfolding(crate::specs::Names::byte_named))]
fn byte_named(spelling: Spelling, name: &[u8]) -> Option<u8>
    ensures { result ≡ byte_named spelling name.now }
{
    match spelling {
        Spelling::Petcat => petcat_byte(name),
        Spelling::Magazine => magazine_byte(name),
    }
}

/// A name without the `s` at its end.
fn singular(name: &[u8]) -> &[u8]
    ensures { result.now ≡ singular name.now }
{
    if name.is_empty() || !matches!(name[name.len() - 1], b's' | b'S') {
        return name;
    }
    &name[..name.len() - 1]
}

/// The byte of a name after a count, in the plural too where a magazine has it.
#[tactic(auto, unfolding(crate::specs::Names::byte_counted))]
fn byte_counted(spelling: Spelling, name: &[u8]) -> Option<u8>
    ensures { result ≡ byte_counted spelling name.now }
{
    if let Some(b) = byte_named(spelling, name) {
        return Some(b);
    }
    match spelling {
        Spelling::Petcat => None,
        Spelling::Magazine => byte_named(spelling, singular(name)),
    }
}

/// The number that digits spell; None above 255.
fn count_of(digits: &[u8]) -> Option<u32>
    ensures { MatchOption result (255 < number_of digits.now) (λ n. (n ≡ number_of digits.now) × (n ≤ 255)) }
{
    let mut n: u32 = 0;
    for d in digits {
        n = 10 * n + u32::from(d.saturating_sub(b'0'));
        if n > MOST {
            return None;
        }
    }
    Some(n)
}

/// The name after a count: a space is before it.
fn after_space(bytes: &[u8]) -> Option<&[u8]>
    ensures { MatchOption result (slice_index_or bytes.now 0 0 ≢ 32)
        (λ name. (slice_index_or bytes.now 0 0 ≡ 32) × (name.now ≡ drop 1 bytes.now)) }
{
    if bytes.is_empty() || bytes[0] != b' ' {
        return None;
    }
    Some(&bytes[1..])
}

/// A count of 1 to 255 in front of a name, and the name, with a space between them.
#[tactic(auto, unfolding(crate::specs::Names::cut_count))]
fn cut_count(bytes: &[u8]) -> Option<(u32, &[u8])>
    ensures { MatchOption result (cut_count bytes.now ≡ None) (λ r. cut_count bytes.now ≡ Some (r.0, r.1.now)) }
{
    let n = digit_count(bytes);
    let count = count_of(&bytes[..n])?;
    if count == 0 {
        return None;
    }
    let name = after_space(&bytes[n..])?;
    Some((count, name))
}

/// How many times a name says a byte, and the byte: `down` and `$8e` once, `3 down` three times. A
/// count is 1 to 255.
#[tactic(auto, unfolding(crate::specs::Names::named))]
fn named(spelling: Spelling, name: &[u8]) -> Option<(u32, u8)>
    ensures { result ≡ named spelling name.now }
{
    if digit_count(name) == 0 {
        let b = byte_named(spelling, name)?;
        return Some((1, b));
    }
    let (count, once) = cut_count(name)?;
    let b = byte_counted(spelling, once)?;
    Some((count, b))
}

/// The byte of a key with the Commodore key: a letter or a sign by petcat's name, a digit by RUN's.
#[tactic(auto, unfolding(crate::specs::Names::key_byte))]
fn key_byte(key: &[u8]) -> Option<u8>
    ensures { result ≡ key_byte key.now }
{
    if key.len() != 1 {
        return None;
    }
    if let Some(b) = magazine_byte(&[b'c', b'b', b'm', b'-', key[0]]) {
        return Some(b);
    }
    magazine_byte(&[b'c', b'o', b'm', b'd', b' ', key[0]])
}

/// How many times a key with the Commodore key says a byte, and the byte: `A` and `5` once, `3 A` three times.
#[tactic(auto, unfolding(crate::specs::Names::keyed))]
fn keyed(key: &[u8]) -> Option<(u32, u8)>
    ensures { result ≡ keyed key.now }
{
    if key.len() == 1 {
        let b = key_byte(key)?;
        return Some((1, b));
    }
    let (count, once) = cut_count(key)?;
    let b = key_byte(once)?;
    Some((count, b))
}

/// Whether a key has `<` and `>` around it.
fn has_angles(name: &[u8]) -> bool
    ensures { result ≡ has_angles name.now }
{
    name.len() > 1 && name[0] == b'<' && name[name.len() - 1] == b'>'
}

/// How many times what is in brackets says a byte, and the byte: in braces a name, in square ones a key.
#[tactic(auto, unfolding(crate::specs::Names::bracketed))]
pub fn bracketed(spelling: Spelling, brackets: Brackets, name: &[u8]) -> Option<(u32, u8)>
    ensures { result ≡ bracketed spelling brackets name.now }
{
    match brackets {
        Brackets::Curly => named(spelling, name),
        Brackets::Square => {
            if !has_angles(name) {
                return None;
            }
            keyed(&name[1..name.len() - 1])
        }
    }
}
