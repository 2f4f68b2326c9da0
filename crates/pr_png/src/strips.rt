//! The strips of continuous paper, with their holes.

ghost use Rattle.std.specs.Prelude.{◌≡◌, ◌<◌};
ghost use Rattle.pr_png.specs.Strips.{has_column, strip_part};

/// The fold between two sheets.
const FOLD: u64 = 0x4924_9249;

/// Half an inch of a strip, in parts of 2/126 inch. Bit c is dot column c, counted from the outer edge.
const STRIP: [u64; 32] = [
    0x4000_0000,
    0,
    0,
    0,
    0x4000_0000,
    0,
    0,
    0,
    0x4000_0000,
    0,
    0,
    0x1_e000,
    0x4006_1800,
    0x4_0800,
    0x8_0400,
    0x8_0400,
    0x4008_0400,
    0x8_0400,
    0x4_0800,
    0x6_1800,
    0x4001_e000,
    0,
    0,
    0,
    0x4000_0000,
    0,
    0,
    0,
    0x4000_0000,
    0,
    0,
    0,
];

/// The dark dot columns of a strip at a distance from the paper's upper edge, in 1/126 inch.
pub fn strip_part(distance: u128) -> u64
    ensures { result ≡ strip_part distance }
{
    if distance % 1386 < 2 {
        FOLD
    } else {
        STRIP[(distance % 63 / 2) as usize]
    }
}

/// Whether a dot column is dark, where these are.
pub fn has_column(part: u64, column: usize) -> bool
    requires { column < 64 }
    ensures { result ≡ has_column part column }
{
    (part >> column) % 2 == 1
}
