//! The dots of the characters that a printer has.

ghost use Rattle.std.specs.Prelude.{◌≡◌};
ghost use Rattle.pr_dots.specs.Shapes.{own_shapes};

use crate::shapes::{LOWER, UPPER};

/// The dots of each character in both character sets: six columns, each as a graphic column prints it (bit 0 is the top
/// dot). Each set has the codes 32 to 95 and 160 to 223.
#[derive(Clone, Copy)]
pub struct Shapes {
    /// The graphic/upper case set.
    pub upper: [[u8; 6]; 128],
    /// The lower/upper case set.
    pub lower: [[u8; 6]; 128],
}

impl Shapes {
    /// This project's own drawing (`examples/characters.txt`).
    #[tactic(auto, unfolding(crate::specs::Shapes::upper_shapes, crate::specs::Shapes::lower_shapes))]
    pub fn own() -> Shapes
        ensures { result ≡ own_shapes }
    {
        Shapes {
            upper: UPPER,
            lower: LOWER,
        }
    }
}
