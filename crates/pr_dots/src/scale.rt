//! How fine a bitmap is.

ghost use Rattle.std.specs.Prelude.{◌≡◌, ◌≤◌};
ghost use Rattle.pr_dots.specs.Scales.{pixels_of};

/// How many pixels a bitmap has for the place of a dot, which is 1/60 inch wide and 1/63 inch high: the same across and down.
#[derive(Clone, Copy, Debug, PartialEq, Eq)]
pub enum Scale {
    One,
    Two,
    Three,
    Four,
    Five,
    Six,
    Seven,
    Eight,
}

impl Scale {
    /// The number of pixels.
    pub fn pixels(self) -> u8
        ensures pixels { result ≡ pixels_of self }
        ensures least { 1 ≤ result }
        ensures most { result ≤ 8 }
    {
        match self {
            Scale::One => 1,
            Scale::Two => 2,
            Scale::Three => 3,
            Scale::Four => 4,
            Scale::Five => 5,
            Scale::Six => 6,
            Scale::Seven => 7,
            Scale::Eight => 8,
        }
    }
}
