//! The columns of characters, of the lines of their pictures.

ghost use Rattle.std.specs.Prelude.{◌≡◌, ◌+◌, ◌<◌, ◌≤◌, length};
ghost use Rattle.pr_characters.specs.Rows.{column_at, columns_at, dot_at, pictures_at, shapes_of};

use pr_dots::Shapes;

/// A dot of a picture, 1 or 0.
fn dot_at(rows: &[u8], picture: usize, x: u8, y: usize) -> u8
    // the caller's part
    requires whole { length rows.now ≡ 2048 }
    requires picture { picture < 256 }
    requires across { x < 6 }
    requires down { y < 7 }
    // what it gives
    ensures dot { result ≡ dot_at rows.now picture x y }
    ensures within { result ≤ 1 }
{
    (rows[8 * picture + 1 + y] >> x) % 2
}

/// A column of a picture: bit 0 is its top dot.
fn column_at(rows: &[u8], picture: usize, x: u8) -> u8
    requires whole { length rows.now ≡ 2048 }
    requires picture { picture < 256 }
    requires across { x < 6 }
    ensures { result ≡ column_at rows.now picture x }
{
    dot_at(rows, picture, x, 0)
        + 2 * dot_at(rows, picture, x, 1)
        + 4 * dot_at(rows, picture, x, 2)
        + 8 * dot_at(rows, picture, x, 3)
        + 16 * dot_at(rows, picture, x, 4)
        + 32 * dot_at(rows, picture, x, 5)
        + 64 * dot_at(rows, picture, x, 6)
}

/// The columns of a picture.
#[tactic(auto, unfolding(crate::specs::Rows::columns_at))]
fn columns_at(rows: &[u8], picture: usize) -> [u8; 6]
    requires whole { length rows.now ≡ 2048 }
    requires picture { picture < 256 }
    ensures { result ≡ columns_at rows.now picture }
{
    [
        column_at(rows, picture, 0),
        column_at(rows, picture, 1),
        column_at(rows, picture, 2),
        column_at(rows, picture, 3),
        column_at(rows, picture, 4),
        column_at(rows, picture, 5),
    ]
}

/// The 128 pictures of a set, of which this one is the first.
fn pictures_at(rows: &[u8], first: usize) -> [[u8; 6]; 128]
    requires whole { length rows.now ≡ 2048 }
    requires first { first ≤ 128 }
    ensures { result ≡ pictures_at rows.now first }
{
    let mut pictures = [[0; 6]; 128];
    for place in 0..128 {
        pictures[place] = columns_at(rows, first + place);
    }
    pictures
}

/// The shapes of the characters whose pictures have these lines.
pub fn shapes_of(rows: &[u8]) -> Shapes
    requires { length rows.now ≡ 2048 }
    ensures { result ≡ shapes_of rows.now }
{
    Shapes {
        upper: pictures_at(rows, 0),
        lower: pictures_at(rows, 128),
    }
}
