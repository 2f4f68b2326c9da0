//! Lists that grow.

ghost use Rattle.std.specs.Prelude.{◌≡◌, ◌++◌, ◌∷◌, [], IfErr, OnOk};

use crate::ending::Ending;

/// Adds an item at the end of a list.
pub fn put<T: Drop>(found: &mut Vec<T>, item: T) -> Result<(), Ending>
    ensures ok { OnOk result (found.new.items ≡ found.old.items ++ item ∷ []) }
    ensures err { IfErr result (λ e. e ≡ Ending.OutOfMemory) }
{
    match found.push(item) {
        Ok(()) => Ok(()),
        Err(_) => Err(Ending::OutOfMemory),
    }
}
