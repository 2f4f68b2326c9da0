//! Laws of the definitions, with nothing to run. A caller whose proof needs one calls the function.

ghost use Rattle.pr_basic.specs.StatementLaws.{StopsExactly, MissingByStatus, EffectsByStatus, StatusExactly, StatusFoundNext, SentAfterEarlier};
ghost use Rattle.pr_basic.specs.FaultLaws.{PlacesChangeNoFault};
ghost use Rattle.pr_basic.specs.LexemeLaws.{LexemesAreFound, LinesHaveLexemes};

use pr_serial::laws::{answers_add_up, elements_send_items};

/// A law: a CMD or PRINT# stops with DEVICE NOT PRESENT exactly where the file is open and the
/// LISTEN to its device is not answered, or the element directly before it is a byte that is not
/// answered; where the status is kept, exactly where the LISTEN or any item before it in the run is
/// not answered. The other stops are those of the file table. In a run the status tells the same:
/// the device is missing exactly where the status is 128 after the LISTEN.
pub fn stops_are_exact()
    ensures stop { StopsExactly }
    ensures missing { MissingByStatus }
    ensures effects { EffectsByStatus }
{
    elements_send_items();
    answers_add_up();
}

/// A law: the status of a statement is 128 exactly where an item sent in it is not answered (where
/// the status is kept: in it or before it), else 0; and the next statement of a run finds this
/// status where it is kept, else 0.
pub fn statuses_are_exact()
    ensures status { StatusExactly }
    ensures next { StatusFoundNext }
{
    elements_send_items();
    answers_add_up();
}

/// A law: the items that a statement sends are exactly those that follow the items of all before
/// it.
pub fn statements_send_their_items()
    ensures { SentAfterEarlier }
{
    elements_send_items();
}

/// A law: a text has a first fault at some place exactly where it has that fault by the same rules
/// without places.
pub fn places_change_no_fault()
    ensures { PlacesChangeNoFault }
{}

/// A law: each line has one list of lexemes, which is the one that the reader finds.
pub fn lexemes_are_found()
    ensures all { LinesHaveLexemes }
    ensures no_others { LexemesAreFound }
{}
