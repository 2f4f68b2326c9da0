//! Laws of the definitions, with nothing to run. A caller whose proof needs one calls the function.

ghost use Rattle.pr_recording.specs.Laws.{InputsAreFew, MoreReadingsAddInputs, TracesAreHeardAsSpelled};

use pr_decode::traces_are_read;
use pr_receiver::frames_are_heard_in_turn;

/// A law: more readings only add inputs after those that there were, each at most one.
pub fn readings_are_heard_in_turn()
    ensures more { MoreReadingsAddInputs }
    ensures few { InputsAreFew }
{
    frames_are_heard_in_turn();
}

/// A law: of what a lawful trace says a device hears just what it hears of the frames that the
/// trace spells, so its page is theirs.
pub fn traces_are_heard_as_spelled()
    ensures { TracesAreHeardAsSpelled }
{
    traces_are_read();
}
