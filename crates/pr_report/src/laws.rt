//! Laws of the definitions, with nothing to run. A caller whose proof needs one calls the function.

ghost use Rattle.pr_report.specs.StoryLaws.{MoreEdgesAddFrames, TracesTellTheirMoments, TracesTellWhatTheySpell};
ghost use Rattle.pr_report.specs.ReadingLaws.{LawfulTracesAreTold, LawfulTracesAreWithin, LinesAddUp, MiddlesAreLeast, UsualTracesAreStories};

use pr_decode::traces_are_read;
use pr_wire::allowed_traces;

/// A law: without their moments the frames of a lawful trace are those that it spells; with them they
/// are those of its whole pieces, however it is cut.
pub fn frames_are_told()
    ensures spelled { TracesTellWhatTheySpell }
    ensures moments { TracesTellTheirMoments }
{
    allowed_traces();
}

/// A law: more edges only add frames after those that there were.
pub fn stories_add_up()
    ensures more { MoreEdgesAddFrames }
{}

/// A law: one reading more adds its lines after those of the others; which lines they are depends
/// on what comes before the reading.
pub fn lines_add_up()
    ensures { LinesAddUp }
{}

/// A law: the middle of some lengths is the least number that at least half of them do not exceed.
pub fn middles_are_least()
    ensures { MiddlesAreLeast }
{}

/// A law: in a lawful trace each interval lies within the profile's bounds, and within the guide's, since no bound
/// of the guide is closer.
pub fn lawful_traces_are_within()
    ensures { LawfulTracesAreWithin }
{
    traces_are_read();
}

/// A law: of a lawful trace each byte has its line of the story, if it is sent to a printer, and there is no other
/// line. Readings do not say where ATN is released, so the line `attention` may be in other places. It is
/// in the same places, so that the lines are the story's, where bytes are as computers send them to printers:
/// where each attention begins with LISTEN, UNLISTEN or another command below the secondary addresses, and has a
/// second one from these on or none, and where the computer sends data bytes while a printer listens.
pub fn lawful_traces_are_told()
    ensures told { LawfulTracesAreTold }
    ensures usual { UsualTracesAreStories }
{
    traces_are_read();
    frames_are_told();
}
