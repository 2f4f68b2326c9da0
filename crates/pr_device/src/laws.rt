//! Laws of the definitions, with nothing to run. A caller whose proof needs one calls the function.

ghost use Rattle.pr_device.specs.Laws.{DelaysAreKept, DevicesCanBeCalled, HistoriesAreHeard, LawfulTracesGoForward};
ghost use Rattle.pr_device.specs.Laws.{PairsShareTheLine, TalkersAreHeard, TracesAreHeard, TracesSayWhatTheySpell};
ghost use Rattle.pr_device.specs.Laws.{WakesAreActs, WakesSuffice};
ghost use Rattle.pr_device.specs.CourseLaws.{CallsAreMade, FramesAreMade};
ghost use Rattle.pr_device.specs.PairLaws.{PairsCanBeCalled, PairsMakeTraces, TimedTracesAreMade, TimedTracesGoForward};

use pr_bus::laws::timed_traces_spell;
use pr_receiver::{frames_are_heard_in_turn, traces_give_what_is_heard};
use pr_serial::laws::items_make_listeners;
use pr_wire::delays_within_bounds;

/// A law: whatever the history, a device hears what the bytes say that are said in it.
pub fn histories_are_heard()
    ensures { HistoriesAreHeard }
{}

/// The law of hearing: of any talker whose moves are those of the KERNAL or of the profile a device hears
/// just the bytes that the talker sends, whatever other moments it is shown between them.
pub fn talkers_are_heard()
    ensures { TalkersAreHeard }
{}

/// The law of traces: of a lawful trace, shown edge by edge, a device hears what the frames say that it
/// spells, and its events give a printer the inputs that a receiver gives with these edges.
pub fn traces_are_heard()
    ensures said { TracesSayWhatTheySpell }
    ensures heard { TracesAreHeard }
{
    traces_give_what_is_heard();
}

/// The law of delays: a device has pulled DATA 1000 microseconds after ATN's pull, and 80 after a byte;
/// before a byte it has released DATA when its delay is over and it does not print; it answers
/// end-or-identify in data bytes alone, no sooner than 200 microseconds after DATA's release; it does
/// not touch the bits; and it has released DATA 60 microseconds after ATN's release, if it does not
/// listen.
pub fn delays_are_kept()
    ensures { DelaysAreKept }
{}

/// The law of pairs: two devices that hear the same bytes make DATA's moments in the timed trace of
/// pr_bus. They pull DATA after the least of their delays, release it after the greatest, and answer
/// end-or-identify with one pulse.
pub fn pairs_share_the_line()
    ensures { PairsShareTheLine }
{}

/// The law of wakes: as long as things stand as they do, a device does to DATA what it does now until its
/// wake, and the other thing from then on; without a wake it goes on as it does.
pub fn wakes_are_acts()
    ensures { WakesAreActs }
{}

/// The law of calls: a device that is shown each change of the lines, and called at each wake, does at
/// each moment until the next wake what the changes alone say (`pulling`). It finds DATA pulled where
/// it pulls DATA, since it shares the line.
pub fn wakes_suffice()
    ensures { WakesSuffice }
{
    frames_are_heard_in_turn();
}

/// The law of wakes on a line: where a talker and devices make edges at moments that do not go back, each
/// device can be called at its wakes between them; and [`wakes_suffice`] says what it then does.
pub fn devices_can_be_called()
    ensures { DevicesCanBeCalled }
{
    frames_are_heard_in_turn();
}

/// The law of frames: a frame whose moments are the sums of the timed trace of pr_bus, for the devices
/// that heed it, is made by the talker and any number of devices on one line. With each edge DATA comes
/// to the level that talker and devices give it, and stays so until the next one. 100 microseconds
/// after the acknowledgement the devices expect the next frame.
pub fn frames_are_made()
    ensures { FramesAreMade }
{
    frames_are_heard_in_turn();
    delays_within_bounds();
}

/// The law of attentions: an attention whose moments are the sums of the timed trace of pr_bus, for the
/// devices on the line, is made by the talker and these devices: the answer to ATN, the commands, and
/// what each device does to DATA after ATN's release.
pub fn attentions_are_made()
    ensures { CallsAreMade }
{
    frames_are_heard_in_turn();
    delays_within_bounds();
}

/// The law of timed traces: the timed trace of any items is what the talker of pr_bus and devices on one
/// line make, any number of them, where the trace's printers have their numbers and their delays. So
/// the trace that is defined by sums, and the devices that move by steps, are one.
pub fn timed_traces_are_made()
    ensures { TimedTracesAreMade }
{
    frames_are_heard_in_turn();
    items_make_listeners();
    delays_within_bounds();
    timed_traces_spell();
}

/// The law of the pair: for devices 4 and 5, or the one of them that is present, with any delays within
/// the bounds, and any items, there are numbers with which the timed trace has these delays; and the
/// talker and the devices make that trace.
pub fn pairs_make_traces()
    ensures { PairsMakeTraces }
{
    timed_traces_are_made();
}

/// The law of moments: those of a lawful trace do not go back, and so not those of the timed trace of any
/// items.
pub fn traces_go_forward()
    ensures lawful { LawfulTracesGoForward }
    ensures timed { TimedTracesGoForward }
{
    timed_traces_spell();
}

/// The law of the pair's calls: while the timed trace of any items is made, each of the devices 4 and 5 that
/// is present can be called at its wakes, and what it then does makes the trace ([`wakes_suffice`]).
pub fn pairs_can_be_called()
    ensures { PairsCanBeCalled }
{
    pairs_make_traces();
    devices_can_be_called();
    traces_go_forward();
}
