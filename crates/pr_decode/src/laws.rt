//! Laws of the definitions, with nothing to run. A caller whose proof needs one calls the function.

ghost use Rattle.pr_decode.specs.Taking.{GivenAreSettled};
ghost use Rattle.pr_decode.specs.Laws.{MoreEdgesAddReadings, OnlyTheLastIsCut, OutlinesDecide, TracesAreAcknowledged, TracesSayTheirPieces, TracesSayWhatTheySpell};

/// A law: more edges only add readings after those that there were, and the end of a recording cuts
/// at most the last. A decoder has given all that the edges taken settle.
pub fn readings_add_up()
    ensures more { MoreEdgesAddReadings }
    ensures cut { OnlyTheLastIsCut }
    ensures given { GivenAreSettled }
{}

/// A law: a lawful trace says the frames of its whole pieces with their moments, however it is cut, and
/// nothing else; without their moments they are the frames that it spells, and each is acknowledged.
pub fn traces_are_read()
    ensures moments { TracesSayTheirPieces }
    ensures spelled { TracesSayWhatTheySpell }
    ensures acknowledged { TracesAreAcknowledged }
{}

/// A law: recordings say the same if their stretches, in which CLOCK stays as it is, have the same
/// outlines and openings. So in the bits of a byte nothing counts but when CLOCK turns and DATA's
/// level where CLOCK is released, when an edge first came too late for a bit, and ATN's pulls;
/// after eight bits the acknowledgement.
pub fn moments_decide()
    ensures { OutlinesDecide }
{}
