//! Laws of the definitions, with nothing to run. A caller whose proof needs one calls the function.

ghost use Rattle.pr_receiver.specs.Laws.{TracesGiveWhatIsHeard, TracesEndWhatTheySpell, FrontsEndAFront, FrontsOfTracesEndAFront, EdgesGiveWhatIsHeard, InputsOfTwoParts, InputsOfOneMore, LawfulIsAllowed, FrontsAreAllowed, HeardOfOneMore, ListeningAfterOneMore, CalledAfterOneMore};

use pr_wire::allowed_traces;

/// A law: a trace gives a device, edge by edge, exactly what it hears of the frames that the trace
/// spells. The edges end just these frames, and the first edges end the first frames. Any edges
/// give what is heard of the frames that they end.
pub fn traces_give_what_is_heard()
    ensures heard { TracesGiveWhatIsHeard }
    ensures frames { TracesEndWhatTheySpell }
    ensures fronts { FrontsEndAFront }
    ensures fronts_of_traces { FrontsOfTracesEndAFront }
    ensures edges { EdgesGiveWhatIsHeard }
{
    allowed_traces();
}

/// A law: more edges, or one edge more, only add inputs to those of the edges before them.
pub fn inputs_add_up()
    ensures two_parts { InputsOfTwoParts }
    ensures one_more { InputsOfOneMore }
{}

/// A law: a lawful trace is allowed, and so are the first edges of allowed edges, however many.
pub fn fronts_are_allowed()
    ensures lawful { LawfulIsAllowed }
    ensures fronts { FrontsAreAllowed }
{
    allowed_traces();
}

/// A law: what a device hears of one frame more follows what it heard before, and that frame
/// decides whether the device then listens and is called.
pub fn frames_are_heard_in_turn()
    ensures heard { HeardOfOneMore }
    ensures listening { ListeningAfterOneMore }
    ensures called { CalledAfterOneMore }
{}
