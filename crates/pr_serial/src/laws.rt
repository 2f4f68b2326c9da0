//! Laws of the definitions, with nothing to run. A caller whose proof needs one calls the function.

ghost use Rattle.pr_serial.specs.Laws.{ItemsOfOneMore, HeldAfterOneMore, ItemsOnlyGrow, ItemsOfTwoParts, ListenerAfterOneMore, LackingAmongLater, LackingInTwoParts, LackingInNone, LackingInOne, HeardOfOneMore, HeardOfTwoParts, HeardUncalled, InputsOfAnItem, HeardIsBounded};

/// A law: one more element sends the byte that was held back and, if it is an attention, itself;
/// more elements only send more items; and where nothing is held back, further elements send just
/// their own items.
pub fn elements_send_items()
    ensures one_more { ItemsOfOneMore }
    ensures held { HeldAfterOneMore }
    ensures grow { ItemsOnlyGrow }
    ensures two_parts { ItemsOfTwoParts }
{}

/// A law: an UNLISTEN ends listening, a LISTEN to the device begins it, and nothing else changes
/// it.
pub fn items_make_listeners()
    ensures { ListenerAfterOneMore }
{}

/// A law: the answers to later items alone decide whether one of them lacks an answer. No item
/// lacks one where none is sent; one item does exactly if it is not answered; and of two parts one
/// does exactly if one of the first or one of the second does.
pub fn answers_add_up()
    ensures later { LackingAmongLater }
    ensures two_parts { LackingInTwoParts }
    ensures none { LackingInNone }
    ensures one { LackingInOne }
{}

/// A law: a device hears of one more item what that item gives after those before it; of a second
/// part, before which it does not listen, what it hears of that part alone; of items that never
/// call it nothing; and of each item at most two inputs.
pub fn hearing_is_local()
    ensures one_more { HeardOfOneMore }
    ensures two_parts { HeardOfTwoParts }
    ensures uncalled { HeardUncalled }
    ensures few { InputsOfAnItem }
    ensures bounded { HeardIsBounded }
{}
