//! Laws of the definitions, with nothing to run. A caller whose proof needs one calls the function.

ghost use Rattle.pr_channels.specs.Laws.{AddingInTwoParts, AddingNone, TableWithOneMore, TableWithSome, OpenableAmongSome};

use pr_serial::laws::{answers_add_up, elements_send_items};

/// A law: while the items are those of the elements, elements added in two parts are added at once,
/// and none leave all as it is.
pub fn elements_add_up()
    ensures two_parts { AddingInTwoParts }
    ensures none { AddingNone }
{
    elements_send_items();
    answers_add_up();
}

/// A law: a file table with one more file that may be opened is a file table, and so is one without
/// some of its files; what may be opened beside the files of a table may be opened beside some of
/// them.
pub fn tables_stay_tables()
    ensures one_more { TableWithOneMore }
    ensures some { TableWithSome }
    ensures openable { OpenableAmongSome }
{}
