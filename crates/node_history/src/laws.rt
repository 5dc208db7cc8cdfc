// What holds of histories.
ghost use Rattle.node_history.specs.Laws.{HistoriesAreCommands, HistoriesHaveOneEnd, HistoriesNameMarks};

/// A law, and so a function whose body is empty on purpose: at one point a command of a seat gives one answer, one
/// note and one timeline; and what seats ask, in one order, gives one history with one end.
pub fn histories_have_one_end()
    ensures { HistoriesHaveOneEnd }
{}

/// A law, and so a function whose body is empty on purpose: a legal history leads where the commands to the journal
/// lead that its entries have asked, entry by entry. So its end is what `undo_journal` proves of commands: the node
/// is the fold of the rule over the steps that were not undone, and serials rise, so that the laws on marks hold of
/// it.
pub fn histories_are_commands()
    ensures { HistoriesAreCommands }
{}

/// A law, and so a function whose body is empty on purpose: a mark names the node at which a seat is given it, until
/// its station is cut or forgotten. An undo to a mark gives just the node that it names, and no other command but a
/// forget takes a mark its node.
pub fn histories_name_marks()
    ensures { HistoriesNameMarks }
{}
