// What holds of how old code is purged later, and of the modules that are returned.
ghost use Rattle.unpurged_code.specs.Laws.{ChangesNote, OneList, PurgesDropNotes};

/// Once a module is purged nothing of it is purged later, and each other module is purged later as before.
pub fn purges_drop_notes()
    ensures { PurgesDropNotes }
{}

/// A load or a removal makes current code old, and that is purged later as PostPurge says, if one is given.
pub fn changes_note()
    ensures { ChangesNote }
{}

/// There is one list of the modules that are noted so, and one of those that a sweep purges.
pub fn one_list()
    ensures { OneList }
{}
