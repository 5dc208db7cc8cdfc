// What holds of restarts.
ghost use Rattle.node_restart.specs.Laws.{RestartsTellOneThing};

/// What clients are told of a restart is one thing.
pub fn restarts_tell_one_thing()
    ensures { RestartsTellOneThing }
{}
