//! Laws over the definitions: what each function is named for holds.

ghost use Rattle.cm_subcube.specs.Laws.{BlocksAreJoined, CutsAreSpared, RoundsAreFollowed, LogsHaveRoom};

/// The blocks of a machine in their order are that machine.
pub fn blocks_are_joined()
    ensures { BlocksAreJoined }
{}

/// The steps until the first round, and those from each round to the next, are told by the rounds as callers get
/// them, each of which is a round of the run.
pub fn rounds_are_followed()
    ensures { RoundsAreFollowed }
{}

/// The events of all petit cycles of a run are room enough for a block from round to round, as its deliveries are
/// those petit cycles.
pub fn logs_have_room()
    ensures { LogsHaveRoom }
{}

/// What comes to a block at a round has nothing for a chip whose wire is cut.
pub fn cuts_are_spared()
    ensures { CutsAreSpared }
{}
