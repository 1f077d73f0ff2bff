//! The laws of teams and of their lanes.

ghost use Rattle.cm_resident.specs.Laws.{LanesAreOfTheExchange, TeamsLeaveTheirMachine};

/// What all workers of a team leave are shares of the blocks, which in their order are a whole machine, that after the
/// run.
pub fn teams_leave_their_machine()
    ensures { TeamsLeaveTheirMachine }
{}

/// What lanes carry, and who gives to whom, is what cm_exchange has of the exchange of the run.
pub fn lanes_are_of_the_exchange()
    ensures { LanesAreOfTheExchange }
{}
