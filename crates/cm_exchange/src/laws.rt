//! Laws over the definitions: what each function is named for holds.

ghost use Rattle.cm_exchange.specs.Laws.{LanesHaveTwoEnds, RoundsAreDueInOrder, LanesHoldWhatIsDue};
ghost use Rattle.cm_exchange.specs.Laws.{WordsTellSteps, WorldsAreNeverStuck, StepsAreCounted};
ghost use Rattle.cm_exchange.specs.Laws.{OrdersComeToAnEnd};

/// Each block gets from one block over a lane of each kind, which sends to it, and no other.
pub fn lanes_have_two_ends()
    ensures { LanesHaveTwoEnds }
{}

/// What is sent in a round stands in its place among what is due over the lane.
pub fn rounds_are_due_in_order()
    ensures { RoundsAreDueInOrder }
{}

/// A full lane holds what is due.
pub fn lanes_hold_what_is_due()
    ensures { LanesHoldWhatIsDue }
{}

/// Whether a block may move a lane, and what it does with it, the last two bits of the lane's word tell.
pub fn words_tell_steps()
    ensures { WordsTellSteps }
{}

/// As long as a block is not through, some block has a step.
pub fn worlds_are_never_stuck()
    ensures { WorldsAreNeverStuck }
{}

/// All orders of steps come to the end after the same number.
pub fn steps_are_counted()
    ensures { StepsAreCounted }
{}

/// No order of steps goes on for ever.
pub fn orders_come_to_an_end()
    ensures { OrdersComeToAnEnd }
{}
