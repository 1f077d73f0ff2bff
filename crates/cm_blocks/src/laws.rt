//! Laws over the definitions: what each function is named for holds, of every machine and every cut.

ghost use Rattle.cm_blocks.specs.Laws.{BlocksStepAlone, LocalStepsNeedNoParcel, BlocksBegin, BlocksGoOn};
ghost use Rattle.cm_blocks.specs.Laws.{RoundsEndTheRun, BlocksAreTheWhole, LeavingThenTakingIn, LeavingMakesRoom};

/// A block after a step of the whole is the block after the step, with the parcel that is due to it.
pub fn blocks_step_alone()
    ensures { BlocksStepAlone }
{}

/// At a step that is no round a block needs no parcel.
pub fn local_steps_need_no_parcel()
    ensures { LocalStepsNeedNoParcel }
{}

/// Before the first round a block goes alone.
pub fn blocks_begin()
    ensures { BlocksBegin }
{}

/// From a round to the next a block takes in one parcel, and goes alone.
pub fn blocks_go_on()
    ensures { BlocksGoOn }
{}

/// After the last round the machine is that after the run.
pub fn rounds_end_the_run()
    ensures { RoundsEndTheRun }
{}

/// The blocks in order are the whole machine.
pub fn blocks_are_the_whole()
    ensures { BlocksAreTheWhole }
{}

/// Sending first and taking in then is the step.
pub fn leaving_then_taking_in()
    ensures { LeavingThenTakingIn }
{}

/// Once its leaver is gone, each chip has room for the message that comes.
pub fn leaving_makes_room()
    ensures { LeavingMakesRoom }
{}
