//! The law of the whole, and a session that is worked out.

ghost use Rattle.std.specs.Prelude.{[], ◌∷◌, codes};
ghost use Rattle.cm_whole.specs.Inputs.{AreAccepted};
ghost use Rattle.cm_whole.specs.Whole.{RunWhole, SessionsAreAsWritten};
ghost use Rattle.cm_whole.specs.Example.{sum, before_sum, whole_sum, poked_sum, sum_setup};

use cm_image_format::only_texts_are_read;
use cm_language::macros_stand_in_their_program;
use cm_session::{
    lines_can_be_parted, lines_run_their_acts, sessions_deliver, sessions_do_macros,
    sessions_keep_machines, sessions_keep_messages,
};

/// For all bytes of an image and of a program's text that are accepted, and all bytes of commands: acts are run one
/// after another; every macro that is run whole computes its whole-number assignment in each selected processor; every
/// message stands in exactly one router or was delivered once, unaltered, to its processor.
pub fn sessions_are_as_written()
    ensures { SessionsAreAsWritten }
{
    only_texts_are_read();
    macros_stand_in_their_program();
    lines_can_be_parted();
    lines_run_their_acts();
    sessions_keep_machines();
    sessions_do_macros();
    sessions_keep_messages();
    sessions_deliver();
}

/// What the law asks for is met by a session that is worked out: its image and its text are accepted, and its second
/// line runs a sum whole; with a poke before that line it does so no longer.
pub fn sums_are_run_whole()
    ensures accepted { AreAccepted whole_sum sum_setup }
    ensures whole { RunWhole whole_sum sum_setup before_sum sum (codes "step" ∷ []) (codes "run" ∷ []) }
    ensures poked { RunWhole poked_sum sum_setup before_sum sum (codes "step" ∷ [])
        (codes "pokeflag 0 0 7 1" ∷ codes "run" ∷ []) → ⊥ }
{}
