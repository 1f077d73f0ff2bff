//! Acts that are run until the session stops.

ghost use Rattle.std.specs.Prelude.{◌≡◌, ◌<◌, ◌++◌, ◌&&◌, false, drop, length, slice_index_or};
ghost use Rattle.std.specs.Prelude.{IsFalse, OnOk, OnErr};
ghost use Rattle.cm_model.specs.Machine.{run_of};
ghost use Rattle.cm_model.specs.declared.act.Act.TheVariants as act;
ghost use Rattle.cm_array.specs.Acts.{is_late, is_long};
ghost use Rattle.cm_array.specs.Faults.{CountsLacks};
ghost use Rattle.cm_session.specs.Session.{has_acts, lacks_room, answer_of_act};
ghost use Rattle.cm_debug.specs.State.{gone, session_of, state, stops_at, Goes};
ghost use Rattle.cm_debug.specs.Longest.{Ran};
ghost use Rattle.cm_debug.specs.Telling.{is_thread};

use crate::answers::{push_number, push_sense, push_word};
use crate::debugger::{Debugger, Stops};
use crate::out_of::OutOf;
use crate::stretch::{is_look, lacks_room, stretch_len};
use cm_array::{MachineOf, RunFault, Runner, Sizes};
use cm_model::Act;
use cm_session::CLOCK;
use std::alloc::AllocError;

impl Debugger<'_> {
    /// Runs the acts from the position on until the session stops, and tells what it answers.
    pub fn run_on<S: Sizes, R: Runner<S>>(
        &mut self,
        machine: &mut MachineOf<S>,
        runner: &mut R,
        stops: Stops,
        text: &mut Vec<u8>,
    ) -> Result<(), OutOf>
        requires runner { R.ready }
        ensures goes { Goes S.n S.cap (gone S.n S.cap stops (state machine.old.machine self.old text.old.items 0))
            (state machine.old.machine self.old text.old.items (R.threads_lacked runner.old))
            (state machine.new.machine self.new text.new.items (R.threads_lacked runner.new)) result }
    {
        while self.position < self.acts.len() {
            let rest = &self.acts[self.position..];
            let first = &rest[0];
            if lacks_room(machine.clock(), first) {
                push_number(text, b"?", CLOCK)?;
                return Ok(());
            }
            self.run_stretch(machine, runner, stops, text)?;
            if self.stops_here(stops) {
                push_number(text, b"at", self.position as u64)?;
                return Ok(());
            }
        }
        push_word(text, b"end")?;
        Ok(())
    }

    /// Whether acts are left and the session stops before them.
    #[tactic(auto, using(crate::proofs::Coming::drop_has_acts))]
    fn stops_here(&self, stops: Stops) -> bool
        ensures value { result ≡ (stops_at stops self.now.breakpoints.items self.now.position
            && has_acts (drop self.now.position self.now.acts.now)) }
    {
        self.position < self.acts.len() && self.stops(stops, self.position)
    }

    /// Runs the next stretch of acts, and tells what its first act tells. On a refusal the machine is as it was.
    fn run_stretch<S: Sizes, R: Runner<S>>(
        &mut self,
        machine: &mut MachineOf<S>,
        runner: &mut R,
        stops: Stops,
        text: &mut Vec<u8>,
    ) -> Result<(), OutOf>
        requires runner { R.ready }
        requires within { self.old.position < length self.old.acts.now }
        requires room { lacks_room machine.old.machine.clock
            (slice_index_or self.old.acts.now self.old.position act.Cycle) ≡ false }
        ensures ran { Ran S.n S.cap stops
            (state machine.old.machine self.old text.old.items (R.threads_lacked runner.old))
            (state machine.new.machine self.new text.new.items (R.threads_lacked runner.new)) result }
    {
        let acts = self.acts;
        let rest = &acts[self.position..];
        let first = &rest[0];
        self.push_told(text, machine, first)?;
        let count = stretch_len(rest, self, stops, machine.clock());
        hand_over(machine, &rest[..count], runner)?;
        self.position += count;
        Ok(())
    }

    /// What an act tells before it is run.
    fn push_told<S: Sizes>(
        &self,
        text: &mut Vec<u8>,
        machine: &MachineOf<S>,
        act: &Act,
    ) -> Result<(), AllocError>
        ensures ok { OnOk result (text.new.items
            ≡ text.old.items ++ answer_of_act (session_of machine.now.machine self.now) act.now) }
    {
        if self.trace && is_look(act) {
            push_sense(text, self.position, machine.wire())?;
        }
        Ok(())
    }
}

/// Has the runner run acts that it takes at once.
fn hand_over<S: Sizes, R: Runner<S>>(
    machine: &mut MachineOf<S>,
    acts: &[Act],
    runner: &mut R,
) -> Result<(), OutOf>
    requires runner { R.ready }
    requires short { IsFalse (is_long acts.now) }
    requires early { IsFalse (is_late machine.old.machine.clock acts.now) }
    ensures ok { OnOk result (machine.new.machine ≡ run_of S.n S.cap machine.old.machine acts.now) }
    ensures err { OnErr result (machine.new.machine ≡ machine.old.machine) }
    ensures thread { CountsLacks is_thread (R.threads_lacked runner.old) (R.threads_lacked runner.new) result }
{
    match runner.go(machine, acts) {
        Ok(()) => Ok(()),
        Err(RunFault::NoThread) => Err(OutOf::Thread),
        Err(RunFault::Memory) => Err(OutOf::Memory),
        Err(RunFault::Long | RunFault::Clock) => unreachable!(),
    }
}
