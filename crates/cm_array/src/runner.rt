//! What makes a machine go through a list of acts, and the plain one, of one thread.

ghost use Rattle.std.specs.Prelude.{◌≡◌, ◌↔◌, ◌<◌, ◌^◌, ◌+◌, ◌*◌, ◌++◌, ℕ, IfOk, IsErrOf, IsFalse, IsOk, IsTrue};
ghost use Rattle.std.specs.Prelude.{OnOk, OnErr, [], false};
ghost use Rattle.cm_model.specs.Machine.{run_of};
ghost use Rattle.cm_model.specs.Account.{account, newly_injected, SameLines};
ghost use Rattle.cm_array.specs.Acts.{cycles_in, is_cycle, is_late, is_long};
ghost use Rattle.cm_array.specs.Faults.{CountsLacks, is_no_thread, plain_threads_lacked, WantsChangeTheirCount};
ghost use Rattle.cm_array.specs.Parts.{LacksLogRoom};

use crate::limits::{LAST_CLOCK, LONGEST, MOST_CYCLES};
use crate::machine::MachineOf;
use crate::sizes::Sizes;
use cm_bits::NoMemory;
use cm_model::Act;
use thiserror::Error;

/// Why a list of acts was not run.
#[derive(Clone, Copy, Debug, PartialEq, Eq, Error)]
pub enum RunFault {
    #[error("more than 4,096 acts or 64 petit cycles in one stretch")]
    Long,
    #[error("more than 2^63 - 1 petit cycles in all")]
    Clock,
    #[error("out of memory")]
    Memory,
    #[error("a thread was not admitted or not started")]
    NoThread,
}

impl From<NoMemory> for RunFault {
    ghost use Rattle.std.specs.Prelude.{◌≡◌};
    ghost use Rattle.cm_array.specs.declared.runner.RunFault.TheVariants.{Memory};

    ghost from_gives = { λ _ fault. fault ≡ Memory };

    fn from(_: NoMemory) -> RunFault {
        RunFault::Memory
    }
}

/// Makes a machine go through lists of at most 4,096 acts, of which at most 64 are petit cycles.
pub trait Runner<S: Sizes> {
    /// What a caller of an unknown runner has to know of its type; of `Plain` it is no condition.
    ghost ready: { Type 0 };

    /// How many lists it has refused for want of a thread, counted modulo 2^64; the plain one never does.
    ghost threads_lacked: { Self → ℕ };

    /// Whether it may be in want of a thread. Of one that never is, the count stays as it is.
    fn may_want_threads(&self) -> bool
        ensures never { result ≡ false → (before after : Self) → threads_lacked before ≡ threads_lacked after }
    {
        true
    }

    /// Runs the acts one after another, or none of them. The account has then the lines of what was
    /// injected in addition, and no others.
    fn go(&mut self, machine: &mut MachineOf<S>, acts: &[Act]) -> Result<(), RunFault>
        requires runner { ready }
        ensures long { (result ≡ Err RunFault.Long) ↔ IsTrue (is_long acts.now) }
        ensures clock { (result ≡ Err RunFault.Clock)
            ↔ (IsFalse (is_long acts.now) × IsTrue (is_late machine.old.machine.clock acts.now)) }
        ensures empty { acts.now ≡ [] → IsOk result }
        ensures ok { OnOk result (machine.new.machine ≡ run_of S.n S.cap machine.old.machine acts.now) }
        ensures account { OnOk result (SameLines (account S.n machine.new.machine)
            (account S.n machine.old.machine ++ newly_injected S.n machine.old.machine machine.new.machine)) }
        ensures threads { CountsLacks is_no_thread (threads_lacked self.old) (threads_lacked self.new) result }
        ensures err { OnErr result (machine.new.machine ≡ machine.old.machine) };
}

/// A want of a thread never leaves the count of them as it was.
pub fn wants_change_their_count()
    ensures { WantsChangeTheirCount }
{}

/// The runner of one thread: one act after another, in the machine itself.
#[derive(Clone, Copy)]
pub struct Plain;

impl<S: Sizes> Runner<S> for Plain {
    ghost ready = { Unit {0} };

    ghost threads_lacked = { plain_threads_lacked };

    /// It starts none.
    fn may_want_threads(&self) -> bool
        ensures never { (before after : Plain) → plain_threads_lacked before ≡ plain_threads_lacked after }
        ensures none { result ≡ false }
    {
        false
    }

    /// Takes memory for the events of all petit cycles in the list, before the first act, and none where the
    /// row into which all chips tell has room for them: a petit cycle tells at most 4 + `CAP` events of a chip.
    fn go(&mut self, machine: &mut MachineOf<S>, acts: &[Act]) -> Result<(), RunFault>
        ensures long { (result ≡ Err RunFault.Long) ↔ IsTrue (is_long acts.now) }
        ensures clock { (result ≡ Err RunFault.Clock)
            ↔ (IsFalse (is_long acts.now) × IsTrue (is_late machine.old.machine.clock acts.now)) }
        ensures empty { acts.now ≡ [] → IsOk result }
        ensures no_cycles { cycles_in acts.now ≡ 0 → IsFalse (is_long acts.now) → IsOk result }
        ensures memory { IsErrOf result RunFault.Memory
            → LacksLogRoom (cycles_in acts.now * (4 + S.cap)) machine.old.log_rooms }
        ensures no_thread { ¬ IsErrOf result RunFault.NoThread }
        ensures threads { CountsLacks is_no_thread (plain_threads_lacked self.old) (plain_threads_lacked self.new) result }
        ensures ok { OnOk result (machine.new.machine ≡ run_of S.n S.cap machine.old.machine acts.now) }
        ensures account { OnOk result (SameLines (account S.n machine.new.machine)
            (account S.n machine.old.machine ++ newly_injected S.n machine.old.machine machine.new.machine)) }
        ensures err { OnErr result (machine.new.machine ≡ machine.old.machine) }
    {
        let cycles = check_stretch(acts, machine.clock())?;
        machine.run(acts, cycles)?;
        Ok(())
    }
}

/// What every runner refuses before anything else: more than 4,096 acts or 64 petit cycles, or so many of these that
/// the counter would pass 2^63 - 1. It tells how many petit cycles there are.
pub fn check_stretch(acts: &[Act], clock: u64) -> Result<usize, RunFault>
    requires clock { clock < 2 ^ 63 }
    ensures long { (result ≡ Err RunFault.Long) ↔ IsTrue (is_long acts.now) }
    ensures clock { (result ≡ Err RunFault.Clock) ↔ (IsFalse (is_long acts.now) × IsTrue (is_late clock acts.now)) }
    ensures memory { ¬ IsErrOf result RunFault.Memory }
    ensures no_thread { ¬ IsErrOf result RunFault.NoThread }
    ensures cycles { IfOk result (λ cycles. cycles ≡ cycles_in acts.now) }
{
    let cycles = cycles_in(acts);
    if acts.len() > LONGEST || cycles > MOST_CYCLES {
        return Err(RunFault::Long);
    }
    if cycles as u64 > LAST_CLOCK - clock {
        return Err(RunFault::Clock);
    }
    Ok(cycles)
}

/// How many petit cycles are among the acts.
fn cycles_in(acts: &[Act]) -> usize
    ensures value { result ≡ cycles_in acts.now }
{
    acts.iter().filter(|act| is_cycle(act)).count()
}

fn is_cycle(act: &Act) -> bool
    ensures value { result ≡ is_cycle act.now }
{
    matches!(act, Act::Cycle)
}
