//! The runner of a program: it shares out the lists for which that pays.

ghost use Rattle.std.specs.Prelude.{◌≡◌, ◌↔◌, ◌-◌, ◌/◌, ◌<◌, ◌≤◌, ◌++◌, [], None};
ghost use Rattle.std.specs.Prelude.{IfOk, IfSome, IsErrOf, IsFalse, IsOk, IsTrue};
ghost use Rattle.std.specs.Prelude.{OnErr, OnOk};
ghost use Rattle.std.specs.Thread.{IsSync};
ghost use Rattle.cm_model.specs.Machine.{run_of};
ghost use Rattle.cm_model.specs.Account.{account, newly_injected, SameLines};
ghost use Rattle.cm_array.specs.Acts.{is_late, is_long};
ghost use Rattle.cm_array.specs.Faults.{CountsLacks, is_no_thread};
ghost use Rattle.cm_gates.specs.Forks.{fork_fault};

use crate::shared_list::SharedList;
use crate::short_lists::is_soon_done;
use cm_array::{MachineOf, Part, Plain, RunFault, Runner, Sizes, check_stretch};
use cm_gates::{ForkFault, OutOf, Passage, fault_of, share_of, told};
use cm_model::Act;
use cm_subcube::rounds;
use std::alloc::Global;
use std::sync::Wait;
use std::thread::Threads;

/// The runner that chooses for each list of acts: the thread of the caller runs a list that it has done sooner than the
/// list could be shared out (`is_soon_done`); workers that run on, as those of `Resident`, run all others.
#[derive(Drop)]
pub struct Chooser<'a, R> {
    /// The parts of the last list that was shared out, whose room the next takes.
    used: Vec<Part>,
    k: u8,
    workers: u16,
    threads_lacked: u64,
    passage: Passage,
    rt: &'a R,
    alloc: Global,
    ghost some: { 0 < workers },
}

impl<'a, R> Chooser<'a, R> {
    /// One whose workers are those of `Resident::new`.
    pub fn new<const N: usize>(
        rt: &'a R,
        alloc: Global,
        k: u8,
        workers: u16,
        passage: Passage,
    ) -> Result<Self, ForkFault>
        ensures ok { IsOk result ↔ (fork_fault N k workers ≡ None) }
        ensures refused { IfSome (fork_fault N k workers) (λ fault. IsErrOf result fault) }
        ensures blocks { IfOk result (λ runner. runner.k ≡ k) }
        ensures workers { IfOk result (λ runner. runner.workers ≡ workers) }
        ensures passage { IfOk result (λ runner. runner.passage ≡ passage) }
        ensures lacked { IfOk result (λ runner. runner.threads_lacked ≡ 0) }
    {
        if let Some(fault) = fault_of::<N>(k, workers) {
            return Err(fault);
        }
        Ok(Chooser::of_some(rt, alloc, k, workers, passage))
    }

    /// The same without a refusal, for machines of every size: one that cannot be cut into so many blocks is cut into
    /// as many as it can be.
    pub fn of_some(rt: &'a R, alloc: Global, k: u8, workers: u16, passage: Passage) -> Self
        requires some { 0 < workers }
        ensures blocks { result.k ≡ k }
        ensures workers { result.workers ≡ workers }
        ensures passage { result.passage ≡ passage }
        ensures lacked { result.threads_lacked ≡ 0 }
    {
        Chooser {
            used: Vec::new(alloc),
            k,
            workers,
            threads_lacked: 0,
            passage,
            rt,
            alloc,
        }
    }
}

impl<'a, S: Sizes, R: Threads + Wait + Sync> Runner<S> for Chooser<'a, R> {
    ghost ready = { IsSync R.row };

    ghost threads_lacked = { λ runner. runner.threads_lacked };

    /// Takes memory to count the rounds, and then that of `Plain` or of `Resident`.
    fn go(&mut self, machine: &mut MachineOf<S>, list: &[Act]) -> Result<(), RunFault>
        requires runner { IsSync R.row }
        ensures long { (result ≡ Err RunFault.Long) ↔ IsTrue (is_long list.now) }
        ensures clock { (result ≡ Err RunFault.Clock)
            ↔ (IsFalse (is_long list.now) × IsTrue (is_late machine.old.machine.clock list.now)) }
        ensures empty { list.now ≡ [] → IsOk result }
        ensures ok { OnOk result (machine.new.machine ≡ run_of S.n S.cap machine.old.machine list.now) }
        ensures account { OnOk result (SameLines (account S.n machine.new.machine)
            (account S.n machine.old.machine ++ newly_injected S.n machine.old.machine machine.new.machine)) }
        ensures threads { CountsLacks is_no_thread self.old.threads_lacked self.new.threads_lacked result }
        ensures err { OnErr result (machine.new.machine ≡ machine.old.machine) }
        ensures blocks { self.new.k ≡ self.old.k }
        ensures workers { self.new.workers ≡ self.old.workers }
        ensures passage { self.new.passage ≡ self.old.passage }
    {
        let cycles = check_stretch(list, machine.clock())?;
        if list.is_empty() {
            return Ok(());
        }
        let dims = machine.dims();
        let share = share_of(self.k, self.workers, dims);
        let rounds = rounds(self.alloc, dims, list, share.k)?;
        if is_soon_done(machine, list, share.workers, rounds.len(), cycles) {
            return Plain.go(machine, list);
        }
        let shared = SharedList {
            acts: list,
            rounds: &rounds,
            cycles,
            k: share.k,
            workers: share.workers,
        };
        let done = shared.run(self.rt, self.alloc, &self.passage, machine, &mut self.used);
        if let Err(OutOf::Thread(_)) = done {
            self.threads_lacked = self.threads_lacked.wrapping_add(1);
        }
        told(done)
    }
}
