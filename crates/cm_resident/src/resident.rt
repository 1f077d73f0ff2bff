//! The runner whose workers run on.

ghost use Rattle.std.specs.Prelude.{◌≡◌, ◌≢◌, ◌↔◌, ℕ, ◌<◌, ◌++◌, [], None};
ghost use Rattle.std.specs.Prelude.{IfOk, IfSome, IsErrOf, IsFalse, IsOk, IsTrue, OnOk, OnErr};
ghost use Rattle.std.specs.Thread.{IsSync};
ghost use Rattle.cm_model.specs.Machine.{run_of};
ghost use Rattle.cm_model.specs.Account.{account, newly_injected, SameLines};
ghost use Rattle.cm_array.specs.Acts.{is_late, is_long};
ghost use Rattle.cm_array.specs.Faults.{CountsLacks, is_no_thread};
ghost use Rattle.cm_gates.specs.Forks.{fork_fault, most_workers};

use crate::shared_list::SharedList;
use cm_array::{MachineOf, Part, RunFault, Runner, Sizes, check_stretch};
use cm_gates::{ForkFault, OutOf, Passage, fault_of, share_of, told};
use cm_model::Act;
use cm_subcube::rounds;
use std::alloc::Global;
use std::sync::Wait;
use std::thread::Threads;

/// The runner whose workers run on: it cuts a copy of a machine into blocks, which workers run, each in a thread of
/// its own to the end of the list; in each round blocks hand one another parcels over lanes. Then it puts them
/// together again. So it does with every list that is not empty.
#[derive(Drop)]
pub struct Resident<'a, R> {
    rt: &'a R,
    alloc: Global,
    k: u8,
    workers: u16,
    passage: Passage,
    threads_lacked: u64,
    /// The parts of its last list, whose room the next takes.
    used: Vec<Part>,
    ghost some: { 0 < workers },
}

impl<'a, R> Resident<'a, R> {
    /// One that cuts machines of 2^`N` chips into 2^`k` blocks for so many workers, which go through the passage. It
    /// runs smaller machines too, in as many blocks as they can be cut into, with no more workers than blocks.
    pub fn new<const N: usize>(
        rt: &'a R,
        alloc: Global,
        k: u8,
        workers: u16,
        passage: Passage,
    ) -> Result<Self, ForkFault>
        ensures ok { IsOk result ↔ (fork_fault N k workers ≡ None) }
        ensures refused { IfSome (fork_fault N k workers) (λ fault. IsErrOf result fault) }
        ensures blocks { IfOk result (λ runner. runner.k ≡ k) }
        ensures workers { IfOk result (λ runner. runner.workers ≡ workers) }
        ensures passage { IfOk result (λ runner. runner.passage ≡ passage) }
        ensures lacked { IfOk result (λ runner. runner.threads_lacked ≡ 0) }
    {
        if let Some(fault) = fault_of::<N>(k, workers) {
            return Err(fault);
        }
        Ok(Resident {
            rt,
            alloc,
            k,
            workers,
            passage,
            threads_lacked: 0,
            used: Vec::new(alloc),
        })
    }
}

impl<'a, S: Sizes, R: Threads + Wait + Sync> Runner<S> for Resident<'a, R> {
    ghost ready = { IsSync R.row };

    ghost threads_lacked = { λ runner. runner.threads_lacked };

    /// Of a list that is not empty it takes memory for its rounds, for a copy of the machine, for the logs of all petit
    /// cycles in the list, for what its blocks exchange, and for what its threads leave. Then each worker is admitted
    /// and its thread started, one after the other; none begins before all are started. Where memory or a thread is
    /// wanting the machine stays as it was.
    fn go(&mut self, machine: &mut MachineOf<S>, acts: &[Act]) -> Result<(), RunFault>
        requires runner { IsSync R.row }
        ensures long { (result ≡ Err RunFault.Long) ↔ IsTrue (is_long acts.now) }
        ensures clock { (result ≡ Err RunFault.Clock)
            ↔ (IsFalse (is_long acts.now) × IsTrue (is_late machine.old.machine.clock acts.now)) }
        ensures empty { acts.now ≡ [] → IsOk result }
        ensures ok { OnOk result (machine.new.machine ≡ run_of S.n S.cap machine.old.machine acts.now) }
        ensures account { OnOk result (SameLines (account S.n machine.new.machine)
            (account S.n machine.old.machine ++ newly_injected S.n machine.old.machine machine.new.machine)) }
        ensures threads { CountsLacks is_no_thread self.old.threads_lacked self.new.threads_lacked result }
        ensures admitted { IfOk result (λ _. acts.now ≢ [] → (gate : _) → self.old.passage ≡ Passage.Gated gate
            → (w : ℕ) → w < most_workers S.n self.old.k self.old.workers → admits (gate.vtable, gate.value) w) }
        ensures err { OnErr result (machine.new.machine ≡ machine.old.machine) }
        ensures blocks { self.new.k ≡ self.old.k }
        ensures workers { self.new.workers ≡ self.old.workers }
        ensures passage { self.new.passage ≡ self.old.passage }
    {
        let cycles = check_stretch(acts, machine.clock())?;
        if acts.is_empty() {
            return Ok(());
        }
        let dims = machine.dims();
        let share = share_of(self.k, self.workers, dims);
        let rounds = rounds(self.alloc, dims, acts, share.k)?;
        let list = SharedList {
            acts,
            rounds: &rounds,
            cycles,
            k: share.k,
            workers: share.workers,
        };
        let done = list.run(self.rt, self.alloc, &self.passage, machine, &mut self.used);
        if let Err(OutOf::Thread(_)) = done {
            self.threads_lacked = self.threads_lacked.wrapping_add(1);
        }
        told(done)
    }
}
