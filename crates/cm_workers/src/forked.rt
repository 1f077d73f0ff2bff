//! The runner of many threads.

ghost use Rattle.std.specs.Prelude.{◌≡◌, ◌≢◌, ◌↔◌, ℕ, ◌+◌, ◌-◌, ◌/◌, ◌^◌, ◌<◌, ◌≤◌, ◌++◌, [], None, List};
ghost use Rattle.std.specs.Prelude.{IfOk, IfSome, IsErrOf, IsFalse, IsOk, IsTrue};
ghost use Rattle.std.specs.Prelude.{OnOk, OnErr, length};
ghost use Rattle.std.specs.Thread.{IsSync};
ghost use Rattle.std.specs.List.{All};
ghost use Rattle.cm_model.specs.declared.act.Act.{Act};
ghost use Rattle.cm_model.specs.Machine.{run_of};
ghost use Rattle.cm_model.specs.Account.{account, newly_injected, SameLines};
ghost use Rattle.cm_array.specs.Acts.{cycles_in, is_late, is_long};
ghost use Rattle.cm_array.specs.Faults.{CountsLacks, is_no_thread};
ghost use Rattle.cm_gates.specs.Forks.{fork_fault, most_blocks, most_workers};
ghost use Rattle.cm_workers.specs.Posts.{blank_post};
ghost use Rattle.cm_workers.specs.Runs.{StandAt};

use crate::post::Post;
use crate::running::{CutSizes, Run, run_blocks};
use crate::turn::Crew;
use cm_array::{MachineOf, RunFault, Runner, Sizes, check_stretch};
use cm_bits::NoMemory;
use cm_gates::{ForkFault, NoThread, OutOf, Passage, fault_of, share_of, told};
use cm_model::Act;
use cm_subcube::{SplitFault, join, rounds, split};
use std::alloc::Global;
use std::sync::Wait;
use std::thread::Threads;

/// The runner of many threads: it cuts a copy of a machine into blocks, which workers run, each in a thread of its own,
/// and puts them together again when all acts are done. So it does with every list that is not empty: each list starts
/// and ends threads of its own.
#[derive(Drop)]
pub struct Forked<'a, R> {
    rt: &'a R,
    alloc: Global,
    k: u8,
    workers: u16,
    passage: Passage,
    threads_lacked: u64,
    ghost some: { 0 < workers },
}

impl<'a, R> Forked<'a, R> {
    /// One that cuts machines of 2^`N` chips into 2^`k` blocks for so many workers, which go through the passage. It
    /// runs smaller machines too, in as many blocks as they can be cut into, with no more workers than blocks.
    pub fn new<const N: usize>(
        rt: &'a R,
        alloc: Global,
        k: u8,
        workers: u16,
        passage: Passage,
    ) -> Result<Self, ForkFault>
        ensures ok { IsOk result ↔ (fork_fault N k workers ≡ None) }
        ensures refused { IfSome (fork_fault N k workers) (λ fault. IsErrOf result fault) }
        ensures blocks { IfOk result (λ runner. runner.k ≡ k) }
        ensures workers { IfOk result (λ runner. runner.workers ≡ workers) }
        ensures passage { IfOk result (λ runner. runner.passage ≡ passage) }
        ensures lacked { IfOk result (λ runner. runner.threads_lacked ≡ 0) }
    {
        if let Some(fault) = fault_of::<N>(k, workers) {
            return Err(fault);
        }
        Ok(Forked {
            rt,
            alloc,
            k,
            workers,
            passage,
            threads_lacked: 0,
        })
    }

    /// How it shares out a machine of so many dimensions.
    fn sizes(&self, dims: u8) -> CutSizes
        requires dimension { dims ≤ 12 }
        ensures dims { result.dims ≡ dims }
        ensures blocks { result.k ≡ most_blocks dims self.now.k }
        ensures workers { result.workers ≡ most_workers dims self.now.k self.now.workers }
        ensures within { result.k ≤ dims - dims / 2 }
        ensures some { 0 < result.workers }
        ensures few { result.workers ≤ 64 }
    {
        let share = share_of(self.k, self.workers, dims);
        CutSizes {
            dims,
            k: share.k,
            workers: share.workers,
        }
    }
}

impl<'a, S: Sizes, R: Threads + Wait> Runner<S> for Forked<'a, R> {
    ghost ready = { IsSync R.row };

    ghost threads_lacked = { λ runner. runner.threads_lacked };

    /// Of a list that is not empty it takes memory for a copy of the machine, for what its blocks exchange, and for
    /// the logs of all petit cycles in the list. Then each worker is admitted, before any is started. A round takes
    /// memory to deal the blocks out and to take them back. Where memory or a thread is wanting the machine stays as
    /// it was.
    fn go(&mut self, machine: &mut MachineOf<S>, acts: &[Act]) -> Result<(), RunFault>
        requires runner { IsSync R.row }
        ensures long { (result ≡ Err RunFault.Long) ↔ IsTrue (is_long acts.now) }
        ensures clock { (result ≡ Err RunFault.Clock)
            ↔ (IsFalse (is_long acts.now) × IsTrue (is_late machine.old.machine.clock acts.now)) }
        ensures empty { acts.now ≡ [] → IsOk result }
        ensures ok { OnOk result (machine.new.machine ≡ run_of S.n S.cap machine.old.machine acts.now) }
        ensures account { OnOk result (SameLines (account S.n machine.new.machine)
            (account S.n machine.old.machine ++ newly_injected S.n machine.old.machine machine.new.machine)) }
        ensures threads { CountsLacks is_no_thread self.old.threads_lacked self.new.threads_lacked result }
        ensures admitted { IfOk result (λ _. acts.now ≢ [] → (gate : _) → self.old.passage ≡ Passage.Gated gate
            → (w : ℕ) → w < most_workers S.n self.old.k self.old.workers → admits (gate.vtable, gate.value) w) }
        ensures err { OnErr result (machine.new.machine ≡ machine.old.machine) }
        ensures blocks { self.new.k ≡ self.old.k }
        ensures workers { self.new.workers ≡ self.old.workers }
        ensures passage { self.new.passage ≡ self.old.passage }
    {
        let cycles = check_stretch(acts, machine.clock())?;
        if acts.is_empty() {
            return Ok(());
        }
        let sizes = self.sizes(machine.dims());
        let done = self.fork(machine, acts, sizes, cycles);
        if let Err(OutOf::Thread(_)) = done {
            self.threads_lacked = self.threads_lacked.wrapping_add(1);
        }
        told(done)
    }
}

impl<'a, R: Threads + Wait> Forked<'a, R> {
    /// A machine goes through a run by its blocks, or stays as it was. The acts have so many petit cycles.
    fn fork<S: Sizes>(
        &self,
        machine: &mut MachineOf<S>,
        acts: &[Act],
        sizes: CutSizes,
        cycles: usize,
    ) -> Result<(), OutOf>
        requires dimension { sizes.dims ≡ S.n }
        requires within { sizes.k ≤ S.n - S.n / 2 }
        requires some { 0 < sizes.workers }
        requires few { sizes.workers ≤ 64 }
        requires cycles { cycles ≡ cycles_in acts.now }
        requires clock { machine.old.machine.clock + cycles < 2 ^ 63 }
        ensures ok { OnOk result (machine.new.machine ≡ run_of S.n S.cap machine.old.machine acts.now) }
        ensures account { OnOk result (SameLines (account S.n machine.new.machine)
            (account S.n machine.old.machine ++ newly_injected S.n machine.old.machine machine.new.machine)) }
        ensures admitted { IfOk result (λ _. (gate : _) → self.now.passage ≡ Passage.Gated gate
            → (w : ℕ) → w < sizes.workers → admits (gate.vtable, gate.value) w) }
        ensures err { OnErr result (machine.new.machine ≡ machine.old.machine) }
    {
        // For the prover alone: a call brings in what holds of every machine.
        let _clock = machine.clock();
        let rounds = rounds(self.alloc, sizes.dims, acts, sizes.k)?;
        let all = cut_up(self.alloc, machine, sizes, cycles)?;
        admit_all(&self.passage, sizes.workers)?;
        let run = Run {
            acts,
            rounds: &rounds,
            passage: &self.passage,
        };
        let after = run_blocks(self.rt, self.alloc, sizes, run, all)?;
        join(after.blocks, machine);
        Ok(())
    }
}

/// Asks whether so many workers may begin, the one with the lowest number first; no further one once a worker was
/// refused.
fn admit_all(passage: &Passage, workers: u16) -> Result<(), NoThread>
    ensures open { passage.now ≡ Passage.Open → IsOk result }
    ensures admitted { IfOk result (λ _. (gate : _) → passage.now ≡ Passage.Gated gate
        → (w : ℕ) → w < workers → admits (gate.vtable, gate.value) w) }
{
    for worker in 0..workers {
        passage.admit(worker)?;
    }
    Ok(())
}

/// The blocks of a machine as they begin a run with so many petit cycles.
fn cut_up<S: Sizes>(
    alloc: Global,
    machine: &MachineOf<S>,
    sizes: CutSizes,
    cycles: usize,
) -> Result<Crew, NoMemory>
    requires dimension { sizes.dims ≡ S.n }
    requires within { sizes.k ≤ S.n - S.n / 2 }
    requires clock { machine.now.machine.clock + cycles < 2 ^ 63 }
    ensures value { IfOk result (λ all. (acts : List Act) → cycles_in acts ≡ cycles
        → StandAt S.n sizes.k S.cap machine.now.machine acts 0 all.blocks.items all.posts.items) }
{
    // For the prover alone: a call brings in what holds of every machine.
    let _clock = machine.clock();
    let blocks = match split(alloc, machine, sizes.k, cycles) {
        Ok(blocks) => blocks,
        Err(SplitFault::Memory) => return Err(NoMemory),
        Err(SplitFault::Split) => unreachable!(),
    };
    let posts = blank_posts(alloc, sizes.dims, sizes.k, blocks.len())?;
    Ok(Crew { blocks, posts })
}

/// So many posts with nothing in them.
fn blank_posts(alloc: Global, dims: u8, k: u8, count: usize) -> Result<Vec<Post>, NoMemory>
    requires dimension { dims ≤ 12 }
    requires within { k ≤ dims - dims / 2 }
    ensures count { IfOk result (λ posts. length posts.items ≡ count) }
    ensures value { IfOk result (λ posts. All (λ post. post ≡ blank_post dims k) posts.items) }
{
    let mut posts = Vec::with_capacity(alloc, count)?;
    for _i in 0..count {
        posts.push_reserved(Post::blank(alloc, dims, k)?);
    }
    Ok(posts)
}
