//! Lists of acts that workers go through.

ghost use Rattle.std.specs.Prelude.{◌≡◌, ℕ, ◌-◌, ◌/◌, ◌^◌, ◌<◌, ◌≤◌, ◌++◌, [], IfOk, IsFalse, List};
ghost use Rattle.std.specs.Prelude.{OnOk, OnErr, get_or, length, vec_capacity};
ghost use Rattle.std.specs.List.{All};
ghost use Rattle.cm_model.specs.declared.act.Act.{Act};
ghost use Rattle.cm_model.specs.Machine.{run_of};
ghost use Rattle.cm_model.specs.Account.{account, newly_injected, SameLines};
ghost use Rattle.cm_array.specs.Acts.{is_late};
ghost use Rattle.cm_resident.specs.Gathering.{AreEmpty, HaveRoom};
ghost use Rattle.cm_resident.specs.SharedLists.{IsListFor};
ghost use Rattle.cm_resident.specs.TeamSetups.{AreLinedUp, AreLinedUpForSome};

use crate::gathering::{in_order, room_for};
use crate::running::{TeamSetup, line_up, work_all};
use crate::teams::team_in;
use crate::together::Together;
use cm_array::{MachineOf, Part, Sizes};
use cm_bits::NoMemory;
use cm_gates::{NoThread, OutOf, Passage};
use cm_model::Act;
use cm_subcube::{Block, Round, join_and_keep};
use std::alloc::Global;
use std::sync::Wait;
use std::thread::Threads;

/// A list of acts as it is shared out: into 2^`k` blocks, for so many workers.
#[derive(Clone, Copy)]
pub(crate) struct SharedList<'a> {
    pub(crate) acts: &'a [Act],
    pub(crate) rounds: &'a [Round],
    /// How many petit cycles it has.
    pub(crate) cycles: usize,
    pub(crate) k: u8,
    pub(crate) workers: u16,
}

impl<'a> SharedList<'a> {
    /// A machine goes through it, or stays as it was.
    pub(crate) fn run<S: Sizes, R: Threads + Wait + Sync>(
        &self,
        rt: &R,
        alloc: Global,
        passage: &Passage,
        machine: &mut MachineOf<S>,
        used: &mut Vec<Part>,
    ) -> Result<(), OutOf>
        requires list { IsListFor S.n self.now }
        requires clock { IsFalse (is_late machine.old.machine.clock self.now.acts.now) }
        ensures ok { OnOk result (machine.new.machine ≡ run_of S.n S.cap machine.old.machine self.now.acts.now) }
        ensures account { OnOk result (SameLines (account S.n machine.new.machine)
            (account S.n machine.old.machine ++ newly_injected S.n machine.old.machine machine.new.machine)) }
        ensures admitted { IfOk result (λ _. (gate : _) → passage.now ≡ Passage.Gated gate
            → (w : ℕ) → w < self.now.workers → admits (gate.vtable, gate.value) w) }
        ensures err { OnErr result (machine.new.machine ≡ machine.old.machine) }
    {
        // Where no event was told there is none to copy, and what the blocks tell becomes the machine's logs.
        if matches!(passage, Passage::Open) && machine.has_events() {
            self.share_out_without_logs(rt, alloc, passage, machine, used)
        } else {
            self.share_out(rt, alloc, passage, machine, used)
        }
    }

    /// A machine goes through it by its blocks, or stays as it was.
    fn share_out<S: Sizes, R: Threads + Wait + Sync>(
        &self,
        rt: &R,
        alloc: Global,
        passage: &Passage,
        machine: &mut MachineOf<S>,
        used: &mut Vec<Part>,
    ) -> Result<(), OutOf>
        requires list { IsListFor S.n self.now }
        requires clock { IsFalse (is_late machine.old.machine.clock self.now.acts.now) }
        ensures ok { OnOk result (machine.new.machine ≡ run_of S.n S.cap machine.old.machine self.now.acts.now) }
        ensures account { OnOk result (SameLines (account S.n machine.new.machine)
            (account S.n machine.old.machine ++ newly_injected S.n machine.old.machine machine.new.machine)) }
        ensures admitted { IfOk result (λ _. (gate : _) → passage.now ≡ Passage.Gated gate
            → (w : ℕ) → w < self.now.workers → admits (gate.vtable, gate.value) w) }
        ensures err { OnErr result (machine.new.machine ≡ machine.old.machine) }
    {
        let prepared = self.prepare(alloc, machine, used)?;
        run_prepared(rt, passage, machine, prepared, used)?;
        Ok(())
    }

    /// The same where nobody looks at the blocks: the logs of the machine are set aside and not copied, and what its
    /// blocks tell comes to stand behind them.
    fn share_out_without_logs<S: Sizes, R: Threads + Wait + Sync>(
        &self,
        rt: &R,
        alloc: Global,
        passage: &Passage,
        machine: &mut MachineOf<S>,
        used: &mut Vec<Part>,
    ) -> Result<(), OutOf>
        requires open { passage.now ≡ Passage.Open }
        requires list { IsListFor S.n self.now }
        requires clock { IsFalse (is_late machine.old.machine.clock self.now.acts.now) }
        ensures ok { OnOk result (machine.new.machine ≡ run_of S.n S.cap machine.old.machine self.now.acts.now) }
        ensures account { OnOk result (SameLines (account S.n machine.new.machine)
            (account S.n machine.old.machine ++ newly_injected S.n machine.old.machine machine.new.machine)) }
        ensures admitted { IfOk result (λ _. (gate : _) → passage.now ≡ Passage.Gated gate
            → (w : ℕ) → w < self.now.workers → admits (gate.vtable, gate.value) w) }
        ensures err { OnErr result (machine.new.machine ≡ machine.old.machine) }
    {
        // For the prover alone: a call brings in what holds of every machine.
        let _clock = machine.clock();
        let earlier = machine.set_logs_aside(alloc, self.cycles)?;
        let done = self.share_out(rt, alloc, passage, machine, used);
        let by = Together {
            rt,
            threads: usize::from(self.workers),
        };
        machine.put_logs_back_by(&by, earlier, used);
        done
    }

    /// Takes all memory that a list takes.
    fn prepare<S: Sizes>(
        &self,
        alloc: Global,
        machine: &MachineOf<S>,
        used: &mut Vec<Part>,
    ) -> Result<Prepared, NoMemory>
        requires list { IsListFor S.n self.now }
        requires clock { IsFalse (is_late machine.now.machine.clock self.now.acts.now) }
        ensures k { IfOk result (λ prepared. prepared.k ≡ self.now.k) }
        ensures team { IfOk result (λ prepared. AreLinedUp
            (record { n = S.n; k = prepared.k; room = S.cap; machine = machine.now.machine; acts = self.now.acts.now })
            self.now.workers prepared.all.readies.items) }
        ensures none { IfOk result (λ prepared.
            AreEmpty prepared.all.handles.items prepared.all.left.items prepared.all.shares.items) }
        ensures room { IfOk result (λ prepared. HaveRoom (length prepared.all.readies.items)
            (vec_capacity prepared.all.handles) (vec_capacity prepared.all.left) (vec_capacity prepared.all.shares)) }
        ensures untold { IfOk result (λ prepared. All (λ word. word ≡ 0) prepared.all.starters.items) }
        ensures no_places { IfOk result (λ prepared. prepared.places.items ≡ []) }
        ensures place_room { IfOk result (λ prepared. 2 ^ prepared.k ≤ vec_capacity prepared.places) }
    {
        // Who asks for the counter is told that the machine is whole, and of at most 12 dimensions.
        let _clock = machine.clock();
        let team = team_in(alloc, machine, self, used)?;
        let all = line_up(alloc, team)?;
        make_places(alloc, used, 1 << self.k);
        let places = room_for(alloc, 1 << self.k)?;
        Ok(Prepared {
            k: self.k,
            all,
            places,
        })
    }
}

/// All that a list wants before the first of its threads is started: a team with its start words and room for what it
/// leaves, and room for its 2^`k` blocks.
#[derive(Drop)]
struct Prepared {
    k: u8,
    all: TeamSetup,
    places: Vec<Block>,
}

/// Workers for whom all is prepared go through their run, or the machine stays as it was; no memory is taken.
fn run_prepared<S: Sizes, R: Threads + Wait + Sync>(
    rt: &R,
    passage: &Passage,
    machine: &mut MachineOf<S>,
    prepared: Prepared,
    used: &mut Vec<Part>,
) -> Result<(), NoThread>
    requires within { prepared.k ≤ S.n - S.n / 2 }
    requires some { 0 < length prepared.all.readies.items }
    requires team { AreLinedUpForSome S.n prepared.k S.cap machine.old.machine prepared.all.readies.items }
    requires none { AreEmpty prepared.all.handles.items prepared.all.left.items prepared.all.shares.items }
    requires room { HaveRoom (length prepared.all.readies.items)
        (vec_capacity prepared.all.handles) (vec_capacity prepared.all.left) (vec_capacity prepared.all.shares) }
    requires untold { All (λ word. word ≡ 0) prepared.all.starters.items }
    requires no_places { prepared.places.items ≡ [] }
    requires place_room { 2 ^ prepared.k ≤ vec_capacity prepared.places }
    ensures ok { OnOk result ((acts : List Act) (count : ℕ) → AreLinedUp
        (record { n = S.n; k = prepared.k; room = S.cap; machine = machine.old.machine; acts = acts })
        count prepared.all.readies.items → machine.new.machine ≡ run_of S.n S.cap machine.old.machine acts) }
    ensures admitted { IfOk result (λ _. (gate : _) → passage.now ≡ Passage.Gated gate
        → (w : ℕ) (d : _) → w < length prepared.all.readies.items
        → admits (gate.vtable, gate.value) (get_or prepared.all.readies.items w d).worker.id) }
    ensures err { OnErr result (machine.new.machine ≡ machine.old.machine) }
{
    // Who asks for the counter is told that the machine is whole, and of at most 12 dimensions.
    let _clock = machine.clock();
    let Prepared { k, all, places } = prepared;
    let shares = work_all(rt, passage, all)?;
    let blocks = in_order(shares, 1 << k, places);
    join_and_keep(blocks, machine, used);
    Ok(())
}

/// Makes places for so many parts, if there is memory: what is not kept is made anew.
fn make_places(alloc: Global, used: &mut Vec<Part>, count: usize) {
    used.clear();
    if used.capacity() < count {
        if let Ok(places) = Vec::with_capacity(alloc, count) {
            *used = places;
        }
    }
}
