//! The world of an exchange: blocks of a machine on their way through a run, one step at a time.

ghost use Rattle.std.specs.Prelude.{◌≡◌, ◌↔◌, ◌^◌, ◌<◌, true, Some, None, IsErr, IsOk, IsTrue, IfOk, IfErr};
ghost use Rattle.std.specs.Prelude.{OnOk, OnErr, IfSome, IsNone};
ghost use Rattle.std.specs.Option.{unwrap_or};
ghost use Rattle.std.specs.List.{All};
ghost use Rattle.cm_model.specs.Machine.{run_of};
ghost use Rattle.cm_exchange.specs.Lanes.{exchange_of, round_count};
ghost use Rattle.cm_exchange.specs.Laws.{IsNext};
ghost use Rattle.cm_exchange.specs.Worlds.{stand_of, IsFinished};
ghost use Rattle.cm_exchange.specs.Steps.{block_of, stage_of, stand_after, is_ready, is_possible, world_after};
ghost use Rattle.cm_exchange.specs.Steps.{next_world};
ghost use Rattle.cm_exchange.specs.Steps.{next_step};
ghost use Rattle.cm_weave.specs.Faults.{world_fault};
ghost use Rattle.cm_weave.specs.First.{IsFirst};
ghost use Rattle.cm_weave.specs.Woven.{IsOnItsWay};

use crate::first::{Refused, WorldFault, begin};
use crate::kinds::{block_count, lane_moved};
use crate::lane::{Lane, weave};
use cm_array::{MachineOf, Sizes};
use cm_exchange::{Stand, Step};
use cm_model::Act;
use cm_subcube::{Block, Round, join};
use std::alloc::Global;
use std::marker::Model;
use thiserror::Error;

/// A step does not fit the world.
#[derive(Clone, Copy, Debug, PartialEq, Eq, Error)]
#[error("the step does not fit the world")]
pub struct NotNow;

/// The blocks of a machine on their way through a run, where each stands, and the lanes over which they exchange.
///
/// Contracts see into how many blocks it was cut, the machine and the acts, the world of their exchange, and what each
/// block has.
#[derive(Drop)]
pub struct World<S: Sizes> {
    pub(crate) k: u8,
    pub(crate) machine: MachineOf<S>,
    pub(crate) acts: Vec<Act>,
    pub(crate) rounds: Vec<Round>,
    pub(crate) blocks: Vec<Block>,
    pub(crate) stands: Vec<Stand>,
    /// By kind, and then by sender.
    pub(crate) lanes: Vec<Lane>,
}

impl<S: Sizes> Model for World<S> {
    ghost use Rattle.std.specs.Prelude.{map};
    ghost use Rattle.cm_weave.specs.Woven.{Woven, AreWoven, world_seen};

    ghost Value = { Woven };

    ghost view = { λ world. record {
      k = world.k;
      machine = world.machine.machine;
      acts = world.acts.items;
      world = world_seen world.stands.items world.lanes.items;
      parts = map (λ b. b.kept.part) world.blocks.items;
    } };

    ghost invariant = { λ world. AreWoven S.n S.cap world.k world.machine.machine world.acts.items world.rounds.items
        world.blocks.items world.stands.items world.lanes.items };
}

impl<S: Sizes> World<S> {
    /// Cuts a machine into 2^`k` blocks for a run, each of which goes by itself to its first round. Where there is no
    /// world the machine comes back.
    pub fn new(
        alloc: Global,
        machine: MachineOf<S>,
        acts: &[Act],
        k: u8,
    ) -> Result<World<S>, Refused<S>>
        ensures value { IfOk result (IsFirst S.n S.cap k machine.machine acts.now) }
        ensures ok { IsOk result → world_fault S.n k machine.machine.clock acts.now ≡ None }
        ensures fault { IfErr result (λ back. back.fault
            ≡ unwrap_or (world_fault S.n k machine.machine.clock acts.now) WorldFault.Memory) }
        ensures err { IfErr result (λ back. back.machine ≡ machine) }
    {
        match begin(alloc, &machine, acts, k) {
            Ok(begun) => Ok(World {
                k,
                machine,
                acts: begun.acts,
                rounds: begun.rounds,
                blocks: begun.blocks,
                stands: begun.stands,
                lanes: begun.lanes,
            }),
            Err(fault) => Err(Refused { fault, machine }),
        }
    }

    /// Into 2^k blocks the machine was cut.
    pub fn k(&self) -> u8
        ensures value { result ≡ self.now.k }
        ensures way { IsOnItsWay S.n S.cap self.now }
    {
        self.k
    }

    /// Takes a step, if it can be taken now.
    pub fn play(&mut self, step: Step) -> Result<(), NotNow>
        ensures ok { OnOk result (next_world (exchange_of S.n S.cap self.old.k self.old.machine self.old.acts)
            self.old.world step ≡ Some self.new.world) }
        ensures refused { IsErr result ↔ (next_world
            (exchange_of S.n S.cap self.old.k self.old.machine self.old.acts) self.old.world step ≡ None) }
        ensures blocks { self.new.k ≡ self.old.k }
        ensures machine { self.new.machine ≡ self.old.machine }
        ensures acts { self.new.acts ≡ self.old.acts }
        ensures err { OnErr result (self.new ≡ self.old) }
    {
        if !self.can(step) {
            return Err(NotNow);
        }
        self.take(step);
        Ok(())
    }

    /// The step of the lowest block that has one; a world without any is finished.
    pub fn next(&self) -> Option<Step>
        ensures value { result
            ≡ next_step (exchange_of S.n S.cap self.now.k self.now.machine self.now.acts) self.now.world }
        ensures finished { IsNone result
            ↔ IsFinished (exchange_of S.n S.cap self.now.k self.now.machine self.now.acts) self.now.world }
        ensures possible { IfSome result
            (IsNext (exchange_of S.n S.cap self.now.k self.now.machine self.now.acts) self.now.world) }
    {
        let count = block_count(self.k);
        for b in 0..count {
            let step = Step::at(b, self.stands[usize::from(b)].stage);
            if self.can(step) {
                return Some(step);
            }
        }
        None
    }

    /// The machine after the run, where every block is through; else the world as it is.
    pub fn finish(self) -> Result<MachineOf<S>, World<S>>
        ensures ok { IfOk result (λ done. done.machine ≡ run_of S.n S.cap self.machine self.acts) }
        ensures finished { IsOk result
            ↔ IsFinished (exchange_of S.n S.cap self.k self.machine self.acts) self.world }
        ensures err { IfErr result (λ back. back ≡ self) }
    {
        if !self.is_finished() {
            return Err(self);
        }
        let World {
            mut machine,
            blocks,
            ..
        } = self;
        // For the prover alone: a call brings in what holds of every machine.
        let _clock = machine.clock();
        join(blocks, &mut machine);
        Ok(machine)
    }

    /// Whether every block is through all rounds.
    fn is_finished(&self) -> bool
        ensures value { IsTrue result
            ↔ IsFinished (exchange_of S.n S.cap self.now.k self.now.machine self.now.acts) self.now.world }
    {
        are_through(&self.stands, self.rounds.len())
    }

    /// Whether a step can be taken now.
    fn can(&self, step: Step) -> bool
        ensures value { result ≡ is_possible
            (exchange_of S.n S.cap self.now.k self.now.machine self.now.acts) self.now.world step }
    {
        let b = usize::from(step.block());
        if b >= self.stands.len() {
            return false;
        }
        self.can_at(step, self.stands[b])
    }

    /// Whether a step of a block that stands there can be taken now.
    fn can_at(&self, step: Step, stand: Stand) -> bool
        requires block { block_of step < 2 ^ self.now.k }
        requires stands { stand ≡ stand_of self.now.world (block_of step) }
        ensures value { result ≡ is_possible
            (exchange_of S.n S.cap self.now.k self.now.machine self.now.acts) self.now.world step }
    {
        if stand.round >= self.rounds.len() {
            return false;
        }
        if stand.stage != step.stage() {
            return false;
        }
        self.is_free(step, stand)
    }

    /// Whether the word of the lane that it moves lets a step be taken.
    fn is_free(&self, step: Step, stand: Stand) -> bool
        requires block { block_of step < 2 ^ self.now.k }
        requires stands { stand ≡ stand_of self.now.world (block_of step) }
        requires round { stand.round < round_count (exchange_of S.n S.cap self.now.k self.now.machine self.now.acts) }
        requires stage { stand.stage ≡ stage_of step }
        ensures value { result ≡ is_possible
            (exchange_of S.n S.cap self.now.k self.now.machine self.now.acts) self.now.world step }
    {
        let kind = self.rounds[stand.round].kind;
        let at = lane_moved(self.machine.dims(), self.k, step, kind);
        is_ready(step, self.lanes[at].word)
    }

    /// Takes a step that can be taken.
    fn take(&mut self, step: Step)
        requires can { is_possible
            (exchange_of S.n S.cap self.old.k self.old.machine self.old.acts) self.old.world step ≡ true }
        ensures value { self.new.world ≡ world_after
            (exchange_of S.n S.cap self.old.k self.old.machine self.old.acts) self.old.world step }
        ensures blocks { self.new.k ≡ self.old.k }
        ensures machine { self.new.machine ≡ self.old.machine }
        ensures acts { self.new.acts ≡ self.old.acts }
    {
        let b = usize::from(step.block());
        let stand = self.stands[b];
        let round = self.rounds[stand.round];
        let at = lane_moved(self.machine.dims(), self.k, step, round.kind);
        weave(
            &self.acts,
            step,
            &round,
            &mut self.blocks[b],
            &mut self.lanes[at],
        );
        self.stands[b] = go_on(step, stand);
    }
}

/// Where a block stands after its step.
fn go_on(step: Step, stand: Stand) -> Stand
    requires few { stand.round < 2 ^ 63 }
    ensures value { result ≡ stand_after step stand }
{
    match step {
        Step::Grip(_b) => Stand {
            round: stand.round,
            stage: 1,
        },
        Step::File(_b) => Stand {
            round: stand.round,
            stage: 2,
        },
        Step::Draw(_b) => Stand {
            round: stand.round,
            stage: 3,
        },
        Step::Clear(_b) => Stand {
            round: stand.round + 1,
            stage: 0,
        },
    }
}

/// Whether the word of a lane lets a step be taken.
fn is_ready(step: Step, word: u32) -> bool
    ensures value { result ≡ is_ready step word }
{
    match step {
        Step::Grip(_b) => word % 4 == 0,
        Step::File(_b) => true,
        Step::Draw(_b) => word % 4 == 2,
        Step::Clear(_b) => true,
    }
}

/// Whether all stand in the round of this number.
fn are_through(stands: &[Stand], last: usize) -> bool
    ensures value { IsTrue result ↔ All (λ stand. stand.round ≡ last) stands.now }
{
    stands.iter().all(|stand| stand.round == last)
}
