//! Workers of a team.

ghost use Rattle.std.specs.Prelude.{◌≡◌, ◌≢◌, ℕ, ◌+◌, ◌*◌, ◌<◌, ◌≤◌, ◌-◌, ◌^◌, IsTrue, Some, length, get_or, slice_get};
ghost use Rattle.std.specs.List.{All};
ghost use Rattle.cm_gates.specs.Gates.{ComesBy, gate_round_number};
ghost use Rattle.cm_gates.specs.Blocks.{AreShown};
ghost use Rattle.cm_turns.specs.Lanes.{Run, ends_each, place_of_kind, rounds_in};
ghost use Rattle.cm_turns.specs.Standing.{IsWorkerBefore};
ghost use Rattle.cm_turns.specs.Workers.{HasPassed, HasSeenOf, HasWorked, IsBeforeRound, IsOfSome};

use crate::turn::{EndPlace, begin_all, get_all, send_all};
use cm_board::{FromEnd, ToEnd};
use cm_gates::{Gate, Passage};
use cm_model::Act;
use cm_subcube::{Block, Kind, Parcel, Round};
use std::sync::Wait;

/// One of a team, each of whom has some blocks of a machine, and goes with them through the same acts.
#[derive(Drop)]
pub struct Worker {
    /// Its number.
    pub id: u16,
    /// The machine was cut into 2^`k` blocks.
    pub k: u8,
    pub acts: Vec<Act>,
    pub rounds: Vec<Round>,
    /// Those of its own, the lowest number first.
    pub blocks: Vec<Block>,
    /// By block, the ends over which it sends: northward, southward, and over each of the last `k` dimensions.
    pub sends: Vec<FromEnd<Parcel>>,
    /// By block, the ends over which it gets, in the same order.
    pub gets: Vec<ToEnd<Parcel>>,
}

impl Worker {
    /// Goes through all acts with its blocks. It waits for those with whom they exchange.
    pub fn work<R: Wait>(self, rt: &R, passage: &Passage) -> Vec<Block>
        requires team { IsOfSome self }
        ensures value { HasWorked self result.items }
        ensures passed { (gate : _) → passage.now ≡ Passage.Gated gate
            → HasPassed (λ v told bs. saw (gate.vtable, gate.value) v told bs) self }
    {
        let Worker {
            id,
            k,
            acts,
            rounds,
            mut blocks,
            mut sends,
            mut gets,
        } = self;
        begin_all(&mut blocks, &acts);
        let duty = Duty {
            rt,
            passage,
            acts: &acts,
            id,
            k,
        };
        for r in 0..rounds.len() {
            duty.exchange(&rounds[r], r, &mut blocks, &mut sends, &mut gets);
        }
        blocks
    }
}

/// What a worker goes by in each round.
#[derive(Drop)]
struct Duty<'a, R> {
    rt: &'a R,
    passage: &'a Passage,
    acts: &'a [Act],
    id: u16,
    k: u8,
}

impl<'a, R: Wait> Duty<'a, R> {
    /// A round of a worker's blocks, and what they do from there to the next.
    fn exchange(
        &self,
        round: &Round,
        r: usize,
        blocks: &mut Vec<Block>,
        sends: &mut Vec<FromEnd<Parcel>>,
        gets: &mut Vec<ToEnd<Parcel>>,
    )
        requires ready { IsBeforeRound self.now.acts.now self.now.k r self.now.id round.now blocks.old.items
            sends.old.items gets.old.items }
        ensures count { length blocks.new.items ≡ length blocks.old.items }
        ensures value { (run : Run) (count : ℕ) → self.now.acts.now ≡ run.acts → self.now.k ≡ run.k
            → slice_get (rounds_in run) r ≡ Some round.now
            → IsWorkerBefore run r count self.now.id blocks.old.items sends.old.items gets.old.items
            → IsWorkerBefore run (r + 1) count self.now.id blocks.new.items sends.new.items gets.new.items }
        ensures passed { (gate : _) → self.now.passage.now ≡ Passage.Gated gate → (run : Run) (count : ℕ)
            → IsWorkerBefore run r count self.now.id blocks.old.items sends.old.items gets.old.items
            → HasSeenOf (λ v told bs. saw (gate.vtable, gate.value) v told bs) run count self.now.id r }
    {
        let each = ends_each(self.k);
        let place = place_of(blocks[0].chips(), round.kind);
        let end = EndPlace { each, place };
        show(blocks, r, self.id, self.passage);
        send_all(self.rt, round, blocks, sends, end);
        get_all(self.rt, self.acts, round, blocks, gets, end);
    }
}

/// How many ends of each sort a block has: one block alone exchanges nothing.
pub fn ends_each(k: u8) -> usize
    ensures value { result ≡ ends_each k }
    ensures within { result ≤ k + 2 }
{
    if k == 0 { 0 } else { usize::from(k) + 2 }
}

/// The place of a kind of round among the ends of a block of so many chips: the first two are for the grid, and the
/// third for the lowest dimension that leads out of the block.
fn place_of(chips: usize, kind: Kind) -> usize
    requires some { 0 < chips }
    requires outer { (d : ℕ) → kind ≡ Kind.Dim d → chips ≤ 2 ^ d }
    ensures value { (n k : ℕ) → chips ≡ 2 ^ (n - k) → result ≡ place_of_kind n k kind }
{
    match kind {
        Kind::North => 0,
        Kind::South => 1,
        Kind::Dim(dim) => usize::from(dim) - chips.ilog2() as usize + 2,
    }
}

/// Shows the blocks, before they send in a round, to who looks.
fn show(blocks: &mut Vec<Block>, number: usize, worker: u16, passage: &Passage)
    requires own { ComesBy worker (gate_round_number number) blocks.old.items }
    ensures value { AreShown blocks.old.items blocks.new.items }
    ensures seen { (gate : _) → passage.now ≡ Passage.Gated gate
        → saw (gate.vtable, gate.value) worker (gate_round_number number) blocks.new.items }
{
    if let Passage::Gated(gate) = passage {
        gather_all(blocks);
        come_by(&**gate, worker, as_told(number), blocks);
    }
}

fn come_by(gate: &dyn Gate, worker: u16, told: u32, blocks: &[Block])
    requires gathered { All (λ b. IsTrue b.kept.gathered) blocks.now }
    requires own { ComesBy worker told blocks.now }
    ensures seen { saw gate.now worker told blocks.now }
{
    gate.pass(worker, told, blocks);
}

/// The number of a round as a gate is told it: one that is too large as the largest.
fn as_told(number: usize) -> u32
    ensures value { result ≡ gate_round_number number }
{
    number.min(u32::MAX as usize) as u32
}

fn gather_all(blocks: &mut Vec<Block>)
    ensures shown { AreShown blocks.old.items blocks.new.items }
    ensures gathered { All (λ b. IsTrue b.kept.gathered) blocks.new.items }
{
    for i in 0..blocks.len() {
        blocks[i].gather();
    }
}
