//! Blocks of a machine.

ghost use Rattle.std.specs.Prelude.{◌≡◌, ◌+◌, ◌-◌, ◌*◌, ◌/◌, ◌<◌, ◌≤◌, ◌↔◌, ◌^◌, true, IfOk, IsErrOf, IsTrue, []};
ghost use Rattle.std.specs.Prelude.{map, vec_len, vec_capacity};
ghost use Rattle.std.specs.List.{All};
ghost use Rattle.cm_blocks.specs.Parts.{block, chip_in, buffer_in, log_in};
ghost use Rattle.cm_array.specs.Cuts.{joined, AreWhole};
ghost use Rattle.cm_subcube.specs.Blocks.{IsBlock, IsFresh};
ghost use Rattle.cm_subcube.specs.Laws.{all_blocks};

use cm_array::{IntoPart, MachineOf, Part, Sizes};
use cm_bits::NoMemory;
use cm_element::ChipView;
use cm_message::{Event, Message};
use std::alloc::Global;
use std::marker::Model;
use thiserror::Error;

/// Why a machine was not cut.
#[derive(Clone, Copy, Debug, PartialEq, Eq, Error)]
pub enum SplitFault {
    #[error("a block would have less than a row of chips")]
    Split,
    #[error("out of memory")]
    Memory,
}

impl From<NoMemory> for SplitFault {
    ghost use Rattle.std.specs.Prelude.{◌≡◌};
    ghost use Rattle.cm_subcube.specs.declared.block.SplitFault.TheVariants.{Memory};

    ghost from_gives = { λ _ fault. fault ≡ Memory };

    fn from(_: NoMemory) -> SplitFault {
        SplitFault::Memory
    }
}

/// One of 2^`k` bands of whole rows of chips: the chips whose numbers have the same upper `k` bits, with what
/// stands at them and room to go through a run by themselves.
///
/// Contracts see the number `k` and what a part of a machine keeps.
#[derive(Drop)]
pub struct Block {
    pub(crate) k: u8,
    pub(crate) part: Part,
}

impl Model for Block {
    ghost use Rattle.cm_subcube.specs.Blocks.{BlockView, IsBlock};

    ghost Value = { BlockView };

    ghost view = { λ block. record { k = block.k; kept = block.part } };

    ghost invariant = { λ block. IsBlock block.k block.part };
}

impl Block {
    /// The number of its first chip in the whole.
    pub fn first(&self) -> u16
        ensures value { result ≡ self.now.kept.part.first }
    {
        self.part.first()
    }

    /// How many chips it has.
    pub fn chips(&self) -> usize
        ensures value { result ≡ self.now.kept.part.count }
    {
        self.part.chips()
    }

    /// Petit cycles so far.
    pub fn clock(&self) -> u64
        ensures value { result ≡ self.now.kept.part.clock }
        ensures within { result < 2 ^ 63 }
    {
        self.part.clock()
    }

    /// The chip of that number in the whole, to be read.
    pub fn chip(&self, chip: u16) -> ChipView<'_>
        requires from { self.now.kept.part.first ≤ chip }
        requires below { chip < self.now.kept.part.first + self.now.kept.part.count }
        ensures value { result ≡ chip_in self.now.kept.part chip }
    {
        self.part.chip(chip)
    }

    /// The messages that stand in the router of the chip of that number in the whole, in order of arrival.
    pub fn buffer(&self, chip: u16) -> &[Message]
        requires from { self.now.kept.part.first ≤ chip }
        requires below { chip < self.now.kept.part.first + self.now.kept.part.count }
        requires gathered { IsTrue self.now.kept.gathered }
        ensures value { result.now ≡ buffer_in self.now.kept.part chip }
    {
        self.part.buffer(chip)
    }

    /// The events of the chip of that number in the whole, the oldest first.
    pub fn log(&self, chip: u16) -> &[Event]
        requires from { self.now.kept.part.first ≤ chip }
        requires below { chip < self.now.kept.part.first + self.now.kept.part.count }
        ensures value { result.now ≡ log_in self.now.kept.part chip }
    {
        self.part.log(chip)
    }

    /// Makes its messages readable, if any has moved since they were.
    pub fn gather(&mut self)
        ensures value { self.new ≡ record self.old { kept = record self.old.kept { gathered = true } } }
    {
        self.part.gather();
    }
}

impl IntoPart for Block {
    ghost held = { λ block. block.kept };

    fn into_part(self) -> Part {
        self.part
    }
}

/// Cuts a machine into 2^`k` blocks, each a copy, with room in their logs for so many petit cycles.
pub fn split<S: Sizes>(
    alloc: Global,
    machine: &MachineOf<S>,
    k: u8,
    cycles: usize,
) -> Result<Vec<Block>, SplitFault>
    ensures value { IfOk result (λ blocks. map (λ b. b.kept.part) blocks.items
        ≡ all_blocks S.n k machine.now.machine) }
    ensures fresh { IfOk result (λ blocks. All (IsFresh S.n S.cap k (cycles * (4 + S.cap))) blocks.items) }
    ensures split { IsErrOf result SplitFault.Split ↔ (S.n - S.n / 2 < k) }
{
    split_in(alloc, machine, k, cycles, &mut Vec::new(alloc))
}

/// The same in the room of parts that are not needed any more, as far as there are parts of as many chips as a block.
pub fn split_in<S: Sizes>(
    alloc: Global,
    machine: &MachineOf<S>,
    k: u8,
    cycles: usize,
    used: &mut Vec<Part>,
) -> Result<Vec<Block>, SplitFault>
    ensures value { IfOk result (λ blocks. map (λ b. b.kept.part) blocks.items
        ≡ all_blocks S.n k machine.now.machine) }
    ensures fresh { IfOk result (λ blocks. All (IsFresh S.n S.cap k (cycles * (4 + S.cap))) blocks.items) }
    ensures split { IsErrOf result SplitFault.Split ↔ (S.n - S.n / 2 < k) }
{
    let dims = machine.dims();
    if k > dims - dims / 2 {
        return Err(SplitFault::Split);
    }
    let count = power_of_two(k);
    let mut blocks = room_for(alloc, usize::from(count))?;
    for b in 0..count {
        let block = cut(alloc, machine, k, b, cycles, used.pop())?;
        blocks.push_reserved(block);
    }
    Ok(blocks)
}

/// Block `b` of 2^`k`, a copy, with room in its logs for so many petit cycles.
fn cut<S: Sizes>(
    alloc: Global,
    machine: &MachineOf<S>,
    k: u8,
    b: u16,
    cycles: usize,
    used: Option<Part>,
) -> Result<Block, NoMemory>
    requires within { k ≤ S.n - S.n / 2 }
    requires block { b < 2 ^ k }
    ensures value { IfOk result (λ cut. cut.kept.part ≡ block S.n k b machine.now.machine) }
    ensures fresh { IfOk result (IsFresh S.n S.cap k (cycles * (4 + S.cap))) }
{
    let size = power_of_two(machine.dims() - k);
    let part = machine.part_in(alloc, b * size, size, cycles, used)?;
    Ok(Block { k, part })
}

fn power_of_two(exponent: u8) -> u16
    requires small { exponent ≤ 12 }
    ensures value { result ≡ 2 ^ exponent }
{
    1 << exponent
}

/// Room for so many blocks.
fn room_for(alloc: Global, count: usize) -> Result<Vec<Block>, NoMemory>
    ensures none { IfOk result (λ blocks. blocks.items ≡ []) }
    ensures len { IfOk result (λ blocks. vec_len blocks ≡ 0) }
    ensures room { IfOk result (λ blocks. count ≤ vec_capacity blocks) }
{
    Ok(Vec::with_capacity(alloc, count)?)
}

/// The machine becomes that which these blocks are in their order. No memory is taken.
pub fn join<S: Sizes>(blocks: Vec<Block>, into: &mut MachineOf<S>)
    requires whole { AreWhole S.n S.cap (map (λ b. b.kept.part) blocks.items) }
    ensures value { into.new.machine ≡ joined (map (λ b. b.kept.part) blocks.items) }
{
    into.put(blocks);
}

/// The same, and keeps parts as `split_in` takes them, as many as there are places for. No memory is taken.
pub fn join_and_keep<S: Sizes>(blocks: Vec<Block>, into: &mut MachineOf<S>, used: &mut Vec<Part>)
    requires whole { AreWhole S.n S.cap (map (λ b. b.kept.part) blocks.items) }
    ensures value { into.new.machine ≡ joined (map (λ b. b.kept.part) blocks.items) }
{
    into.put_and_keep(blocks, used);
}
