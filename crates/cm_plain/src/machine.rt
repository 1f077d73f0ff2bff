//! The plain program beside the definitions: a whole machine kept bit by bit, one place after
//! another, each from the old state. It is slow, and is there to be run beside a fast one.

ghost use Rattle.std.specs.Prelude.{◌≡◌, ◌^◌, ◌<◌, ◌≤◌, ◌==◌, Bool, false, List, length, replicate, slice_index_or};
ghost use Rattle.std.specs.Prelude.{slice_set, IfOk, OnOk, OnErr, if◌then◌else◌};
ghost use Rattle.cm_model.specs.Processor.{Processor, ZERO, memory_bit, flag, entry};
ghost use Rattle.cm_model.specs.Instruction.{memory_output, flag_output, takes_incoming, processor_after};
ghost use Rattle.cm_model.specs.Chip.{each_processor, processor_at, chip_after, with_memory_bit, with_flag};
ghost use Rattle.cm_model.specs.Array.{Chips, each_chip, chip_at, incoming, after_nano};

use cm_bits::{Addr, FLAGS, FlagNo, NoMemory, PROCESSORS, Place, Proc};
use cm_model::{Nano, PlainGrid, opposite};
use std::alloc::Global;
use std::marker::Model;

/// A machine of `2 ^ N` chips, kept bit by bit.
///
/// Contracts see the list of its chips, each the list of its processors.
#[derive(Drop)]
pub struct PlainMachine<const N: usize> {
    pub(crate) chips: Vec<PlainChip>,
}

impl<const N: usize> Model for PlainMachine<N> {
    ghost Value = { Chips };

    ghost view = { λ machine. machine.chips.items };

    ghost invariant = { λ machine. (N ≤ 12) × (length machine.chips.items ≡ 2 ^ N) };
}

#[derive(Drop)]
pub(crate) struct PlainChip {
    pub(crate) processors: Vec<PlainProcessor>,
}

impl Model for PlainChip {
    ghost Value = { List Processor };

    ghost view = { λ chip. chip.processors.items };

    ghost invariant = { λ chip. length chip.processors.items ≡ 16 };
}

#[derive(Drop)]
pub(crate) struct PlainProcessor {
    pub(crate) memory: Vec<bool>,
    pub(crate) flags: Vec<bool>,
}

impl Model for PlainProcessor {
    ghost Value = { Processor };

    ghost view = { λ processor. record { memory = processor.memory.items; flags = processor.flags.items } };
}

impl<const N: usize> PlainMachine<N> {
    /// A machine with all bits and flags 0, and so many memory bits in each processor: a true one
    /// has 4,096, and a test may do with fewer. What is stored beyond them is dropped.
    pub fn blank(alloc: Global, addresses: u16) -> Result<PlainMachine<N>, NoMemory>
        requires dimension { N ≤ 12 }
        ensures value { IfOk result (λ machine. machine ≡ each_chip N (λ c. each_processor
            (λ p. record { memory = replicate addresses false; flags = replicate 16 false }))) }
    {
        let mut chips = Vec::new(alloc);
        for _chip in 0..Self::chip_count() {
            let chip = PlainChip::blank(alloc, addresses)?;
            let Ok(()) = chips.push(chip) else {
                return Err(NoMemory);
            };
        }
        Ok(PlainMachine { chips })
    }

    /// The memory bit of a processor at an address.
    pub fn read(&self, chip: u16, proc: Proc, at: Addr) -> bool
        requires chip { chip < 2 ^ N }
        ensures value { result ≡ memory_bit (processor_at (chip_at self.now chip) proc) at }
    {
        self.processor(chip, proc).memory_bit(at)
    }

    /// One flag of a processor.
    pub fn flag(&self, chip: u16, proc: Proc, number: FlagNo) -> bool
        requires chip { chip < 2 ^ N }
        ensures value { result ≡ flag (processor_at (chip_at self.now chip) proc) number }
    {
        self.processor(chip, proc).flag(number)
    }

    /// Puts a bit into the memory of one processor: beyond its last address it is dropped.
    pub fn poke(&mut self, chip: u16, proc: Proc, at: Addr, bit: bool)
        requires chip { chip < 2 ^ N }
        ensures value { self.new ≡ slice_set self.old chip (with_memory_bit (chip_at self.old chip) proc at bit) }
    {
        self.chips[usize::from(chip)].poke(proc, at, bit);
    }

    /// Puts a bit into a flag of one processor: into flag 8 it is dropped.
    pub fn poke_flag(&mut self, chip: u16, proc: Proc, number: FlagNo, bit: bool)
        requires chip { chip < 2 ^ N }
        ensures value { self.new ≡ (if number == ZERO then self.old
            else slice_set self.old chip (with_flag (chip_at self.old chip) proc number bit)) }
    {
        if number != FlagNo::ZERO {
            self.chips[usize::from(chip)].poke_flag(proc, number, bit);
        }
    }

    /// Every place takes one instruction, from the old state. Where memory is wanting nothing has changed.
    pub fn step(&mut self, alloc: Global, nano: &Nano) -> Result<(), NoMemory>
        ensures ok { OnOk result (self.new ≡ after_nano N nano.now self.old) }
        ensures err { OnErr result (self.new ≡ self.old) }
    {
        let chips = self.chips_after(alloc, nano)?;
        self.chips = chips;
        Ok(())
    }

    fn chips_after(&self, alloc: Global, nano: &Nano) -> Result<Vec<PlainChip>, NoMemory>
        ensures value { IfOk result (λ chips. chips.items ≡ after_nano N nano.now self.now) }
        ensures dimension { N ≤ 12 }
    {
        let mut chips = Vec::with_capacity(alloc, self.chips.len())?;
        for chip in 0..Self::chip_count() {
            let after = self.chip_after(alloc, nano, chip)?;
            chips.push_reserved(after);
        }
        Ok(chips)
    }

    fn chip_after(&self, alloc: Global, nano: &Nano, chip: u16) -> Result<PlainChip, NoMemory>
        requires dimension { N ≤ 12 }
        requires chip { chip < 2 ^ N }
        ensures value { IfOk result (λ after. after
            ≡ chip_after nano.now (incoming N nano.now self.now chip) (chip_at self.now chip)) }
    {
        let mut processors = Vec::new(alloc);
        for number in 0..PROCESSORS {
            let proc = Proc::new(number).unwrap();
            let incoming = self.incoming(nano, chip, proc);
            let after = self.processor(chip, proc).after(alloc, nano, incoming)?;
            let Ok(()) = processors.push(after) else {
                return Err(NoMemory);
            };
        }
        Ok(PlainChip { processors })
    }

    /// The bit that comes in at a place over NEWS or DAISY.
    fn incoming(&self, nano: &Nano, chip: u16, proc: Proc) -> bool
        requires dimension { N ≤ 12 }
        requires chip { chip < 2 ^ N }
        ensures value { result ≡ incoming N nano.now self.now chip proc }
    {
        if nano.write == FlagNo::NEWS {
            let source = PlainGrid::<N>::neighbour(Place { chip, proc }, opposite(nano.dir));
            return self.processor(source.chip, source.proc).flag_output(nano);
        }
        let number = proc.get();
        if number == 0 {
            return false;
        }
        let before = Proc::new(number - 1).unwrap();
        self.processor(chip, before).flag_output(nano)
    }

    fn processor(&self, chip: u16, proc: Proc) -> &PlainProcessor
        requires chip { chip < 2 ^ N }
        ensures value { result.now ≡ processor_at (chip_at self.now chip) proc }
        ensures in_range { proc < 16 }
    {
        let chip = &self.chips[usize::from(chip)];
        &chip.processors[usize::from(proc.get())]
    }

    pub(crate) fn chip_count() -> u16
        requires dimension { N ≤ 12 }
        ensures value { result ≡ 2 ^ N }
    {
        1 << N
    }
}

impl PlainChip {
    fn blank(alloc: Global, addresses: u16) -> Result<PlainChip, NoMemory>
        ensures value { IfOk result (λ chip. chip ≡ each_processor
            (λ p. record { memory = replicate addresses false; flags = replicate 16 false })) }
    {
        let mut processors = Vec::new(alloc);
        for _proc in 0..PROCESSORS {
            let processor = PlainProcessor::blank(alloc, addresses)?;
            let Ok(()) = processors.push(processor) else {
                return Err(NoMemory);
            };
        }
        Ok(PlainChip { processors })
    }

    fn poke(&mut self, proc: Proc, at: Addr, bit: bool)
        ensures value { self.new ≡ with_memory_bit self.old proc at bit }
    {
        self.processors[usize::from(proc.get())].poke(at, bit);
    }

    fn poke_flag(&mut self, proc: Proc, number: FlagNo, bit: bool)
        ensures value { self.new ≡ with_flag self.old proc number bit }
    {
        self.processors[usize::from(proc.get())].poke_flag(number, bit);
    }
}

impl PlainProcessor {
    fn blank(alloc: Global, addresses: u16) -> Result<PlainProcessor, NoMemory>
        ensures value { IfOk result (λ processor. processor
            ≡ record { memory = replicate addresses false; flags = replicate 16 false }) }
    {
        let memory = vec![in alloc; false; usize::from(addresses)]?;
        let flags = vec![in alloc; false; usize::from(FLAGS)]?;
        Ok(PlainProcessor { memory, flags })
    }

    pub(crate) fn copy(&self, alloc: Global) -> Result<PlainProcessor, NoMemory>
        ensures value { IfOk result (λ processor. processor ≡ self.now) }
    {
        let memory = self.memory.to_vec(alloc)?;
        let flags = self.flags.to_vec(alloc)?;
        Ok(PlainProcessor { memory, flags })
    }

    fn memory_bit(&self, at: Addr) -> bool
        ensures value { result ≡ memory_bit self.now at }
    {
        bit_at(&self.memory, usize::from(at.get()))
    }

    pub(crate) fn flag(&self, number: FlagNo) -> bool
        ensures value { result ≡ flag self.now number }
    {
        bit_at(&self.flags, usize::from(number.get()))
    }

    fn poke(&mut self, at: Addr, bit: bool)
        ensures value { self.new ≡ record self.old { memory = slice_set self.old.memory at bit } }
    {
        put(&mut self.memory, usize::from(at.get()), bit);
    }

    pub(crate) fn poke_flag(&mut self, number: FlagNo, bit: bool)
        ensures value { self.new ≡ record self.old { flags = slice_set self.old.flags number bit } }
    {
        put(&mut self.flags, usize::from(number.get()), bit);
    }

    fn memory_output(&self, nano: &Nano) -> bool
        ensures value { result ≡ memory_output nano.now self.now }
    {
        entry(
            nano.mem_table,
            self.memory_bit(nano.a),
            self.memory_bit(nano.b),
            self.flag(nano.read),
        )
    }

    fn flag_output(&self, nano: &Nano) -> bool
        ensures value { result ≡ flag_output nano.now self.now }
    {
        entry(
            nano.flag_table,
            self.memory_bit(nano.a),
            self.memory_bit(nano.b),
            self.flag(nano.read),
        )
    }

    /// The processor after an instruction, where `incoming` comes in over NEWS or DAISY.
    fn after(&self, alloc: Global, nano: &Nano, incoming: bool) -> Result<PlainProcessor, NoMemory>
        ensures value { IfOk result (λ processor. processor ≡ processor_after nano.now incoming self.now) }
    {
        let mut after = self.copy(alloc)?;
        if self.flag(nano.cond) != nano.sense {
            return Ok(after);
        }
        after.poke(nano.a, self.memory_output(nano));
        if nano.write != FlagNo::ZERO {
            after.poke_flag(nano.write, self.stored(nano, incoming));
        }
        Ok(after)
    }

    /// What a store into a flag takes: the processor's own output, or what comes in.
    fn stored(&self, nano: &Nano, incoming: bool) -> bool
        ensures value { result ≡ (if takes_incoming nano.now then incoming else flag_output nano.now self.now) }
    {
        if nano.write == FlagNo::NEWS || nano.write == FlagNo::DAISY {
            incoming
        } else {
            self.flag_output(nano)
        }
    }
}

fn bit_at(bits: &[bool], index: usize) -> bool
    ensures value { result ≡ slice_index_or bits.now index false }
{
    match bits.get(index) {
        Some(bit) => *bit,
        None => false,
    }
}

/// Replaces a bit of a list: there is nothing to replace beyond its end.
pub(crate) fn put(bits: &mut [bool], index: usize, bit: bool)
    ensures value { bits.new ≡ slice_set bits.old index bit }
{
    if index < bits.len() {
        bits[index] = bit;
    }
}

/// The entry of a truth table at three bits.
fn entry(table: u8, a: bool, b: bool, f: bool) -> bool
    ensures value { result ≡ entry table a b f }
{
    let place = 4 * u32::from(a) + 2 * u32::from(b) + u32::from(f);
    table >> place & 1 == 1
}
