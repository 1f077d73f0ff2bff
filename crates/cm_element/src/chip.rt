//! One chip by itself.

ghost use Rattle.std.specs.Prelude.{◌≡◌, ◌≢◌, ◌↔◌, IfOk, IsErr, OnOk, OnErr};
ghost use Rattle.cm_bits.specs.Bit.{bit};
ghost use Rattle.cm_model.specs.Processor.{ZERO, memory_bit, flag, field_value};
ghost use Rattle.cm_model.specs.Chip.{IsPlane, processor_at, blank_chip, chip_after, with_memory_bit, with_flag};
ghost use Rattle.cm_model.specs.Whole.{IsChip};
ghost use Rattle.cm_element.specs.Flags.{has_flag};
ghost use Rattle.cm_element.specs.Outputs.{AreOutputs};
ghost use Rattle.cm_element.specs.Wide.{with_memory_field, with_flag_plane, with_memory_plane};

use crate::outputs::Outputs;
use crate::run::{Run, ZeroFlag};
use cm_bits::{Addr, Field, FlagNo, NoMemory, Plane, Proc};
use cm_model::Nano;
use std::alloc::Global;
use std::marker::Model;

/// Sixteen processors with 4,096 memory bits and sixteen flags each (Hillis 1985): a run of one chip.
///
/// Contracts see the list of its processors.
#[derive(Drop)]
pub struct Chip {
    run: Run,
}

impl Model for Chip {
    ghost use Rattle.std.specs.Prelude.{◌≡◌, List, length};
    ghost use Rattle.cm_model.specs.Processor.{Processor};
    ghost use Rattle.cm_model.specs.Array.{chip_at};

    ghost Value = { List Processor };

    ghost view = { λ chip. chip_at chip.run 0 };

    ghost invariant = { λ chip. length chip.run ≡ 1 };
}

impl Chip {
    /// A chip with all bits and flags 0.
    pub fn blank(alloc: Global) -> Result<Chip, NoMemory>
        ensures value { IfOk result (λ chip. chip ≡ blank_chip) }
    {
        let run = Run::blank(alloc, 1)?;
        Ok(Chip { run })
    }

    /// A second chip, with the bits and flags of this one.
    pub fn copy(&self, alloc: Global) -> Result<Chip, NoMemory>
        ensures value { IfOk result (λ chip. chip ≡ self.now) }
    {
        let run = self.run.copy(alloc)?;
        Ok(Chip { run })
    }

    /// The memory bit of a processor at an address.
    pub fn read(&self, proc: Proc, at: Addr) -> bool
        ensures value { result ≡ memory_bit (processor_at self.now proc) at }
    {
        self.run.read(0, proc, at)
    }

    /// The bits of all processors at an address: bit p is that of processor p.
    pub fn plane(&self, at: Addr) -> Plane
        ensures value { IsPlane result (λ p. memory_bit (processor_at self.now p) at) }
    {
        self.run.plane(0, at)
    }

    /// The value of a memory field: bit 0 lies at the field's address.
    pub fn field(&self, proc: Proc, field: Field) -> u64
        ensures value { result ≡ field_value (processor_at self.now proc) field.at field.len }
    {
        self.run.field(0, proc, field)
    }

    /// One flag of a processor.
    pub fn flag(&self, proc: Proc, number: FlagNo) -> bool
        ensures value { result ≡ flag (processor_at self.now proc) number }
        ensures whole { IsChip self.now }
    {
        self.run.flag(0, proc, number)
    }

    /// One flag of all processors: bit p is that of processor p.
    pub fn flag_plane(&self, number: FlagNo) -> Plane
        ensures value { IsPlane result (λ p. flag (processor_at self.now p) number) }
        ensures whole { IsChip self.now }
    {
        self.run.flag_plane(0, number)
    }

    /// Whether a flag is 1 in some processor.
    pub fn has_flag(&self, number: FlagNo) -> bool
        ensures value { result ≡ has_flag number self.now }
    {
        self.run.chip_has_flag(0, number)
    }

    /// Puts a bit into the memory of one processor.
    pub fn poke(&mut self, proc: Proc, at: Addr, bit: bool)
        ensures value { self.new ≡ with_memory_bit self.old proc at bit }
    {
        self.run.poke(0, proc, at, bit);
    }

    /// Puts the lowest bits of a number into a memory field of one processor: bit 0 goes to the
    /// field's address.
    pub fn poke_field(&mut self, proc: Proc, field: Field, value: u64)
        ensures value { self.new ≡ with_memory_field self.old proc field.at field.len value }
    {
        self.run.poke_field(0, proc, field, value);
    }

    /// Puts a plane at an address of memory: bit p is that of processor p.
    pub fn poke_plane(&mut self, at: Addr, plane: Plane)
        ensures value { self.new ≡ with_memory_plane self.old at (bit plane) }
    {
        self.run.poke_plane(0, at, plane);
    }

    /// Puts a bit into a flag of one processor, but not into flag 8.
    pub fn poke_flag(&mut self, proc: Proc, number: FlagNo, bit: bool) -> Result<(), ZeroFlag>
        ensures zero_flag { IsErr result ↔ (number ≡ ZERO) }
        ensures ok { OnOk result (self.new ≡ with_flag self.old proc number bit) }
        ensures err { OnErr result (self.new ≡ self.old) }
    {
        self.run.poke_flag(0, proc, number, bit)
    }

    /// Puts a plane into a flag of all processors, but not into flag 8.
    pub fn poke_flag_plane(&mut self, number: FlagNo, plane: Plane)
        requires other { number ≢ ZERO }
        ensures value { self.new ≡ with_flag_plane self.old number (bit plane) }
    {
        self.run.poke_flag_plane(0, number, plane);
    }

    /// What every processor computes of an instruction, whatever its own condition, from the bits as they are.
    pub fn outputs(&self, nano: &Nano) -> Outputs
        ensures value { AreOutputs nano.now self.now result }
    {
        self.run.chip_outputs(0, nano)
    }

    /// Stores the outputs where the condition holds. `incoming` has the bits that come in over NEWS
    /// or DAISY, and counts only where the instruction writes one of these.
    pub fn store(&mut self, nano: &Nano, outputs: Outputs, incoming: Plane)
        requires outputs { AreOutputs nano.now self.old outputs }
        ensures value { self.new ≡ chip_after nano.now (bit incoming) self.old }
    {
        self.run.chip_store(0, nano, outputs, incoming);
    }
}
