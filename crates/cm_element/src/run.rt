//! A run of chips as rows: one row of planes for each address and for each flag.

ghost use Rattle.std.specs.Prelude.{◌≡◌, ◌≢◌, ℕ, ◌<◌, ◌≤◌, Bool, false, true, length, slice_index, IfOk};
ghost use Rattle.cm_bits.specs.Bit.{bit};
ghost use Rattle.cm_model.specs.Each.{tabulate};
ghost use Rattle.cm_model.specs.Processor.{NEWS, memory_bit, flag};
ghost use Rattle.cm_model.specs.Instruction.{takes_incoming};
ghost use Rattle.cm_model.specs.Chip.{IsPlane, processor_at, blank_chip, chip_after};
ghost use Rattle.cm_model.specs.Array.{chip_at};
ghost use Rattle.cm_model.specs.Whole.{IsChip};
ghost use Rattle.cm_element.specs.Steps.{AreSent, along_chain};

mod bits;
mod flags;
mod lay;
mod memory;
mod outputs;
mod room;
mod rows;
mod square;
mod view;

use crate::run::memory::MemoryRows;
use crate::run::rows::{look_up_row, step_rows, take_rows, word_at};
pub use bits::ZeroFlag;
use cm_bits::{Addr, FlagNo, NoMemory, Plane};
use cm_model::Nano;
use std::alloc::Global;
use std::marker::Model;
pub use view::ChipView;

const ADDRESSES: usize = cm_bits::ADDRESSES as usize;

const FLAGS: usize = cm_bits::FLAGS as usize;

/// From so many chips on, rows lie some words further apart than they are long: a power of two would
/// put all bits of a processor into the same few sets of the cache.
const MANY: usize = 128;

const PADDING: usize = 32;

/// So many words lie the planes of two chips apart where they lie chip by chip, and for the same reason.
pub const PITCH: usize = 4128;

/// So many words lie the planes of two chips apart where `write_field_planes` writes them: as many bits has the
/// longest field.
pub const FIELD_PITCH: usize = 64;

/// Chips with consecutive numbers, kept as one row of planes for each address and for each flag.
///
/// Contracts see the list of the chips, each the list of its processors.
#[derive(Drop)]
pub struct Run {
    memory: MemoryRows,
    flags: Vec<Plane>,
    stride: usize,
    chips: usize,
}

impl Model for Run {
    ghost use Rattle.std.specs.Prelude.{List};
    ghost use Rattle.cm_model.specs.Processor.{Processor};
    ghost use Rattle.cm_element.specs.Runs.{chips_of, AreRows};

    ghost Value = { List (List Processor) };

    ghost view = { λ run. chips_of run.memory run.flags.items run.stride run.chips };

    ghost invariant = { λ run. AreRows run.memory run.flags.items run.stride run.chips };
}

impl Run {
    /// So many chips with all bits and flags 0. Memory is taken three times, however many chips there are.
    pub fn blank(alloc: Global, chips: u16) -> Result<Run, NoMemory>
        ensures value { IfOk result (λ run. run ≡ tabulate 0 chips (λ c. blank_chip)) }
    {
        let chips = usize::from(chips);
        let stride = stride_of(chips);
        let memory = MemoryRows::blank(alloc, stride)?;
        let Ok(flags) = vec![in alloc; 0; FLAGS * stride] else {
            return Err(NoMemory);
        };
        Ok(Run {
            memory,
            flags,
            stride,
            chips,
        })
    }

    /// A second run, with the bits and flags of this one.
    pub fn copy(&self, alloc: Global) -> Result<Run, NoMemory>
        ensures value { IfOk result (λ run. run ≡ self.now) }
    {
        let memory = self.memory.copy(alloc)?;
        let flags = self.flags.to_vec(alloc)?;
        Ok(Run {
            memory,
            flags,
            stride: self.stride,
            chips: self.chips,
        })
    }

    /// How many chips there are.
    pub fn chips(&self) -> usize
        ensures value { result ≡ length self.now }
    {
        self.chips
    }

    /// The bits of all processors of a chip at an address: bit p is that of processor p.
    pub fn plane(&self, chip: u16, at: Addr) -> Plane
        requires chip { chip < length self.now }
        ensures value { IsPlane result (λ p. memory_bit (processor_at (chip_at self.now chip) p) at) }
    {
        self.memory_word(chip, usize::from(at.get()))
    }

    /// The bits of all processors at an address, a plane for each chip in order.
    pub fn plane_row(&self, at: Addr) -> &[Plane]
        ensures count { length result.now ≡ length self.now }
        ensures value { (c : ℕ) → c < length self.now
            → IsPlane (slice_index result.now c) (λ p. memory_bit (processor_at (chip_at self.now c) p) at) }
    {
        self.memory
            .row(usize::from(at.get()), self.stride, self.chips)
    }

    /// Whether an address has a row: where it has none, the bits of all processors are 0 there.
    pub fn is_in_use(&self, at: Addr) -> bool
        ensures blank { result ≡ false → (c : ℕ) → c < length self.now
            → IsPlane 0 (λ p. memory_bit (processor_at (chip_at self.now c) p) at) }
    {
        self.memory.is_in_use(usize::from(at.get()), self.stride)
    }

    /// One flag of all processors of a chip: bit p is that of processor p.
    pub fn flag_plane(&self, chip: u16, number: FlagNo) -> Plane
        requires chip { chip < length self.now }
        ensures value { IsPlane result (λ p. flag (processor_at (chip_at self.now chip) p) number) }
        ensures whole { IsChip (chip_at self.now chip) }
    {
        let here = word_at(usize::from(number.get()), FLAGS, self.stride, chip);
        self.flags[here]
    }

    /// The bits of all processors of a chip at an address.
    fn memory_word(&self, chip: u16, at: usize) -> Plane
        requires chip { chip < length self.now }
        requires at { at < 4096 }
        ensures value { IsPlane result (λ p. memory_bit (processor_at (chip_at self.now chip) p) at) }
        ensures whole { IsChip (chip_at self.now chip) }
    {
        self.memory.word(at, self.stride, chip)
    }

    /// One instruction in all chips, in one pass, unless it writes NEWS. What comes in over DAISY goes
    /// along the chain of each chip; nothing else comes in.
    pub fn step(&mut self, nano: &Nano)
        requires apart { nano.now.write ≢ NEWS }
        ensures value { self.new ≡ tabulate 0 (length self.old)
            (λ c. chip_after nano.now (along_chain nano.now (chip_at self.old c)) (chip_at self.old c)) }
        ensures alone { takes_incoming nano.now ≡ false → (incoming : ℕ → ℕ → Bool)
            → self.new ≡ tabulate 0 (length self.old) (λ c. chip_after nano.now (incoming c) (chip_at self.old c)) }
    {
        step_rows(
            &mut self.memory,
            &mut self.flags,
            nano,
            self.stride,
            self.chips,
        );
    }

    /// Writes down what every chip computes for the flag of an instruction, whatever its condition:
    /// what it sends over NEWS or DAISY.
    pub fn send(&self, nano: &Nano, sent: &mut [Plane])
        requires sent { length sent.old ≡ length self.now }
        ensures value { AreSent nano.now self.now sent.new }
    {
        look_up_row(
            nano.flag_table,
            &self.memory,
            &self.flags,
            nano,
            self.stride,
            self.chips,
            sent,
        );
    }

    /// One instruction in all chips, when these planes come in over NEWS or DAISY, one at each chip.
    /// They are used up.
    pub fn take(&mut self, nano: &Nano, incoming: &mut [Plane])
        requires taken { takes_incoming nano.now ≡ true }
        requires incoming { length incoming.old ≡ length self.old }
        ensures value { self.new ≡ tabulate 0 (length self.old)
            (λ c. chip_after nano.now (bit (slice_index incoming.old c)) (chip_at self.old c)) }
    {
        take_rows(
            &mut self.memory,
            &mut self.flags,
            nano,
            self.stride,
            self.chips,
            incoming,
        );
    }
}

/// Whether an instruction takes in what other processors send: it writes NEWS or DAISY.
pub fn takes_incoming(nano: &Nano) -> bool
    ensures value { result ≡ takes_incoming nano.now }
{
    nano.write == FlagNo::NEWS || nano.write == FlagNo::DAISY
}

/// How far the rows of so many chips lie apart.
fn stride_of(chips: usize) -> usize
    requires few { chips < 65536 }
    ensures within { chips ≤ result }
    ensures few { result < 65568 }
{
    if chips < MANY { chips } else { chips + PADDING }
}
