//! An instruction in two halves: what all chips compute, and what they store of it.

ghost use Rattle.std.specs.Prelude.{◌≡◌, ℕ, ◌+◌, ◌<◌, ◌≤◌, if◌then◌else◌, length, slice_index, slice_set};
ghost use Rattle.cm_bits.specs.Bit.{bit};
ghost use Rattle.cm_model.specs.Each.{tabulate};
ghost use Rattle.cm_model.specs.Instruction.{takes_incoming};
ghost use Rattle.cm_model.specs.Chip.{chip_after};
ghost use Rattle.cm_model.specs.Array.{chip_at};
ghost use Rattle.cm_element.specs.Outputs.{AreOutputs};
ghost use Rattle.cm_element.specs.Runs.{AreRows, chips_of};
ghost use Rattle.cm_element.specs.Steps.{AreHolding, IsStored};
ghost use Rattle.cm_element.specs.WideOutputs.{HaveRoomFor, AreWideOutputs};

use super::{Run, takes_incoming};
use crate::outputs::Outputs;
use crate::run::memory::MemoryRows;
use crate::run::rows::{look_up_row, places};
use crate::wide_outputs::WideOutputs;
use crate::word::{chosen, holding};
use cm_bits::{FlagNo, Plane};
use cm_model::Nano;
use cm_truth::apply_alone;

impl Run {
    /// What every processor of a chip computes of an instruction, whatever its own condition, from
    /// the bits as they are.
    pub fn chip_outputs(&self, chip: u16, nano: &Nano) -> Outputs
        requires chip { chip < length self.now }
        ensures value { AreOutputs nano.now (chip_at self.now chip) result }
    {
        let a = self.plane(chip, nano.a);
        let b = self.plane(chip, nano.b);
        let f = self.flag_plane(chip, nano.read);
        let condition = self.flag_plane(chip, nano.cond);
        Outputs {
            mem: apply_alone(nano.mem_table, a, b, f),
            flag: apply_alone(nano.flag_table, a, b, f),
            holds: holding(condition, nano.sense),
        }
    }

    /// Stores the outputs of a chip where the condition holds. `incoming` has the bits that come in over
    /// NEWS or DAISY, and counts only where the instruction writes one of these.
    pub fn chip_store(&mut self, chip: u16, nano: &Nano, outputs: Outputs, incoming: Plane)
        requires chip { chip < length self.old }
        requires outputs { AreOutputs nano.now (chip_at self.old chip) outputs }
        ensures value { self.new
            ≡ slice_set self.old chip (chip_after nano.now (bit incoming) (chip_at self.old chip)) }
    {
        let memory = chosen(outputs.holds, outputs.mem, self.plane(chip, nano.a));
        let own = self.flag_plane(chip, nano.write);
        self.poke_plane(chip, nano.a, memory);
        if nano.write != FlagNo::ZERO {
            let stored = stored_plane(nano, outputs.flag, incoming);
            self.poke_flag_plane(chip, nano.write, chosen(outputs.holds, stored, own));
        }
    }

    /// Writes down what every processor of every chip computes of an instruction, whatever its own
    /// condition, from the bits as they are.
    pub fn outputs(&self, nano: &Nano, outputs: &mut WideOutputs)
        requires room { HaveRoomFor (length self.now) outputs.old }
        ensures value { AreWideOutputs nano.now self.now outputs.new }
        ensures room { HaveRoomFor (length self.now) outputs.new }
    {
        look_up_row(
            nano.mem_table,
            &self.memory,
            &self.flags,
            nano,
            self.stride,
            self.chips,
            &mut outputs.mem,
        );
        look_up_row(
            nano.flag_table,
            &self.memory,
            &self.flags,
            nano,
            self.stride,
            self.chips,
            &mut outputs.flag,
        );
        hold_row(
            &self.memory,
            &self.flags,
            nano,
            self.stride,
            self.chips,
            &mut outputs.holds,
        );
    }

    /// Stores the outputs of this run where the condition holds. `incoming` has the planes that come in
    /// over NEWS or DAISY, one for each chip, and counts only where the instruction writes one of these.
    pub fn store(&mut self, nano: &Nano, outputs: &WideOutputs, incoming: &[Plane])
        requires room { HaveRoomFor (length self.old) outputs.now }
        requires outputs { AreWideOutputs nano.now self.old outputs.now }
        requires incoming { length incoming.now ≡ length self.old }
        ensures value { self.new ≡ tabulate 0 (length self.old)
            (λ c. chip_after nano.now (bit (slice_index incoming.now c)) (chip_at self.old c)) }
    {
        store_rows(
            &mut self.memory,
            &mut self.flags,
            nano,
            self.stride,
            self.chips,
            outputs,
            incoming,
        );
    }
}

/// What a store into a flag takes: the processors' own outputs, or what comes in.
fn stored_plane(nano: &Nano, own: Plane, incoming: Plane) -> Plane
    ensures value { result ≡ (if takes_incoming nano.now then incoming else own) }
{
    if takes_incoming(nano) { incoming } else { own }
}

/// Writes down where the condition of an instruction holds.
fn hold_row(
    memory: &MemoryRows,
    flags: &[Plane],
    nano: &Nano,
    stride: usize,
    chips: usize,
    found: &mut [Plane],
)
    requires rows { AreRows memory.now flags.now stride chips }
    requires found { length found.old ≡ chips }
    ensures value { AreHolding nano.now (chips_of memory.now flags.now stride chips) found.new }
{
    let at = places(nano, stride);
    let sense = nano.sense;
    for c in 0..chips {
        found[c] = holding(flags[at.cond + c], sense);
    }
}

/// Stores the outputs in the rows.
fn store_rows(
    memory: &mut MemoryRows,
    flags: &mut [Plane],
    nano: &Nano,
    stride: usize,
    chips: usize,
    outputs: &WideOutputs,
    incoming: &[Plane],
)
    requires rows { AreRows memory.old flags.old stride chips }
    requires room { HaveRoomFor chips outputs.now }
    requires outputs { AreWideOutputs nano.now (chips_of memory.old flags.old stride chips) outputs.now }
    requires incoming { length incoming.now ≡ chips }
    ensures rows { AreRows memory.new flags.new stride chips }
    ensures value { chips_of memory.new flags.new stride chips
        ≡ tabulate 0 chips (λ c. chip_after nano.now (bit (slice_index incoming.now c))
        (chip_at (chips_of memory.old flags.old stride chips) c)) }
{
    let at = places(nano, stride);
    memory.store(
        usize::from(nano.a.get()),
        stride,
        &outputs.holds,
        &outputs.mem,
    );
    if nano.write != FlagNo::ZERO {
        if takes_incoming(nano) {
            store_row(flags, at.write, &outputs.holds, incoming);
        } else {
            store_row(flags, at.write, &outputs.holds, &outputs.flag);
        }
    }
}

/// Stores planes in a row where the condition holds.
pub(crate) fn store_row(rows: &mut [Plane], at: usize, holds: &[Plane], planes: &[Plane])
    requires within { at + length planes.now ≤ length rows.old }
    requires holds { length holds.now ≡ length planes.now }
    ensures value { IsStored at holds.now planes.now rows.old rows.new }
{
    for c in 0..planes.len() {
        rows[at + c] = chosen(holds[c], planes[c], rows[at + c]);
    }
}
