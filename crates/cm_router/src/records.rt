//! The records of the processors that ask to send, read at once for eight chips.

ghost use Rattle.std.specs.Prelude.{◌≡◌, ℕ, ◌+◌, ◌<◌, ◌≤◌, IsTrue, List, Some, length};
ghost use Rattle.cm_model.specs.declared.letters.TheConstants.{SENT_REL, SENT_PROC, SENT_PAYLOAD};
ghost use Rattle.cm_model.specs.Processor.{Processor, field_value};
ghost use Rattle.cm_model.specs.Chip.{processor_at};
ghost use Rattle.cm_model.specs.Array.{Chips, chip_at};
ghost use Rattle.cm_model.specs.Letters.{message_sent};
ghost use Rattle.cm_router.specs.Records.{AreRecords, AreRecordPlanes, record_of};

use crate::letters::{Record, message_with, record_of};
use cm_bits::{FlagNo, Plane, Proc};
use cm_element::{ChipView, FIELD_PITCH, Run, sixteen_bits_in};
use cm_message::Message;
use cm_model::SENT_REL;
use std::marker::Model;
use std::simd::prelude::*;

/// The records of so many chips are read at once.
const CHIPS: u16 = 8;

/// A record has 52 bits, which lie at so many times eight addresses.
const EIGHTS: usize = 7;

/// Fewer chips of eight that ask to send are read one by one, which takes less time.
const FEW: u32 = 3;

/// The records of the processors of eight chips of a run, once they were read (ours). While messages are taken in the
/// records stay as they are, since this changes flags alone.
///
/// Contracts see which chips these are, and their planes.
#[derive(Drop)]
pub struct Records {
    /// The place of the first of these chips, once they were read.
    first: Option<u16>,
    planes: [Plane; 512],
}

impl Model for Records {
    ghost use Rattle.std.specs.Prelude.{◌≡◌, length};
    ghost use Rattle.cm_router.specs.Records.{Held};

    ghost Value = { Held };

    ghost view = { λ records. record { first = records.first; planes = records.planes } };

    ghost invariant = { λ records. length records.planes ≡ 512 };
}

impl Records {
    /// No records yet.
    pub fn new() -> Records
        ensures value { (run : Chips) → AreRecords result run }
    {
        Records {
            first: None,
            planes: [0; 512],
        }
    }

    /// Reads the records of the eight chips of which this is one, if several of them ask to send. Where they were read
    /// last, nothing is read.
    pub fn look(&mut self, run: &Run, chip: u16)
        requires chip { chip < length run.now }
        requires records { AreRecords self.old run.now }
        ensures records { AreRecords self.new run.now }
    {
        let first = first_of_eight(chip);
        if !self.are_of(first) && are_busy(run, first) {
            run.write_field_planes(first, SENT_REL, EIGHTS, &mut self.planes);
            self.first = Some(first);
        }
    }

    /// The records of one chip.
    pub fn of<'a>(&'a self, run: &'a Run, chip: u16) -> ChipRecords<'a>
        requires chip { chip < length run.now }
        requires records { AreRecords self.now run.now }
        ensures value { result ≡ chip_at run.now chip }
    {
        ChipRecords {
            chip: run.view(chip),
            planes: self.planes_of(chip),
        }
    }

    /// Whether those of the eight chips from one on were read.
    fn are_of(&self, first: u16) -> bool
        ensures read { IsTrue result → self.now.first ≡ Some first }
    {
        self.first == Some(first)
    }

    /// The planes of a chip; none if they were not read.
    fn planes_of(&self, chip: u16) -> &[Plane]
        ensures value { (run : Chips) → AreRecords self.now run → chip < length run → 64 ≤ length result.now
            → AreRecordPlanes result.now (chip_at run chip) }
    {
        let first = first_of_eight(chip);
        if !self.are_of(first) {
            return &[];
        }
        let start = usize::from(chip - first) * FIELD_PITCH;
        &self.planes[start..start + FIELD_PITCH]
    }
}

/// The records of the processors of one chip (ours): their planes, if these were read, and else the chip itself.
///
/// Contracts see the list of its processors.
#[derive(Drop)]
pub struct ChipRecords<'a> {
    chip: ChipView<'a>,
    planes: &'a [Plane],
}

impl<'a> Model for ChipRecords<'a> {
    ghost use Rattle.std.specs.Prelude.{List, ◌≤◌, length};
    ghost use Rattle.cm_model.specs.Processor.{Processor};
    ghost use Rattle.cm_router.specs.Records.{AreRecordPlanes};

    ghost Value = { List Processor };

    ghost view = { λ records. records.chip };

    ghost invariant = { λ records.
        64 ≤ length records.planes.now → AreRecordPlanes records.planes.now records.chip };
}

impl<'a> ChipRecords<'a> {
    /// The message that a processor's record asks to send, from chip `here` of a cube of `dims` dimensions.
    pub fn message_sent(&self, proc: Proc, here: u16, dims: u8, clock: u64) -> Message
        requires dims { dims ≤ 12 }
        ensures value { result ≡ message_sent dims clock here self.now proc }
    {
        message_with(self.record(proc), proc, here, dims, clock)
    }

    /// The record of a processor.
    fn record(&self, proc: Proc) -> Record
        ensures value { result ≡ record_of (processor_at self.now proc) }
    {
        if self.planes.len() < FIELD_PITCH {
            // Field by field, so that both ways give the fields in registers. If both ended in one place in memory, the
            // caller would read there at once what was written field by field, and the CPU waits long for such a read.
            let alone = record_alone(&self.chip, proc);
            return Record {
                rel: alone.rel,
                proc: alone.proc,
                payload: alone.payload,
            };
        }
        record_in(self.planes, proc)
    }
}

/// The first of the eight chips of which this is one.
fn first_of_eight(chip: u16) -> u16
    ensures from { result ≤ chip }
    ensures within { chip < result + 8 }
{
    chip / CHIPS * CHIPS
}

/// Whether there are eight chips from one on, of which several ask to send.
fn are_busy(run: &Run, first: u16) -> bool
    ensures eight { IsTrue result → first + 8 ≤ length run.now }
{
    let start = usize::from(first);
    if run.chips() < start + 8 {
        return false;
    }
    let asking = u16x8::from_slice(&run.flag_row(FlagNo::SEND)[start..start + 8]);
    let busy = asking.simd_ne(u16x8::splat(0)).to_bitmask();
    busy.count_ones() >= FEW
}

/// The record of a processor, read bit by bit. It stands apart so that the compiler does not join it to what is read
/// from planes: where both ways end in one, it would keep each bit in a word of its own.
#[inline(never)]
fn record_alone(chip: &ChipView<'_>, proc: Proc) -> Record
    ensures value { result ≡ record_of (processor_at chip.now proc) }
{
    record_of(chip, proc)
}

/// The record of a processor in these planes.
fn record_in(planes: &[Plane], proc: Proc) -> Record
    requires planes { 64 ≤ length planes.now }
    ensures value { (chip : List Processor) → AreRecordPlanes planes.now chip
        → result ≡ record_of (processor_at chip proc) }
{
    Record {
        rel: sixteen_in(planes, proc, 0) as u16,
        proc: target_in(planes, proc),
        payload: payload_in(planes, proc),
    }
}

/// The processor that the message is for.
fn target_in(planes: &[Plane], proc: Proc) -> Proc
    requires planes { 64 ≤ length planes.now }
    ensures value { (chip : List Processor) → AreRecordPlanes planes.now chip
        → result ≡ field_value (processor_at chip proc) SENT_PROC 4 }
{
    let target = sixteen_in(planes, proc, 16) % 16;
    Proc::new(target as u8).unwrap()
}

/// Its payload.
fn payload_in(planes: &[Plane], proc: Proc) -> u32
    requires planes { 64 ≤ length planes.now }
    ensures value { (chip : List Processor) → AreRecordPlanes planes.now chip
        → result ≡ field_value (processor_at chip proc) SENT_PAYLOAD 32 }
{
    let low = sixteen_in(planes, proc, 20);
    let high = sixteen_in(planes, proc, 36);
    (high * 65536 + low) as u32
}

/// The value of sixteen bits of a record, from one of its bits on.
fn sixteen_in(planes: &[Plane], proc: Proc, from: usize) -> u64
    requires planes { 64 ≤ length planes.now }
    requires from { from ≤ 40 }
    ensures value { (chip : List Processor) → AreRecordPlanes planes.now chip
        → result ≡ field_value (processor_at chip proc) (SENT_REL + from) 16 }
    ensures below { result < 65536 }
{
    sixteen_bits_in(&planes[from..from + 16], proc)
}
