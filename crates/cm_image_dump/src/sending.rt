//! Writing the bytes of a machine to a sink, piece by piece.

ghost use Rattle.std.specs.Prelude.{◌≡◌, ℕ, ◌+◌, ◌++◌, ◌^◌, ◌<◌, ◌≤◌, [], false, length, IfOk, IfErr, IsErrOf, OnOk};
ghost use Rattle.std.specs.Prelude.{OnErr, vec_capacity};
ghost use Rattle.std.specs.Io.KnownBytes.{Appends};
ghost use Rattle.cm_model.specs.Array.{chip_at, nth_or_nil};
ghost use Rattle.cm_model.specs.Keeping.{AreSizes};
ghost use Rattle.cm_image_format.specs.Image.{chip_text};
ghost use Rattle.cm_image_format.specs.Whole.{image_of_chip, text_of};
ghost use Rattle.cm_image_dump.specs.Planes.{AreCounted, AreInUse, chips_text};
ghost use Rattle.cm_image_dump.specs.Sending.{GoesOut, GoesOutInPart, IsLaidOutFor, IsNear, IsRoomOf};
ghost use Rattle.cm_image_dump.specs.Sending.{StandNear, StandsNear, is_dump_write};

use crate::counts::{addresses_in_use, listed_planes};
use crate::dense::{TILE_PLANES, push_dense_chip, write_tile};
use crate::dumps::{push_front, push_sparse_chip};
use cm_array::{MachineOf, Sizes};
use cm_bits::{NoMemory, Plane, Sink, write_all};
use cm_element::{PITCH, Run};
use std::alloc::Global;
use thiserror::Error;

/// So many bytes wait before they go out: a cache holds them beside the chips that stand near.
const PIECE: usize = 131072;

/// With the next chip no more than so many bytes wait.
const WAITING: usize = 163840;

/// From so many addresses in use on, planes are written near chip by chip, those of all addresses.
const DENSE: usize = 1024;

/// So many chips at a time are laid out near: 512 KB, which a cache holds while they are written.
const TILE: u16 = 64;

/// Why an image was not written to its end.
#[derive(Clone, Copy, Debug, PartialEq, Eq, Error)]
pub enum DumpFault {
    #[error("a write failed")]
    Write,
    #[error("a growth of memory was refused")]
    Memory,
}

/// What writing the image of a machine takes of memory: how many planes of each chip are listed and at which addresses,
/// where some chips stand near, and the bytes that wait.
pub struct DumpRoom {
    pub(crate) counts: Vec<u16>,
    addresses: Vec<u16>,
    near: Near,
    pub(crate) text: Vec<u8>,
}

impl Drop for DumpRoom {
    /// Frees all lists. A derived `drop` would be compiled and proved anew wherever they are freed.
    #[inline(never)]
    fn drop(self) {
        let DumpRoom {
            counts: _,
            addresses: _,
            near: _,
            text: _,
        } = self;
    }
}

/// A copy of up to 64 chips, which a cache holds while they are written.
#[derive(Drop)]
pub(crate) enum Near {
    Chips(Run),
    Planes(Vec<Plane>),
}

impl DumpRoom {
    /// The room for the image of this machine.
    pub fn of<S: Sizes>(alloc: Global, machine: &MachineOf<S>) -> Result<DumpRoom, NoMemory>
        ensures value { IfOk result (IsRoomOf S.n machine.now.machine) }
    {
        let mut room = DumpRoom::without_text(alloc, machine)?;
        room.text = Vec::with_capacity(alloc, WAITING)?;
        Ok(room)
    }

    /// The same, but none for bytes that wait.
    pub(crate) fn without_text<S: Sizes>(
        alloc: Global,
        machine: &MachineOf<S>,
    ) -> Result<DumpRoom, NoMemory>
        ensures value { IfOk result (IsLaidOutFor S.n machine.now.machine) }
    {
        sizes(machine);
        let counts = listed_planes(alloc, machine)?;
        let addresses = addresses_in_use(alloc, machine)?;
        let near = room_near(alloc, addresses.len())?;
        Ok(DumpRoom {
            counts,
            addresses,
            near,
            text: Vec::new(alloc),
        })
    }

    /// Writes the image of a machine, where no byte waits yet. So many bytes go out at a time, and the last ones wait.
    pub(crate) fn send_text<S: Sizes, O: Sink>(
        &mut self,
        machine: &MachineOf<S>,
        sink: &mut O,
        piece: usize,
    ) -> Result<(), DumpFault>
        requires laid { IsLaidOutFor S.n machine.now.machine self.old }
        requires working { O.has_failed sink.old ≡ false }
        ensures ok { OnOk result (GoesOut (O.contents sink.old) (O.contents sink.new)
            (text_of S.n S.cap machine.now.machine) self.new.text.items) }
        ensures err { IfErr result (λ _. GoesOutInPart (O.contents sink.old) (O.contents sink.new)
            (text_of S.n S.cap machine.now.machine)) }
        ensures failed { O.has_failed sink.new ≡ is_dump_write result }
        ensures memory { 80000 ≤ piece → piece + 20000 ≤ vec_capacity self.old.text
            → ¬ IsErrOf result DumpFault.Memory }
    {
        sizes(machine);
        let Ok(()) = push_front(&mut self.text, machine) else {
            return Err(DumpFault::Memory);
        };
        let listed = ListedMachine {
            machine,
            counts: &self.counts,
            addresses: &self.addresses,
        };
        listed.send_chips(&mut self.text, sink, &mut self.near, piece)
    }
}

/// A machine has at most 4,096 chips, with room for at most 15 messages each.
pub(crate) fn sizes<S: Sizes>(machine: &MachineOf<S>)
    ensures { AreSizes S.n S.cap }
{
    let _ = machine.clock();
}

/// Room for some chips of a machine in which memory has so many rows.
fn room_near(alloc: Global, rows: usize) -> Result<Near, NoMemory>
    ensures value { IfOk result IsNear }
{
    if rows >= DENSE {
        return Ok(Near::Planes(vec![in alloc; 0; TILE_PLANES]?));
    }
    Ok(Near::Chips(Run::blank(alloc, TILE)?))
}

/// Writes the image of a machine, its one text, piece by piece. Its logs are not in it.
pub fn dump_into<S: Sizes, O: Sink>(
    machine: &MachineOf<S>,
    mut room: DumpRoom,
    sink: &mut O,
) -> Result<(), DumpFault>
    requires room { IsRoomOf S.n machine.now.machine room }
    requires working { O.has_failed sink.old ≡ false }
    ensures ok { OnOk result (Appends (O.contents sink.old) (O.contents sink.new)
        (text_of S.n S.cap machine.now.machine)) }
    ensures err { IfErr result (λ _. GoesOutInPart (O.contents sink.old) (O.contents sink.new)
        (text_of S.n S.cap machine.now.machine)) }
    ensures failed { O.has_failed sink.new ≡ is_dump_write result }
    ensures memory { ¬ IsErrOf result DumpFault.Memory }
{
    match room.send_text(machine, sink, PIECE) {
        Ok(()) => send_out(&mut room.text, sink),
        Err(fault) => Err(fault),
    }
}

/// A machine whose image is written: how many planes of each chip are listed, and at which addresses.
#[derive(Drop)]
struct ListedMachine<'a, S: Sizes> {
    machine: &'a MachineOf<S>,
    counts: &'a [u16],
    addresses: &'a [u16],
}

impl<'a, S: Sizes> ListedMachine<'a, S> {
    /// What an image has of each chip, by number, behind what waits, which goes out whenever so many bytes wait: some
    /// chips at a time are laid out near.
    fn send_chips<O: Sink>(
        &self,
        text: &mut Vec<u8>,
        sink: &mut O,
        near: &mut Near,
        piece: usize,
    ) -> Result<(), DumpFault>
        requires dimension { S.n ≤ 12 }
        requires room { S.cap ≤ 15 }
        requires counts { AreCounted (2 ^ S.n) self.now.machine.now.machine.chips 4096 self.now.counts.now }
        requires in_use { AreInUse (2 ^ S.n) self.now.machine.now.machine.chips 4096 self.now.addresses.now }
        requires near { IsNear near.old }
        requires working { O.has_failed sink.old ≡ false }
        ensures ok { OnOk result (GoesOut (O.contents sink.old) (O.contents sink.new)
            (text.old.items ++ chips_text self.now.machine.now.machine 0 (2 ^ S.n)) text.new.items) }
        ensures err { IfErr result (λ _. GoesOutInPart (O.contents sink.old) (O.contents sink.new)
            (text.old.items ++ chips_text self.now.machine.now.machine 0 (2 ^ S.n))) }
        ensures failed { O.has_failed sink.new ≡ is_dump_write result }
        ensures capacity { vec_capacity text.old ≤ vec_capacity text.new }
        ensures waits { OnOk result (length text.old.items ≤ piece → length text.new.items ≤ piece) }
        ensures memory { length text.old.items ≤ piece → piece + 20000 ≤ vec_capacity text.old
            → ¬ IsErrOf result DumpFault.Memory }
    {
        let count = self.machine.chip_count();
        let mut first = 0;
        while first < count {
            let some = TILE.min(count - first);
            near.lay_out(self.machine, first, some);
            match self.send_tile(text, sink, near, first, some, piece) {
                Ok(()) => first += some,
                Err(fault) => return Err(fault),
            }
        }
        Ok(())
    }

    /// Appends the image's text of so many chips, from `first` on, and sends the text out whenever it is as long as a
    /// piece. The chips stand in `near`.
    fn send_tile<O: Sink>(
        &self,
        text: &mut Vec<u8>,
        sink: &mut O,
        near: &Near,
        first: u16,
        some: u16,
        piece: usize,
    ) -> Result<(), DumpFault>
        requires room { S.cap ≤ 15 }
        requires counts { AreCounted (2 ^ S.n) self.now.machine.now.machine.chips 4096 self.now.counts.now }
        requires in_use { AreInUse (2 ^ S.n) self.now.machine.now.machine.chips 4096 self.now.addresses.now }
        requires chips { first + some ≤ 2 ^ S.n }
        requires within { first + some < 65536 }
        requires near { StandNear self.now.machine.now.machine first some near.now }
        requires working { O.has_failed sink.old ≡ false }
        ensures ok { OnOk result (GoesOut (O.contents sink.old) (O.contents sink.new)
            (text.old.items ++ chips_text self.now.machine.now.machine first some) text.new.items) }
        ensures err { IfErr result (λ _. GoesOutInPart (O.contents sink.old) (O.contents sink.new)
            (text.old.items ++ chips_text self.now.machine.now.machine first some)) }
        ensures failed { O.has_failed sink.new ≡ is_dump_write result }
        ensures capacity { vec_capacity text.old ≤ vec_capacity text.new }
        ensures waits { OnOk result (length text.old.items ≤ piece → length text.new.items ≤ piece) }
        ensures memory { length text.old.items ≤ piece → piece + 20000 ≤ vec_capacity text.old
            → ¬ IsErrOf result DumpFault.Memory }
    {
        for c in 0..some {
            let Ok(()) = self.push_chip(text, near, c, first + c) else {
                return Err(DumpFault::Memory);
            };
            match send_full(text, sink, piece) {
                Ok(()) => {}
                Err(fault) => return Err(fault),
            }
        }
        Ok(())
    }

    /// Appends the image's text of the chip of a number, which stands in `near` at this place.
    fn push_chip(
        &self,
        text: &mut Vec<u8>,
        near: &Near,
        place: u16,
        number: u16,
    ) -> Result<(), NoMemory>
        requires room { S.cap ≤ 15 }
        requires counts { AreCounted (2 ^ S.n) self.now.machine.now.machine.chips 4096 self.now.counts.now }
        requires in_use { AreInUse (2 ^ S.n) self.now.machine.now.machine.chips 4096 self.now.addresses.now }
        requires chip { number < 2 ^ S.n }
        requires near { StandsNear self.now.machine.now.machine number place near.now }
        ensures ok { OnOk result (text.new.items ≡ text.old.items ++ chip_text (image_of_chip
            (chip_at self.now.machine.now.machine.chips number)
            (nth_or_nil self.now.machine.now.machine.buffers number))) }
        ensures capacity { vec_capacity text.old ≤ vec_capacity text.new }
        ensures grows { OnOk result (length text.new.items ≤ length text.old.items + 20000) }
        ensures full { OnErr result (vec_capacity text.old < length text.old.items + 20000) }
    {
        let listed = self.counts[usize::from(number)];
        let buffer = self.machine.buffer(number);
        match near {
            Near::Chips(tile) => push_sparse_chip(
                text,
                &tile.view(place),
                listed,
                self.addresses,
                buffer,
            ),
            Near::Planes(planes) => {
                let own = usize::from(place) * PITCH;
                let chip = self.machine.chip(number);
                push_dense_chip(text, &chip, listed, &planes[own..], buffer)
            }
        }
    }
}

impl Near {
    /// Lays out so many chips of a machine, from `first` on.
    fn lay_out<S: Sizes>(&mut self, machine: &MachineOf<S>, first: u16, some: u16)
        requires near { IsNear self.old }
        requires chips { first + some ≤ 2 ^ S.n }
        requires few { some ≤ 64 }
        ensures near { IsNear self.new }
        ensures value { StandNear machine.now.machine first some self.new }
    {
        match self {
            Near::Chips(tile) => machine.copy_chips(first, some, tile),
            Near::Planes(planes) => write_tile(machine, first, some, planes),
        }
    }
}

/// Lets what waits go out, once so many bytes do.
pub(crate) fn send_full<O: Sink>(
    text: &mut Vec<u8>,
    sink: &mut O,
    piece: usize,
) -> Result<(), DumpFault>
    requires working { O.has_failed sink.old ≡ false }
    ensures ok { OnOk result (GoesOut (O.contents sink.old) (O.contents sink.new) text.old.items text.new.items) }
    ensures err { IfErr result (λ _. GoesOutInPart (O.contents sink.old) (O.contents sink.new) text.old.items) }
    ensures failed { O.has_failed sink.new ≡ is_dump_write result }
    ensures capacity { vec_capacity text.new ≡ vec_capacity text.old }
    ensures waits { OnOk result (length text.new.items ≤ piece) }
    ensures memory { ¬ IsErrOf result DumpFault.Memory }
{
    if text.len() < piece {
        return Ok(());
    }
    send_out(text, sink)
}

/// Lets all go out that waits.
fn send_out<O: Sink>(text: &mut Vec<u8>, sink: &mut O) -> Result<(), DumpFault>
    requires working { O.has_failed sink.old ≡ false }
    ensures ok { OnOk result (GoesOut (O.contents sink.old) (O.contents sink.new) text.old.items text.new.items) }
    ensures all { OnOk result (text.new.items ≡ []) }
    ensures err { IfErr result (λ _. GoesOutInPart (O.contents sink.old) (O.contents sink.new) text.old.items) }
    ensures failed { O.has_failed sink.new ≡ is_dump_write result }
    ensures capacity { vec_capacity text.new ≡ vec_capacity text.old }
    ensures memory { ¬ IsErrOf result DumpFault.Memory }
{
    match write_all(sink, text.as_slice()) {
        Ok(()) => {
            text.clear();
            Ok(())
        }
        Err(_) => Err(DumpFault::Write),
    }
}
