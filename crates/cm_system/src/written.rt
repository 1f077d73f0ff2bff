//! What goes into a file: bytes that are held, or the image of a machine, which goes out piece by piece.

ghost use Rattle.std.specs.Prelude.{◌≡◌, List, ℕ, false, IfOk, IfErr, IsErrOf, OnOk};
ghost use Rattle.std.specs.Io.KnownBytes.{Appends};
ghost use Rattle.cm_image_format.specs.Whole.{text_of};
ghost use Rattle.cm_image_dump.specs.Sending.{GoesOutInPart};
ghost use Rattle.cm_system.specs.Written.{is_put_write};

use crate::system::PutFault;
use cm_array::{MachineOf, Sizes};
use cm_bits::{NoMemory, Sink, write_all};
use cm_image_dump::{DumpFault, DumpRoom, dump_into};
use std::alloc::Global;
use std::marker::Model;

/// What goes into a file, and is written as bytes.
pub trait Written: Drop {
    // Its bytes.
    ghost bytes: { Self → List ℕ };

    /// Writes all of its bytes, and takes no memory.
    fn write<O: Sink>(self, sink: &mut O) -> Result<(), PutFault>
        requires working { O.has_failed sink.old ≡ false }
        ensures ok { OnOk result (Appends (O.contents sink.old) (O.contents sink.new) (bytes self)) }
        ensures err { IfErr result (λ _. GoesOutInPart (O.contents sink.old) (O.contents sink.new) (bytes self)) }
        ensures failed { O.has_failed sink.new ≡ is_put_write result }
        ensures memory { ¬ IsErrOf result PutFault.Memory };
}

/// Bytes that are held.
impl Written for &[u8] {
    ghost bytes = { λ out_before. out_before.now };

    fn write<O: Sink>(self, sink: &mut O) -> Result<(), PutFault> {
        match write_all(sink, self) {
            Ok(()) => Ok(()),
            Err(_) => Err(PutFault::Write),
        }
    }
}

/// The image of a machine, and what writing it takes of memory.
///
/// Contracts see its bytes.
#[derive(Drop)]
pub struct Image<'a, S: Sizes> {
    machine: &'a MachineOf<S>,
    room: DumpRoom,
}

impl<'a, S: Sizes> Model for Image<'a, S> {
    ghost use Rattle.std.specs.Prelude.{List, ℕ};
    ghost use Rattle.cm_image_format.specs.Whole.{text_of};
    ghost use Rattle.cm_image_dump.specs.Sending.{IsRoomOf};

    ghost Value = { List ℕ };

    ghost view = { λ image. text_of S.n S.cap image.machine.now.machine };

    ghost invariant = { λ image. IsRoomOf S.n image.machine.now.machine image.room };
}

impl<'a, S: Sizes> Image<'a, S> {
    /// The image of this machine. All memory is taken now that writing it takes.
    pub fn of(alloc: Global, machine: &'a MachineOf<S>) -> Result<Image<'a, S>, NoMemory>
        ensures value { IfOk result (λ image. image ≡ text_of S.n S.cap machine.now.machine) }
    {
        let room = DumpRoom::of(alloc, machine)?;
        Ok(Image { machine, room })
    }
}

impl<'a, S: Sizes> Written for Image<'a, S> {
    ghost bytes = { λ image. image };

    fn write<O: Sink>(self, sink: &mut O) -> Result<(), PutFault> {
        let Image { machine, room } = self;
        match dump_into(machine, room, sink) {
            Ok(()) => Ok(()),
            Err(DumpFault::Write) => Err(PutFault::Write),
            Err(DumpFault::Memory) => Err(PutFault::Memory),
        }
    }
}
