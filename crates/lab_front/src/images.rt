//! A front end over the machine of an image.

ghost use Rattle.std.specs.Prelude.{◌≡◌, ◌↔◌, true, false, IfErr, IfOk, IsErrOf};
ghost use Rattle.lab_front.specs.Images.{EndsImage, FailsImage, HasEnded, HasFailed, is_front_write};

use crate::talk::front;
use cm_array::{AnyMachine, MachineOf, Plain, Sizes};
use cm_bits::{Sink, Source};
use cm_image_dump::dump;
use cm_image_format::ImageFault;
use cm_session::SessionFault;
use cm_sizes::{OpenFault, open_image};
use std::alloc::Global;
use std::marker::Brand;
use thiserror::Error;

/// Why a front end did not begin, or ended before its lines did.
#[derive(Clone, Copy, Debug, PartialEq, Eq, Error)]
pub enum FrontFault {
    /// The image is none.
    #[error("{0}")]
    Image(ImageFault),
    /// Its routers have another room than those of the laboratory's machines.
    #[error("routers with room for another number of messages than 1 or 7")]
    Room,
    #[error("{0}")]
    Ended(SessionFault),
    /// For the image that is left.
    #[error("out of memory")]
    Memory,
}

impl From<OpenFault> for FrontFault {
    ghost use Rattle.std.specs.Prelude.{◌≡◌};
    ghost use Rattle.lab_front.specs.Images.{image_refusal};

    ghost from_gives = { λ fault whole. whole ≡ image_refusal fault };

    fn from(fault: OpenFault) -> FrontFault {
        match fault {
            OpenFault::Image(own) => FrontFault::Image(own),
            OpenFault::Room => FrontFault::Room,
        }
    }
}

/// Does and answers the lines of a source with the machine of an image, on one thread, and gives the image that is
/// left.
pub fn front_image<I: Source, O: Sink>(
    alloc: Global,
    image: &[u8],
    commands: &mut I,
    out: &mut O,
) -> Result<Vec<u8>, FrontFault>
    requires reader { I.has_failed commands.old ≡ false }
    requires writer { O.has_failed out.old ≡ false }
    ensures ok { IfOk result (λ text. EndsImage image.now (I.left commands.old) (I.left commands.new)
        (O.contents out.old) (O.contents out.new) text.items) }
    ensures err { IfErr result (FailsImage image.now (I.left commands.old) (I.left commands.new) (O.contents out.old)
        (O.contents out.new)) }
    ensures read { (I.has_failed commands.new ≡ true) ↔ IsErrOf result (FrontFault.Ended SessionFault.Read) }
    ensures write { O.has_failed out.new ≡ is_front_write result }
    ensures no_thread { ¬ IsErrOf result (FrontFault.Ended SessionFault.NoThread) }
{
    match open_image(alloc, image) {
        Ok(machine) => front_any(alloc, machine, commands, out),
        Err(fault) => Err(FrontFault::from(fault)),
    }
}

/// The same with a machine of any size.
fn front_any<I: Source, O: Sink>(
    alloc: Global,
    machine: AnyMachine,
    commands: &mut I,
    out: &mut O,
) -> Result<Vec<u8>, FrontFault>
    requires reader { I.has_failed commands.old ≡ false }
    requires writer { O.has_failed out.old ≡ false }
    ensures ok { IfOk result (λ text. HasEnded machine (I.left commands.old) (I.left commands.new)
        (O.contents out.old) (O.contents out.new) text.items) }
    ensures err { IfErr result (HasFailed machine (I.left commands.old) (I.left commands.new)
        (O.contents out.old) (O.contents out.new)) }
    ensures read { (I.has_failed commands.new ≡ true) ↔ IsErrOf result (FrontFault.Ended SessionFault.Read) }
    ensures write { O.has_failed out.new ≡ is_front_write result }
    ensures no_thread { ¬ IsErrOf result (FrontFault.Ended SessionFault.NoThread) }
{
    front_sized::<Brand, I, O>(alloc, machine, commands, out)
}

/// The same, on a machine of these sizes.
fn front_sized<S: Sizes, I: Source, O: Sink>(
    alloc: Global,
    machine: AnyMachine,
    commands: &mut I,
    out: &mut O,
) -> Result<Vec<u8>, FrontFault>
    requires n { machine.n ≡ S.n }
    requires cap { machine.cap ≡ S.cap }
    requires reader { I.has_failed commands.old ≡ false }
    requires writer { O.has_failed out.old ≡ false }
    ensures read { (I.has_failed commands.new ≡ true) ↔ IsErrOf result (FrontFault.Ended SessionFault.Read) }
    ensures ok { IfOk result (λ text. HasEnded machine (I.left commands.old) (I.left commands.new)
        (O.contents out.old) (O.contents out.new) text.items) }
    ensures err { IfErr result (HasFailed machine (I.left commands.old) (I.left commands.new)
        (O.contents out.old) (O.contents out.new)) }
    ensures write { O.has_failed out.new ≡ is_front_write result }
    ensures no_thread { ¬ IsErrOf result (FrontFault.Ended SessionFault.NoThread) }
{
    let mut machine = machine.sized::<S>();
    front_on(alloc, &mut machine, commands, out)
}

/// The same, on one that is lent to it.
fn front_on<S: Sizes, I: Source, O: Sink>(
    alloc: Global,
    machine: &mut MachineOf<S>,
    commands: &mut I,
    out: &mut O,
) -> Result<Vec<u8>, FrontFault>
    requires reader { I.has_failed commands.old ≡ false }
    requires writer { O.has_failed out.old ≡ false }
    ensures ok { IfOk result (λ text. HasEnded (record { n = S.n; cap = S.cap; machine = machine.old.machine })
        (I.left commands.old) (I.left commands.new) (O.contents out.old) (O.contents out.new) text.items) }
    ensures err { IfErr result (HasFailed (record { n = S.n; cap = S.cap; machine = machine.old.machine })
        (I.left commands.old) (I.left commands.new) (O.contents out.old) (O.contents out.new)) }
    ensures read { (I.has_failed commands.new ≡ true) ↔ IsErrOf result (FrontFault.Ended SessionFault.Read) }
    ensures write { O.has_failed out.new ≡ is_front_write result }
    ensures no_thread { ¬ IsErrOf result (FrontFault.Ended SessionFault.NoThread) }
{
    match front(alloc, machine, commands, out, &mut Plain) {
        Ok(()) => {}
        Err(fault) => return Err(FrontFault::Ended(fault)),
    }
    match dump(alloc, machine) {
        Ok(text) => Ok(text),
        Err(_) => Err(FrontFault::Memory),
    }
}
