//! Images of blank machines.

ghost use Rattle.std.specs.Prelude.{◌≡◌, None, IfOk, IfSome, IsErrOf, IsOkUnless};
ghost use Rattle.cm_model.specs.Machine.{blank_machine};
ghost use Rattle.cm_image_format.specs.Whole.{text_of};
ghost use Rattle.cm_tools.specs.Fresh.{program_fresh_fault};

use cm_image_dump::blank_image;
use cm_router::Routing;
use cm_system::ProgramFault;
use std::alloc::Global;

/// The image of the blank machine of 2^`n` chips whose routers have room for `cap` messages each. The program
/// has machines of room 1 and 7 alone.
pub fn fresh(alloc: Global, n: u8, cap: u8) -> Result<Vec<u8>, ProgramFault>
    ensures value { IfOk result (λ image. image.items ≡ text_of n cap (blank_machine n)) }
    ensures refused { IfSome (program_fresh_fault n cap) (λ fault. IsErrOf result fault) }
    ensures otherwise { program_fresh_fault n cap ≡ None → IsOkUnless result ProgramFault.Memory }
{
    if n > 12 || cap == 0 || cap > 15 {
        return Err(ProgramFault::BadLine);
    }
    if cap != 1 && cap != 7 {
        return Err(ProgramFault::Cap);
    }
    let Ok(routing) = Routing::plain(alloc, n) else {
        return Err(ProgramFault::Memory);
    };
    match blank_image(alloc, n, cap, &routing) {
        Ok(image) => Ok(image),
        Err(_) => Err(ProgramFault::Memory),
    }
}
