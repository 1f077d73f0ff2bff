//! The image of a machine of any sizes.

ghost use Rattle.std.specs.Prelude.{◌≡◌, IfOk};
ghost use Rattle.cm_image_format.specs.Whole.{text_of};

use cm_array::{AnyMachine, Sizes};
use cm_bits::NoMemory;
use cm_image_dump::dump;
use std::alloc::Global;
use std::marker::Brand;

/// The image of a machine, which is let go.
pub fn image_of(alloc: Global, machine: AnyMachine) -> Result<Vec<u8>, NoMemory>
    ensures value { IfOk result (λ image. image.items ≡ text_of machine.n machine.cap machine.machine) }
{
    sized_image::<Brand>(alloc, machine)
}

/// The same, of a machine of these sizes.
fn sized_image<S: Sizes>(alloc: Global, machine: AnyMachine) -> Result<Vec<u8>, NoMemory>
    requires n { machine.n ≡ S.n }
    requires cap { machine.cap ≡ S.cap }
    ensures value { IfOk result (λ image. image.items ≡ text_of machine.n machine.cap machine.machine) }
{
    let machine = machine.sized::<S>();
    dump(alloc, &machine)
}
