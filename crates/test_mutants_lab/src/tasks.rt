//! A call of lab_data.

ghost use Rattle.std.specs.Prelude.{◌≡◌, ◌≢◌, Ok, Err, IfOk, IfErr};
ghost use Rattle.lab_data.specs.Lab.{done_with};

use lab_data::{LabFault, Task};
use std::alloc::Global;

/// What `lab_data::perform` promises, word for word.
pub fn perform(alloc: Global, task: Task, image: &[u8], given: &[u8]) -> Result<Vec<u8>, LabFault>
    ensures value { IfOk result (λ text. done_with task given.now image.now ≡ Ok text.items) }
    ensures refused { IfErr result (λ fault. fault ≢ LabFault.Memory → done_with task given.now image.now ≡ Err fault) }
{
    lab_data::perform(alloc, task, image, given)
}
