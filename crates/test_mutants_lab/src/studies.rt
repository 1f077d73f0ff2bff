//! Calls of lab_study and lab_route.

ghost use Rattle.std.specs.Prelude.{◌≡◌, ◌≢◌, Ok, Err, IfOk, IfErr};
ghost use Rattle.lab_route.specs.Routes.{route_of};
ghost use Rattle.lab_study.specs.Studies.{study_table};

use cm_model::{Act, Tag};
use lab_machine::LabMachine;
use lab_route::{Excerpt, RouteFault};
use lab_study::{StudyFault, Table, Watch};
use std::alloc::Global;

/// What `lab_study::study` promises, word for word.
pub fn study<W: Watch>(
    alloc: Global,
    machine: &mut LabMachine,
    acts: &[Act],
    table: Table,
    watch: &mut W,
) -> Result<Vec<u8>, StudyFault>
    ensures value { IfOk result (λ text.
        study_table machine.old.n machine.old.cap table machine.old.machine acts.now ≡ Ok text.items) }
    ensures refused { IfErr result (λ fault. fault ≢ StudyFault.Memory
        → study_table machine.old.n machine.old.cap table machine.old.machine acts.now ≡ Err fault) }
{
    lab_study::study(alloc, machine, acts, table, watch)
}

/// What `lab_route::route` promises, word for word.
pub fn route<W: Watch>(
    alloc: Global,
    machine: &mut LabMachine,
    acts: &[Act],
    excerpt: Excerpt,
    tag: Tag,
    watch: &mut W,
) -> Result<Vec<u8>, RouteFault>
    ensures value { IfOk result (λ text.
        route_of machine.old.n machine.old.cap excerpt tag machine.old.machine acts.now ≡ Ok text.items) }
    ensures refused { IfErr result (λ fault. fault ≢ RouteFault.Memory
        → route_of machine.old.n machine.old.cap excerpt tag machine.old.machine acts.now ≡ Err fault) }
{
    lab_route::route(alloc, machine, acts, excerpt, tag, watch)
}
