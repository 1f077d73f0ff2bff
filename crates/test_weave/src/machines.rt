//! Machines in lists, so that what has one weighs no more than a list.

ghost use Rattle.std.specs.Prelude.{◌≡◌, ◌^◌};

use cm_array::Machine;
use std::alloc::Global;
use test_generators::{Draws, asking_machine};

/// A list of one machine.
pub(crate) fn kept<const N: usize, const CAP: usize>(
    alloc: Global,
    machine: Machine<N, CAP>,
) -> Option<Vec<Machine<N, CAP>>> {
    let mut machines = Vec::new(alloc);
    machines.push(machine).ok()?;
    Some(machines)
}

/// Such a machine once more.
pub(crate) fn copied<const N: usize, const CAP: usize>(
    alloc: Global,
    machine: &Machine<N, CAP>,
) -> Option<Vec<Machine<N, CAP>>> {
    kept(alloc, machine.copy(alloc).ok()?)
}

/// A drawn one.
pub(crate) fn drawn<const N: usize, const CAP: usize>(
    alloc: Global,
    draws: &mut Draws,
    chips: u16,
) -> Option<Vec<Machine<N, CAP>>>
    requires cube { chips ≡ 2 ^ N }
{
    kept(alloc, asking_machine::<N, CAP>(alloc, draws, chips)?)
}
