//! Of which machines and acts no world is made.

use crate::machines::kept;
use cm_array::{Builder, Machine};
use cm_model::Act;
use cm_weave::{World, WorldFault};
use std::alloc::Global;
use std::test::Fail;
use test_generators::are_same;

/// A machine of sixteen chips that stands at a count of petit cycles, so many acts of which it is to go through, and
/// into 2^k blocks; with what is refused.
static WORLDS: [(u64, usize, u8, Option<WorldFault>); 7] = [
    (0, 65, 3, Some(WorldFault::Long)),
    (u64::MAX >> 1, 65, 0, Some(WorldFault::Long)),
    (u64::MAX >> 1, 1, 3, Some(WorldFault::Clock)),
    (0, 1, 3, Some(WorldFault::Split)),
    (0, 0, 255, Some(WorldFault::Split)),
    (0, 64, 2, None),
    ((u64::MAX >> 1) - 2, 2, 0, None),
];

fn machine_at(alloc: Global, clock: u64) -> Option<Vec<Machine<4, 1>>> {
    if clock > u64::MAX >> 1 {
        return None;
    }
    let builder = Builder::<4, 1>::start(alloc, clock).ok()?;
    kept(alloc, builder.done().ok()?)
}

/// What is refused of such a machine, and whether it came back as it was.
fn refused(
    alloc: Global,
    machine: &Machine<4, 1>,
    acts: &[Act],
    k: u8,
) -> Option<(Option<WorldFault>, bool)> {
    let copy = machine.copy(alloc).ok()?;
    match World::new(alloc, copy, acts, k) {
        Ok(_) => Some((None, true)),
        Err(back) => {
            let same = are_same(alloc, &back.machine, machine, 16);
            Some((Some(back.fault), same))
        }
    }
}

fn fault_of(alloc: Global, clock: u64, cycles: usize, k: u8) -> Option<(Option<WorldFault>, bool)> {
    let machines = machine_at(alloc, clock)?;
    let acts = vec![in alloc; Act::Cycle; cycles].ok()?;
    refused(alloc, machines.first()?, &acts, k)
}

#[test]
fn worlds_are_refused_in_order_and_the_machine_comes_back(rt: HostRuntime) -> Result<(), Fail> {
    for (clock, cycles, k, wanted) in &WORLDS {
        let seen = fault_of(rt.alloc(), *clock, *cycles, *k);
        assert_eq!(rt; seen, Some((*wanted, true)), "{cycles} {k}");
    }
    Ok(())
}
