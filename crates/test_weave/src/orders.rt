//! All orders of two blocks in a petit cycle, each of which ends in the machine of one thread.

use crate::machines::{copied, drawn};
use crate::trial::Trial;
use cm_array::{Machine, Plain, Runner};
use cm_exchange::Step;
use cm_model::Act;
use std::alloc::Global;
use test_generators::Draws;

/// At which stage each of two blocks is.
#[derive(Drop)]
struct Stages {
    of: [u8; 2],
}

impl Stages {
    /// The next step of a block.
    fn step(&mut self, b: u16) -> Step {
        let stage = &mut self.of[usize::from(b % 2)];
        let step = Step::at(b, *stage % 4);
        *stage = stage.wrapping_add(1);
        step
    }
}

/// Whether the blocks can take their steps in this order: by place from the lowest bit on, the block of that number.
fn takes(world: &mut Trial<1, 2>, order: u16) -> bool {
    let mut stages = Stages { of: [0; 2] };
    (0u16..8).all(|place| world.takes(stages.step(order >> place & 1)))
}

/// Whether they can, and whether this machine is left then.
fn ends_as(
    alloc: Global,
    machine: &Machine<1, 2>,
    wanted: &mut Machine<1, 2>,
    order: u16,
) -> Option<(bool, bool)> {
    let mut world = Trial::of(alloc, machine, &[Act::Cycle], 1)?;
    let taken = takes(&mut world, order);
    Some((taken, taken && world.leaves(wanted, 2)))
}

/// Of all orders of eight steps of two blocks, how many can be taken, and after how many of these this machine is left.
fn counted(
    alloc: Global,
    machine: &Machine<1, 2>,
    wanted: &mut Machine<1, 2>,
) -> Option<(u16, u16)> {
    let mut taken = 0u16;
    let mut alike = 0u16;
    for order in 0u16..256 {
        let (is_taken, is_alike) = ends_as(alloc, machine, wanted, order)?;
        taken = taken.wrapping_add(u16::from(is_taken));
        alike = alike.wrapping_add(u16::from(is_alike));
    }
    Some((taken, alike))
}

/// The same of a drawn machine, and of that which one thread leaves.
fn told(alloc: Global) -> Option<(u16, u16)> {
    let machines = drawn::<1, 2>(alloc, &mut Draws::new(7), 2)?;
    let machine = machines.first()?;
    let mut wanted = copied(alloc, machine)?;
    let wanted = wanted.first_mut()?;
    Plain.go(wanted, &[Act::Cycle]).ok()?;
    counted(alloc, machine, wanted)
}

/// Of the 70 orders in which each of two blocks has four steps, in 17 block 0 would draw before block 1 has filed, and
/// in 17 block 1 before block 0 has.
#[test]
fn all_36_orders_of_two_blocks_in_a_petit_cycle_end_alike(rt: HostRuntime) {
    assert_eq!(rt; told(rt.alloc()), Some((36, 36)));
}
