//! A world of which no contract tells anything. It stands in a list, so that what has a trial weighs no more than that.

ghost use Rattle.std.specs.Prelude.{◌≡◌, ◌^◌};

use cm_array::{Fixed, Machine};
use cm_exchange::Step;
use cm_model::Act;
use cm_weave::World;
use std::alloc::Global;
use std::mem;
use test_generators::are_same;

/// A world, and once it is finished the machine that is left.
#[derive(Drop)]
pub(crate) struct Trial<const N: usize, const CAP: usize> {
    worlds: Vec<World<Fixed<N, CAP>>>,
    left: Vec<Machine<N, CAP>>,
}

impl<const N: usize, const CAP: usize> Trial<N, CAP> {
    /// The world of such a machine.
    pub(crate) fn of(
        alloc: Global,
        machine: &Machine<N, CAP>,
        acts: &[Act],
        k: u8,
    ) -> Option<Trial<N, CAP>> {
        let mut worlds = Vec::new(alloc);
        worlds.push(cut(alloc, machine, acts, k)?).ok()?;
        Some(Trial {
            worlds,
            left: Vec::new(alloc),
        })
    }

    /// Whether a step was taken.
    pub(crate) fn takes(&mut self, step: Step) -> bool {
        match self.worlds.first_mut() {
            Some(world) => world.play(step).is_ok(),
            None => false,
        }
    }

    pub(crate) fn next(&self) -> Option<Step> {
        self.worlds.first()?.next()
    }

    /// Whether it is finished; else the world stays as it is.
    pub(crate) fn finish(&mut self) -> bool {
        let Some(world) = self.worlds.pop() else {
            return false;
        };
        match world.finish() {
            Ok(machine) => self.left.push(machine).is_ok(),
            Err(world) => {
                let _ = self.worlds.push(world);
                false
            }
        }
    }

    /// Whether it is finished, and this machine is left; it is exchanged for that then.
    pub(crate) fn leaves(&mut self, machine: &mut Machine<N, CAP>, chips: u16) -> bool
        requires chips { chips ≡ 2 ^ N }
    {
        if !self.finish() {
            return false;
        }
        let alloc = *self.left.allocator();
        let Some(left) = self.left.first_mut() else {
            return false;
        };
        let same = are_same(alloc, left, machine, chips);
        mem::swap(left, machine);
        same
    }
}

fn cut<const N: usize, const CAP: usize>(
    alloc: Global,
    machine: &Machine<N, CAP>,
    acts: &[Act],
    k: u8,
) -> Option<World<Fixed<N, CAP>>> {
    let copy = machine.copy(alloc).ok()?;
    World::new(alloc, copy, acts, k).ok()
}
