//! Drawn machines whose blocks go through lists of acts by drawn steps, most of which cannot be taken, beside a plain
//! world and beside one thread.

ghost use Rattle.std.specs.Prelude.{◌≡◌, ◌<◌, ◌^◌};

use crate::lists::{ROUND_TRIP, TO_AND_FRO, acts_of};
use crate::machines::{copied, drawn};
use crate::plain::PlainWorld;
use crate::trial::Trial;
use cm_array::{Machine, Plain, Runner};
use cm_exchange::Step;
use cm_model::Act;
use std::alloc::{AllocError, Global};
use test_generators::{Draws, ask_again, has_full_buffer};

/// How many lists of acts each machine goes through.
const LISTS: u8 = 6;

/// How many steps are drawn at most in an exchange.
const MOST_STEPS: u16 = 20000;

/// A world, and the plain one beside it.
#[derive(Drop)]
struct Both<const N: usize, const CAP: usize> {
    world: Trial<N, CAP>,
    plain: PlainWorld,
}

impl<const N: usize, const CAP: usize> Both<N, CAP> {
    fn of(alloc: Global, machine: &Machine<N, CAP>, acts: &[Act], k: u8) -> Option<Both<N, CAP>> {
        let plain = PlainWorld::new(alloc, machine.dims(), k, acts).ok()?;
        let world = Trial::of(alloc, machine, acts, k)?;
        Some(Both { world, plain })
    }

    /// Whether the same step comes by itself, and a step is answered as in the plain world; and the world has no
    /// machine before that.
    fn goes_alike(&mut self, step: Step) -> bool {
        !self.world.finish()
            && self.world.next() == self.plain.next()
            && self.world.takes(step) == self.plain.takes(step)
    }

    /// Whether drawn steps are answered alike, half of them those that come by themselves, until none is left.
    fn ends_alike(&mut self, draws: &mut Draws) -> bool {
        for _step in 0..MOST_STEPS {
            let Some(own) = self.plain.next() else {
                return self.world.next().is_none();
            };
            let step = if draws.once_in(2) {
                own
            } else {
                drawn_step(draws, self.plain.blocks())
            };
            if !self.goes_alike(step) {
                return false;
            }
        }
        false
    }
}

/// A drawn step of one of so many blocks, or of one that there is not.
fn drawn_step(draws: &mut Draws, blocks: u16) -> Step {
    let b = draws.below(blocks.saturating_add(1));
    Step::at(b, draws.below(4) as u8)
}

/// Whether 2^`k` blocks of a machine go through the acts as the plain world does, and leave this machine.
fn ends_as<const N: usize, const CAP: usize>(
    alloc: Global,
    machine: &Machine<N, CAP>,
    acts: &[Act],
    k: u8,
    wanted: &mut Machine<N, CAP>,
    draws: &mut Draws,
    chips: u16,
) -> Option<bool>
    requires chips { chips ≡ 2 ^ N }
{
    let mut both = Both::of(alloc, machine, acts, k)?;
    Some(both.ends_alike(draws) && both.world.leaves(wanted, chips))
}

/// Whether they leave what one thread does; the machine is theirs then.
fn goes<const N: usize, const CAP: usize>(
    alloc: Global,
    machine: &mut Machine<N, CAP>,
    acts: &[Act],
    k: u8,
    draws: &mut Draws,
    chips: u16,
) -> Option<bool>
    requires chips { chips ≡ 2 ^ N }
{
    let before = copied(alloc, machine)?;
    Plain.go(machine, acts).ok()?;
    ends_as(alloc, before.first()?, acts, k, machine, draws, chips)
}

/// The acts of a list.
fn listed(alloc: Global, list: u8, draws: &mut Draws) -> Result<Vec<Act>, AllocError> {
    match list {
        0 => acts_of(alloc, &TO_AND_FRO),
        1 => acts_of(alloc, &ROUND_TRIP),
        _ => draws.acts(alloc, 24),
    }
}

/// Whether a drawn machine goes by 2^`k` blocks through all lists, and a buffer was full after some list.
fn goes_on<const N: usize, const CAP: usize>(
    alloc: Global,
    machine: &mut Machine<N, CAP>,
    k: u8,
    draws: &mut Draws,
    chips: u16,
) -> Option<bool>
    requires chips { chips ≡ 2 ^ N }
{
    let mut was_full = false;
    for list in 0..LISTS {
        let acts = listed(alloc, list, draws).ok()?;
        if !goes(alloc, machine, &acts, k, draws, chips)? {
            return None;
        }
        was_full |= has_full_buffer(machine, chips);
        ask_again(machine, draws, chips);
    }
    Some(was_full)
}

/// Whether drawn machines do, for each number of blocks up to 2^`most`.
fn go<const N: usize, const CAP: usize>(alloc: Global, chips: u16, most: u8) -> Option<bool>
    requires chips { chips ≡ 2 ^ N }
    requires most { most < 7 }
{
    let mut were_full = true;
    for k in 0..=most {
        let mut draws = Draws::new(u32::from(k));
        let mut machines = drawn::<N, CAP>(alloc, &mut draws, chips)?;
        were_full &= goes_on(alloc, machines.first_mut()?, k, &mut draws, chips)?;
    }
    Some(were_full)
}

#[test]
fn drawn_steps_are_answered_as_by_a_plain_world_and_leave_what_one_thread_does(rt: HostRuntime) {
    let alloc = rt.alloc();
    let gone = [
        go::<1, 1>(alloc, 2, 1),
        go::<1, 3>(alloc, 2, 1),
        go::<2, 1>(alloc, 4, 1),
        go::<2, 7>(alloc, 4, 1),
        go::<3, 1>(alloc, 8, 2),
        go::<3, 2>(alloc, 8, 2),
        go::<4, 1>(alloc, 16, 2),
        go::<4, 4>(alloc, 16, 2),
        go::<5, 1>(alloc, 32, 3),
        go::<5, 5>(alloc, 32, 3),
        go::<6, 1>(alloc, 64, 3),
        go::<6, 2>(alloc, 64, 3),
    ];
    assert_eq!(rt; gone, [Some(true); 12]);
}

/// How many of so many drawn orders of four blocks are answered as in the plain world and leave this machine.
fn alike(
    alloc: Global,
    machine: &Machine<4, 1>,
    acts: &[Act],
    wanted: &mut Machine<4, 1>,
    count: u16,
) -> Option<u16> {
    let mut draws = Draws::new(5);
    let mut same = 0u16;
    for _order in 0..count {
        if ends_as(alloc, machine, acts, 2, wanted, &mut draws, 16)? {
            same = same.wrapping_add(1);
        }
    }
    Some(same)
}

/// How many leave what one thread does of a drawn machine.
fn ordered(alloc: Global, count: u16) -> Option<u16> {
    let machines = drawn::<4, 1>(alloc, &mut Draws::new(3), 16)?;
    let machine = machines.first()?;
    let acts = acts_of(alloc, &ROUND_TRIP).ok()?;
    let mut wanted = copied(alloc, machine)?;
    let wanted = wanted.first_mut()?;
    Plain.go(wanted, &acts).ok()?;
    alike(alloc, machine, &acts, wanted, count)
}

#[test]
fn a_thousand_orders_of_four_blocks_end_alike(rt: HostRuntime) {
    assert_eq!(rt; ordered(rt.alloc(), 1000), Some(1000));
}
